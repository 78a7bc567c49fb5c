//! How references are made, and how they end.

ghost use Rattle.std.specs.Prelude.{◌≡◌, true, IfOk, IfErr, OnOk, OnErr, Some, None};
ghost use Rattle.ref_process.specs.Desks.{RefusedFor, add_refusal, made_reference, making, after_add, key_refusal};
ghost use Rattle.ref_base.specs.Paths.{if_any};
ghost use Rattle.ref_process.specs.Desks.{death_refusal, after_death, owner_of, owed_owner, owed_owners};
ghost use Rattle.ref_process.specs.Places.{is_new_key, reference_under};
ghost use Rattle.ref_process.specs.declared.fault.ProcessFault.TheVariants.{NoMemory};

use super::finding::finding;
use crate::{Added, Found, Handle, Key, Phase, Place, ProcessFault, Processor, Reference};
use ref_base::{QueueNo, Strength};
use std::alloc::{AllocError, Allocator};

impl<A: Allocator + Copy> Processor<A> {
    /// One more reference to this object, and what becomes of it: in a mark it counts as found. The owner is the
    /// object that the reference itself is, if it is one. A soft one has the stamp of the clock. Its place is a vacant
    /// one, if there is any.
    ///
    /// Tried in this order: `NumbersSpent` where there are 2^32 - 1 places and none is vacant, `NoMemory` where a
    /// growth is refused: then nothing has changed. In constant time, amortized.
    pub fn add(
        &mut self,
        owner: Option<Handle>,
        strength: Strength,
        referent: Handle,
        queue: Option<QueueNo>,
    ) -> Result<Added, ProcessFault>
        ensures allowed { OnOk result (add_refusal self.old ≡ None) }
        ensures key { IfOk result (λ added. is_new_key self.old.places added.key ≡ true) }
        ensures found { IfOk result (λ added.
            added.found ≡ making self.old (made_reference self.old owner strength referent queue)) }
        ensures after { IfOk result (λ added. self.new
            ≡ after_add self.old added.key (made_reference self.old owner strength referent queue) added.found) }
        ensures refused { IfErr result (λ fault. RefusedFor (add_refusal self.old) fault) }
        ensures unchanged { OnErr result (self.new ≡ self.old) }
    {
        let reference = self.new_reference(owner, strength, referent, queue);
        let found = match self.phase {
            Phase::Marking => finding(self.policy, &reference),
            Phase::Idle | Phase::Clearing => Found::Nothing,
        };
        if self.places.is_full() {
            return Err(ProcessFault::NumbersSpent);
        }
        let more = match found {
            Found::Listed => 1,
            Found::Keep(_) | Found::Nothing => 0,
        };
        if self.made.reserve(more).is_err() {
            return Err(ProcessFault::NoMemory);
        }
        let Ok(key) = self.places.add(reference) else {
            return Err(ProcessFault::NoMemory);
        };
        if let Found::Listed = found {
            self.made.push_back_reserved(key);
        }
        Ok(Added { key, found })
    }

    // A reference as it is made.
    fn new_reference(
        &self,
        owner: Option<Handle>,
        strength: Strength,
        referent: Handle,
        queue: Option<QueueNo>,
    ) -> Reference
        ensures { result ≡ made_reference self.now owner strength referent queue }
    {
        let stamp = match strength {
            Strength::Soft => self.policy.clock,
            Strength::Weak | Strength::Phantom => 0,
        };
        Reference {
            owner,
            strength,
            referent: Some(referent),
            queue,
            stamp,
            is_told: false,
            is_pending: false,
            is_out: false,
        }
    }

    /// The reference is dead: its key is of nothing from now on. Whoever frees its owner calls this.
    ///
    /// Tried in this order: `NoSuchReference`, `StillOut` while it is pending or its notice is not spent: then nothing
    /// has changed. Takes no memory. In constant time.
    pub fn dead(&mut self, key: Key) -> Result<(), ProcessFault>
        ensures allowed { OnOk result (death_refusal self.old key ≡ None) }
        ensures after { OnOk result (self.new ≡ after_death self.old key) }
        ensures refused { IfErr result (λ fault. death_refusal self.old key ≡ Some fault) }
        ensures unchanged { OnErr result (self.new ≡ self.old) }
    {
        let Some(reference) = self.places.reference(key) else {
            return Err(ProcessFault::NoSuchReference);
        };
        if reference.is_pending || reference.is_out {
            return Err(ProcessFault::StillOut);
        }
        self.places.bury(key);
        Ok(())
    }

    /// The object that the reference itself is, if it is one. `NoSuchReference` is the one error. In constant time.
    pub fn owner(&self, key: Key) -> Result<Option<Handle>, ProcessFault>
        ensures allowed { OnOk result (key_refusal self.now key ≡ None) }
        ensures answer { IfOk result (λ owner. owner ≡ owner_of (reference_under self.now.places key)) }
        ensures refused { IfErr result (λ fault. key_refusal self.now key ≡ Some fault) }
    {
        match self.places.reference(key) {
            Some(reference) => Ok(reference.owner),
            None => Err(ProcessFault::NoSuchReference),
        }
    }

    /// The owners of references that are pending, or whose notice is not spent, in the order of their places. The
    /// marker takes them as roots: who polls a queue gets the reference itself. `NoMemory` is the one error. In time
    /// of the places.
    pub fn roots<B: Allocator>(&self, alloc: B) -> Result<Vec<Handle, B>, ProcessFault>
        ensures answer { IfOk result (λ roots. roots.items ≡ owed_owners self.now.places) }
        ensures err { IfErr result (λ fault. fault ≡ NoMemory) }
    {
        collect_owed(alloc, self.places.as_slice()).map_err(|_| ProcessFault::NoMemory)
    }
}

// The owners of references that are pending or out, or the allocator's error.
fn collect_owed<B: Allocator>(alloc: B, places: &[Place]) -> Result<Vec<Handle, B>, AllocError>
    ensures { IfOk result (λ owners. owners.items ≡ owed_owners places.now) }
{
    let mut owners = Vec::new(alloc);
    for place in places {
        if let Some(owner) = owed(place) {
            owners.push(owner)?;
        }
    }
    Ok(owners)
}

// The owner of a place's reference, where it is pending or its notice is out.
fn owed(place: &Place) -> Option<Handle>
    ensures { if_any result ≡ owed_owner place.now.held }
{
    let Some(reference) = place.held else {
        return None;
    };
    if reference.is_pending || reference.is_out {
        return reference.owner;
    }
    None
}
