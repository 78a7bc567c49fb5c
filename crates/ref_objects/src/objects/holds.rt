//! Holds of a heap's objects: they are made, counted and taken back.

ghost use Rattle.std.specs.Prelude.{◌≡◌, ◌-◌, ◌^◌, ◌<◌, if◌then◌else◌, true, Some, IfOk, length};
ghost use Rattle.std.specs.Bool.{OnTrue};
ghost use Rattle.ref_base.specs.Members.{has};
ghost use Rattle.ref_base.specs.Heaps.{slot_at, with_slot, with_hold, without_hold};
ghost use Rattle.ref_objects.specs.Grounds.{IsRefused, GivesBack, if_done, ground_with_heap, after_minting, IsHoldOf};
ghost use Rattle.ref_objects.specs.Grounds.{is_spared};
ghost use Rattle.ref_objects.specs.Grounds.{mint_refusal, holding_refusal, release_refusal, adopt_refusal};

use super::{Objects, known};
use crate::hold::Hold;
use ref_base::{Fault, MutNo, ObjNo, SlotNo};
use std::alloc::Allocator;

impl<A: Allocator + Copy> Objects<A> {
    /// Takes a hold of the object in a slot. Tried in this order: `NoSuchActor`, `EmptySlot`, `NumbersSpent` where
    /// 2^64 - 1 holds are out. In logarithmic time.
    pub fn hold(&mut self, mutator: MutNo, slot: SlotNo) -> Result<Hold, Fault>
        ensures refused { IsRefused (holding_refusal self.old mutator slot) result }
        ensures answer { IfOk result (λ hold. IsHoldOf self.old (slot_at self.old.heap mutator slot) hold) }
        ensures after { self.new ≡ after_minting self.old result }
    {
        let no = self.slot_of(mutator, slot)?.ok_or(Fault::EmptySlot)?;
        self.mint(no)
    }

    /// Takes a hold back; the slot holds its object. Tried in this order: `NoSuchActor`, `ForeignHold` where the hold
    /// is of another heap, or this one counts no hold of the object. The hold then comes back. In logarithmic time.
    pub fn adopt(
        &mut self,
        mutator: MutNo,
        into: SlotNo,
        hold: Hold,
    ) -> Result<ObjNo, (Fault, Hold)>
        ensures refused { GivesBack (adopt_refusal self.old mutator into hold) hold result }
        ensures answer { IfOk result (λ no. no ≡ hold.object) }
        ensures after { self.new ≡ if_done result
            (ground_with_heap self.old (with_slot (without_hold self.old.heap hold.object) mutator into
            (Some hold.object))) self.old }
    {
        match self.place(mutator, into) {
            Ok(place) => {
                let no = self.take_back(hold)?;
                self.set_slot_at(place, no);
                Ok(no)
            }
            Err(fault) => Err((fault, hold)),
        }
    }

    /// Takes a hold back. The one error is `ForeignHold`, as for `adopt`. In logarithmic time.
    pub fn release(&mut self, hold: Hold) -> Result<(), (Fault, Hold)>
        ensures refused { GivesBack (release_refusal self.old hold) hold result }
        ensures after { self.new ≡ if_done result
            (ground_with_heap self.old (without_hold self.old.heap hold.object)) self.old }
    {
        self.take_back(hold)?;
        Ok(())
    }

    /// Takes a hold of the object of this number. Tried in this order: `NoSuchObject` where there is none that isn't
    /// condemned, `NumbersSpent` where 2^64 - 1 holds are out. In logarithmic time.
    #[inline(always)]
    pub fn mint(&mut self, no: ObjNo) -> Result<Hold, Fault>
        ensures refused { IsRefused (mint_refusal self.old no) result }
        ensures answer { IfOk result (λ hold. IsHoldOf self.old (Some no) hold) }
        ensures after { self.new ≡ after_minting self.old result }
    {
        if self.holds == u64::MAX {
            let is_there = self.is_spared(no);
            return Err(if is_there {
                Fault::NumbersSpent
            } else {
                Fault::NoSuchObject
            });
        }
        if !self.add_hold(no) {
            return Err(Fault::NoSuchObject);
        }
        Ok(Hold::new(self.heap_no, no))
    }

    // One more hold of the object of this number. False where there is none, or it is condemned: then nothing changes.
    // By one search.
    #[inline(always)]
    fn add_hold(&mut self, no: ObjNo) -> bool
        requires { length self.old.heap.holds < 2 ^ 64 - 1 }
        ensures spared { result ≡ is_spared self.old no }
        ensures after { self.new ≡ (if is_spared self.old no
            then ground_with_heap self.old (with_hold self.old.heap no) else self.old) }
    {
        // Gives the proof that the numbers rise.
        known(&self.table);
        let is_held = self.table.add_hold(no, self.condemning);
        self.holds += u64::from(is_held);
        is_held
    }

    // One hold fewer of the object of this number. False where nobody holds it: then nothing changes.
    fn drop_hold(&mut self, no: ObjNo) -> bool
        ensures held { result ≡ has self.old.heap.holds no }
        ensures spared { OnTrue result (is_spared self.new no ≡ true) }
        ensures after { self.new ≡
            (if has self.old.heap.holds no then ground_with_heap self.old (without_hold self.old.heap no) else
            self.old) }
    {
        // Gives the proof that the numbers rise.
        known(&self.table);
        let was_held = self.table.drop_hold(no);
        if was_held {
            self.holds -= 1;
        }
        was_held
    }

    // Takes a hold back, and answers its object.
    fn take_back(&mut self, hold: Hold) -> Result<ObjNo, (Fault, Hold)>
        ensures refused { GivesBack (release_refusal self.old hold) hold result }
        ensures answer { IfOk result (λ no. no ≡ hold.object) }
        ensures spared { IfOk result (λ no. is_spared self.new no ≡ true) }
        ensures after { self.new ≡ if_done result
            (ground_with_heap self.old (without_hold self.old.heap hold.object)) self.old }
    {
        let no = hold.obj();
        if hold.heap_no() != self.heap_no || !self.drop_hold(no) {
            return Err((Fault::ForeignHold, hold));
        }
        hold.spend();
        Ok(no)
    }
}
