//! References that slots hold: what they refer to, and what a get and a clear change.

ghost use Rattle.std.specs.Prelude.{◌≡◌, ◌<◌, ℕ, true, Some, None, if◌then◌else◌, IfOk, is_some, length};
ghost use Rattle.std.specs.Prelude.{slice_index_or};
ghost use Rattle.ref_base.specs.declared.fault.Fault.TheVariants.{EmptySlot, NotAReference};
ghost use Rattle.ref_base.specs.CollectorRows.{reference_of, referent_of, referent_got};
ghost use Rattle.ref_base.specs.DoomedSets.{refers_into};
ghost use Rattle.ref_base.specs.Heaps.{slot_at, reference_at, got};
ghost use Rattle.ref_base.specs.Paths.{is_soft};
ghost use Rattle.ref_base.specs.Refusals.{clear_refusal, get_refusal};
ghost use Rattle.ref_objects.specs.Grounds.{IsRefused, if_done, ground_with_heap, is_unmarked, read_as, cut_but};
ghost use Rattle.ref_objects.specs.Grounds.{is_spared, ground_brought, IsSparedIfAny};
ghost use Rattle.ref_objects.specs.GroundViews.{written};
ghost use Rattle.ref_space.specs.Naming.{IsReferentRead};
ghost use Rattle.ref_space.specs.Tables.{change_of, changed_held, left_of, without_if_any, referent_held, table_got};
ghost use Rattle.ref_space.specs.declared.cell.Change.TheVariants.{Stamp};

use super::{Objects, known};
use ref_base::{Fault, MutNo, ObjNo, SlotNo, Strength};
use ref_space::{Change, Reference, Table, Word};
use std::alloc::Allocator;

impl<A: Allocator + Copy> Objects<A> {
    /// The reference that a slot holds, and its number. Neither it nor its referent is condemned. Tried in this order:
    /// `NoSuchActor`, `EmptySlot`, `NotAReference`. In constant time.
    #[inline(always)]
    pub fn reference_in(&self, mutator: MutNo, slot: SlotNo) -> Result<(ObjNo, Reference), Fault>
        ensures refused { IsRefused (clear_refusal self.now.heap mutator slot) result }
        ensures answer { IfOk result
            (λ read. (slot_at self.now.heap mutator slot ≡ Some read.0)
            × (reference_at self.now.heap read.0 ≡ Some read.1)) }
        ensures spared { IfOk result
            (λ read. (is_spared self.now read.0 ≡ true) × IsSparedIfAny self.now (referent_of (Some read.1))) }
    {
        let place = self.place(mutator, slot)?;
        let no = self.table.slot(place).ok_or(Fault::EmptySlot)?;
        let reference = self.table.reference_in(place).ok_or(Fault::NotAReference)?;
        Ok((no, reference))
    }

    /// The referent of the reference that a slot holds: null where it is cleared, and where it isn't marked if that is
    /// to be hidden. Refused as `reference_in`. In constant time.
    pub fn referent_in(
        &self,
        mutator: MutNo,
        slot: SlotNo,
        hide_unmarked: bool,
    ) -> Result<Option<ObjNo>, Fault>
        ensures refused { IsRefused (clear_refusal self.now.heap mutator slot) result }
        ensures answer { IfOk result
            (λ value. value ≡ read_as self.now hide_unmarked
            (referent_of (reference_of self.now.heap (slot_at self.now.heap mutator slot)))) }
    {
        let (_no, reference) = self.reference_in(mutator, slot)?;
        let place = self.place(mutator, slot)?;
        Ok(self.read_at(place, reference, hide_unmarked))
    }

    /// Gets the referent of the reference in slot `from` into slot `into`, and answers it: null where it is cleared, of
    /// a phantom reference, and where it isn't marked if that is to be hidden. Where it is an object, a soft reference
    /// is stamped with the clock, and an object that is still to move moves first. Tried in this order: `NoSuchActor`,
    /// `EmptySlot`, `NotAReference`. In constant time.
    #[inline(always)]
    pub fn get(
        &mut self,
        mutator: MutNo,
        into: SlotNo,
        from: SlotNo,
        hide_unmarked: bool,
    ) -> Result<Option<ObjNo>, Fault>
        ensures refused { IsRefused (get_refusal self.old.heap mutator into from) result }
        ensures answer { IfOk result
            (λ value. value ≡ read_as self.old hide_unmarked
            (referent_got (reference_of self.old.heap (slot_at self.old.heap mutator from)))) }
        ensures after { self.new ≡ if_done result
            (ground_with_heap
            (ground_brought self.old (read_as self.old hide_unmarked
            (referent_got (reference_of self.old.heap (slot_at self.old.heap mutator from)))))
            (got self.old.heap mutator into from
            (read_as self.old hide_unmarked
            (referent_got (reference_of self.old.heap (slot_at self.old.heap mutator from)))))) self.old }
    {
        let place = self.place(mutator, into)?;
        let held = self.place(mutator, from)?;
        let Some((reference, word)) = self.table.read_reference(held) else {
            return Err(no_reference_in(self.table.slot(held)));
        };
        let value = self.gets(held, reference, hide_unmarked);
        // The prover takes an Option that is passed on by value as spent.
        let answer = value;
        if value.is_none() {
            self.table.empty_slot(place);
        } else if is_soft(reference.strength) {
            let clock = self.clock;
            put_soft(&mut self.table, place, held, word, clock);
        } else {
            self.table.get_referent(place, held, word);
        }
        Ok(answer)
    }

    /// Clears the reference that a slot holds, but spares one whose referent isn't marked if that is told. Refused as
    /// `reference_in`. In constant time.
    pub fn cut_in(
        &mut self,
        mutator: MutNo,
        slot: SlotNo,
        spare_unmarked: bool,
    ) -> Result<(), Fault>
        ensures refused { IsRefused (clear_refusal self.old.heap mutator slot) result }
        ensures after { self.new ≡ if_done result (cut_but self.old spare_unmarked mutator slot) self.old }
    {
        let (no, _reference) = self.reference_in(mutator, slot)?;
        let place = self.place(mutator, slot)?;
        if !(spare_unmarked && self.refers_to_unmarked_at(place)) {
            self.write_in(place, no, Change::Cut);
        }
        Ok(())
    }

    // ---- parts of calls

    // The referent of the reference in the slot at this place: null where it isn't marked and is to be hidden.
    #[inline(always)]
    fn read_at(&self, place: usize, reference: Reference, hide_unmarked: bool) -> Option<ObjNo>
        requires place { place < length self.now.heap.slots }
        requires own { reference_of self.now.heap (slice_index_or self.now.heap.slots place None) ≡ Some reference }
        ensures { result ≡ read_as self.now hide_unmarked reference.referent }
    {
        if hide_unmarked && self.refers_to_unmarked_at(place) {
            None
        } else {
            reference.referent
        }
    }

    // What a get of the reference in the slot at this place answers.
    #[inline(always)]
    fn gets(&self, place: usize, reference: Reference, hide_unmarked: bool) -> Option<ObjNo>
        requires place { place < length self.now.heap.slots }
        requires own { reference_of self.now.heap (slice_index_or self.now.heap.slots place None) ≡ Some reference }
        ensures { result ≡ read_as self.now hide_unmarked (referent_got (Some reference)) }
    {
        match reference.strength {
            Strength::Phantom => None,
            Strength::Soft | Strength::Weak => self.read_at(place, reference, hide_unmarked),
        }
    }

    // Whether the slot at this place holds a reference to an object that isn't marked.
    #[inline(always)]
    fn refers_to_unmarked_at(&self, place: usize) -> bool
        requires { place < length self.now.heap.slots }
        ensures { result ≡ refers_into (is_unmarked self.now)
            (reference_of self.now.heap (slice_index_or self.now.heap.slots place None)) }
    {
        // Gives the proof that the numbers rise.
        known(&self.table);
        self.table.refers_to_unmarked_in(place)
    }

    // Writes this change into the object of this number, which the slot at this place holds.
    #[inline(always)]
    fn write_in(&mut self, place: usize, no: ObjNo, change: Change)
        requires place { place < length self.old.heap.slots }
        requires own { slice_index_or self.old.heap.slots place None ≡ Some no }
        ensures { self.new ≡ written self.old no change }
    {
        self.table.change_in(place, change);
    }
}

// What a get changes of the soft reference in the slot at place `from`, by the word that was read there: it is stamped
// with the clock, and the slot at place `into` holds its referent. A function of its own, so that the code of other
// gets, which is compiled into their callers, stays short.
#[inline(never)]
fn put_soft<A: Allocator + Copy>(
    table: &mut Table<A>,
    into: usize,
    from: usize,
    word: Word,
    clock: u64,
)
    requires into { into < length table.old.slots }
    requires from { from < length table.old.slots }
    requires word { IsReferentRead table.old from word }
    ensures after { table.new ≡ table_got (changed_held table.old from (change_of (Stamp clock))) into from }
    ensures left { left_of table.new
        ≡ without_if_any (left_of (changed_held table.old from (change_of (Stamp clock))))
        (referent_held (changed_held table.old from (change_of (Stamp clock))) from) }
{
    // First, since the slot that is written may be the one that is read.
    table.change_in(from, Change::Stamp(clock));
    table.get_referent(into, from, word);
}

// Why a slot that holds this has no reference: it is empty, or it holds an object of another kind.
fn no_reference_in(held: Option<ObjNo>) -> Fault
    ensures { result ≡ (if is_some held then NotAReference else EmptySlot) }
{
    match held {
        None => Fault::EmptySlot,
        Some(_) => Fault::NotAReference,
    }
}

fn is_soft(strength: Strength) -> bool
    ensures { result ≡ is_soft strength }
{
    match strength {
        Strength::Soft => true,
        Strength::Weak | Strength::Phantom => false,
    }
}
