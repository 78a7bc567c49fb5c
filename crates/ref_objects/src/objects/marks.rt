//! Marks of a heap's objects, and their colour, for the layer that marks what a cycle reaches.

ghost use Rattle.std.specs.Prelude.{◌≡◌, ◌<◌, None, [], false, IfOk, length, slice_index_or};
ghost use Rattle.ref_base.specs.Graphs.{object_at};
ghost use Rattle.ref_base.specs.Heaps.{slot_at, reference_at};
ghost use Rattle.ref_base.specs.Members.{has};
ghost use Rattle.ref_base.specs.Refusals.{drop_refusal};
ghost use Rattle.ref_base.specs.KeptPaths.{is_kept, policy_from};
ghost use Rattle.ref_base.specs.CollectorRows.{free_cells};
ghost use Rattle.ref_space.specs.Tables.{scanned_values};
ghost use Rattle.ref_space.specs.Worklists.{entry_number, with_more};
ghost use Rattle.ref_objects.specs.Grounds.{is_unmarked, ground_marked, marks_begun, unmarked};
ghost use Rattle.ref_objects.specs.Grounds.{IsRefused, if_done, ground_marked_if_any, newly_marked};
ghost use Rattle.ref_objects.specs.Grounds.{all_newly_marked, ground_scanned, MayGrow};
ghost use Rattle.ref_base.specs.DoomedSets.{refers_into};

use super::{Objects, known};
use crate::stage::Stage;
use ref_base::{Fault, MutNo, ObjNo, Policy, SlotNo, Urgency};
use ref_space::{Colour, Entry, Worklist, policy_from};
use std::alloc::Allocator;

impl<A: Allocator + Copy> Objects<A> {
    /// Whether the object of this number is marked: false also where there is no such object. In logarithmic time.
    pub fn is_marked(&self, no: ObjNo) -> bool
        ensures { result ≡ has self.now.marked no }
    {
        // Gives the proof that the numbers rise.
        known(&self.table);
        self.table.is_marked(no)
    }

    /// Whether there is an object of this number, and it isn't marked. In logarithmic time.
    pub fn is_unmarked(&self, no: ObjNo) -> bool
        ensures { result ≡ is_unmarked self.now no }
    {
        // Gives the proof that the numbers rise.
        known(&self.table);
        self.table.is_unmarked(no)
    }

    /// Marks the object of this number. True exactly where there is one and it wasn't marked; else nothing changes. In
    /// logarithmic time.
    pub fn mark(&mut self, no: ObjNo) -> bool
        ensures answer { result ≡ is_unmarked self.old no }
        ensures after { self.new ≡ ground_marked self.old no }
    {
        // Gives the proof that the numbers rise.
        known(&self.table);
        self.table.mark(no)
    }

    /// Marks the object that a slot holds, and answers it where it wasn't marked before; else nothing changes. The one
    /// error is `NoSuchActor`. In constant time.
    #[inline(always)]
    pub fn mark_slot(&mut self, mutator: MutNo, slot: SlotNo) -> Result<Option<Entry>, Fault>
        ensures refused { IsRefused (drop_refusal self.old.heap mutator slot) result }
        ensures answer { IfOk result
            (λ anew. entry_number anew ≡ newly_marked self.old (slot_at self.old.heap mutator slot)) }
        ensures after { self.new ≡ if_done result
            (ground_marked_if_any self.old (slot_at self.old.heap mutator slot)) self.old }
    {
        let place = self.place(mutator, slot)?;
        Ok(self.mark_slot_at(place))
    }

    /// Marks the object that the slot at this place holds, and answers it where it wasn't marked before; else nothing
    /// changes. The slots of all mutators are counted from 0 on. In constant time.
    #[inline(always)]
    pub fn mark_slot_at(&mut self, place: usize) -> Option<Entry>
        requires { place < length self.old.heap.slots }
        ensures answer { entry_number result ≡ newly_marked self.old (slice_index_or self.old.heap.slots place None) }
        ensures after { self.new ≡ ground_marked_if_any self.old (slice_index_or self.old.heap.slots place None) }
    {
        // Gives the proof that the numbers rise.
        known(&self.table);
        self.table.mark_in(place)
    }

    /// Scans the object of this entry: marks what its fields hold, and its referent where the policy keeps that, and
    /// lists what wasn't marked before. The object is healed, so that each word that it holds has the good colour.
    /// Returns whether it is a reference to an object that isn't marked even then. Nothing changes where there is no
    /// such object. In constant time where the object lies at the entry's place, and else by one search.
    #[inline(always)]
    pub fn scan(&mut self, entry: Entry, policy: Policy, grey: &mut Worklist<A>) -> bool
        requires tuned { self.old.space.stage ≡ Stage.Tuned }
        requires room { MayGrow self.old grey.old }
        ensures finds { result ≡ refers_into (is_unmarked self.new) (reference_at self.old.heap entry.no) }
        ensures listed { grey.new ≡ with_more grey.old
            (all_newly_marked self.old (scanned_values (is_kept policy) (object_at self.old.heap.objects entry.no))) }
        ensures after { self.new ≡ ground_scanned (is_kept policy) self.old entry.no }
    {
        // Gives the proof that the numbers rise.
        known(&self.table);
        self.table.scan(entry, policy, grey)
    }

    /// Takes every mark away, and nothing is condemned any more; this colour is good, and no object is healed. It isn't
    /// the colour of the last cycle that began, nor that of moves; no object is still to move, and a choice that a
    /// cycle outlived has ended. In time of the slots.
    pub fn begin_marks(&mut self, good: Colour)
        requires other { self.old.space.last ≡ good → ⊥ }
        requires cycle { good ≡ Colour.R → ⊥ }
        requires moved { self.old.space.still_to_move ≡ [] }
        requires ended { self.old.space.stage ≡ Stage.Tuned → self.old.space.has_choice ≡ false }
        ensures { self.new ≡ marks_begun self.old good }
    {
        // Gives the proof that nothing was marked or healed in a later round.
        known(&self.table);
        self.table.begin(good);
        self.condemning = false;
        self.last = good;
        self.stage = Stage::Tuned;
    }

    /// What a cycle goes by that begins at this clock: where the configuration's rule scales the span, it does so by
    /// the cells that are free now. In constant time.
    pub fn policy(&self, now: u64, urgency: Urgency) -> Policy
        ensures { result ≡ policy_from self.now.heap.config (free_cells self.now.heap) now urgency }
    {
        let free = self.config.cells - self.table.len() as u32;
        policy_from(self.config, free, now, urgency)
    }

    /// How many objects aren't marked. In constant time.
    pub fn unmarked_count(&self) -> u32
        ensures { result ≡ length (unmarked self.now.heap.objects self.now.marked) }
    {
        (self.table.len() - self.table.marked_count()) as u32
    }
}
