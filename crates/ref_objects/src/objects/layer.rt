//! What the layers above change of a heap's objects: slots, stamps, referents, the cycle of a clear, the clock, and
//! which objects there are.

ghost use Rattle.std.specs.Prelude.{◌≡◌, ◌<◌, ◌≤◌, true, Some, [], length};
ghost use Rattle.ref_base.specs.Heaps.{with_slot, with_changed, with_reference, with_stamp, cleared, with_clock};
ghost use Rattle.ref_base.specs.Refusals.{drop_refusal};
ghost use Rattle.ref_base.specs.Members.{has};
ghost use Rattle.ref_objects.specs.Grounds.{IsRefused, if_done, ground_with_heap, is_condemned, after_freeing};
ghost use Rattle.ref_objects.specs.Grounds.{IsClosed, with_condemned, with_none_condemned, is_spared, spared_only};
ghost use Rattle.ref_objects.specs.Grounds.{with_cleared_tag, with_link, look_of, ground_looked_at};
ghost use Rattle.ref_objects.specs.Grounds.{unmarked};
ghost use Rattle.ref_objects.specs.GroundViews.{with_slot_at, written};
ghost use Rattle.ref_space.specs.Worklists.{emptied_list, with_more};

use super::{Objects, known};
use crate::stage::Stage;
use ref_base::{Fault, MutNo, ObjNo, SlotNo};
use ref_space::{Change, Entry, Look, Worklist};
use std::alloc::Allocator;

impl<A: Allocator + Copy> Objects<A> {
    /// Writes a slot: null where the object isn't there, or is condemned. The one error is `NoSuchActor`. In
    /// logarithmic time.
    pub fn set_slot(
        &mut self,
        mutator: MutNo,
        slot: SlotNo,
        value: Option<ObjNo>,
    ) -> Result<(), Fault>
        ensures refused { IsRefused (drop_refusal self.old.heap mutator slot) result }
        ensures after { self.new ≡ if_done result
            (ground_with_heap self.old (with_slot self.old.heap mutator slot (spared_only self.old value)))
            self.old }
    {
        let place = self.place(mutator, slot)?;
        match self.spared_only(value) {
            Some(no) => self.set_slot_at(place, no),
            None => self.table.empty_slot(place),
        }
        Ok(())
    }

    /// Sets the clock. In constant time.
    pub fn set_clock(&mut self, now: u64)
        ensures { self.new ≡ ground_with_heap self.old (with_clock self.old.heap now) }
    {
        self.clock = now;
    }

    /// Stamps the reference of this number; nothing changes where there is none. In logarithmic time.
    pub fn set_stamp(&mut self, no: ObjNo, stamp: u64)
        ensures { self.new ≡
            ground_with_heap self.old (with_changed self.old.heap no (with_reference (with_stamp stamp))) }
    {
        self.write(no, Change::Stamp(stamp));
    }

    /// Clears the reference of this number; nothing changes where there is none. In logarithmic time.
    pub fn cut(&mut self, no: ObjNo)
        ensures { self.new ≡ ground_with_heap self.old (with_changed self.old.heap no (with_reference cleared)) }
    {
        self.write(no, Change::Cut);
    }

    /// Writes in which cycle a worker cleared the object of this number last; nothing changes where there is none. In
    /// logarithmic time.
    pub fn set_cleared_in(&mut self, no: ObjNo, cycle: u64)
        ensures { self.new ≡ record self.old { tags = with_cleared_tag self.old.tags no cycle } }
    {
        self.write(no, Change::ClearedIn(cycle));
    }

    /// What a list has of the object of this number. Where that is a reference to an object that isn't marked, it is
    /// cleared, for a worker, in this cycle: as by `cut` and `set_cleared_in`. By one search.
    #[inline(always)]
    pub fn look_at(&mut self, no: ObjNo, cycle: u64) -> Look
        ensures answer { result ≡ look_of self.old no }
        ensures after { self.new ≡ ground_looked_at self.old no cycle }
    {
        // Gives the proof that the numbers rise.
        known(&self.table);
        self.table.look_at(no, cycle)
    }

    /// Writes the link of the object of this number, which names another object or is 0; nothing changes where there is
    /// no such object. A link means what the layer above reads in it: of an object that stands in no list nothing is
    /// said. In logarithmic time.
    pub fn set_link(&mut self, no: ObjNo, to: u32)
        ensures { self.new ≡ record self.old { tags = with_link self.old.tags no to } }
    {
        self.write(no, Change::Link(to));
    }

    /// Writes the link of the object of this entry, as `set_link`; nothing changes where there is no such object. In
    /// constant time where the object lies at the entry's place, and else in logarithmic time.
    #[inline(always)]
    pub fn set_link_near(&mut self, entry: Entry, to: u32)
        ensures { self.new ≡ record self.old { tags = with_link self.old.tags entry.no to } }
    {
        self.table.change_near(entry, Change::Link(to));
    }

    /// Condemns what isn't marked: from now on it reads as referring to nothing, nothing can come to name it, and it
    /// may be freed; a cycle does so. What is made from now on is marked from the start. Nothing that is marked refers
    /// to what isn't, and no slot or hold names it. Just the condemned stand in the list then, in order of number. In
    /// time of the objects, and of those that were freed since gaps were closed last.
    pub fn condemn(&mut self, condemned: &mut Worklist<A>)
        requires tuned { self.old.space.stage ≡ Stage.Tuned }
        requires closed { IsClosed self.old.heap (has self.old.marked) }
        requires room { length self.old.heap.objects ≤ condemned.old.room }
        ensures after { self.new ≡ with_condemned self.old }
        ensures list { condemned.new ≡
            with_more (emptied_list condemned.old) (unmarked self.old.heap.objects self.old.marked) }
    {
        // Gives the proof that the numbers rise.
        known(&self.table);
        self.table.condemn(condemned);
        self.condemning = true;
    }

    /// Whether the object of this number is condemned: false also where there is none. In logarithmic time.
    pub fn is_condemned(&self, no: ObjNo) -> bool
        ensures { result ≡ is_condemned self.now no }
    {
        self.condemning && self.is_unmarked(no)
    }

    /// Frees the object of this entry, and its cell. True exactly where it is condemned; else nothing changes. In
    /// constant time where the object lies at the entry's place, as what `condemn` listed does, and else by one search.
    #[inline(always)]
    pub fn free(&mut self, entry: Entry) -> bool
        ensures answer { result ≡ is_condemned self.old entry.no }
        ensures after { self.new ≡ after_freeing self.old entry.no }
    {
        // Gives the proof that the numbers rise.
        known(&self.table);
        self.condemning && self.table.free(entry)
    }

    /// Ends a cycle. Nothing is condemned any more; what was and wasn't freed refers to nothing still. Gaps that freed
    /// objects left in the index are closed where they are more than the objects. In time of the objects that are there
    /// and of those freed since the last time.
    pub fn end_cycle(&mut self)
        ensures { self.new ≡ with_none_condemned self.old }
    {
        self.table.close_gaps();
        self.condemning = false;
    }

    // Whether there is this object, and it isn't condemned.
    pub(super) fn is_spared(&self, no: ObjNo) -> bool
        ensures { result ≡ is_spared self.now no }
    {
        // Gives the proof that the numbers rise.
        known(&self.table);
        if self.condemning {
            self.table.is_marked(no)
        } else {
            self.table.has(no)
        }
    }

    // Null where this isn't there, or is condemned.
    fn spared_only(&self, value: Option<ObjNo>) -> Option<ObjNo>
        ensures { result ≡ spared_only self.now value }
    {
        let no = value?;
        if self.is_spared(no) { Some(no) } else { None }
    }

    // The slot at this place holds the object of this number.
    pub(super) fn set_slot_at(&mut self, place: usize, no: ObjNo)
        requires place { place < length self.old.heap.slots }
        requires spared { is_spared self.old no ≡ true }
        ensures { self.new ≡ with_slot_at self.old place (Some no) }
    {
        self.table.set_slot(place, no);
    }

    // Writes this change into the object of this number.
    #[inline(always)]
    fn write(&mut self, no: ObjNo, change: Change)
        ensures { self.new ≡ written self.old no change }
    {
        self.table.change(no, change);
    }
}
