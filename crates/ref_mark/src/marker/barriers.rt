//! Loads and the calls of references.

ghost use Rattle.std.specs.Prelude.{◌≡◌, true};
ghost use Rattle.ref_base.specs.DoomedSets.{any_is};
ghost use Rattle.ref_base.specs.Heaps.{slot_at};
ghost use Rattle.ref_base.specs.CollectorRows.{value_reply};
ghost use Rattle.ref_base.specs.Refusals.{has_slot};
ghost use Rattle.ref_base.specs.declared.heap_step.HeapStep.TheVariants.{Plain};
ghost use Rattle.ref_base.specs.declared.plain_step.PlainStep.TheVariants.{Clear, Get, Load, RefersTo};
ghost use Rattle.ref_mark.specs.CycleHeaps.{barred, is_white, is_doomed};
ghost use Rattle.ref_mark.specs.MarkCalls.{answer_in_cycle, MarkerDoes, reply_of, done_reply};

use super::{Marker, known};
use ref_base::{Fault, MutNo, ObjNo, Phase, Reply, SlotNo};
use std::alloc::Allocator;

impl<A: Allocator + Copy> Marker<A> {
    /// Loads a field of the object in slot `from` into slot `into`: an object or null. Tried in this order:
    /// `NoSuchActor`, `EmptySlot`, `BadField`. In a mark, a white object that is loaded becomes grey. In constant time.
    #[inline(always)]
    pub fn load(
        &mut self,
        mutator: MutNo,
        into: SlotNo,
        from: SlotNo,
        field: u32,
    ) -> Result<Option<ObjNo>, Fault>
        ensures { MarkerDoes self.old (Plain (Load mutator into from field)) (reply_of value_reply result) self.new }
    {
        let value = self.objects.load(mutator, into, from, field)?;
        known(&self.objects);
        self.bar(mutator, into);
        Ok(value)
    }

    /// Gets the referent of the reference in slot `reference` into slot `into`: null where it is cleared, where the
    /// referent is doomed, and of a phantom reference. Tried in this order: `NoSuchActor`, `EmptySlot`,
    /// `NotAReference`. In a mark, a white referent becomes grey; a soft reference that answers an object is stamped
    /// with the clock. In constant time.
    #[inline(always)]
    pub fn get(
        &mut self,
        mutator: MutNo,
        into: SlotNo,
        reference: SlotNo,
    ) -> Result<Option<ObjNo>, Fault>
        ensures { MarkerDoes self.old (Plain (Get mutator into reference)) (reply_of value_reply result) self.new }
    {
        let hide_doomed = self.is_past_mark();
        known(&self.objects);
        let value = self.objects.get(mutator, into, reference, hide_doomed)?;
        self.bar(mutator, into);
        Ok(value)
    }

    /// Clears the reference in a slot, and doesn't enqueue it. Nothing is left to clear where its referent is doomed:
    /// that is left to a worker. Tried in this order: `NoSuchActor`, `EmptySlot`, `NotAReference`. In constant time.
    pub fn clear(&mut self, mutator: MutNo, reference: SlotNo) -> Result<(), Fault>
        ensures { MarkerDoes self.old (Plain (Clear mutator reference)) (reply_of done_reply result) self.new }
    {
        let spare_doomed = self.is_past_mark();
        self.objects.cut_in(mutator, reference, spare_doomed)
    }

    /// Whether the reference in a slot refers to what slot `other` holds: to null where it is cleared, or its referent
    /// is doomed. It makes nothing grey. Tried in this order: `NoSuchActor`, `EmptySlot`, `NotAReference`. In
    /// constant time.
    pub fn refers_to(&self, mutator: MutNo, reference: SlotNo, other: SlotNo) -> Result<bool, Fault>
        ensures { reply_of Reply.Refers result ≡ answer_in_cycle self.now (Plain (RefersTo mutator reference other)) }
    {
        let value = self.objects.slot_of(mutator, other)?;
        let hide_doomed = self.is_past_mark();
        let read = self.objects.referent_in(mutator, reference, hide_doomed)?;
        Ok(read == value)
    }

    /// Whether the object of this number is doomed: a mark has ended that didn't reach it, and it isn't swept. In
    /// logarithmic time.
    pub fn is_doomed(&self, no: ObjNo) -> bool
        ensures { result ≡ is_doomed self.now no }
    {
        self.is_past_mark() && self.objects.is_unmarked(no)
    }

    // ---- parts of calls

    // The load barrier, once a slot that is there holds what is loaded: in a mark, a white object becomes grey.
    #[inline(always)]
    fn bar(&mut self, mutator: MutNo, slot: SlotNo)
        requires { has_slot self.old.heap mutator slot ≡ true }
        ensures { self.new ≡ barred self.old (slot_at self.old.heap mutator slot) }
    {
        if self.phase != Phase::Marking {
            return;
        }
        if let Ok(Some(anew)) = self.objects.mark_slot(mutator, slot) {
            known(&self.objects);
            self.push_grey(anew);
        }
    }
}
