//! Holds: what is held is a root.

ghost use Rattle.std.specs.Prelude.{◌≡◌, IfOk, IfErr};
ghost use Rattle.ref_base.specs.declared.heap_step.HeapStep.TheVariants.{Adopt, Release};
ghost use Rattle.ref_mark.specs.MarkCalls.{reply_of, reply_or_back, hold_reply, done_reply};
ghost use Rattle.ref_clear.specs.ClearCalls.{HeapDoes};

use super::Heap;
use ref_base::{Fault, HeapStep, MutNo, ObjNo, Reply, SlotNo};
use ref_objects::Hold;
use std::alloc::Allocator;

impl<A: Allocator + Copy> Heap<A> {
    /// Takes a hold of the object in a slot: while it is out, the object is a root. Tried in this order: `NoSuchActor`,
    /// `EmptySlot`, `NumbersSpent` where 2^64 - 1 holds are out. In logarithmic time.
    pub fn hold(&mut self, mutator: MutNo, slot: SlotNo) -> Result<Hold, Fault>
        ensures does { HeapDoes self.old (HeapStep.Hold mutator slot) (reply_of hold_reply result) self.new }
        ensures own { IfOk result (λ hold. hold.heap_no ≡ self.old.mark.heap.no) }
    {
        self.marker.hold(mutator, slot)
    }

    /// Takes a hold back into a slot. Tried in this order: `NoSuchActor`, `ForeignHold` where the heap counts no such
    /// hold. The hold then comes back. In logarithmic time.
    pub fn adopt(
        &mut self,
        mutator: MutNo,
        into: SlotNo,
        hold: Hold,
    ) -> Result<ObjNo, (Fault, Hold)>
        ensures does { HeapDoes self.old (Adopt mutator into hold) (reply_or_back Reply.Object result) self.new }
        ensures back { IfErr result (λ refused. refused.1 ≡ hold) }
    {
        self.marker.adopt(mutator, into, hold)
    }

    /// Takes a hold back. The one error is `ForeignHold`, where the heap counts no such hold. The hold then comes back.
    /// In logarithmic time.
    pub fn release(&mut self, hold: Hold) -> Result<(), (Fault, Hold)>
        ensures does { HeapDoes self.old (Release hold) (reply_or_back done_reply result) self.new }
        ensures back { IfErr result (λ refused. refused.1 ≡ hold) }
    {
        self.marker.release(hold)
    }
}
