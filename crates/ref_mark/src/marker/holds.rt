//! Holds: what is held is a root.

ghost use Rattle.std.specs.Prelude.{◌≡◌, IfOk, IfErr};
ghost use Rattle.ref_base.specs.declared.heap_step.HeapStep.TheVariants.{Adopt, Release};
ghost use Rattle.ref_mark.specs.MarkCalls.{MarkerDoes};
ghost use Rattle.ref_mark.specs.MarkCalls.{mint_answer_in, after_mint_in};
ghost use Rattle.ref_mark.specs.MarkCalls.{reply_of, reply_or_back, hold_reply, done_reply};

use super::Marker;
use ref_base::{Fault, HeapStep, MutNo, ObjNo, Reply, SlotNo};
use ref_objects::Hold;
use std::alloc::Allocator;

impl<A: Allocator + Copy> Marker<A> {
    /// Takes a hold of the object in a slot, as `Objects::hold` does: `NoSuchActor`, `EmptySlot`, `NumbersSpent`.
    pub fn hold(&mut self, mutator: MutNo, slot: SlotNo) -> Result<Hold, Fault>
        ensures does { MarkerDoes self.old (HeapStep.Hold mutator slot) (reply_of hold_reply result) self.new }
        ensures own { IfOk result (λ hold. hold.heap_no ≡ self.old.heap.no) }
    {
        self.objects.hold(mutator, slot)
    }

    /// Takes a hold back into a slot, as `Objects::adopt` does: `NoSuchActor`, `ForeignHold`. The hold then comes back.
    pub fn adopt(
        &mut self,
        mutator: MutNo,
        into: SlotNo,
        hold: Hold,
    ) -> Result<ObjNo, (Fault, Hold)>
        ensures does { MarkerDoes self.old (Adopt mutator into hold) (reply_or_back Reply.Object result) self.new }
        ensures back { IfErr result (λ refused. refused.1 ≡ hold) }
    {
        self.objects.adopt(mutator, into, hold)
    }

    /// Takes a hold back, as `Objects::release` does: `ForeignHold`. The hold then comes back.
    pub fn release(&mut self, hold: Hold) -> Result<(), (Fault, Hold)>
        ensures does { MarkerDoes self.old (Release hold) (reply_or_back done_reply result) self.new }
        ensures back { IfErr result (λ refused. refused.1 ≡ hold) }
    {
        self.objects.release(hold)
    }

    /// Takes a hold of the object of this number, as `Objects::mint` does: `NoSuchObject`, `NumbersSpent`. For the
    /// layer above, of an object that a root names.
    #[inline(always)]
    pub fn mint(&mut self, no: ObjNo) -> Result<Hold, Fault>
        ensures answer { reply_of hold_reply result ≡ mint_answer_in self.old no }
        ensures own { IfOk result (λ hold. hold.heap_no ≡ self.old.heap.no) }
        ensures after { self.new ≡ after_mint_in self.old no }
    {
        self.objects.mint(no)
    }
}
