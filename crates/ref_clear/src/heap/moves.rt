//! Moves, between cycles: pages with few objects become empty.

ghost use Rattle.ref_base.specs.declared.heap_step.HeapStep.TheVariants.{Plain};
ghost use Rattle.ref_base.specs.declared.plain_step.PlainStep.TheVariants.{EndMove, MoveNext, Select};
ghost use Rattle.ref_mark.specs.MarkCalls.{reply_of, done_reply, moved_reply};
ghost use Rattle.ref_clear.specs.ClearCalls.{HeapDoes};

use super::Heap;
use ref_base::{Fault, ObjNo, Reply, WorkerNo};
use std::alloc::Allocator;

impl<A: Allocator + Copy> Heap<A> {
    /// Chooses the objects that are to move, and answers how many, as `Marker::select` does: `WrongPhase`, `NoRoom`,
    /// `AddressesSpent`.
    pub fn select(&mut self) -> Result<u32, Fault>
        ensures { HeapDoes self.old (Plain Select) (reply_of Reply.Selected result) self.new }
    {
        self.marker.select()
    }

    /// Moves the next object that is to move, for this worker, as `Marker::move_next` does: `NoSuchActor`,
    /// `WrongPhase`.
    pub fn move_next(&mut self, worker: WorkerNo) -> Result<Option<ObjNo>, Fault>
        ensures { HeapDoes self.old (Plain (MoveNext worker)) (reply_of moved_reply result) self.new }
    {
        self.marker.move_next(worker)
    }

    /// Ends moves, as `Marker::end_move` does: `WrongPhase`, `MovesLeft`.
    pub fn end_move(&mut self) -> Result<(), Fault>
        ensures { HeapDoes self.old (Plain EndMove) (reply_of done_reply result) self.new }
    {
        self.marker.end_move()
    }
}
