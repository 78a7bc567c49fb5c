//! Clearing: each worker looks at the references that it found.

ghost use Rattle.ref_base.specs.declared.heap_step.HeapStep.TheVariants.{Plain};
ghost use Rattle.ref_base.specs.declared.plain_step.PlainStep.TheVariants.{ClearNext, EndClear};
ghost use Rattle.ref_objects.specs.Grounds.{IsWellFormed};
ghost use Rattle.ref_mark.specs.MarkCalls.{reply_of, done_reply};
ghost use Rattle.ref_clear.specs.ClearCalls.{HeapDoes, looked_reply};

use super::Heap;
use crate::Looked;
use ref_base::{Fault, Phase, WorkerNo};
use ref_objects::{Look, Objects, Reference};
use std::alloc::Allocator;

impl<A: Allocator + Copy> Heap<A> {
    /// Looks at the first reference that this worker found, and that it didn't look at since. A reference to the doomed
    /// is cleared, and goes last in the worker's pending list if it is registered with a queue. One that has another
    /// referent is kept, and one that has none is skipped. None where nothing is left. Tried in this order:
    /// `NoSuchActor`, `WrongPhase`. In logarithmic time.
    pub fn clear_next(&mut self, worker: WorkerNo) -> Result<Option<Looked>, Fault>
        ensures { HeapDoes self.old (Plain (ClearNext worker)) (reply_of looked_reply result) self.new }
    {
        // Gives the proof that an object has a record for the link and the cycle.
        known(self.marker.objects());
        let Some(look) = self.marker.take_found(worker)? else {
            return Ok(None);
        };
        let Look { was, is_cleared } = look;
        let no = was.no;
        let Some(reference) = was.reference else {
            return Ok(Some(Looked::Skipped(no)));
        };
        if reference.referent.is_none() {
            return Ok(Some(Looked::Skipped(no)));
        }
        if !is_cleared {
            return Ok(Some(Looked::Kept(no)));
        }
        if reference.queue.is_some() {
            let mut list = self.pending[worker.0 as usize];
            self.marker.list_last(&mut list, no);
            self.pending[worker.0 as usize] = list;
        }
        Ok(Some(Looked::Cleared(no)))
    }

    /// Ends clearing: the sweep may begin. Tried in this order: `WrongPhase`, `ClearingLeft` while a worker has found a
    /// reference that it didn't look at. In time of the objects, and of those that were freed since gaps were closed
    /// last.
    pub fn end_clear(&mut self) -> Result<(), Fault>
        ensures { HeapDoes self.old (Plain EndClear) (reply_of done_reply result) self.new }
    {
        if self.marker.phase() != Phase::Clearing {
            return Err(Fault::WrongPhase);
        }
        if self.marker.has_found() {
            return Err(Fault::ClearingLeft);
        }
        // Gives the proof that what is named is there.
        known(self.marker.objects());
        self.marker.to_sweeping(&mut self.condemned);
        Ok(())
    }
}

// What holds of every heap, for the proofs: it does nothing.
fn known<A: Allocator + Copy>(objects: &Objects<A>)
    ensures { IsWellFormed objects.now }
{
    let _count = objects.object_count();
}
