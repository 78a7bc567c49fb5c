//! The way of several notices from the heap into a hand.

ghost use Rattle.std.specs.Prelude.{◌≡◌, true, IfOk, OnErr, []};
ghost use Rattle.ref_base.specs.Told.{told_notices};
ghost use Rattle.ref_base.specs.Refusals.{fits};
ghost use Rattle.ref_clear.specs.ClearCalls.{HeapDoes};
ghost use Rattle.ref_world.specs.WorldHeaps.{heap_no_of};

use crate::WorldHeap;
use crate::hand::Hand;
use crate::handed_reply::handed_on;
use ref_base::{Batch, Fault, HeapStep, Reply, WorkerNo};
use ref_clear::Notice;
use std::alloc::Allocator;
use std::marker::Model;

// A batch that is empty between calls: the heap gives its notices into it, and the hand takes them out. All its memory
// is taken as it is made.
pub(crate) struct Passage<A: Allocator> {
    batch: Batch<Notice, A>,
}

impl<A: Allocator> Model for Passage<A> {
    ghost use Rattle.std.specs.Prelude.{◌≡◌, []};

    ghost Value = { Unit {0} };

    ghost view = { λ p. tt };

    ghost invariant = { λ p. p.batch ≡ [] };
}

impl<A: Allocator + Copy> Passage<A> {
    // The one error is NoMemory.
    pub(crate) fn new(alloc: A) -> Result<Self, Fault>
        ensures { OnErr result (result ≡ Err Fault.NoMemory) }
    {
        let batch = Batch::new(alloc)?;
        Ok(Passage { batch })
    }

    // Asks the heap for the notices of the next references that the worker cleared, so many at most. The hand, which is
    // empty, then holds them.
    pub(crate) fn hand_on(
        &mut self,
        heap: &mut WorldHeap<A>,
        hand: &mut Hand<A>,
        worker: WorkerNo,
        max: u32,
    ) -> Reply
        requires own { heap_no_of heap.old ≡ 0 }
        requires empty { hand.old ≡ [] }
        requires fits { fits max 0 ≡ true }
        ensures does { HeapDoes heap.old (HeapStep.Hands worker max []) result heap.new }
        ensures hand { hand.new ≡ told_notices result }
    {
        let answer = heap.hand_batch(worker, max, &mut self.batch);
        hand.fill_from(&mut self.batch);
        handed_on(worker, answer)
    }

    pub(crate) fn end(self) {
        let Passage { batch } = self;
        batch.end();
    }
}
