//! Handing on several references at once.

ghost use Rattle.std.specs.Prelude.{◌≡◌, ◌+◌, ◌<◌, ◌≤◌, IfErr, OnOk, OnErr};
ghost use Rattle.std.specs.VecDeque.{deque_len, deque_capacity};
ghost use Rattle.ref_process.specs.HandBatches.{next_queue, handing, hand_next, handed_batch};
ghost use Rattle.ref_process.specs.declared.fault.ProcessFault.TheVariants.{NoMemory};

use crate::{Finder, Handed, Notice, ProcessFault, Processor};
use ref_base::QueueNo;
use std::alloc::Allocator;
use std::collections::VecDeque;

impl<A: Allocator + Copy> Processor<A> {
    /// The queue of the first reference that this worker cleared and has not handed on. None where nothing is pending,
    /// or the first is of no reference that is here, or of one without a queue. In constant time.
    pub fn next_queue(&self, finder: &Finder<A>) -> Option<QueueNo>
        ensures { result ≡ next_queue self.now.places finder.now.pending }
    {
        let pending = finder.pending.front()?;
        self.places.reference(pending.key)?.queue
    }

    /// Hands on the first references that this worker cleared, each as `hand` does, as long as they are for this queue,
    /// at most so many and at most those that are pending. Their notices go behind what is in the batch; one whose
    /// notice was given before has none.
    ///
    /// `NoMemory` where the batch can't grow by that many: then nothing has changed. In time of that many.
    pub fn hand_batch<B: Allocator>(
        &mut self,
        finder: &mut Finder<A>,
        queue: QueueNo,
        most: usize,
        batch: &mut VecDeque<Notice, B>,
    ) -> Result<(), ProcessFault>
        ensures after { OnOk result
            (self.new ≡ (handed_batch queue most self.old finder.old batch.old.items).desk) }
        ensures lists { OnOk result
            (finder.new ≡ (handed_batch queue most self.old finder.old batch.old.items).finder) }
        ensures given { OnOk result
            (batch.new.items ≡ (handed_batch queue most self.old finder.old batch.old.items).notices) }
        ensures refused { IfErr result (λ fault. fault ≡ NoMemory) }
        ensures unchanged { OnErr result (self.new ≡ self.old) }
        ensures lists_unchanged { OnErr result (finder.new ≡ finder.old) }
        ensures batch_unchanged { OnErr result (batch.new.items ≡ batch.old.items) }
    {
        let count = most.min(finder.pending.len());
        if batch.reserve(count).is_err() {
            return Err(ProcessFault::NoMemory);
        }
        for _place in 0..count {
            self.hand_next(finder, queue, batch);
        }
        Ok(())
    }

    // Hands on the first that is pending, if it is for this queue. There is room for its notice.
    fn hand_next<B: Allocator>(
        &mut self,
        finder: &mut Finder<A>,
        queue: QueueNo,
        batch: &mut VecDeque<Notice, B>,
    )
        requires { deque_len batch.old < deque_capacity batch.old }
        ensures after { handing self.new finder.new batch.new.items
            ≡ hand_next queue (handing self.old finder.old batch.old.items) }
        ensures len { deque_len batch.new ≤ deque_len batch.old + 1 }
        ensures capacity { deque_capacity batch.new ≡ deque_capacity batch.old }
    {
        match self.next_queue(finder) {
            Some(next) if next == queue => {
                if let Handed::Notice(notice) = self.hand(finder) {
                    batch.push_back_reserved(notice);
                }
            }
            _ => {}
        }
    }
}
