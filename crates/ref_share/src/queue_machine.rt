//! A queue as a machine of turns.

use crate::shared_queue::QueueFrame;
use ref_base::{Batch, Fault, MOST_IN_BATCH, Outs};
use ref_clear::Notice;
use ref_queue::{Polled, PolledBatch, Put, Queue};
use ref_turn::Machine;
use std::alloc::{Allocator, Global};
use std::marker::Model;

/// One step of a queue, which takes such batches.
pub enum QueueStep<B> {
    /// Puts a notice in.
    Put(Notice),
    /// Puts the notices of a batch in, one after the other.
    PutBatch(B),
    /// Takes the first that stands.
    Poll,
    /// Takes the first that stand, so many at most, into a batch, behind what is in it.
    PollBatch {
        /// From 1 to the room that is left in the batch.
        max: u32,
        batch: B,
    },
    /// Closes the queue.
    Close,
}

/// What a step of a queue answers: just what the queue's own call does. A batch comes back in each case.
pub enum QueueReply<B> {
    /// To a put.
    Put(Result<Put<Notice>, (Fault, Notice)>),
    /// To a put of a batch, with what wasn't added.
    PutBatch(Result<Outs, Fault>, B),
    /// To a poll.
    Polled(Polled<Notice>),
    /// To a poll into a batch, with the batch. `BadConfig` where `max` is outside its range: then nothing is done.
    PolledBatch(Result<PolledBatch, Fault>, B),
    /// To a close: whether the queue was open.
    Closed(bool),
}

/// A step of a queue of notices, with a batch of them.
pub type QueueCall<A = Global> = QueueStep<Batch<Notice, A>>;

/// What such a step answers.
pub type QueueAnswer<A = Global> = QueueReply<Batch<Notice, A>>;

/// A queue, whose turns are its steps.
pub struct QueueMachine<A: Allocator = Global> {
    pub(crate) queue: Queue<Notice, A>,
}

impl<A: Allocator> Model for QueueMachine<A> {
    ghost use Rattle.ref_share.specs.QueueStates.{NoticeLists};

    ghost Value = { NoticeLists };

    ghost view = { λ m. m.queue };
}

impl<A: Allocator> QueueMachine<A> {
    ghost use Rattle.std.specs.Prelude.{◌≡◌};

    // The queue alone.
    pub(crate) fn into_queue(self) -> Queue<Notice, A>
        ensures { result ≡ self }
    {
        let QueueMachine { queue } = self;
        queue
    }
}

impl<A: Allocator + Copy> QueueMachine<A> {
    ghost use Rattle.ref_share.specs.QueueMachines.{IsQueueTurn};
    ghost use Rattle.ref_share.specs.declared.queue_machine.QueueStep.TheVariants as steps;

    // Puts the batch in.
    fn put_batch(&mut self, mut batch: Batch<Notice, A>) -> QueueAnswer<A>
        ensures { IsQueueTurn self.old (steps.PutBatch batch) result self.new }
    {
        let answer = self.queue.put_batch(&mut batch);
        QueueReply::PutBatch(answer, batch)
    }

    // Polls so many at most into the batch, if it has room for them.
    fn poll_batch(&mut self, max: u32, mut batch: Batch<Notice, A>) -> QueueAnswer<A>
        ensures { IsQueueTurn self.old (steps.PollBatch max batch) result self.new }
    {
        let most = max as usize;
        if most < 1 || most > MOST_IN_BATCH - batch.len() {
            return QueueReply::PolledBatch(Err(Fault::BadConfig), batch);
        }
        let answer = self.queue.poll_batch(most, &mut batch);
        QueueReply::PolledBatch(Ok(answer), batch)
    }
}

impl<A: Allocator + Copy> Machine for QueueMachine<A> {
    ghost use Rattle.ref_base.specs.QueueLists.{new_queue};
    ghost use Rattle.ref_share.specs.QueueMachines.{IsQueueTurn};
    ghost use Rattle.ref_share.specs.QueueStates.{NoticeLists};
    ghost use Rattle.ref_share.specs.Selves.{IsItself, steps_as_it_acts};

    type Step = QueueCall<A>;

    type Reply = QueueAnswer<A>;

    type Frame = QueueFrame;

    ghost State = { NoticeLists };

    ghost stands_for = { IsItself };

    ghost first_state = { λ f. new_queue f.queue };

    ghost steps_to = { IsQueueTurn };

    ghost acts = { IsQueueTurn };

    #[inline(always)]
    fn apply(&mut self, step: QueueCall<A>) -> QueueAnswer<A> {
        match step {
            QueueStep::Put(notice) => QueueReply::Put(self.queue.put(notice)),
            QueueStep::PutBatch(batch) => self.put_batch(batch),
            QueueStep::Poll => QueueReply::Polled(self.queue.poll()),
            QueueStep::PollBatch { max, batch } => self.poll_batch(max, batch),
            QueueStep::Close => QueueReply::Closed(self.queue.close()),
        }
    }

    ghost follows = { steps_as_it_acts IsQueueTurn };
}
