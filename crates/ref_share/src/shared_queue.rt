//! The queue that threads share.

ghost use Rattle.std.specs.Prelude.{◌≡◌, true, false, IfOk, IfErr, OnErr, Err};
ghost use Rattle.ref_base.specs.declared.fault.Fault.TheVariants.{NoMemory};
ghost use Rattle.ref_share.specs.QueueSeats.{queue_view, IsQueueSeat, IsNewQueue, LeavesQueue};
ghost use Rattle.ref_share.specs.QueueCalls.{PutsNotice, PollsNow, ClosesQueue};
ghost use Rattle.ref_share.specs.QueueCalls.{ComesBack, IsPollAnswer, IsUnmade, PollsOnce, TellsPoll, refuses_put};
ghost use Rattle.ref_share.specs.QueueCalls.{PutsBatch, PollsBatchNow, HoldsTaken, IsBatchUnmade, has_batch};
ghost use Rattle.ref_queue.specs.QueueBatches.{left_by};
ghost use Rattle.ref_share.specs.QueueMachines.{IsQueueTurn};
ghost use Rattle.ref_share.specs.Selves.{IsItself};
ghost use Rattle.ref_turn.specs.Seats.{IsLeftOpen};

use crate::bell::Bell;
use crate::{
    Polled, QueueAnswer, QueueCall, QueueMachine, QueueReply, QueueStep, SeatFor, ShareFault,
    Shared,
};
use ref_base::{Batch, Fault, Outs, QueueNo};
use ref_clear::Notice;
use ref_queue::{Polled as Answer, PolledBatch, Put, Queue};
use ref_turn::{Turn, TurnFault};
use std::alloc::{Allocator, Global};
use std::sync::Wait;

/// A queue that threads share: those that put notices in, and those that poll. Each call is one turn: one step of the
/// queue. It must be ended by `finish`, since what stands in it must be.
pub type SharedQueue<A = Global> = Shared<QueueMachine<A>, A>;

/// What one thread uses a shared queue with.
pub type QueueSeat<A = Global> = SeatFor<QueueMachine<A>>;

/// What stands around the turn of a shared queue.
#[derive(Drop)]
pub struct QueueFrame {
    pub(crate) queue: QueueNo,
    // Rung where something may have come for those that wait until something does.
    pub(crate) bell: Bell,
}

impl<A: Allocator + Copy> SharedQueue<A> {
    /// The queue of this number, open, with nothing ever put in, and its first seat. The one refusal is `NoMemory`.
    pub fn new(alloc: A, queue: QueueNo) -> Result<(Self, QueueSeat<A>), Fault>
        ensures made { IfOk result (λ made. IsNewQueue made.0 queue 0 made.1) }
        ensures err { OnErr result (result ≡ Err NoMemory) }
    {
        Self::starting(alloc, queue, 0)
    }

    /// A queue as `new` makes it, whose turns are counted from `first` on: `u64::MAX - first` of them can be made.
    pub fn starting(alloc: A, queue: QueueNo, first: u64) -> Result<(Self, QueueSeat<A>), Fault>
        ensures made { IfOk result (λ made. IsNewQueue made.0 queue first made.1) }
        ensures err { OnErr result (result ≡ Err NoMemory) }
    {
        let machine = QueueMachine {
            queue: Queue::new(alloc, queue),
        };
        match Turn::starting(alloc, machine, first) {
            Ok((turn, seat)) => {
                let bell = Bell::new();
                let frame = QueueFrame { queue, bell };
                let number = u64::from(queue.0);
                Ok((Shared { turn, frame }, SeatFor { seat, number }))
            }
            Err((fault, machine)) => {
                machine.into_queue().end().destroy_empty();
                Err(fault)
            }
        }
    }

    /// Its number. Takes no turn.
    pub fn number(&self) -> QueueNo
        ensures { result ≡ self.now.frame.queue }
    {
        self.frame.queue
    }

    /// Puts a notice in, last, once the turn is free. Its refusals are those of `Queue::put`, with `TurnsSpent` before
    /// them where no turn is left; the notice comes back, as it does with `Already` and `Closed`. Only `Added` takes
    /// memory.
    pub fn put<R: Wait>(
        &self,
        rt: &R,
        seat: &mut QueueSeat<A>,
        notice: Notice,
    ) -> Result<Put<Notice>, (Fault, Notice)>
        requires { IsQueueSeat self.now seat.old }
        ensures seat { IsQueueSeat self.now seat.new }
        ensures puts { PutsNotice (queue_view seat.old) notice result (queue_view seat.new) }
        ensures back { ComesBack notice result }
        ensures faults { IfErr result (λ refused. refuses_put refused.0 ≡ true) }
    {
        match self.step(rt, seat, QueueStep::Put(notice)) {
            Ok(QueueReply::Put(answer)) => {
                self.frame.bell.ring(rt);
                answer
            }
            Err(TurnFault::Spent(QueueStep::Put(notice))) => Err((Fault::TurnsSpent, notice)),
            _answer => unreachable!(),
        }
    }

    /// Puts the notices of a batch in, one after the other, in one turn, once it is free. It answers what became of
    /// each that was tried, as `Queue::put_batch` does, and the batch, with what wasn't added, in order. Tried in this
    /// order: `TurnsSpent` where no turn is left, `WrongQueue` where some notice names another queue; then all of them
    /// are in the batch, and nothing has changed. In expected time of the notices, amortized. Only what is added takes
    /// memory.
    pub fn put_batch<R: Wait>(
        &self,
        rt: &R,
        seat: &mut QueueSeat<A>,
        batch: Batch<Notice, A>,
    ) -> (Result<Outs, Fault>, Batch<Notice, A>)
        requires { IsQueueSeat self.now seat.old }
        ensures seat { IsQueueSeat self.now seat.new }
        ensures puts { PutsBatch (queue_view seat.old) batch result.0 result.1 (queue_view seat.new) }
        ensures left { result.1 ≡ left_by batch result.0 }
        ensures faults { IfErr result.0 (λ fault. refuses_put fault ≡ true) }
    {
        match self.step(rt, seat, QueueStep::PutBatch(batch)) {
            Ok(QueueReply::PutBatch(answer, batch)) => {
                self.frame.bell.ring_for_all(rt);
                (answer, batch)
            }
            Err(TurnFault::Spent(QueueStep::PutBatch(batch))) => (Err(Fault::TurnsSpent), batch),
            _answer => unreachable!(),
        }
    }

    /// Takes the first that stands, or answers that nothing does, at once or not at all: `Busy` where another turn is
    /// open, or took this one. `Refused(TurnsSpent)` where no turn is left. Never `TimedOut`. Takes no memory.
    pub fn poll_now(&self, seat: &mut QueueSeat<A>) -> Result<Polled, ShareFault>
        requires { IsQueueSeat self.now seat.old }
        ensures seat { IsQueueSeat self.now seat.new }
        ensures polls { PollsNow (queue_view seat.old) result (queue_view seat.new) }
    {
        polled(self.try_step(seat, QueueStep::Poll))
    }

    /// Takes the first that stand, `max` at most, into a batch, behind what is in it, or returns that nothing stands,
    /// at once or not at all. The batch comes back in each case. Returns the numbers of what it took, first first.
    /// Tried in this order: `Refused(TurnsSpent)` where no turn is left, `Busy` where another turn is open, or took
    /// this one, and `Refused(BadConfig)`. The last comes where `max` is not from 1 to the room that is left in the
    /// batch, which has room for 32, and takes a turn, in which nothing is done. In time of what is taken. Takes no
    /// memory.
    pub fn poll_batch_now(
        &self,
        seat: &mut QueueSeat<A>,
        max: u32,
        batch: Batch<Notice, A>,
    ) -> (Result<PolledBatch, ShareFault>, Batch<Notice, A>)
        requires { IsQueueSeat self.now seat.old }
        ensures seat { IsQueueSeat self.now seat.new }
        ensures polls { PollsBatchNow (queue_view seat.old) max batch result.0 result.1 (queue_view seat.new) }
        ensures holds { HoldsTaken batch result.0 result.1 }
    {
        match self.try_step(seat, QueueStep::PollBatch { max, batch }) {
            Ok(QueueReply::PolledBatch(answer, batch)) => match answer {
                Ok(polled) => (Ok(polled), batch),
                Err(fault) => (Err(ShareFault::Refused(fault)), batch),
            },
            Ok(_reply) => unreachable!(),
            Err(fault) => batch_unmade(fault),
        }
    }

    // One poll, once the turn is free: its answer, or none where nothing stood.
    pub(crate) fn poll<R: Wait>(
        &self,
        rt: &R,
        seat: &mut QueueSeat<A>,
    ) -> Option<Result<Polled, ShareFault>>
        requires { IsQueueSeat self.now seat.old }
        ensures seat { IsQueueSeat self.now seat.new }
        ensures polls { PollsOnce (queue_view seat.old) result (queue_view seat.new) }
    {
        match polled(self.step(rt, seat, QueueStep::Poll)) {
            Ok(Polled::Empty) => None,
            answer => Some(answer),
        }
    }

    /// Closes the queue: no put adds anything from now on. True exactly where it was open. `Refused(TurnsSpent)` where
    /// no turn is left. Takes no memory.
    pub fn close<R: Wait>(&self, rt: &R, seat: &mut QueueSeat<A>) -> Result<bool, ShareFault>
        requires { IsQueueSeat self.now seat.old }
        ensures seat { IsQueueSeat self.now seat.new }
        ensures closes { ClosesQueue (queue_view seat.old) result (queue_view seat.new) }
    {
        match self.step(rt, seat, QueueStep::Close) {
            Ok(QueueReply::Closed(was_open)) => {
                self.frame.bell.ring_for_all(rt);
                Ok(was_open)
            }
            Ok(_reply) => unreachable!(),
            Err(fault) => Err(unmade(fault)),
        }
    }

    /// Gives the queue back, with what stands in it. Where a turn is open, which is only while another thread is in a
    /// call, what the slot of the turn held comes back.
    pub fn finish(self, seat: QueueSeat<A>) -> Result<Queue<Notice, A>, Option<Queue<Notice, A>>>
        requires { IsQueueSeat self seat }
        ensures ok { IfOk result (λ queue. LeavesQueue self (queue_view seat) queue) }
        ensures err { IfErr result (λ _. IsLeftOpen IsItself IsQueueTurn (queue_view seat)) }
    {
        match self.end(seat) {
            Ok(machine) => Ok(machine.into_queue()),
            Err(Some(machine)) => Err(Some(machine.into_queue())),
            Err(None) => Err(None),
        }
    }
}

// The answer to a poll, or why none was made.
fn polled<A: Allocator>(
    answer: Result<QueueAnswer<A>, TurnFault<QueueCall<A>>>,
) -> Result<Polled, ShareFault>
    requires { IsPollAnswer answer }
    ensures { TellsPoll answer result }
{
    match answer {
        Ok(QueueReply::Polled(Answer::Took(notice))) => Ok(Polled::Took(notice)),
        Ok(QueueReply::Polled(Answer::Empty)) => Ok(Polled::Empty),
        Ok(QueueReply::Polled(Answer::Closed)) => Ok(Polled::Closed),
        Ok(_reply) => unreachable!(),
        Err(fault) => Err(unmade(fault)),
    }
}

// Why a step of a queue that has no batch was not made. A notice comes back with it.
fn unmade<A: Allocator>(fault: TurnFault<QueueCall<A>>) -> ShareFault
    requires { has_batch fault ≡ false }
    ensures { IsUnmade fault result }
{
    let (step, is_busy) = match fault {
        TurnFault::Busy(step) => (step, true),
        TurnFault::Spent(step) => (step, false),
    };
    match step {
        QueueStep::Put(notice) => ShareFault::Notice(notice, Fault::TurnsSpent),
        QueueStep::Poll | QueueStep::Close if is_busy => ShareFault::Busy,
        QueueStep::Poll | QueueStep::Close => ShareFault::Refused(Fault::TurnsSpent),
        QueueStep::PutBatch(_batch) | QueueStep::PollBatch { batch: _batch, .. } => unreachable!(),
    }
}

// Why a poll into a batch was not made, and the batch.
fn batch_unmade<A: Allocator>(
    fault: TurnFault<QueueCall<A>>,
) -> (Result<PolledBatch, ShareFault>, Batch<Notice, A>)
    requires { has_batch fault ≡ true }
    ensures { IsBatchUnmade fault result.0 result.1 }
{
    match fault {
        TurnFault::Busy(QueueStep::PutBatch(batch)) => (Err(ShareFault::Busy), batch),
        TurnFault::Busy(QueueStep::PollBatch { max: _, batch }) => (Err(ShareFault::Busy), batch),
        TurnFault::Spent(QueueStep::PutBatch(batch)) => (
            Err(ShareFault::Refused(Fault::TurnsSpent)),
            batch,
        ),
        TurnFault::Spent(QueueStep::PollBatch { max: _, batch }) => {
            (Err(ShareFault::Refused(Fault::TurnsSpent)), batch)
        }
        TurnFault::Busy(_step) | TurnFault::Spent(_step) => unreachable!(),
    }
}
