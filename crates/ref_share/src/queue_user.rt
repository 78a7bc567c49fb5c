//! What one thread uses a shared queue with.

ghost use Rattle.std.specs.Prelude.{◌≡◌, ◌+◌, ◌<◌, ◌≤◌, ◌⊎◌, length, Err};
ghost use Rattle.ref_base.specs.declared.fault.Fault.TheVariants.{BadConfig};
ghost use Rattle.ref_share.specs.declared.answers.ShareFault.TheVariants.{Refused};
ghost use Rattle.ref_turn.specs.Seats.{Begins, Longer};
ghost use Rattle.ref_share.specs.QueueCalls.{PollsNow, PollsOnce, PollsWithin, PollsUntil, PollsAWhile};
ghost use Rattle.ref_share.specs.QueueCalls.{PollsBatchNow, HoldsTaken, ClosesQueue};
ghost use Rattle.ref_share.specs.QueueSeats.{queue_view, IsQueueSeat};

use crate::{Polled, QueueSeat, ShareFault, SharedQueue, Stop};
use ref_base::{Batch, QueueNo};
use ref_clear::Notice;
use ref_queue::PolledBatch;
use std::alloc::{Allocator, Global};
use std::marker::Model;
use std::sync::Wait;
use std::time::{Clock, Duration};

/// A shared queue, with the seat of one thread. In a clause it is these two.
///
/// Each of its calls is the queue's own of the same name, by that seat.
#[derive(Drop)]
pub struct QueueUser<'a, A: Allocator + Copy = Global> {
    pub(crate) queue: &'a SharedQueue<A>,
    pub(crate) seat: QueueSeat<A>,
}

impl<'a, A: Allocator + Copy> Model for QueueUser<'a, A> {
    ghost use Rattle.ref_share.specs.Users.{QueueUse};

    ghost Value = { QueueUse A };

    ghost use Rattle.ref_share.specs.QueueSeats.{IsQueueSeat};

    ghost view = { λ u. record { queue = u.queue.now; seat = u.seat } };

    ghost invariant = { λ u. IsQueueSeat u.queue.now u.seat };
}

impl<'a, A: Allocator + Copy> QueueUser<'a, A> {
    /// A user of the queue, with a seat of it.
    pub fn new(queue: &'a SharedQueue<A>, seat: QueueSeat<A>) -> Self
        requires { IsQueueSeat queue.now seat }
        ensures { result ≡ record { queue = queue.now; seat = seat } }
    {
        QueueUser { queue, seat }
    }

    /// A user for one thread more. Its seat has seen what this one has.
    pub fn split(&mut self) -> QueueUser<'a, A>
        ensures same { self.new ≡ record self.old { seat = self.new.seat } }
        ensures seat { queue_view self.new.seat ≡ queue_view self.old.seat }
        ensures other { result ≡ record { queue = self.old.queue; seat = result.seat } }
        ensures begins { Begins (queue_view self.old.seat) (queue_view result.seat) }
    {
        let queue = self.queue;
        let seat = queue.split(&mut self.seat);
        QueueUser { queue, seat }
    }

    /// How many turns of the queue have ended, as `served` tells, and the first ticket with them. Takes no turn.
    pub fn served(&mut self) -> u64
        ensures same { self.new ≡ record self.old { seat = self.new.seat } }
        ensures longer { Longer (queue_view self.old.seat) (queue_view self.new.seat) }
        ensures count { result ≡ (queue_view self.new.seat).first + length (queue_view self.new.seat).seen }
    {
        self.queue.served(&mut self.seat)
    }

    /// Its seat alone, as to end the queue by.
    pub fn into_seat(self) -> QueueSeat<A>
        ensures own { result ≡ self.entry.seat }
        ensures seat { IsQueueSeat self.entry.queue result }
    {
        let QueueUser { seat, .. } = self;
        seat
    }

    /// The queue's number. Takes no turn.
    pub fn number(&self) -> QueueNo
        ensures { result ≡ self.now.queue.frame.queue }
    {
        self.queue.number()
    }

    /// Takes the first that stands, at once or not at all, as `SharedQueue::poll_now`.
    pub fn poll_now(&mut self) -> Result<Polled, ShareFault>
        ensures same { self.new ≡ record self.old { seat = self.new.seat } }
        ensures polls { PollsNow (queue_view self.old.seat) result (queue_view self.new.seat) }
    {
        self.queue.poll_now(&mut self.seat)
    }

    /// Takes the first that stand, `max` at most, into a batch, as `SharedQueue::poll_batch_now`.
    pub fn poll_batch_now(
        &mut self,
        max: u32,
        batch: Batch<Notice, A>,
    ) -> (Result<PolledBatch, ShareFault>, Batch<Notice, A>)
        ensures same { self.new ≡ record self.old { seat = self.new.seat } }
        ensures polls { PollsBatchNow (queue_view self.old.seat) max batch result.0 result.1
            (queue_view self.new.seat) }
        ensures holds { HoldsTaken batch result.0 result.1 }
    {
        self.queue.poll_batch_now(&mut self.seat, max, batch)
    }

    // One poll, once the turn is free: its answer, or none where nothing stood.
    pub(crate) fn poll<R: Wait>(&mut self, rt: &R) -> Option<Result<Polled, ShareFault>>
        ensures same { self.new ≡ record self.old { seat = self.new.seat } }
        ensures polls { PollsOnce (queue_view self.old.seat) result (queue_view self.new.seat) }
    {
        self.queue.poll(rt, &mut self.seat)
    }

    /// Polls up to so many times, as `SharedQueue::remove_within`.
    pub fn remove_within<R: Wait>(&mut self, rt: &R, polls: u32) -> Result<Polled, ShareFault>
        ensures same { self.new ≡ record self.old { seat = self.new.seat } }
        ensures polls { 0 < polls → polls ≤ 1000000
            → PollsWithin (queue_view self.old.seat) polls result (queue_view self.new.seat) }
        ensures outside { (polls ≡ 0) ⊎ (1000000 < polls)
            → (result ≡ Err (Refused BadConfig)) × (queue_view self.new.seat ≡ queue_view self.old.seat) }
    {
        self.queue.remove_within(rt, &mut self.seat, polls)
    }

    /// Waits until something stands or the queue is closed, as `SharedQueue::remove_wait`.
    pub fn remove_wait<R: Wait>(&mut self, rt: &R) -> Result<Polled, ShareFault>
        ensures same { self.new ≡ record self.old { seat = self.new.seat } }
        ensures polls { PollsUntil (queue_view self.old.seat) result (queue_view self.new.seat) }
    {
        self.queue.remove_wait(rt, &mut self.seat)
    }

    /// Waits for that long at most, as `SharedQueue::remove_for`.
    pub fn remove_for<R: Wait + Clock>(
        &mut self,
        rt: &R,
        limit: Duration,
    ) -> Result<Polled, ShareFault>
        ensures same { self.new ≡ record self.old { seat = self.new.seat } }
        ensures polls { PollsAWhile (queue_view self.old.seat) result (queue_view self.new.seat) }
    {
        self.queue.remove_for(rt, &mut self.seat, limit)
    }

    /// Waits unless the stop is set, as `SharedQueue::remove_unless`.
    pub fn remove_unless<R: Wait>(&mut self, rt: &R, stop: &Stop) -> Result<Polled, ShareFault>
        ensures same { self.new ≡ record self.old { seat = self.new.seat } }
        ensures polls { PollsAWhile (queue_view self.old.seat) result (queue_view self.new.seat) }
    {
        self.queue.remove_unless(rt, &mut self.seat, stop)
    }

    /// Sets the stop and wakes those that wait unless it is set, as `SharedQueue::stop`.
    pub fn stop<R: Wait>(&self, rt: &R, stop: &Stop) {
        self.queue.stop(rt, stop);
    }

    /// Closes the queue, as `SharedQueue::close`.
    pub fn close<R: Wait>(&mut self, rt: &R) -> Result<bool, ShareFault>
        ensures same { self.new ≡ record self.old { seat = self.new.seat } }
        ensures closes { ClosesQueue (queue_view self.old.seat) result (queue_view self.new.seat) }
    {
        self.queue.close(rt, &mut self.seat)
    }
}
