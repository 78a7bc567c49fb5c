//! Waiting for a queue: so many polls, so long, until a stop is set, or until something comes.

ghost use Rattle.std.specs.Prelude.{◌≡◌, ◌<◌, ◌≤◌, ◌⊎◌, Err};
ghost use Rattle.ref_base.specs.declared.fault.Fault.TheVariants.{BadConfig};
ghost use Rattle.ref_share.specs.declared.answers.ShareFault.TheVariants.{Refused};
ghost use Rattle.ref_share.specs.QueueSeats.{queue_view, IsQueueSeat};
ghost use Rattle.ref_share.specs.QueueCalls.{PollsWithin, PollsUntil, PollsAWhile};

use crate::bell::Caller;
use crate::{Polled, QueueSeat, ShareFault, SharedQueue};
use ref_base::Fault;
use std::alloc::Allocator;
use std::sync::Wait;
use std::sync::atomic::{AtomicBool, Ordering};
use std::thread;
use std::time::{Clock, Duration, Instant};

/// The most polls that `remove_within` may be asked for.
pub const MOST_POLLS: u32 = 1_000_000;

/// A flag by which threads are told to stop. Once set it stays so.
#[derive(Drop)]
pub struct Stop {
    is_set: AtomicBool,
}

impl Stop {
    /// A flag that isn't set.
    pub fn new() -> Self {
        Stop {
            is_set: AtomicBool::new(false),
        }
    }

    /// Sets it. Who sleeps in `remove_unless` isn't woken by this, but by `SharedQueue::stop`, which sets it too.
    pub fn set(&self) {
        self.is_set.store(true, Ordering::SeqCst);
    }

    /// Whether it is set.
    pub fn is_set(&self) -> bool {
        self.is_set.load(Ordering::SeqCst)
    }
}

impl<A: Allocator + Copy> SharedQueue<A> {
    /// Polls up to so many times, from 1 to 1,000,000, and answers `TimedOut` where nothing stood each time: a limit of
    /// waiting counts polls. Tried in this order: `Refused(BadConfig)` where `polls` is outside its range,
    /// `Refused(TurnsSpent)` where no turn is left. Never `Empty` or `Busy`. Takes no memory.
    pub fn remove_within<R: Wait>(
        &self,
        rt: &R,
        seat: &mut QueueSeat<A>,
        polls: u32,
    ) -> Result<Polled, ShareFault>
        requires { IsQueueSeat self.now seat.old }
        ensures seat { IsQueueSeat self.now seat.new }
        ensures polls { 0 < polls → polls ≤ 1000000
            → PollsWithin (queue_view seat.old) polls result (queue_view seat.new) }
        ensures outside { (polls ≡ 0) ⊎ (1000000 < polls)
            → (result ≡ Err (Refused BadConfig)) × (queue_view seat.new ≡ queue_view seat.old) }
    {
        if polls == 0 || polls > MOST_POLLS {
            return Err(ShareFault::Refused(Fault::BadConfig));
        }
        for _ in 0..polls {
            if let Some(answer) = self.poll(rt, seat) {
                return answer;
            }
            thread::yield_now();
        }
        Ok(Polled::TimedOut)
    }

    /// Polls until something stands, or the queue is closed and nothing does; after some polls in vain it sleeps until
    /// something may have come. It may never return. `Refused(TurnsSpent)` where no turn is left. Takes no memory.
    ///
    /// As `ReferenceQueue.remove` of Java SE 17, but that it tells a closed queue.
    pub fn remove_wait<R: Wait>(
        &self,
        rt: &R,
        seat: &mut QueueSeat<A>,
    ) -> Result<Polled, ShareFault>
        requires { IsQueueSeat self.now seat.old }
        ensures seat { IsQueueSeat self.now seat.new }
        ensures polls { PollsUntil (queue_view seat.old) result (queue_view seat.new) }
    {
        let mut caller = self.frame.bell.caller();
        for _ in rt.forever() {
            caller.begin_poll(rt);
            if let Some(answer) = self.poll(rt, seat) {
                caller.leave();
                return answer;
            }
            caller.wait(rt);
        }
        unreachable!()
    }

    /// Polls until something stands, or the queue is closed and nothing does, or that long has passed since the call
    /// began: then it answers `TimedOut`. After some polls in vain it sleeps until something may have come. It polls
    /// once at least, and just once where the limit is zero. A clock that can't be read ends the wait as if the time
    /// had passed. `Refused(TurnsSpent)` where no turn is left. Takes no memory.
    ///
    /// As `ReferenceQueue.remove(timeout)` of Java SE 17, but that a limit of zero doesn't wait. The clock is the
    /// caller's, so no clause says when it answers `TimedOut`.
    pub fn remove_for<R: Wait + Clock>(
        &self,
        rt: &R,
        seat: &mut QueueSeat<A>,
        limit: Duration,
    ) -> Result<Polled, ShareFault>
        requires { IsQueueSeat self.now seat.old }
        ensures seat { IsQueueSeat self.now seat.new }
        ensures polls { PollsAWhile (queue_view seat.old) result (queue_view seat.new) }
    {
        let deadline = Deadline {
            begun: Instant::now(rt).ok(),
            limit,
        };
        self.remove_while(rt, seat, &deadline)
    }

    /// Polls until something stands, or the queue is closed and nothing does, or the stop is set: then it answers
    /// `TimedOut`. After some polls in vain it sleeps until something may have come, or `stop` is called on this queue.
    /// It polls once at least. `Refused(TurnsSpent)` where no turn is left. Takes no memory.
    pub fn remove_unless<R: Wait>(
        &self,
        rt: &R,
        seat: &mut QueueSeat<A>,
        stop: &Stop,
    ) -> Result<Polled, ShareFault>
        requires { IsQueueSeat self.now seat.old }
        ensures seat { IsQueueSeat self.now seat.new }
        ensures polls { PollsAWhile (queue_view seat.old) result (queue_view seat.new) }
    {
        self.remove_while(rt, seat, stop)
    }

    /// Sets the stop, and wakes those that wait for this queue: who waits unless it is set goes. The queue stays open,
    /// and others wait on. Takes no turn.
    pub fn stop<R: Wait>(&self, rt: &R, stop: &Stop) {
        stop.set();
        self.frame.bell.ring_for_all(rt);
    }

    // Polls until something stands, the queue is closed and nothing does, or the caller's patience is at its end.
    fn remove_while<R: Wait, P: Patience<R>>(
        &self,
        rt: &R,
        seat: &mut QueueSeat<A>,
        patience: &P,
    ) -> Result<Polled, ShareFault>
        requires { IsQueueSeat self.now seat.old }
        ensures seat { IsQueueSeat self.now seat.new }
        ensures polls { PollsAWhile (queue_view seat.old) result (queue_view seat.new) }
    {
        let mut caller = self.frame.bell.caller();
        for _ in rt.forever() {
            caller.begin_poll(rt);
            if let Some(answer) = self.poll(rt, seat) {
                caller.leave();
                return answer;
            }
            if !patience.wait(rt, &mut caller) {
                caller.leave();
                return Ok(Polled::TimedOut);
            }
        }
        unreachable!()
    }
}

// How long a caller waits.
trait Patience<R> {
    // Waits before the next poll, or answers that it is at its end.
    fn wait(&self, rt: &R, caller: &mut Caller<'_>) -> bool;
}

// A time, which is none where the clock couldn't be read, and how long the caller waits from then on.
#[derive(Drop)]
struct Deadline {
    begun: Option<Instant>,
    limit: Duration,
}

impl Deadline {
    // How long is left, or none where the time has passed or the clock can't be read.
    fn left<R: Clock>(&self, rt: &R) -> Option<Duration> {
        let passed = self.begun?.elapsed(rt).ok()?;
        let left = self.limit.checked_sub(passed)?;
        if left.is_zero() { None } else { Some(left) }
    }
}

impl<R: Wait + Clock> Patience<R> for Deadline {
    fn wait(&self, rt: &R, caller: &mut Caller<'_>) -> bool {
        match self.left(rt) {
            Some(left) => {
                caller.wait_for(rt, left);
                true
            }
            None => false,
        }
    }
}

impl<R: Wait> Patience<R> for Stop {
    fn wait(&self, rt: &R, caller: &mut Caller<'_>) -> bool {
        if self.is_set() {
            return false;
        }
        caller.wait(rt);
        true
    }
}
