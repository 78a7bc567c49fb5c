//! What one thread puts into and takes from a queue with.

ghost use Rattle.ref_share.specs.QueueSeats.{IsQueueSeat};

use crate::letters::Letter;
use ref_base::Fault;
use ref_queue::Put;
use ref_share::{Polled, QueueSeat, SharedQueue};
use std::sync::Wait;

/// A thread's way to a queue. `crowds` runs jobs of any such type: its closure over jobs of this one type alone wasn't
/// proved.
pub trait Till {
    /// Whether it may be used.
    ghost is_ready: { Self → Type 0 };

    fn put<R: Wait>(&mut self, rt: &R, letter: Letter) -> Result<(), Fault>
        requires { is_ready self.old }
        ensures { is_ready self.new };

    /// The first that stands, as soon as one does; `None` where the queue is closed and nothing stands.
    fn take<R: Wait>(&mut self, rt: &R) -> Option<Letter>
        requires { is_ready self.old }
        ensures { is_ready self.new };

    fn close<R: Wait>(&mut self, rt: &R)
        requires { is_ready self.old }
        ensures { is_ready self.new };
}

/// The way to a shared queue.
#[derive(Drop)]
pub struct SharedTill<'a> {
    queue: &'a SharedQueue,
    seat: QueueSeat,
}

impl<'a> SharedTill<'a> {
    pub fn new(queue: &'a SharedQueue, seat: QueueSeat) -> Self
        requires { IsQueueSeat queue.now seat }
        ensures { IsQueueSeat result.queue.now result.seat }
    {
        SharedTill { queue, seat }
    }
}

impl Till for SharedTill<'_> {
    ghost is_ready = { λ t. IsQueueSeat t.queue.now t.seat };

    fn put<R: Wait>(&mut self, rt: &R, letter: Letter) -> Result<(), Fault> {
        match self.queue.put(rt, &mut self.seat, letter.into_notice()) {
            Ok(Put::Added(_)) => Ok(()),
            Ok(Put::Already(back) | Put::Closed(back)) => {
                back.into_hold().leak();
                Ok(())
            }
            Err((fault, back)) => {
                back.into_hold().leak();
                Err(fault)
            }
        }
    }

    fn take<R: Wait>(&mut self, rt: &R) -> Option<Letter> {
        match self.queue.remove_wait(rt, &mut self.seat) {
            Ok(Polled::Took(notice)) => Some(Letter::new(notice)),
            Ok(Polled::Empty | Polled::Closed | Polled::TimedOut) => None,
            Err(fault) => {
                let _ = fault.give_up();
                None
            }
        }
    }

    fn close<R: Wait>(&mut self, rt: &R) {
        if let Err(fault) = self.queue.close(rt, &mut self.seat) {
            let _ = fault.give_up();
        }
    }
}
