//! Several shared queues, as one value of whoever makes them.

ghost use Rattle.std.specs.Prelude.{◌≡◌, ◌+◌, [], length, IfOk, OnErr, Err};
ghost use Rattle.ref_base.specs.declared.fault.Fault.TheVariants.{NoMemory};
ghost use Rattle.ref_share.specs.Users.{AreNew, AtEachPlace, BeginsWith};

use crate::queue_users::split_all;
use crate::{QueueSeat, QueueUsers, SharedQueue, end_queue};
use ref_base::{Fault, QueueNo};
use std::alloc::{Allocator, Global};
use std::marker::Model;

/// Several shared queues, numbered from 0, each with a first seat. In a clause it is these two lists. It must be ended
/// by `end`, since what stands in the queues must be.
pub struct Queues<A: Allocator + Copy = Global> {
    alloc: A,
    queues: Vec<SharedQueue<A>, A>,
    seats: Vec<QueueSeat<A>, A>,
}

impl<A: Allocator + Copy> Model for Queues<A> {
    ghost use Rattle.ref_share.specs.Users.{QueuesUse};

    ghost Value = { QueuesUse A };

    ghost use Rattle.ref_share.specs.Users.{AreSeated};

    ghost view = { λ q. record { queues = q.queues.items; seats = q.seats.items } };

    ghost invariant = { λ q. AreSeated q.queues.items q.seats.items };
}

impl<A: Allocator + Copy> Queues<A> {
    /// New queues, as many as this, open and empty. The one error is `NoMemory`.
    pub fn new(alloc: A, count: u32) -> Result<Self, Fault>
        ensures count { IfOk result (λ made. length made.queues ≡ count) }
        ensures new { IfOk result (λ made. AreNew made.queues made.seats) }
        ensures err { OnErr result (result ≡ Err NoMemory) }
    {
        let mut made = Queues {
            alloc,
            queues: Vec::new(alloc),
            seats: Vec::new(alloc),
        };
        match made.add_all(count) {
            Ok(()) => Ok(made),
            Err(fault) => {
                made.end();
                Err(fault)
            }
        }
    }

    // Adds as many new queues, where there is none.
    fn add_all(&mut self, count: u32) -> Result<(), Fault>
        requires { (self.old.queues ≡ []) × (self.old.seats ≡ []) }
        ensures count { IfOk result (λ _. length self.new.queues ≡ count) }
        ensures new { IfOk result (λ _. AreNew self.new.queues self.new.seats) }
        ensures err { OnErr result (result ≡ Err NoMemory) }
    {
        for number in 0..count {
            self.add(QueueNo(number))?;
        }
        Ok(())
    }

    // One queue more, last, which has this number.
    fn add(&mut self, number: QueueNo) -> Result<(), Fault>
        requires number { length self.old.queues ≡ number }
        requires new { AreNew self.old.queues self.old.seats }
        ensures count { IfOk result (λ _. length self.new.queues ≡ number + 1) }
        ensures new { IfOk result (λ _. AreNew self.new.queues self.new.seats) }
        ensures err { OnErr result (result ≡ Err NoMemory) }
    {
        self.queues.reserve(1)?;
        self.seats.reserve(1)?;
        let (queue, seat) = SharedQueue::new(self.alloc, number)?;
        self.queues.push_reserved(queue);
        self.seats.push_reserved(seat);
        Ok(())
    }

    /// All of them, for one thread, which may split more users off. Each seat has seen what the one here has. The one
    /// error is `NoMemory`.
    pub fn users(&mut self) -> Result<QueueUsers<'_, A>, Fault>
        ensures users { IfOk result (λ users. users.queues ≡ self.old.queues) }
        ensures begin { IfOk result (λ users. AtEachPlace BeginsWith self.old.seats users.seats) }
        ensures err { OnErr result (result ≡ Err NoMemory) }
    {
        let mut seats = Vec::with_capacity(self.alloc, self.queues.len())?;
        split_all(&self.queues, &mut self.seats, &mut seats);
        Ok(QueueUsers {
            queues: &self.queues,
            seats,
        })
    }

    /// Ends each queue, and gives up what stands in it, as `end_queue` does. Takes no memory.
    pub fn end(self) {
        let Queues {
            alloc: _alloc,
            mut queues,
            mut seats,
        } = self;
        while let Some(queue) = queues.pop() {
            match seats.pop() {
                Some(seat) => {
                    end_queue(queue.finish(seat));
                }
                None => unreachable!(),
            }
        }
        queues.destroy_empty();
    }
}
