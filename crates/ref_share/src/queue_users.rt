//! What one thread uses several shared queues with.

ghost use Rattle.std.specs.Prelude.{◌≡◌, ◌<◌, ◌≤◌, [], length, slice_get, slice_set, IfOk, OnErr, Some, Err};
ghost use Rattle.std.specs.Vec.{vec_capacity};
ghost use Rattle.ref_base.specs.declared.fault.Fault.TheVariants.{BadQueue, NoMemory};
ghost use Rattle.ref_base.specs.declared.heap_step.HeapStep.TheVariants as steps;
ghost use Rattle.ref_share.specs.Deliveries.{Delivers, was_added};
ghost use Rattle.ref_share.specs.HeapSeats.{heap_view};
ghost use Rattle.ref_share.specs.QueueSeats.{IsQueueSeat};
ghost use Rattle.ref_share.specs.Users.{AreSeated, AtEachPlace, KnowsAsMuch, BeginsWith, HasClosed};

use crate::{HeapUser, QueueSeat, QueueUser, ShareFault, SharedQueue, enqueue};
use ref_base::{Fault, QueueNo, SlotNo};
use std::alloc::{Allocator, Global};
use std::marker::Model;
use std::sync::Wait;

/// Several shared queues in order, with one thread's seat of each. In a clause it is these two lists.
#[derive(Drop)]
pub struct QueueUsers<'a, A: Allocator + Copy = Global> {
    pub(crate) queues: &'a [SharedQueue<A>],
    pub(crate) seats: Vec<QueueSeat<A>, A>,
}

impl<'a, A: Allocator + Copy> Model for QueueUsers<'a, A> {
    ghost use Rattle.ref_share.specs.Users.{QueuesUse};

    ghost Value = { QueuesUse A };

    ghost use Rattle.ref_share.specs.Users.{AreSeated};

    ghost view = { λ u. record { queues = u.queues.now; seats = u.seats.items } };

    ghost invariant = { λ u. AreSeated u.queues.now u.seats.items };
}

impl<'a, A: Allocator + Copy> QueueUsers<'a, A> {
    /// Users of these queues for one thread more. Each seat has seen what this one's has. The one error is `NoMemory`.
    pub fn split(&mut self, alloc: A) -> Result<QueueUsers<'a, A>, Fault>
        ensures same { self.new.queues ≡ self.old.queues }
        ensures seats { AtEachPlace KnowsAsMuch self.old.seats self.new.seats }
        ensures other { IfOk result (λ other. other.queues ≡ self.old.queues) }
        ensures begin { IfOk result (λ other. AtEachPlace BeginsWith self.old.seats other.seats) }
        ensures err { OnErr result (result ≡ Err NoMemory) }
    {
        let queues = self.queues;
        let mut seats = Vec::with_capacity(alloc, queues.len())?;
        split_all(queues, &mut self.seats, &mut seats);
        Ok(QueueUsers { queues, seats })
    }

    /// A user of the queue of this number, for one thread more. `BadQueue` just where there are no more queues than
    /// that. Takes no memory.
    pub fn user(&mut self, queue: QueueNo) -> Result<QueueUser<'a, A>, Fault>
        ensures same { self.new.queues ≡ self.old.queues }
        ensures seats { AtEachPlace KnowsAsMuch self.old.seats self.new.seats }
        ensures user { IfOk result (λ user. slice_get self.old.queues queue ≡ Some user.queue) }
        ensures begins { IfOk result (λ user. (seat : _) × (slice_get self.old.seats queue ≡ Some seat)
            × BeginsWith seat user.seat) }
        ensures err { OnErr result ((result ≡ Err BadQueue) × (length self.old.queues ≤ queue)) }
    {
        let queues = self.queues;
        let place = queue.0 as usize;
        if place >= queues.len() {
            return Err(Fault::BadQueue);
        }
        let queue = &queues[place];
        let seat = split_at(queues, &mut self.seats, place);
        Ok(QueueUser { queue, seat })
    }

    /// Closes each queue, so that who waits for one goes on. Where no turn is left for that, nobody can wait.
    pub fn close<R: Wait>(&mut self, rt: &R)
        ensures same { self.new.queues ≡ self.old.queues }
        ensures closes { AtEachPlace HasClosed self.old.seats self.new.seats }
    {
        close_all(rt, self.queues, &mut self.seats);
    }
}

// One seat more of the queue at this place.
fn split_at<A: Allocator + Copy>(
    queues: &[SharedQueue<A>],
    seats: &mut [QueueSeat<A>],
    place: usize,
) -> QueueSeat<A>
    requires seats { AreSeated queues.now seats.old }
    requires place { place < length queues.now }
    ensures seats { AreSeated queues.now seats.new }
    ensures know { AtEachPlace KnowsAsMuch seats.old seats.new }
    ensures own { (queue : _) → slice_get queues.now place ≡ Some queue → IsQueueSeat queue result }
    ensures begins { (seat : _) → slice_get seats.old place ≡ Some seat → BeginsWith seat result }
{
    queues[place].split(&mut seats[place])
}

// One seat more of each queue, in order.
pub(crate) fn split_all<A: Allocator + Copy>(
    queues: &[SharedQueue<A>],
    seats: &mut [QueueSeat<A>],
    more: &mut Vec<QueueSeat<A>, A>,
)
    requires seats { AreSeated queues.now seats.old }
    requires room { length queues.now ≤ vec_capacity more.old }
    requires none { more.old.items ≡ [] }
    ensures seats { AreSeated queues.now seats.new }
    ensures know { AtEachPlace KnowsAsMuch seats.old seats.new }
    ensures own { AreSeated queues.now more.new.items }
    ensures begin { AtEachPlace BeginsWith seats.old more.new.items }
{
    for place in 0..queues.len() {
        more.push_reserved(split_at(queues, seats, place));
    }
}

// Closes each queue, in order.
fn close_all<R: Wait, A: Allocator + Copy>(
    rt: &R,
    queues: &[SharedQueue<A>],
    seats: &mut [QueueSeat<A>],
)
    requires { AreSeated queues.now seats.old }
    ensures seats { AreSeated queues.now seats.new }
    ensures close { AtEachPlace HasClosed seats.old seats.new }
{
    for place in 0..queues.len() {
        close_at(rt, queues, seats, place);
    }
}

// Closes the queue at this place. Where no turn is left for that, nobody waits.
fn close_at<R: Wait, A: Allocator + Copy>(
    rt: &R,
    queues: &[SharedQueue<A>],
    seats: &mut [QueueSeat<A>],
    place: usize,
)
    requires seats { AreSeated queues.now seats.old }
    requires place { place < length queues.now }
    ensures seats { AreSeated queues.now seats.new }
    ensures closes { (seat : _) → slice_get seats.old place ≡ Some seat
        → (after : _) × (seats.new ≡ slice_set seats.old place after) × HasClosed seat after }
{
    give_up(queues[place].close(rt, &mut seats[place]));
}

// Nothing comes back with what a close answers.
fn give_up(answer: Result<bool, ShareFault>) {
    if let Err(fault) = answer {
        let _ = fault.give_up();
    }
}

impl<'h, A: Allocator + Copy> HeapUser<'h, A> {
    /// Clears the reference in the slot and puts its notice into its own queue of these, as `enqueue`.
    pub fn enqueue<R: Wait>(
        &mut self,
        rt: &R,
        slot: SlotNo,
        queues: &mut QueueUsers<'_, A>,
    ) -> Result<bool, ShareFault>
        ensures same { self.new ≡ record self.old { seat = self.new.seat } }
        ensures queues { queues.new.queues ≡ queues.old.queues }
        ensures calls { (delivery : _) × (result ≡ was_added delivery)
            × Delivers (steps.Unhook self.old.mutator slot) (heap_view self.old.seat) queues.old.queues
            queues.old.seats delivery (heap_view self.new.seat) queues.new.seats }
    {
        let (heap, seat) = (self.heap, &mut self.seat);
        let QueueUsers { queues, seats } = queues;
        enqueue(rt, heap, seat, queues, seats, self.mutator, slot)
    }
}
