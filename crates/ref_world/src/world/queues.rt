//! The steps of queues.

ghost use Rattle.std.specs.Prelude.{◌≡◌};
ghost use Rattle.ref_objects.specs.Grounds.{IsRefused};
ghost use Rattle.ref_world.specs.Cores.{calling_refusal};
ghost use Rattle.ref_world.specs.QueueReplies.{PutsOne, PollsOne};
ghost use Rattle.ref_world.specs.Standing.{Does};

use super::World;
use crate::WorldNotice;
use crate::replies::polled;
use ref_base::{Actor, Fault, MutNo, Parcel, QueueNo, Reply, Step};
use ref_queue::{Polled, Put, Queue};
use std::alloc::Allocator;

impl<A: Allocator + Copy> World<A> {
    // Puts the hand's first notice into its own queue. It is the hand's first again where the queue doesn't take it.
    pub(crate) fn put(&mut self, actor: Actor) -> Result<Reply, Fault>
        ensures row { Does self.old (Step.Put actor) result self.new }
        ensures kept { self.new.heap ≡ self.old.heap }
    {
        // The prover takes an actor that is passed on by value as spent.
        let (from, back) = (actor, actor);
        let notice = self.hands.take(from)?;
        let queue = &mut self.queues[notice.queue().0 as usize];
        let (reply, left) = put_one(queue, notice);
        self.hands.take_back(back, left);
        reply
    }

    // Puts all notices of the hand into their queue, one after the other. The hand then holds what wasn't added.
    #[inline(never)]
    pub(crate) fn puts(&mut self, actor: Actor) -> Result<Reply, Fault>
        ensures row { Does self.old (Step.Puts actor) result self.new }
        ensures kept { self.new.heap ≡ self.old.heap }
    {
        let (first, all) = (actor, actor);
        let queue = self.hands.first_queue(first)?;
        let queue = &mut self.queues[queue.0 as usize];
        let outs = self.hands.put_all(all, queue);
        Ok(Reply::Outs(outs))
    }

    // Takes the first notice that stands in a queue into the hand.
    pub(crate) fn poll(&mut self, mutator: MutNo, queue: QueueNo) -> Result<Reply, Fault>
        ensures row { Does self.old (Step.Poll mutator queue) result self.new }
        ensures kept { self.new.heap ≡ self.old.heap }
    {
        self.check_queue(mutator, queue)?;
        self.hands.check_empty(Actor::Mutator(mutator))?;
        let (reply, taken) = poll_one(&mut self.queues[queue.0 as usize]);
        self.hands.fill_if_any(Actor::Mutator(mutator), taken);
        Ok(reply)
    }

    // Takes the first notices that stand in a queue into the hand, so many at most.
    #[inline(never)]
    pub(crate) fn polls(&mut self, mutator: MutNo, queue: QueueNo, max: u32) -> Result<Reply, Fault>
        ensures row { Does self.old (Step.Polls mutator queue max) result self.new }
        ensures kept { self.new.heap ≡ self.old.heap }
    {
        self.check_queue(mutator, queue)?;
        self.hands.check_fits(Actor::Mutator(mutator), max)?;
        let queue = &mut self.queues[queue.0 as usize];
        Ok(polled(self.hands.poll_some(mutator, max, queue)))
    }

    // Closes a queue.
    pub(crate) fn close(&mut self, mutator: MutNo, queue: QueueNo) -> Result<Reply, Fault>
        ensures row { Does self.old (Step.Close mutator queue) result self.new }
        ensures kept { self.new.heap ≡ self.old.heap }
    {
        self.check_queue(mutator, queue)?;
        if self.queues[queue.0 as usize].close() {
            return Ok(Reply::Done);
        }
        Ok(Reply::Closed)
    }

    // That there is such a mutator, and such a queue: NoSuchActor, BadQueue.
    fn check_queue(&self, mutator: MutNo, queue: QueueNo) -> Result<(), Fault>
        ensures { IsRefused (calling_refusal self.now mutator queue) result }
    {
        let config = self.heap.config();
        if mutator.0 >= config.mutators {
            return Err(Fault::NoSuchActor);
        }
        if queue.0 >= config.queues {
            return Err(Fault::BadQueue);
        }
        Ok(())
    }
}

// Puts a notice in: the reply, and the notice where the queue doesn't take it.
fn put_one<A: Allocator + Copy>(
    queue: &mut Queue<WorldNotice, A>,
    notice: WorldNotice,
) -> (Result<Reply, Fault>, Option<WorldNotice>)
    ensures { PutsOne queue.old notice result.0 result.1 queue.new }
{
    match queue.put(notice) {
        Ok(Put::Added(position)) => (Ok(Reply::Added(position)), None),
        Ok(Put::Already(notice)) => (Ok(Reply::Already), Some(notice)),
        Ok(Put::Closed(notice)) => (Ok(Reply::Closed), Some(notice)),
        Err((fault, notice)) => (Err(fault), Some(notice)),
    }
}

// Takes the first that stands: the reply, and what was taken.
fn poll_one<A: Allocator + Copy>(queue: &mut Queue<WorldNotice, A>) -> (Reply, Option<WorldNotice>)
    ensures { PollsOne queue.old result.0 result.1 queue.new }
{
    match queue.poll() {
        Polled::Took(notice) => (Reply::Took(notice.obj()), Some(notice)),
        Polled::Empty => (Reply::Empty, None),
        Polled::Closed => (Reply::Closed, None),
    }
}
