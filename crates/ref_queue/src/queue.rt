//! The queue, and what its calls answer.

ghost use Rattle.std.specs.Prelude.{◌≡◌, ◌+◌, ◌≤◌, ◌<◌, ◌++◌, [], length, map, not, nat_eq, true, false, IfOk, OnErr};
ghost use Rattle.std.specs.VecDeque.{deque_len, deque_capacity};
ghost use Rattle.ref_base.specs.declared.out.Done.TheVariants.{Added};
ghost use Rattle.ref_queue.specs.QueueAnswers.{Admits};

use crate::enqueued::Enqueued;
use ref_base::{Batch, Done, Fault, Nos, ObjNo, Outs, Parcel, QueueNo};
use std::alloc::{Allocator, Global};
use std::collections::VecDeque;
use std::marker::Model;

/// What a put answers where it is not refused.
#[derive(Debug, Drop)]
pub enum Put<T> {
    /// The parcel stands last in the queue now. The number says how many were ever put in before it.
    Added(u64),
    /// Its number was put in before, so it comes back: a reference is enqueued at most once.
    Already(T),
    /// The queue takes nothing any more, so it comes back.
    Closed(T),
}

/// What a poll answers.
#[derive(Debug, Drop)]
pub enum Polled<T> {
    /// The first that stood.
    Took(T),
    /// Nothing stands, and something may come yet.
    Empty,
    /// Nothing stands, and nothing comes any more.
    Closed,
}

/// What a poll of several answers.
#[derive(Clone, Copy, Debug, PartialEq, Eq)]
pub enum PolledBatch {
    /// The numbers of the first that stood.
    Took(Nos),
    /// Nothing stands, and something may come yet.
    Empty,
    /// Nothing stands, and nothing comes any more.
    Closed,
}

/// A reference queue: the parcels that stand in it, and the number of each one that was ever put in. All its memory is
/// of the allocator that it was made with.
#[derive(Drop)]
pub struct Queue<T: Parcel, A: Allocator = Global> {
    queue: QueueNo,
    // The number of everything that was ever put in, in order. The last ones are of what stands.
    enqueued: Enqueued<A>,
    standing: VecDeque<T, A>,
    is_closed: bool,
}

impl<T: Parcel, A: Allocator> Model for Queue<T, A> {
    ghost use Rattle.ref_base.specs.QueueLists.{Lists};
    ghost use Rattle.ref_queue.specs.QueueViews.{lists_code, seen_queue, IsSoundQueue};

    ghost Value = { Lists T };

    ghost coded = { lists_code T.code };

    ghost view = { λ s. seen_queue s.queue s.enqueued s.standing.items s.is_closed };

    ghost invariant = { λ s. IsSoundQueue T.object_of T.queue_of s.queue s.enqueued s.standing.items };
}

impl<T: Parcel, A: Allocator + Copy> Queue<T, A> {
    ghost use Rattle.std.specs.List.{IsDistinct};
    ghost use Rattle.ref_base.specs.QueueLists.{enqueued};
    ghost use Rattle.ref_queue.specs.QueueAnswers.{AnswersPut, after_put, IfTook, AnswersPoll};
    ghost use Rattle.ref_base.specs.QueueBatches.{are_own, Become, EndsBatch, after_each, not_added, Becomes};
    ghost use Rattle.ref_base.specs.QueueBatches.{after_one, come_back};
    ghost use Rattle.ref_queue.specs.QueueBatches.{AnswersBatch, after_batch, left_by, AnswersPolls};

    /// The queue of this number, open, with nothing ever put in. Takes no memory.
    pub fn new(alloc: A, queue: QueueNo) -> Self
        ensures { result ≡ record { queue = queue; taken = []; stands = []; closed = false } }
    {
        Queue {
            queue,
            enqueued: Enqueued::new(alloc),
            standing: VecDeque::new(alloc),
            is_closed: false,
        }
    }

    /// Puts a parcel in, last. In expected constant time, amortized.
    ///
    /// Tried in this order: `WrongQueue` where the parcel names another queue, `Already` where its number was ever put
    /// in, `Closed` where the queue is closed, `NoMemory` where a growth is refused. In each of the four the parcel
    /// comes back, and nothing has changed. `Added` says its position among all that were ever put in, from 0. Only
    /// that answer takes memory: for the number, which stays for good, and for the parcel's place.
    ///
    /// That a reference is enqueued at most once is the rule of `java.lang.ref` (Java SE 17, `Reference.enqueue`).
    /// Positions, and that a queue closes, are this project's profile.
    #[inline(always)]
    pub fn put(&mut self, parcel: T) -> Result<Put<T>, (Fault, T)>
        ensures answer { AnswersPut T.object_of T.queue_of self.old parcel result }
        ensures after { self.new ≡ after_put T.object_of T.queue_of self.old parcel result }
    {
        if parcel.queue() != self.queue {
            return Err((Fault::WrongQueue, parcel));
        }
        let position = self.enqueued.len() as u64;
        let number = parcel.obj();
        match admit(
            &mut self.enqueued,
            &mut self.standing,
            self.is_closed,
            number,
        ) {
            Done::Added => {
                self.standing.push_back_reserved(parcel);
                Ok(Put::Added(position))
            }
            Done::Already => Ok(Put::Already(parcel)),
            Done::Closed => Ok(Put::Closed(parcel)),
            Done::Refused(fault) => Err((fault, parcel)),
        }
    }

    /// Takes the first that stands. In constant time. Takes no memory.
    ///
    /// As `ReferenceQueue.poll` of Java SE 17, but first in, first out, and it tells a closed queue from an empty one
    /// (this project's profile): what stood as the queue was closed is still given out.
    #[inline(always)]
    pub fn poll(&mut self) -> Polled<T>
        ensures answer { AnswersPoll T.object_of self.old result self.new }
        ensures own { IfTook result (λ x. T.queue_of x ≡ self.old.queue) }
    {
        match self.standing.pop_front() {
            Some(parcel) => Polled::Took(parcel),
            None if self.is_closed => Polled::Closed,
            None => Polled::Empty,
        }
    }

    /// Puts the items of a batch in, one after the other, each as `put` does: they are `Added`, `Already` or `Closed`.
    /// It ends at the first that is refused for want of memory, which is the last that is told; that one and those
    /// behind it change nothing. What wasn't added stays in the batch, in order. `WrongQueue` where some item names
    /// another queue: then nothing is done. In expected time of the items, amortized. Only what is added takes memory.
    ///
    /// That a collector hands its queues many references at once is as in ZGC; that a batch has at most 32 is this
    /// project's profile.
    pub fn put_batch<B: Allocator>(&mut self, batch: &mut Batch<T, B>) -> Result<Outs, Fault>
        ensures answer { AnswersBatch T.object_of T.queue_of self.old batch.old result }
        ensures after { self.new ≡ after_batch self.old batch.old result }
        ensures left { batch.new ≡ left_by batch.old result }
    {
        if batch.is_for(self.queue) {
            Ok(self.put_each(batch))
        } else {
            Err(Fault::WrongQueue)
        }
    }

    // Puts in the items of a batch, each of which is for this queue, one after the other.
    fn put_each<B: Allocator>(&mut self, batch: &mut Batch<T, B>) -> Outs
        requires { are_own T.object_of T.queue_of self.old batch.old ≡ true }
        ensures count { result.before ≡ length (enqueued T.object_of self.old) }
        ensures done { Become T.object_of T.queue_of self.old batch.old result.done }
        ensures ends { EndsBatch batch.old result.done }
        ensures after { self.new ≡ after_each self.old batch.old result.done }
        ensures left { batch.new ≡ not_added batch.old result.done }
    {
        let mut outs = Outs::new(self.enqueued.len() as u64);
        let count = batch.len();
        let mut is_refused = false;
        for _item in 0..count {
            if !is_refused {
                if let Some(item) = batch.take_first() {
                    let done = self.put_next(item, batch);
                    outs.push(done);
                    is_refused = done.is_refused();
                }
            }
        }
        // What came back stands behind what wasn't tried, and was in front of it.
        batch.turn(count - outs.len());
        outs
    }

    // Puts an item of a batch in. Where it isn't added it goes behind the others.
    #[inline(always)]
    fn put_next<B: Allocator>(&mut self, item: T, batch: &mut Batch<T, B>) -> Done
        requires own { T.queue_of item ≡ self.old.queue }
        requires room { length batch.old < 32 }
        ensures becomes { Becomes T.object_of T.queue_of self.old item result }
        ensures after { self.new ≡ after_one self.old item result }
        ensures back { batch.new ≡ batch.old ++ come_back item result }
    {
        let number = item.obj();
        let done = admit(
            &mut self.enqueued,
            &mut self.standing,
            self.is_closed,
            number,
        );
        if done.is_added() {
            self.standing.push_back_reserved(item);
        } else {
            batch.push(item);
        }
        done
    }

    /// Takes the first that stand, at most so many, into a batch, behind what is in it. In time of what is taken. Takes
    /// no memory.
    pub fn poll_batch<B: Allocator>(&mut self, most: usize, batch: &mut Batch<T, B>) -> PolledBatch
        requires some { 1 ≤ most }
        requires room { length batch.old + most ≤ 32 }
        ensures { AnswersPolls T.object_of self.old most batch.old result self.new batch.new }
    {
        if self.standing.is_empty() {
            let is_over = self.is_closed;
            return if is_over {
                PolledBatch::Closed
            } else {
                PolledBatch::Empty
            };
        }
        let mut numbers = Nos::new();
        for _item in 0..most {
            if let Polled::Took(parcel) = self.poll() {
                numbers.push(parcel.obj());
                batch.push(parcel);
            }
        }
        PolledBatch::Took(numbers)
    }

    /// Closes the queue: no put adds anything from now on. True exactly where it was open. In constant time. Takes no
    /// memory. This project's profile: a `ReferenceQueue` of Java has no end.
    pub fn close(&mut self) -> bool
        ensures result { result ≡ not self.old.closed }
        ensures after { self.new ≡ record self.old { closed = true } }
    {
        let was_open = !self.is_closed;
        self.is_closed = true;
        was_open
    }

    /// The numbers of all that were ever put in, in order. The one error is `NoMemory`. In time of their count.
    pub fn enqueued<B: Allocator>(&self, alloc: B) -> Result<Vec<ObjNo, B>, Fault>
        ensures numbers { IfOk result (λ v. v.items ≡ enqueued T.object_of self.now) }
        ensures distinct { IsDistinct nat_eq (enqueued T.object_of self.now) }
        ensures err { OnErr result (result ≡ Err Fault.NoMemory) }
    {
        copied(alloc, self.enqueued.as_slice())
    }

    /// The numbers of all that were taken, in order. The one error is `NoMemory`. In time of their count.
    pub fn taken<B: Allocator>(&self, alloc: B) -> Result<Vec<ObjNo, B>, Fault>
        ensures numbers { IfOk result (λ v. v.items ≡ self.now.taken) }
        ensures err { OnErr result (result ≡ Err Fault.NoMemory) }
    {
        let count = self.enqueued.len() - self.standing.len();
        copied(alloc, &self.enqueued.as_slice()[..count])
    }

    /// The numbers of all that stand, in order. The one error is `NoMemory`. In time of their count.
    pub fn stands<B: Allocator>(&self, alloc: B) -> Result<Vec<ObjNo, B>, Fault>
        ensures numbers { IfOk result (λ v. v.items ≡ map T.object_of self.now.stands) }
        ensures err { OnErr result (result ≡ Err Fault.NoMemory) }
    {
        let count = self.enqueued.len() - self.standing.len();
        copied(alloc, &self.enqueued.as_slice()[count..])
    }

    /// Ends the queue, and gives what stands, in order. In time of how many were ever put in. Takes no memory.
    pub fn end(self) -> VecDeque<T, A>
        ensures { result.items ≡ self.stands }
    {
        let Queue { standing, .. } = self;
        standing
    }
}

// What becomes of an item of this queue that has this number. Where it is `Added`, its number stands last among those
// that were put in, and there is room for the item, which the caller pushes.
#[inline(always)]
fn admit<T, A: Allocator + Copy>(
    enqueued: &mut Enqueued<A>,
    standing: &mut VecDeque<T, A>,
    is_closed: bool,
    number: ObjNo,
) -> Done
    ensures admits { Admits enqueued.old is_closed number result enqueued.new }
    ensures stands { standing.new.items ≡ standing.old.items }
    ensures room { result ≡ Added → deque_len standing.new < deque_capacity standing.new }
{
    if is_closed || standing.len() == standing.capacity() {
        return admit_without_room(enqueued, standing, is_closed, number);
    }
    // There is room for the item, so its number is looked for once.
    match enqueued.insert(number) {
        Ok(true) => Done::Added,
        Ok(false) => Done::Already,
        Err(_) => Done::Refused(Fault::NoMemory),
    }
}

// As `admit`, where the queue is closed or has no room for the item yet. Never compiled into its callers.
#[inline(never)]
fn admit_without_room<T, A: Allocator + Copy>(
    enqueued: &mut Enqueued<A>,
    standing: &mut VecDeque<T, A>,
    is_closed: bool,
    number: ObjNo,
) -> Done
    ensures admits { Admits enqueued.old is_closed number result enqueued.new }
    ensures stands { standing.new.items ≡ standing.old.items }
    ensures room { result ≡ Added → deque_len standing.new < deque_capacity standing.new }
{
    if enqueued.contains(number) {
        return Done::Already;
    }
    if is_closed {
        return Done::Closed;
    }
    // The room comes first, so that what follows the insert can't fail.
    if standing.reserve(1).is_err() {
        return Done::Refused(Fault::NoMemory);
    }
    match enqueued.insert(number) {
        Ok(_new) => Done::Added,
        Err(_) => Done::Refused(Fault::NoMemory),
    }
}

// A vector of these numbers.
fn copied<A: Allocator>(alloc: A, numbers: &[ObjNo]) -> Result<Vec<ObjNo, A>, Fault>
    ensures numbers { IfOk result (λ v. v.items ≡ numbers.now) }
    ensures err { OnErr result (result ≡ Err Fault.NoMemory) }
{
    Vec::from_slice(alloc, numbers).map_err(|_| Fault::NoMemory)
}
