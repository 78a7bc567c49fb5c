//! The calls of a shared heap and its queue are made, and their answers told as plain data.

ghost use Rattle.std.specs.Prelude.{◌≡◌, []};
ghost use Rattle.ref_share.specs.Deliveries.{AreSeats};
ghost use Rattle.ref_share.specs.HeapSeats.{IsHeapSeat};
ghost use Rattle.ref_share.specs.QueueSeats.{IsQueueSeat};
ghost use Rattle.std.specs.Mem.{FitsInMemory};
ghost use Rattle.thread_tests.specs.QueueRows.{queue_row};

use super::rows::{Call, OfHeap, OfQueue, Sending};
use super::told::{Told, Word, bare, counted, delivery, either, not, outs_told, refused, replied};
use super::waiting::waited;
use super::{M, Q, Seats, W, new_batch};
use ref_base::{
    Batch, Cause, Fault, HeapStep, MOST_IN_BATCH, Nos, Outs, Parcel, PlainStep, Reply, SlotNo,
    WorkerNo,
};
use ref_clear::Notice;
use ref_objects::Hold;
use ref_queue::{PolledBatch, Put};
use ref_share::{
    HeapSeat, Polled, QueueSeat, ShareFault, SharedHeap, SharedQueue, cycle, deliver_all,
    deliver_batch, deliver_one, end_batch, enqueue, make_or_collect,
};
use ref_turn::TurnFault;
use ref_world::{HeapAnswer, HeapCall, HeapReply};
use std::alloc::Allocator;
use std::process::Abort;
use std::sync::Wait;
use std::{mem, slice};

/// What the heap answered. What it gives out with that is given up.
pub fn stepped<A: Allocator>(answer: Result<HeapAnswer<A>, TurnFault<HeapCall<A>>>) -> Told {
    match answer {
        Ok(HeapReply::Told(reply)) => replied(reply.reply()),
        Ok(HeapReply::Notice(notice)) => {
            notice.into_hold().leak();
            bare(Word::Unknown)
        }
        Ok(HeapReply::Held(hold)) => {
            hold.leak();
            bare(Word::Unknown)
        }
        Ok(HeapReply::Back(fault, hold)) => held(hold, fault),
        Ok(HeapReply::Handed(_, batch)) => {
            end_batch(batch);
            bare(Word::Unknown)
        }
        Err(TurnFault::Busy(step)) => {
            spend(step);
            bare(Word::Busy)
        }
        Err(TurnFault::Spent(step)) => {
            spend(step);
            refused(Fault::TurnsSpent)
        }
    }
}

/// Gives up a step that was not made.
fn spend<A: Allocator>(step: HeapCall<A>) {
    match step {
        HeapStep::Adopt { hold, .. } | HeapStep::Release { hold } => hold.leak(),
        HeapStep::Hands { batch, .. } => {
            end_batch(batch);
        }
        _ => {}
    }
}

/// What a step was replied, or why it was not made.
pub fn reply_or_fault(answer: Result<Reply, Fault>) -> Told {
    match answer {
        Ok(reply) => replied(reply),
        Err(fault) => refused(fault),
    }
}

fn held(hold: Hold, fault: Fault) -> Told {
    let told = not(Word::NotReleased, hold.obj().0, fault);
    hold.leak();
    told
}

/// Why a call was refused. What came back is given up.
pub fn given_up(fault: ShareFault) -> Told {
    match fault {
        ShareFault::Refused(fault) => refused(fault),
        ShareFault::Busy => bare(Word::Busy),
        ShareFault::Notice(notice, fault) => {
            let no = notice.obj().0;
            notice.into_hold().leak();
            not(Word::NotPut, no, fault)
        }
        ShareFault::Held(hold, fault) => held(hold, fault),
    }
}

/// The heap takes the hold of a notice back, and this is answered.
fn released<R: Wait, A: Allocator + Copy>(
    rt: &R,
    heap: &SharedHeap<A>,
    seat: &mut HeapSeat<A>,
    notice: Notice,
    told: Told,
) -> Told
    requires { IsHeapSeat heap.now seat.old }
    ensures { IsHeapSeat heap.now seat.new }
{
    match heap.release(rt, seat, notice.into_hold()) {
        Ok(()) => told,
        Err((fault, hold)) => held(hold, fault),
    }
}

/// Why a call was refused. The heap takes the hold of a notice that came back.
pub fn refusal<R: Wait, A: Allocator + Copy>(
    rt: &R,
    heap: &SharedHeap<A>,
    seat: &mut HeapSeat<A>,
    fault: ShareFault,
) -> Told
    requires { IsHeapSeat heap.now seat.old }
    ensures { IsHeapSeat heap.now seat.new }
{
    match fault {
        ShareFault::Notice(notice, fault) => {
            let told = not(Word::NotPut, notice.obj().0, fault);
            released(rt, heap, seat, notice, told)
        }
        fault => given_up(fault),
    }
}

/// What a poll answered, and the notice that it took.
pub fn of_poll(answer: Result<Polled, ShareFault>) -> (Told, Option<Notice>) {
    match answer {
        Ok(Polled::Took(notice)) => (replied(Reply::Took(notice.obj())), Some(notice)),
        Ok(Polled::Empty) => (replied(Reply::Empty), None),
        Ok(Polled::Closed) => (replied(Reply::Closed), None),
        Ok(Polled::TimedOut) => (bare(Word::TimedOut), None),
        Err(fault) => (given_up(fault), None),
    }
}

/// What a poll answered. The heap takes the hold of what was taken.
fn polled<R: Wait, A: Allocator + Copy>(
    rt: &R,
    heap: &SharedHeap<A>,
    seat: &mut HeapSeat<A>,
    answer: Result<Polled, ShareFault>,
) -> Told
    requires { IsHeapSeat heap.now seat.old }
    ensures { IsHeapSeat heap.now seat.new }
{
    match of_poll(answer) {
        (told, Some(notice)) => released(rt, heap, seat, notice, told),
        (told, None) => told,
    }
}

/// A call of the heap alone.
pub fn of_heap<R: Wait, A: Allocator + Copy>(
    rt: &R,
    heap: &SharedHeap<A>,
    seat: &mut HeapSeat<A>,
    call: OfHeap,
) -> Told
    requires { IsHeapSeat heap.now seat.old }
    ensures { IsHeapSeat heap.now seat.new }
{
    match call {
        OfHeap::Try(step) => stepped(heap.try_call(seat, HeapStep::Plain(step))),
        OfHeap::Ask(step) => reply_or_fault(heap.ask(rt, seat, step)),
        OfHeap::Perform(step) => reply_or_fault(heap.perform(rt, seat, step)),
        OfHeap::Served => counted(Word::Served, heap.served(seat)),
    }
}

/// A call of the queue alone.
fn of_queue<R: Wait, A: Allocator + Copy>(
    rt: &R,
    heap: &SharedHeap<A>,
    queue: &SharedQueue<A>,
    seats: &mut Seats<A>,
    call: OfQueue,
) -> Told
    requires { IsHeapSeat heap.now seats.old.heap × IsQueueSeat queue.now seats.old.queue }
    ensures { IsHeapSeat heap.now seats.new.heap × IsQueueSeat queue.now seats.new.queue }
{
    match call {
        OfQueue::PollNow => {
            let answer = queue.poll_now(&mut seats.queue);
            polled(rt, heap, &mut seats.heap, answer)
        }
        OfQueue::Within(polls) => {
            let answer = queue.remove_within(rt, &mut seats.queue, polls);
            polled(rt, heap, &mut seats.heap, answer)
        }
        OfQueue::Wait => {
            let answer = queue.remove_wait(rt, &mut seats.queue);
            polled(rt, heap, &mut seats.heap, answer)
        }
        OfQueue::Until(until) => {
            let answer = waited(rt, queue, &mut seats.queue, until);
            polled(rt, heap, &mut seats.heap, answer)
        }
        OfQueue::Close => match queue.close(rt, &mut seats.queue) {
            Ok(answer) => either(answer, Word::WasOpen, Word::WasClosed),
            Err(fault) => refusal(rt, heap, &mut seats.heap, fault),
        },
        OfQueue::Served => counted(Word::Served, queue.served(&mut seats.queue)),
    }
}

/// An unhook of the reference in this slot, and a put of its notice.
fn put<R: Wait, A: Allocator + Copy>(
    rt: &R,
    heap: &SharedHeap<A>,
    queue: &SharedQueue<A>,
    seats: &mut Seats<A>,
    slot: u32,
) -> Told
    requires { IsHeapSeat heap.now seats.old.heap × IsQueueSeat queue.now seats.old.queue }
    ensures { IsHeapSeat heap.now seats.new.heap × IsQueueSeat queue.now seats.new.queue }
{
    let notice = match heap.unhook(rt, &mut seats.heap, M, SlotNo(slot)) {
        Ok(Some(notice)) => notice,
        Ok(None) => return replied(Reply::Nothing),
        Err(fault) => return refused(fault),
    };
    let no = notice.obj().0;
    let (back, told) = match queue.put(rt, &mut seats.queue, notice) {
        Ok(Put::Added(position)) => return replied(Reply::Added(position)),
        Ok(Put::Already(back)) => (back, replied(Reply::Already)),
        Ok(Put::Closed(back)) => (back, replied(Reply::Closed)),
        Err((fault, back)) => (back, not(Word::NotPut, no, fault)),
    };
    released(rt, heap, &mut seats.heap, back, told)
}

/// The references of the notices in a batch, which are given up with it.
fn emptied<A: Allocator>(batch: Batch<Notice, A>) -> Nos {
    let mut batch = batch;
    let mut numbers = Nos::new();
    while let Some(notice) = batch.take_first() {
        if numbers.as_slice().len() < MOST_IN_BATCH {
            numbers.push(notice.obj());
        }
        notice.into_hold().leak();
    }
    batch.end();
    numbers
}

/// What was answered, or why not, with what is left in the batch.
fn told_of<R: Wait, A: Allocator + Copy>(
    rt: &R,
    heap: &SharedHeap<A>,
    seat: &mut HeapSeat<A>,
    answer: Result<Told, ShareFault>,
    left: Batch<Notice, A>,
) -> Told
    requires { IsHeapSeat heap.now seat.old }
    ensures { IsHeapSeat heap.now seat.new }
{
    let left = emptied(left);
    match answer {
        Ok(told) => told.leaving(left),
        Err(fault) => refusal(rt, heap, seat, fault).leaving(left),
    }
}

/// A step that makes something, behind cycles where the heap is full.
fn made_or_collected<R: Wait, A: Allocator + Copy>(
    rt: &R,
    shared: (&SharedHeap<A>, &[SharedQueue<A>]),
    seat: &mut HeapSeat<A>,
    seats: &mut [QueueSeat<A>],
    step: PlainStep,
    now: u64,
    batch: Batch<Notice, A>,
) -> Told
    requires seats { IsHeapSeat shared.0.now seat.old × AreSeats shared.1.now seats.old }
    requires empty { batch ≡ [] }
    ensures { IsHeapSeat shared.entry.0.now seat.new × AreSeats shared.entry.1.now seats.new }
{
    let (answer, left) = make_or_collect(rt, shared.0, seat, shared.1, seats, W, now, step, batch);
    let left = emptied(left);
    match answer {
        Ok(reply) => reply_or_fault(Ok(reply)).leaving(left),
        Err(fault) => refusal(rt, shared.0, seat, fault).leaving(left),
    }
}

/// Makes a call for which these queues stand in lists, and tells what was answered.
pub fn sent<R: Wait, A: Allocator + Copy>(
    rt: &R,
    shared: (&SharedHeap<A>, &[SharedQueue<A>]),
    seat: &mut HeapSeat<A>,
    seats: &mut [QueueSeat<A>],
    sending: Sending,
    batch: Batch<Notice, A>,
) -> Told
    requires seats { IsHeapSeat shared.0.now seat.old × AreSeats shared.1.now seats.old }
    requires empty { batch ≡ [] }
    ensures { IsHeapSeat shared.entry.0.now seat.new × AreSeats shared.entry.1.now seats.new }
{
    match sending {
        Sending::Enqueue(slot) => {
            let answer = enqueue(rt, shared.0, seat, shared.1, seats, M, SlotNo(slot));
            let told = answer.map(|answer| either(answer, Word::Enqueued, Word::NotEnqueued));
            told_of(rt, shared.0, seat, told, batch)
        }
        Sending::One(worker) => {
            let answer = deliver_one(rt, shared.0, seat, shared.1, seats, WorkerNo(worker));
            let told = answer.map(|answer| delivery(answer));
            told_of(rt, shared.0, seat, told, batch)
        }
        Sending::Batch(worker, max) => {
            let worker = WorkerNo(worker);
            let (answer, left) = deliver_batch(
                rt, shared.0, seat, shared.1, seats, worker, max, batch,
            );
            let told = answer.map(|outs| outs_told(outs));
            told_of(rt, shared.0, seat, told, left)
        }
        Sending::All(worker) => {
            let worker = WorkerNo(worker);
            let (answer, left) = deliver_all(rt, shared.0, seat, shared.1, seats, worker, batch);
            let told = answer.map(|()| replied(Reply::Done));
            told_of(rt, shared.0, seat, told, left)
        }
        Sending::Cycle(worker, now, urgency) => {
            let worker = WorkerNo(worker);
            let (answer, left) = cycle(
                rt, shared.0, seat, shared.1, seats, worker, now, urgency, batch,
            );
            let told = answer.map(|()| replied(Reply::Done));
            told_of(rt, shared.0, seat, told, left)
        }
        Sending::MakeOrCollect(step, now) => {
            made_or_collected(rt, shared, seat, seats, step, now, batch)
        }
    }
}

/// Makes such a call with the one queue in the lists.
pub fn sent_to<R: Wait, A: Allocator + Copy>(
    rt: &R,
    heap: &SharedHeap<A>,
    queue: &SharedQueue<A>,
    seats: &mut Seats<A>,
    sending: Sending,
    batch: Batch<Notice, A>,
) -> Told
    requires seats { IsHeapSeat heap.now seats.old.heap × IsQueueSeat queue.now seats.old.queue }
    requires empty { batch ≡ [] }
    requires fits { FitsInMemory (queue_row A.row A.Allocator A.Clone) }
    ensures { IsHeapSeat heap.now seats.new.heap × IsQueueSeat queue.now seats.new.queue }
{
    let queues = slice::from_ref(queue);
    let own = slice::from_mut(&mut seats.queue);
    sent(rt, (heap, queues), &mut seats.heap, own, sending, batch)
}

/// Makes such a call through a second seat of the queue, which is joined then.
fn sent_apart<R: Wait, A: Allocator + Copy>(
    rt: &R,
    heap: &SharedHeap<A>,
    queue: &SharedQueue<A>,
    seats: &mut Seats<A>,
    sending: Sending,
    batch: Batch<Notice, A>,
) -> Told
    requires seats { IsHeapSeat heap.now seats.old.heap × IsQueueSeat queue.now seats.old.queue }
    requires empty { batch ≡ [] }
    requires fits { FitsInMemory (queue_row A.row A.Allocator A.Clone) }
    ensures { IsHeapSeat heap.now seats.new.heap × IsQueueSeat queue.now seats.new.queue }
{
    let second = queue.split(&mut seats.queue);
    let first = mem::replace(&mut seats.queue, second);
    let told = sent_to(rt, heap, queue, seats, sending, batch);
    let second = mem::replace(&mut seats.queue, first);
    queue.join(&mut seats.queue, second);
    told
}

/// Makes such a call with no queue in the lists.
pub fn sent_nowhere<R: Wait, A: Allocator + Copy>(
    rt: &R,
    heap: &SharedHeap<A>,
    seat: &mut HeapSeat<A>,
    sending: Sending,
    batch: Batch<Notice, A>,
) -> Told
    requires seat { IsHeapSeat heap.now seat.old }
    requires empty { batch ≡ [] }
    ensures { IsHeapSeat heap.now seat.new }
{
    let queues: [SharedQueue<A>; 0] = [];
    let mut seats: [QueueSeat<A>; 0] = [];
    sent(rt, (heap, &queues), seat, &mut seats, sending, batch)
}

/// A hand of so many at most, and a put of what it gives.
fn handed_and_put<R: Wait, A: Allocator + Copy>(
    rt: &R,
    heap: &SharedHeap<A>,
    queue: &SharedQueue<A>,
    seats: &mut Seats<A>,
    max: u32,
    batch: Batch<Notice, A>,
) -> Told
    requires { IsHeapSeat heap.now seats.old.heap × IsQueueSeat queue.now seats.old.queue }
    ensures { IsHeapSeat heap.now seats.new.heap × IsQueueSeat queue.now seats.new.queue }
{
    let (given, batch) = heap.hand_batch(rt, &mut seats.heap, W, max, batch);
    match given {
        Ok(Some(handed)) if handed.queue == Q => {
            let (answer, batch) = queue.put_batch(rt, &mut seats.queue, batch);
            let left = emptied(batch);
            match answer {
                Ok(outs) => outs_told(Some(outs)).leaving(left),
                Err(fault) => refused(fault).leaving(left),
            }
        }
        Ok(Some(_)) => bare(Word::Unknown).leaving(emptied(batch)),
        Ok(None) => replied(Reply::Nothing).leaving(emptied(batch)),
        Err(fault) => refused(fault).leaving(emptied(batch)),
    }
}

/// That a poll took these, if it is they that came in the batch.
fn of_taken(taken: Nos, left: Nos) -> Told {
    if taken == left {
        replied(Reply::TookSome(left))
    } else {
        bare(Word::Unknown).leaving(left)
    }
}

/// What a poll answered, where these came in the batch.
fn of_poll_batch(polled: PolledBatch, left: Nos) -> Told {
    match polled {
        PolledBatch::Took(taken) => of_taken(taken, left),
        PolledBatch::Empty => replied(Reply::Empty).leaving(left),
        PolledBatch::Closed => replied(Reply::Closed).leaving(left),
    }
}

/// A poll of so many at most. What was taken is given up.
fn polled_batch<A: Allocator + Copy>(
    queue: &SharedQueue<A>,
    seat: &mut QueueSeat<A>,
    max: u32,
    batch: Batch<Notice, A>,
) -> Told
    requires { IsQueueSeat queue.now seat.old }
    ensures { IsQueueSeat queue.now seat.new }
{
    let (answer, batch) = queue.poll_batch_now(seat, max, batch);
    let left = emptied(batch);
    match answer {
        Ok(polled) => of_poll_batch(polled, left),
        Err(fault) => given_up(fault).leaving(left),
    }
}

/// Makes a call, and tells what was answered.
pub fn answer<R: Wait + Abort, A: Allocator + Copy>(
    rt: &R,
    heap: &SharedHeap<A>,
    queue: &SharedQueue<A>,
    seats: &mut Seats<A>,
    call: Call,
) -> Told
    requires seats { IsHeapSeat heap.now seats.old.heap × IsQueueSeat queue.now seats.old.queue }
    requires fits { FitsInMemory (queue_row A.row A.Allocator A.Clone) }
    ensures { IsHeapSeat heap.now seats.new.heap × IsQueueSeat queue.now seats.new.queue }
{
    let alloc = seats.alloc;
    match call {
        Call::Heap(call) => of_heap(rt, heap, &mut seats.heap, call),
        Call::Queue(call) => of_queue(rt, heap, queue, seats, call),
        Call::Put(slot) => put(rt, heap, queue, seats, slot),
        Call::Send(sending) => sent_to(rt, heap, queue, seats, sending, new_batch(rt, alloc)),
        Call::SendApart(sending) => {
            sent_apart(rt, heap, queue, seats, sending, new_batch(rt, alloc))
        }
        Call::SendNowhere(sending) => {
            sent_nowhere(rt, heap, &mut seats.heap, sending, new_batch(rt, alloc))
        }
        Call::HandAndPut(max) => {
            handed_and_put(rt, heap, queue, seats, max, new_batch(rt, alloc))
        }
        Call::PollBatch(max) => { polled_batch(queue, &mut seats.queue, max, new_batch(rt, alloc)) }
        Call::Clean(_) => bare(Word::Unknown),
    }
}
