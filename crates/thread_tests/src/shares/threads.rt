//! Threads that wait for a shared queue.

ghost use Rattle.ref_share.specs.HeapSeats.{IsHeapSeat};
ghost use Rattle.ref_share.specs.QueueSeats.{IsQueueSeat};

use super::calls::answer;
use super::rows::{Call, OfQueue};
use super::stories::TWO_REFERENCES;
use super::told::Told;
use super::{DEATH, Left, NOTHING, STARTS, Seats, end, make_calls, start};
use ref_share::{QueueSeat, SharedHeap, SharedQueue};
use std::alloc::Global;
use std::process::Abort;
use std::sync::Wait;
use std::thread;
use std::thread::Threads;

/// Waits for a notice.
const WAIT: Call = Call::Queue(OfQueue::Wait);

/// One call, by a thread of its own.
fn told<R: Wait + Abort>(
    rt: &R,
    heap: &SharedHeap,
    queue: &SharedQueue,
    mut seats: Seats,
    call: Call,
) -> (Told, Seats)
    requires { IsHeapSeat heap.now seats.heap × IsQueueSeat queue.now seats.queue }
    ensures { IsHeapSeat heap.now result.1.heap × IsQueueSeat queue.now result.1.queue }
{
    let told = answer(rt, heap, queue, &mut seats, call);
    (told, seats)
}

/// Whether so many turns of the queue end, within 1,000,000 looks.
fn has_served(queue: &SharedQueue, seat: &mut QueueSeat, turns: u64) -> bool
    requires { IsQueueSeat queue.now seat.old }
    ensures { IsQueueSeat queue.now seat.new }
{
    for _ in 0..1_000_000 {
        if queue.served(seat) >= turns {
            return true;
        }
        thread::yield_now();
    }
    false
}

/// The story's calls, each of which has its answer, once two turns of the queue have ended.
fn make_calls_later<R: Wait + Abort>(
    rt: &R,
    heap: &SharedHeap,
    queue: &SharedQueue,
    mut seats: Seats,
    story: (&str, &str),
)
    requires { IsHeapSeat heap.now seats.heap × IsQueueSeat queue.now seats.queue }
{
    assert!(rt; has_served(queue, &mut seats.queue, 2), "two have polled");
    make_calls(rt, heap, queue, &mut seats, story.0);
    make_calls(rt, heap, queue, &mut seats, story.1);
}

/// Two threads that wait for the queue; and what they are told.
fn both_told<R: Threads + Wait + Abort + Sync>(
    rt: &R,
    heap: &SharedHeap,
    queue: &SharedQueue,
    left: Seats,
    right: Seats,
) -> (Told, Told, Seats)
    requires left { IsHeapSeat heap.now left.heap × IsQueueSeat queue.now left.queue }
    requires right { IsHeapSeat heap.now right.heap × IsQueueSeat queue.now right.queue }
    ensures { IsHeapSeat heap.now result.2.heap × IsQueueSeat queue.now result.2.queue }
{
    let ((first, mut seats), (second, other)) = thread::join(
        rt,
        ||
            requires { IsHeapSeat heap.now left.heap × IsQueueSeat queue.now left.queue }
            ensures { IsHeapSeat heap.entry.now result.1.heap × IsQueueSeat queue.entry.now result.1.queue }
        { told(rt, heap, queue, left, WAIT) },
        ||
            requires { IsHeapSeat heap.now right.heap × IsQueueSeat queue.now right.queue }
            ensures { IsHeapSeat heap.entry.now result.1.heap × IsQueueSeat queue.entry.now result.1.queue }
        { told(rt, heap, queue, right, WAIT) },
    );
    joined(heap, queue, &mut seats, other);
    (first, second, seats)
}

/// Seats for one thread more.
fn split(heap: &SharedHeap, queue: &SharedQueue, seats: &mut Seats) -> Seats
    requires { IsHeapSeat heap.now seats.old.heap × IsQueueSeat queue.now seats.old.queue }
    ensures old { IsHeapSeat heap.now seats.new.heap × IsQueueSeat queue.now seats.new.queue }
    ensures new { IsHeapSeat heap.now result.heap × IsQueueSeat queue.now result.queue }
{
    Seats {
        heap: heap.split(&mut seats.heap),
        queue: queue.split(&mut seats.queue),
        alloc: seats.alloc,
    }
}

/// Takes the seats of a thread in.
fn joined(heap: &SharedHeap, queue: &SharedQueue, seats: &mut Seats, other: Seats)
    requires own { IsHeapSeat heap.now seats.old.heap × IsQueueSeat queue.now seats.old.queue }
    requires other { IsHeapSeat heap.now other.heap × IsQueueSeat queue.now other.queue }
    ensures { IsHeapSeat heap.now seats.new.heap × IsQueueSeat queue.now seats.new.queue }
{
    heap.join(&mut seats.heap, other.heap);
    queue.join(&mut seats.queue, other.queue);
}

/// Two threads that wait for the queue, while a third makes the story's calls; and what the two are told.
fn told_meanwhile<R: Threads + Wait + Abort + Sync>(
    rt: &R,
    heap: &SharedHeap,
    queue: &SharedQueue,
    mut own: Seats,
    story: (&str, &str),
) -> (Told, Told, Seats)
    requires { IsHeapSeat heap.now own.heap × IsQueueSeat queue.now own.queue }
    ensures { IsHeapSeat heap.now result.2.heap × IsQueueSeat queue.now result.2.queue }
{
    let left = split(heap, queue, &mut own);
    let right = split(heap, queue, &mut own);
    let (told, ()) = thread::join(
        rt,
        ||
            requires left { IsHeapSeat heap.now left.heap × IsQueueSeat queue.now left.queue }
            requires right { IsHeapSeat heap.now right.heap × IsQueueSeat queue.now right.queue }
            ensures { IsHeapSeat heap.entry.now result.2.heap × IsQueueSeat queue.entry.now result.2.queue }
        { both_told(rt, heap, queue, left, right) },
        ||
            requires { IsHeapSeat heap.now own.heap × IsQueueSeat queue.now own.queue }
        { make_calls_later(rt, heap, queue, own, story) },
    );
    told
}

/// The story's calls, made while two threads wait; these are told this, one the one and one the other.
fn agree_while_two_wait<R: Threads + Wait + Abort + Sync>(
    rt: &R,
    alloc: Global,
    story: (&str, &str),
    (one, other): (&str, &str),
    left: Left,
) {
    let (heap, queue, seats) = start(rt, alloc, STARTS);
    let (first, second, seats) = told_meanwhile(rt, &heap, &queue, seats, story);
    assert!(rt;
        first.is(alloc, one) && second.is(alloc, other)
            || second.is(alloc, one) && first.is(alloc, other),
        "{first}, {second}"
    );
    end(rt, alloc, heap, queue, seats, left);
}

#[test]
fn who_waits_is_told_what_comes_or_of_the_close(rt: HostRuntime) {
    let alloc = rt.alloc();
    // A close wakes all that wait.
    let story = ("close : was open", "");
    agree_while_two_wait(&rt, alloc, story, ("closed", "closed"), NOTHING);
    // What is put later goes to those that wait.
    let calls = "deliver_one 0 : delivered 2 0 0; deliver_one 0 : delivered 3 0 1";
    let (story, told) = ((DEATH, calls), ("took 2", "took 3"));
    agree_while_two_wait(&rt, alloc, story, told, (&[2, 3], &[]));
    // Who waits for more than comes is told of the close.
    let calls = "enqueue 1 : enqueued; close : was open";
    let (story, told) = ((TWO_REFERENCES, calls), ("took 2", "closed"));
    agree_while_two_wait(&rt, alloc, story, told, (&[2], &[]));
}
