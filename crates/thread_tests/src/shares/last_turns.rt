//! Two threads at the last turn of a heap, and of a queue: the one that comes second is told that none is left, also
//! where the other's turn is still open.

ghost use Rattle.ref_share.specs.HeapSeats.{IsHeapSeat};
ghost use Rattle.ref_share.specs.QueueSeats.{IsQueueSeat};

use super::calls::{of_poll, stepped};
use super::rows::new;
use super::told::Told;
use super::{CONFIG, Q};
use ref_base::{HeapStep, Parcel};
use ref_share::{HeapSeat, QueueSeat, SharedHeap, SharedQueue, end_queue};
use std::alloc::Global;
use std::process::Abort;
use std::sync::Wait;
use std::thread;
use std::thread::Threads;

/// How often two threads meet there.
const ROUNDS: u32 = 100;

/// A try to make an object.
fn tried(heap: &SharedHeap, mut seat: HeapSeat) -> Told
    requires { IsHeapSeat heap.now seat }
{
    stepped(heap.try_call(&mut seat, HeapStep::Plain(new(0))))
}

/// A poll.
fn polled(queue: &SharedQueue, mut seat: QueueSeat) -> Told
    requires { IsQueueSeat queue.now seat }
{
    let (told, taken) = of_poll(queue.poll_now(&mut seat));
    if let Some(notice) = taken {
        notice.into_hold().leak();
    }
    told
}

/// What two threads are told that try the heap at its last turn.
fn both_try<R: Threads + Wait + Abort + Sync>(rt: &R, alloc: Global) -> (Told, Told) {
    let Ok((heap, mut left)) = SharedHeap::starting(alloc, CONFIG, 0, u64::MAX - 1) else {
        panic!(rt; "there is no heap");
    };
    let right = heap.split(&mut left);
    tried_by_both(rt, &heap, left, right)
}

fn tried_by_both<R: Threads + Wait + Sync>(
    rt: &R,
    heap: &SharedHeap,
    left: HeapSeat,
    right: HeapSeat,
) -> (Told, Told)
    requires left { IsHeapSeat heap.now left }
    requires right { IsHeapSeat heap.now right }
{
    thread::join(
        rt,
        ||
            requires { IsHeapSeat heap.now left }
        { tried(heap, left) },
        ||
            requires { IsHeapSeat heap.now right }
        { tried(heap, right) },
    )
}

/// What two threads are told that poll the queue at its last turn.
fn both_poll<R: Threads + Wait + Abort + Sync>(rt: &R, alloc: Global) -> (Told, Told) {
    let Ok((queue, mut seat)) = SharedQueue::starting(alloc, Q, u64::MAX - 1) else {
        panic!(rt; "there is no queue");
    };
    let left = queue.split(&mut seat);
    let right = queue.split(&mut seat);
    let told = polled_by_both(rt, &queue, left, right);
    end_queue(queue.finish(seat));
    told
}

fn polled_by_both<R: Threads + Wait + Sync>(
    rt: &R,
    queue: &SharedQueue,
    left: QueueSeat,
    right: QueueSeat,
) -> (Told, Told)
    requires left { IsQueueSeat queue.now left }
    requires right { IsQueueSeat queue.now right }
{
    thread::join(
        rt,
        ||
            requires { IsQueueSeat queue.now left }
        { polled(queue, left) },
        ||
            requires { IsQueueSeat queue.now right }
        { polled(queue, right) },
    )
}

/// The one was answered this, and the other told that no turn is left.
fn one_came_second(rt: &impl Abort, alloc: Global, left: Told, right: Told, want: &str) {
    let none = "refused: TurnsSpent";
    assert!(rt;
        left.is(alloc, want) && right.is(alloc, none)
            || left.is(alloc, none) && right.is(alloc, want),
        "{left}, {right}"
    );
}

/// Two threads meet at the last turn of a heap, and of a queue.
fn meet<R: Threads + Wait + Sync + Abort>(rt: &R, alloc: Global) {
    let (left, right) = both_try(rt, alloc);
    one_came_second(rt, alloc, left, right, "object 1");
    let (left, right) = both_poll(rt, alloc);
    one_came_second(rt, alloc, left, right, "empty");
}

#[test]
fn at_the_last_turn_of_a_heap_or_a_queue_one_comes_second(rt: HostRuntime) {
    for _ in 0..ROUNDS {
        meet(&rt, rt.alloc());
    }
}
