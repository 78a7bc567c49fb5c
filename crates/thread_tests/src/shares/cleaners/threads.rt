//! Threads that run the jobs of what is gone.

ghost use Rattle.ref_share.specs.CleanSeats.{IsCleanSeat};
ghost use Rattle.ref_share.specs.HeapSeats.{IsHeapSeat};
ghost use Rattle.ref_share.specs.QueueSeats.{IsQueueSeat};

use super::acts::{Chair, Shared, run_jobs};
use super::hearing::Hearing;
use super::{Story, do_all};
use crate::shares::told::{Told, Word};
use crate::shares::{Seats, make_calls};
use ref_queue::Job;
use ref_share::{CleanSeat, SharedCleaner, SharedHeap, SharedQueue};
use std::collections::VecDeque;
use std::process::Abort;
use std::sync::Wait;
use std::thread;
use std::thread::Threads;

/// What a thread that runs the jobs of what is gone uses beside the cleaner.
#[derive(Drop)]
struct Beside<'a> {
    heap: &'a SharedHeap,
    queue: &'a SharedQueue,
    seats: Seats,
    hearing: &'a Hearing,
}

/// Runs the jobs of what is gone, until the queue is closed.
fn ended<R: Wait>(rt: &R, cleaner: &SharedCleaner, seat: CleanSeat, beside: Beside) -> Told
    requires cleaner { IsCleanSeat cleaner.now seat }
    requires beside { IsHeapSeat beside.heap.now beside.seats.heap
        × IsQueueSeat beside.queue.now beside.seats.queue }
{
    let Beside {
        heap,
        queue,
        seats,
        hearing,
    } = beside;
    let mut chair = Chair {
        seats,
        cleaner: seat,
    };
    let shared = Shared {
        heap,
        queue,
        cleaner,
    };
    run_jobs(rt, shared, &mut chair, hearing, true)
}

/// Seats for one thread more.
fn split(shared: Shared, chair: &mut Chair) -> Chair
    requires { IsHeapSeat shared.heap.now chair.old.seats.heap
        × IsQueueSeat shared.queue.now chair.old.seats.queue
        × IsCleanSeat shared.cleaner.now chair.old.cleaner }
    ensures old { IsHeapSeat shared.entry.heap.now chair.new.seats.heap
        × IsQueueSeat shared.entry.queue.now chair.new.seats.queue
        × IsCleanSeat shared.entry.cleaner.now chair.new.cleaner }
    ensures new { IsHeapSeat shared.entry.heap.now result.seats.heap
        × IsQueueSeat shared.entry.queue.now result.seats.queue
        × IsCleanSeat shared.entry.cleaner.now result.cleaner }
{
    let seats = Seats {
        heap: shared.heap.split(&mut chair.seats.heap),
        queue: shared.queue.split(&mut chair.seats.queue),
        alloc: chair.seats.alloc,
    };
    Chair {
        seats,
        cleaner: shared.cleaner.split(&mut chair.cleaner),
    }
}

/// Calls the first with what it is given, in a thread of its own, and the second meanwhile.
fn join_given<
    R: Threads,
    A: Send + Drop,
    B: Send + Drop,
    C: Send + Drop,
    T: Send + Drop,
    U: Drop,
    F: FnOnce(A, B, C) -> T + Send,
    G: FnOnce() -> U,
>(rt: &R, one: A, other: B, third: C, first: F, second: G) -> (T, U)
    requires first { F.pre first one other third }
    requires second { G.pre second }
{
    thread::join(
        rt,
        || -> T
            requires { F.pre first one other third }
        { first(one, other, third) },
        second,
    )
}

/// Runs the jobs of what is gone in a thread of its own, until the queue is closed, and calls the other meanwhile.
fn beside_loop<R: Threads + Wait + Sync, U: Drop, G: FnOnce() -> U>(
    rt: &R,
    cleaner: &SharedCleaner,
    seat: CleanSeat,
    beside: Beside,
    other: G,
) -> (Told, U)
    requires seat { IsCleanSeat cleaner.now seat }
    requires beside { IsHeapSeat beside.heap.now beside.seats.heap
        × IsQueueSeat beside.queue.now beside.seats.queue }
    requires other { G.pre other }
{
    join_given(
        rt,
        cleaner,
        seat,
        beside,
        |cleaner: &SharedCleaner, seat: CleanSeat, beside: Beside| -> Told
            requires cleaner { IsCleanSeat cleaner.now seat }
            requires beside { IsHeapSeat beside.heap.now beside.seats.heap
                × IsQueueSeat beside.queue.now beside.seats.queue }
        { ended(rt, cleaner, seat, beside) },
        other,
    )
}

/// What a third thread does while two run jobs: calls of heap and queue, and then, while job 1 waits at its gate, what
/// is to be answered before that goes on.
fn do_meanwhile<R: Wait + Abort>(
    rt: &R,
    shared: Shared,
    chair: Chair,
    jobs: &mut VecDeque<Job>,
    hearing: &Hearing,
    story: &Story,
)
    requires { IsHeapSeat shared.heap.now chair.seats.heap
        × IsQueueSeat shared.queue.now chair.seats.queue
        × IsCleanSeat shared.cleaner.now chair.cleaner }
{
    let mut chair = chair;
    make_calls(
        rt,
        shared.heap,
        shared.queue,
        &mut chair.seats,
        story.meanwhile,
    );
    assert!(rt; hearing.is_reached(), "job 1 is at its gate");
    do_all(rt, shared, &mut chair, jobs, hearing, story.held);
    hearing.open();
}

/// One thread runs the jobs of what is gone, while this one does what a story tells.
fn one_beside<R: Threads + Wait + Abort + Sync>(
    rt: &R,
    shared: Shared,
    loops: Chair,
    chair: Chair,
    jobs: &mut VecDeque<Job>,
    hearing: &Hearing,
    story: &Story,
) -> Told
    requires loops { IsHeapSeat shared.heap.now loops.seats.heap
        × IsQueueSeat shared.queue.now loops.seats.queue
        × IsCleanSeat shared.cleaner.now loops.cleaner }
    requires chair { IsHeapSeat shared.heap.now chair.seats.heap
        × IsQueueSeat shared.queue.now chair.seats.queue
        × IsCleanSeat shared.cleaner.now chair.cleaner }
{
    let beside = Beside {
        heap: shared.heap,
        queue: shared.queue,
        seats: loops.seats,
        hearing,
    };
    let (told, ()) = beside_loop(
        rt,
        shared.cleaner,
        loops.cleaner,
        beside,
        ||
            requires { IsHeapSeat shared.heap.now chair.seats.heap
                × IsQueueSeat shared.queue.now chair.seats.queue
                × IsCleanSeat shared.cleaner.now chair.cleaner }
        { do_meanwhile(rt, shared, chair, jobs, hearing, story) },
    );
    told
}

/// Two threads run the jobs of what is gone, so many in all, while a third does what a story tells.
pub fn clean_meanwhile<R: Threads + Wait + Abort + Sync>(
    rt: &R,
    shared: Shared,
    chair: &mut Chair,
    jobs: &mut VecDeque<Job>,
    hearing: &Hearing,
    story: &Story,
)
    requires { IsHeapSeat shared.heap.now chair.old.seats.heap
        × IsQueueSeat shared.queue.now chair.old.seats.queue
        × IsCleanSeat shared.cleaner.now chair.old.cleaner }
    ensures { IsHeapSeat shared.entry.heap.now chair.new.seats.heap
        × IsQueueSeat shared.entry.queue.now chair.new.seats.queue
        × IsCleanSeat shared.entry.cleaner.now chair.new.cleaner }
{
    let left = split(shared, chair);
    let right = split(shared, chair);
    let third = split(shared, chair);
    let beside = Beside {
        heap: shared.heap,
        queue: shared.queue,
        seats: left.seats,
        hearing,
    };
    let (first, second) = beside_loop(
        rt,
        shared.cleaner,
        left.cleaner,
        beside,
        || -> Told
            requires right { IsHeapSeat shared.heap.now right.seats.heap
                × IsQueueSeat shared.queue.now right.seats.queue
                × IsCleanSeat shared.cleaner.now right.cleaner }
            requires third { IsHeapSeat shared.heap.now third.seats.heap
                × IsQueueSeat shared.queue.now third.seats.queue
                × IsCleanSeat shared.cleaner.now third.cleaner }
        { one_beside(rt, shared, right, third, jobs, hearing, story) },
    );
    match (
        first.number_of(Word::RanJobs),
        second.number_of(Word::RanJobs),
    ) {
        (Some(one), Some(other)) => {
            assert!(rt; one.checked_add(other) == Some(story.count), "jobs in all");
        }
        _ => assert!(rt; false, "{first}, {second}"),
    }
}
