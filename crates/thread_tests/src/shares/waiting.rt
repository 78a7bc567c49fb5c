//! Waits for a queue that may end before it is closed: after a time, or by a stop.

ghost use Rattle.ref_share.specs.QueueSeats.{IsQueueSeat};

use super::calls::of_poll;
use super::rows::Until;
use super::stories::FIVE_REFERENCES;
use super::told::{Told, expect, refused};
use super::{CONFIG, M, NOTHING, Q, STARTS, agree, queue_from};
use ref_base::{Fault, Parcel, SlotNo, Strength};
use ref_share::{
    HeapUser, Polled, QueueSeat, QueueUser, ShareFault, SharedHeap, SharedQueue, Stop, end_queue,
};
use std::alloc::{Allocator, Global};
use std::process::Abort;
use std::sync::Wait;
use std::sync::atomic::{AtomicU64, Ordering};
use std::thread::Threads;
use std::time::{Clock, Duration, Instant};
use std::{io, thread};

/// A handle whose clock goes on by a second each time it is read, or can't be read.
#[derive(Drop)]
struct Ticking<'a, R> {
    rt: &'a R,
    reads: AtomicU64,
    is_broken: bool,
}

impl<R: Wait> Wait for Ticking<'_, R> {}

impl<R> Clock for Ticking<'_, R> {
    fn monotonic(&self) -> io::Result<Duration> {
        if self.is_broken {
            return Err(io::Error::from(io::ErrorKind::Unsupported));
        }
        Ok(Duration::from_secs(self.reads.fetch_add(1, Ordering::SeqCst)))
    }

    fn since_1970(&self) -> io::Result<Duration> {
        self.monotonic()
    }
}

/// An hour, in seconds.
const HOUR: u64 = 3_600;

/// Makes an object in slot 0 and a weak reference to it, 2, in slot 1, and enqueues that.
fn put_one<R: Wait>(
    rt: &R,
    heap: &mut HeapUser<'_>,
    queue: &mut QueueUser<'_>,
) -> Result<bool, Fault> {
    let (object, reference) = (SlotNo(0), SlotNo(1));
    heap.make(rt, object, 0)?;
    heap.refer(rt, Strength::Weak, reference, object, Some(Q))?;
    Ok(heap.enqueue_to(rt, reference, queue)?)
}

/// Waits for the queue, and for nothing else where it stays empty.
pub fn waited<R: Wait, A: Allocator + Copy>(
    rt: &R,
    queue: &SharedQueue<A>,
    seat: &mut QueueSeat<A>,
    until: Until,
) -> Result<Polled, ShareFault>
    requires { IsQueueSeat queue.now seat.old }
    ensures { IsQueueSeat queue.now seat.new }
{
    match until {
        Until::Seconds(limit) => wait_by(rt, queue, seat, false, u64::from(limit)),
        Until::Unread => wait_by(rt, queue, seat, true, HOUR),
        Until::Stop(is_set) => {
            let stop = Stop::new();
            if is_set {
                stop.set();
            }
            queue.remove_unless(rt, seat, &stop)
        }
    }
}

/// Waits by a clock, which may be broken, so many seconds at most.
fn wait_by<R: Wait, A: Allocator + Copy>(
    rt: &R,
    queue: &SharedQueue<A>,
    seat: &mut QueueSeat<A>,
    is_broken: bool,
    limit: u64,
) -> Result<Polled, ShareFault>
    requires { IsQueueSeat queue.now seat.old }
    ensures { IsQueueSeat queue.now seat.new }
{
    let reads = AtomicU64::new(0);
    let ticking = Ticking {
        rt,
        reads,
        is_broken,
    };
    queue.remove_for(&ticking, seat, Duration::from_secs(limit))
}

/// What a wait is told. The hold of a notice is given up.
fn told_of(answer: Result<Polled, ShareFault>) -> Told {
    match of_poll(answer) {
        (told, Some(notice)) => {
            notice.into_hold().leak();
            told
        }
        (told, None) => told,
    }
}

/// Each clock is read once before the first poll, and once more behind each poll in vain.
#[test]
fn a_wait_polls_once_at_least_and_ends_by_its_limit_or_its_stop(rt: HostRuntime) {
    let alloc = rt.alloc();
    let in_vain = "
        remove_for 0 : timed out; served : served 1; remove_for 1 : timed out; served : served 2
        remove_for 5 : timed out; served : served 7; remove_for_unread : timed out; served : served 8
        remove_unless_set : timed out; served : served 9";
    agree(&rt, alloc, STARTS, in_vain, "", NOTHING);
    // What stands is taken by the first poll, and behind a close, too.
    let calls = "
        enqueue 1 : enqueued; remove_for 0 : took 2; enqueue 2 : enqueued; remove_for 5 : took 3
        enqueue 3 : enqueued; remove_for_unread : took 4; enqueue 4 : enqueued; remove_unless_set : took 5
        enqueue 5 : enqueued; remove_unless : took 6; served : served 10
        remove_for 5 : timed out; close : was open; remove_for 5 : closed; remove_for_unread : closed
        remove_unless_set : closed; remove_unless : closed; served : served 20";
    let five = &[2, 3, 4, 5, 6];
    agree(&rt, alloc, STARTS, FIVE_REFERENCES, calls, (five, &[]));
    let calls = "
        enqueue 1 : enqueued; enqueue 2 : enqueued; close : was open; remove_for 0 : took 2
        remove_unless : took 3; remove_unless_set : closed; served : served 6";
    agree(&rt, alloc, STARTS, FIVE_REFERENCES, calls, (&[2, 3], &[]));
    // No turn is left.
    let calls = "
        remove_for 5 : refused: TurnsSpent; remove_for_unread : refused: TurnsSpent
        remove_unless_set : refused: TurnsSpent; remove_unless : refused: TurnsSpent";
    agree(&rt, alloc, queue_from(u64::MAX), calls, "", NOTHING);
}

/// Whether that many turns of the queue end, within 1,000,000 looks.
fn has_served(queue: &mut QueueUser<'_>, turns: u64) -> bool {
    for _ in 0..1_000_000 {
        if queue.served() >= turns {
            return true;
        }
        thread::yield_now();
    }
    false
}

/// The first waits unless the stop is set, and then enqueues reference 2. The second waits unless another stop is set.
fn both_wait<R: Threads + Wait + Sync>(
    rt: &R,
    heap: HeapUser,
    first: QueueUser,
    second: QueueUser,
    stop: &Stop,
) -> (Told, Told) {
    thread::join(
        rt,
        || -> Told { told_and_puts(rt, heap, first, stop) },
        || -> Told { told_unless(rt, second, &Stop::new()) },
    )
}

fn told_unless<R: Wait>(rt: &R, mut queue: QueueUser, stop: &Stop) -> Told {
    told_of(queue.remove_unless(rt, stop))
}

fn told_and_puts<R: Wait>(rt: &R, mut heap: HeapUser, mut queue: QueueUser, stop: &Stop) -> Told {
    let told = told_of(queue.remove_unless(rt, stop));
    match put_one(rt, &mut heap, &mut queue) {
        Ok(_) => told,
        Err(fault) => refused(fault),
    }
}

/// Sets the stop once both others have polled ten times, and sleep.
fn stop_sleepers<R: Wait + Abort>(rt: &R, mut queue: QueueUser, stop: &Stop) {
    assert!(rt; has_served(&mut queue, 20), "two have polled");
    queue.stop(rt, stop);
}

fn stop_one<R: Threads + Wait + Abort + Sync>(
    rt: &R,
    heap: HeapUser,
    mut queue: QueueUser,
) -> (Told, Told) {
    let stop = Stop::new();
    let (first, second) = (queue.split(), queue.split());
    let (told, ()) = thread::join(
        rt,
        || -> (Told, Told) { both_wait(rt, heap, first, second, &stop) },
        || { stop_sleepers(rt, queue, &stop) },
    );
    told
}

/// Waits for an hour at most, while another thread enqueues once this one sleeps.
fn told_within_an_hour<R: Threads + Wait + Clock + Abort + Sync>(
    rt: &R,
    heap: HeapUser,
    mut queue: QueueUser,
) -> Told {
    let other = queue.split();
    let (told, ()) = thread::join(
        rt,
        || -> Told { told_of(queue.remove_for(rt, Duration::from_secs(HOUR))) },
        || { put_later(rt, heap, other) },
    );
    told
}

fn put_later<R: Wait + Abort>(rt: &R, mut heap: HeapUser, mut queue: QueueUser) {
    assert!(rt; has_served(&mut queue, 10), "one has polled");
    assert!(rt; put_one(rt, &mut heap, &mut queue) == Ok(true));
}

/// A thread that sleeps is woken by its stop, and another that waits for the same queue isn't. One that sleeps for an
/// hour at most is woken by what comes.
#[test]
fn who_sleeps_is_woken(rt: HostRuntime) {
    let alloc = rt.alloc();
    for is_stopped in [true, false] {
        let Ok((heap, heap_seat)) = SharedHeap::new(alloc, CONFIG, 0) else {
            panic!(rt; "there is no heap");
        };
        let Ok((queue, mut last)) = SharedQueue::new(alloc, Q) else {
            panic!(rt; "there is no queue");
        };
        let heap = HeapUser::new(&heap, heap_seat, M);
        let user = QueueUser::new(&queue, queue.split(&mut last));
        if is_stopped {
            let (first, second) = stop_one(&rt, heap, user);
            expect(&rt, alloc, first, "timed out", "stopped");
            expect(&rt, alloc, second, "took 2", "not stopped");
        } else {
            let told = told_within_an_hour(&rt, heap, user);
            expect(&rt, alloc, told, "took 2", "an hour");
        }
        end_queue(queue.finish(last));
    }
}

/// Nothing comes, so the wait lasts as long as its limit.
fn waits_in_vain<R: Wait + Clock + Abort>(rt: &R, alloc: Global, mut user: QueueUser) {
    let limit = Duration::from_millis(50);
    let begun = Instant::now(rt);
    let told = told_of(user.remove_for(rt, limit));
    expect(rt, alloc, told, "timed out", "for 50 milliseconds");
    match begun {
        Ok(begun) => {
            let passed = begun.elapsed(rt);
            assert!(rt; passed.is_ok_and(|passed| passed >= limit));
        }
        Err(_) => panic!(rt; "no clock"),
    }
}

#[test]
fn a_wait_in_vain_is_no_shorter_than_its_limit(rt: HostRuntime) {
    let Ok((queue, mut last)) = SharedQueue::new(rt.alloc(), Q) else {
        panic!(rt; "there is no queue");
    };
    let user = QueueUser::new(&queue, queue.split(&mut last));
    waits_in_vain(&rt, rt.alloc(), user);
    end_queue(queue.finish(last));
}
