//! What the callers of a shared queue can prove.

ghost use Rattle.std.specs.Prelude.{◌≡◌, ◌-◌, ◌^◌, ◌++◌, [], ◌∷◌, true, false, IfOk, IfSome, IsTrue};
ghost use Rattle.ref_queue.specs.declared.queue.Polled.TheVariants.{Empty};
ghost use Rattle.ref_share.specs.QueueCalls.{polled};
ghost use Rattle.ref_share.specs.HeapSeats.{IsHeapSeat};
ghost use Rattle.ref_share.specs.QueueSeats.{queue_view, IsQueueSeat};

use crate::shares::calls::stepped;
use crate::shares::rows::{new, weak};
use crate::shares::{CONFIG, M, Q};
use ref_base::{Fault, HeapStep, Parcel, QueueNo, SlotNo};
use ref_clear::Notice;
use ref_queue::Put;
use ref_share::{HeapSeat, Polled, QueueSeat, ShareFault, SharedHeap, SharedQueue, end_queue};
use ref_world::HeapReply;
use std::alloc::Global;
use std::sync::Wait;
use std::test::Fail;

// promise: SharedQueue::close: a second close tells that the queue was closed
/// A second close tells that the queue was closed.
fn closes_once<R: Wait>(
    rt: &R,
    queue: &SharedQueue,
    seat: &mut QueueSeat,
) -> Result<bool, ShareFault>
    requires { IsQueueSeat queue.now seat.old }
    ensures seat { IsQueueSeat queue.now seat.new }
    ensures once { IfOk result (λ was_open. was_open ≡ false) }
{
    queue.close(rt, seat)?;
    queue.close(rt, seat)
}

// promise: SharedQueue::put, SharedQueue::number: what is added is for this queue
/// What is added is for this queue.
fn adds_its_own<R: Wait>(
    rt: &R,
    queue: &SharedQueue,
    seat: &mut QueueSeat,
    notice: Notice,
) -> Option<bool>
    requires { IsQueueSeat queue.now seat.old }
    ensures seat { IsQueueSeat queue.now seat.new }
    ensures own { IfSome result (λ is_own. is_own ≡ true) }
{
    let is_own = notice.queue() == queue.number();
    match queue.put(rt, seat, notice) {
        Ok(Put::Added(_)) => Some(is_own),
        Ok(Put::Already(back) | Put::Closed(back)) | Err((_, back)) => {
            back.into_hold().leak();
            None
        }
    }
}

// promise: SharedQueue::put: behind the last turn a put is TurnsSpent
/// Behind the last turn a put tells that none is left.
fn tells_that_turns_are_spent<R: Wait>(
    rt: &R,
    queue: &SharedQueue,
    seat: &mut QueueSeat,
    notice: Notice,
) -> bool
    requires seat { IsQueueSeat queue.now seat.old }
    requires last { (queue_view seat.old).first ≡ 2 ^ 64 - 1 }
    ensures seat { IsQueueSeat queue.now seat.new }
    ensures told { result ≡ true }
{
    let answer = queue.put(rt, seat, notice);
    queue.served(seat);
    match answer {
        Err((Fault::TurnsSpent, back)) => {
            back.into_hold().leak();
            true
        }
        Ok(Put::Already(back) | Put::Closed(back)) | Err((_, back)) => {
            back.into_hold().leak();
            false
        }
        Ok(Put::Added(_)) => false,
    }
}

// promise: SharedQueue::poll_now: not Busy where no turn but the last is left
/// With one turn left a poll is not busy: no turn is open, or the last one was begun.
pub fn is_busy_at_the_last_turn(queue: &SharedQueue, seat: &mut QueueSeat) -> bool
    requires seat { IsQueueSeat queue.now seat.old }
    requires last { (queue_view seat.old).first ≡ 2 ^ 64 - 2 }
    ensures seat { IsQueueSeat queue.now seat.new }
    ensures not { result ≡ false }
{
    match queue.poll_now(seat) {
        Err(ShareFault::Busy) => true,
        Err(fault) => {
            let _ = fault.give_up();
            false
        }
        Ok(Polled::Took(notice)) => {
            notice.into_hold().leak();
            false
        }
        Ok(Polled::Empty | Polled::Closed | Polled::TimedOut) => false,
    }
}

// promise: SharedQueue::remove_within: a limit of 1,000,000 polls is not BadConfig
/// A million polls are not too many.
fn refuses_a_million_polls<R: Wait>(rt: &R, queue: &SharedQueue, seat: &mut QueueSeat) -> bool
    requires { IsQueueSeat queue.now seat.old }
    ensures seat { IsQueueSeat queue.now seat.new }
    ensures not { result ≡ false }
{
    match queue.remove_within(rt, seat, 1_000_000) {
        Ok(Polled::Took(notice)) => {
            notice.into_hold().leak();
            false
        }
        Ok(Polled::Empty | Polled::Closed | Polled::TimedOut) => false,
        Err(ShareFault::Refused(Fault::BadConfig)) => true,
        Err(fault) => {
            let _ = fault.give_up();
            false
        }
    }
}

// promise: SharedQueue::remove_within: TimedOut after just as many empty polls as it was told
/// Two polls in vain are all that a limit of two polls makes.
fn polls_twice<R: Wait>(rt: &R, queue: &SharedQueue, seat: &mut QueueSeat) -> bool
    requires { IsQueueSeat queue.now seat.old }
    ensures seat { IsQueueSeat queue.now seat.new }
    ensures twice { IsTrue result → (queue_view seat.new).mine ≡ (queue_view seat.old).mine
        ++ polled (queue_view seat.old) Empty ∷ polled (queue_view seat.old) Empty ∷ [] }
{
    match queue.remove_within(rt, seat, 2) {
        Ok(Polled::TimedOut) => true,
        Ok(Polled::Took(notice)) => {
            notice.into_hold().leak();
            false
        }
        Ok(Polled::Empty | Polled::Closed) => false,
        Err(fault) => {
            let _ = fault.give_up();
            false
        }
    }
}

// promise: SharedQueue::close, SharedQueue::finish: a closed queue is given back closed
/// A queue that was closed stays closed when its turns have ended.
fn is_open_once_closed<R: Wait>(rt: &R, queue: SharedQueue, mut seat: QueueSeat) -> Option<bool>
    requires { IsQueueSeat queue seat }
    ensures { IfSome result (λ is_open. is_open ≡ false) }
{
    match queue.close(rt, &mut seat) {
        Ok(_) => match queue.finish(seat) {
            Ok(mut left) => {
                let is_open = left.close();
                end_queue(Ok(left));
                Some(is_open)
            }
            Err(left) => {
                end_queue(Err(left));
                None
            }
        },
        Err(fault) => {
            let _ = fault.give_up();
            end_queue(queue.finish(seat));
            None
        }
    }
}

// promise: SharedQueue::finish: an open queue is given back open
/// A queue that had no turn, so that nobody has closed it, is given back open.
fn is_open_without_a_turn(queue: SharedQueue, seat: QueueSeat) -> Option<bool>
    requires seat { IsQueueSeat queue seat }
    requires none { (queue_view seat).first ≡ 2 ^ 64 - 1 }
    ensures { IfSome result (λ is_open. is_open ≡ true) }
{
    match queue.finish(seat) {
        Ok(mut left) => {
            let is_open = left.close();
            end_queue(Ok(left));
            Some(is_open)
        }
        Err(left) => {
            end_queue(Err(left));
            None
        }
    }
}

#[test]
fn a_queue_that_was_closed_stays_so(rt: HostRuntime) -> Result<(), Fail> {
    let (queue, mut seat) = SharedQueue::new(rt.alloc(), Q)?;
    assert!(rt; polls_twice(&rt, &queue, &mut seat));
    let was_open = match closes_once(&rt, &queue, &mut seat) {
        Ok(was_open) => Some(was_open),
        Err(fault) => {
            let _ = fault.give_up();
            None
        }
    };
    let is_refused = refuses_a_million_polls(&rt, &queue, &mut seat);
    let is_open = is_open_once_closed(&rt, queue, seat);
    assert!(rt; was_open == Some(false) && !is_refused && is_open == Some(false));
    // And one that was not closed is open.
    let (queue, seat) = SharedQueue::starting(rt.alloc(), Q, u64::MAX)?;
    assert!(rt; is_open_without_a_turn(queue, seat) == Some(true));
    Ok(())
}

/// The notice of a new reference for queue 0.
fn notice_of<R: Wait>(rt: &R, heap: &SharedHeap, seat: &mut HeapSeat) -> Option<Notice>
    requires { IsHeapSeat heap.now seat.old }
{
    stepped(heap.call(rt, seat, HeapStep::Plain(new(0))));
    stepped(heap.call(rt, seat, HeapStep::Plain(weak(1, 0))));
    let step = HeapStep::Unhook {
        mutator: M,
        reference: SlotNo(1),
    };
    match heap.call(rt, seat, step) {
        Ok(HeapReply::Notice(notice)) => Some(notice),
        other => {
            stepped(other);
            None
        }
    }
}

/// A notice for queue 0 is put into the queue of this number. Whether that added its own.
fn own_in<R: Wait>(rt: &R, alloc: Global, number: QueueNo) -> Result<Option<bool>, Fault> {
    let (heap, mut heap_seat) = SharedHeap::new(alloc, CONFIG, 0)?;
    let Some(notice) = notice_of(rt, &heap, &mut heap_seat) else {
        return Ok(None);
    };
    let (queue, mut seat) = match SharedQueue::new(alloc, number) {
        Ok(made) => made,
        Err(fault) => {
            notice.into_hold().leak();
            return Err(fault);
        }
    };
    let is_own = adds_its_own(rt, &queue, &mut seat, notice);
    end_queue(queue.finish(seat));
    Ok(is_own)
}

/// A notice is put into a queue that has no turn left. Whether that is told.
fn is_told<R: Wait>(rt: &R, alloc: Global) -> Result<bool, Fault> {
    let (heap, mut heap_seat) = SharedHeap::new(alloc, CONFIG, 0)?;
    let Some(notice) = notice_of(rt, &heap, &mut heap_seat) else {
        return Ok(false);
    };
    let (queue, mut seat) = match SharedQueue::starting(alloc, Q, u64::MAX) {
        Ok(made) => made,
        Err(fault) => {
            notice.into_hold().leak();
            return Err(fault);
        }
    };
    let is_told = tells_that_turns_are_spent(rt, &queue, &mut seat, notice);
    end_queue(queue.finish(seat));
    Ok(is_told)
}

#[test]
fn a_put_tells_why_it_adds_nothing(rt: HostRuntime) {
    assert!(rt; own_in(&rt, rt.alloc(), Q) == Ok(Some(true)));
    assert!(rt; own_in(&rt, rt.alloc(), QueueNo(1)) == Ok(None));
    assert!(rt; is_told(&rt, rt.alloc()) == Ok(true));
}
