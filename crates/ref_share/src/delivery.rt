//! From the heap to a queue: a notice that the heap gives is put into its own queue, by one thread, in turns of its
//! own. No lock is held between them.

ghost use Rattle.std.specs.Prelude.{◌≡◌, ◌<◌, [], length, Err, IfOk, OnErr};
ghost use Rattle.ref_base.specs.declared.fault.Fault.TheVariants.{BadQueue};
ghost use Rattle.ref_base.specs.declared.heap_step.HeapStep.TheVariants as steps;
ghost use Rattle.ref_base.specs.HeapSteps.{NamedStep};
ghost use Rattle.ref_share.specs.HeapSeats.{HeapView, heap_view, IsHeapSeat};
ghost use Rattle.ref_share.specs.HeapCalls.{GivesNotice};
ghost use Rattle.ref_share.specs.Deliveries.{AreSeats, IsBeyond, PutsAt, Sends, Delivers, GoesBack, was_added};
ghost use Rattle.ref_share.specs.Deliveries.{DeliversAll, DeliversBatch, GoBack, PutsBatchAt, SendsBatch};
ghost use Rattle.ref_share.specs.Deliveries.{TellsReleased, refused_in};
ghost use Rattle.ref_share.specs.QueueCalls.{ComesBack};

use crate::{Delivery, HeapSeat, QueueSeat, ShareFault, SharedHeap, SharedQueue};
use ref_base::{
    Batch, Done, Fault, MOST_IN_BATCH, MutNo, ObjNo, Outs, Parcel, QueueNo, SlotNo, WorkerNo,
};
use ref_clear::Notice;
use ref_objects::Hold;
use ref_queue::Put;
use std::alloc::Allocator;
use std::sync::Wait;

/// How many notices go at once.
const MOST: u32 = MOST_IN_BATCH as u32;

/// Clears the reference in the mutator's slot and puts its notice into its queue: as `Reference.enqueue` of Java SE 17.
/// True exactly where it was added; false where it has no queue, was ever enqueued before, or its queue is closed (this
/// project's profile).
///
/// Three turns at most: an unhook of the heap, a put of the queue, and, where it was not added, a release of the notice
/// by the heap. The lists have an entry for each queue of the heap's configuration, in order, by the caller.
///
/// `Refused` with the faults of an unhook, or `TurnsSpent` where the heap has no turn left: then nothing was done.
/// `Notice` where the notice could not be put in: with `TurnsSpent` where the queue has no turn left, or with
/// `NoMemory`. Its fault is `BadQueue` just where one of the lists ends before its queue's place, and `WrongQueue`
/// where another queue stands there. `Held` where the heap has no turn left for the release, or doesn't count the hold.
pub fn enqueue<R: Wait, A: Allocator + Copy>(
    rt: &R,
    heap: &SharedHeap<A>,
    heap_seat: &mut HeapSeat<A>,
    queues: &[SharedQueue<A>],
    queue_seats: &mut [QueueSeat<A>],
    mutator: MutNo,
    slot: SlotNo,
) -> Result<bool, ShareFault>
    requires { IsHeapSeat heap.now heap_seat.old × AreSeats queues.now queue_seats.old }
    ensures seats { IsHeapSeat heap.now heap_seat.new × AreSeats queues.now queue_seats.new }
    ensures calls { (delivery : _) × (result ≡ was_added delivery)
        × Delivers (steps.Unhook mutator slot) (heap_view heap_seat.old) queues.now queue_seats.old delivery
        (heap_view heap_seat.new) queue_seats.new }
{
    let given = heap.unhook(rt, heap_seat, mutator, slot);
    match deliver(rt, heap, heap_seat, queues, queue_seats, given) {
        Ok(Delivery::Added(..)) => Ok(true),
        Ok(_) => Ok(false),
        Err(fault) => Err(fault),
    }
}

/// Hands on the first of the worker's pending references: its notice goes into its queue. `Nothing` exactly where none
/// is pending. `Dropped` where the reference was ever enqueued before, or its queue is closed.
///
/// Turns, lists and faults are as those of `enqueue`, with the faults of a hand.
pub fn deliver_one<R: Wait, A: Allocator + Copy>(
    rt: &R,
    heap: &SharedHeap<A>,
    heap_seat: &mut HeapSeat<A>,
    queues: &[SharedQueue<A>],
    queue_seats: &mut [QueueSeat<A>],
    worker: WorkerNo,
) -> Result<Delivery, ShareFault>
    requires { IsHeapSeat heap.now heap_seat.old × AreSeats queues.now queue_seats.old }
    ensures seats { IsHeapSeat heap.now heap_seat.new × AreSeats queues.now queue_seats.new }
    ensures calls { Delivers (steps.Hand worker) (heap_view heap_seat.old) queues.now queue_seats.old result
        (heap_view heap_seat.new) queue_seats.new }
{
    let given = heap.hand(rt, heap_seat, worker);
    deliver(rt, heap, heap_seat, queues, queue_seats, given)
}

/// Hands on the first of the worker's pending references, so many at most, and all of one queue and one cycle: their
/// notices go into that queue, one after the other. It answers what became of each; what was `Already` in the queue, or
/// found it closed, goes back to the heap. `None` exactly where none is pending. The batch, which is empty and only
/// saves taking its memory anew, comes back in each case: empty, but for the cases below.
///
/// As many turns at most as these: a hand of the heap, a put of the queue, and a release by the heap for each notice
/// that wasn't added. The lists have an entry for each queue of the heap's configuration, in order, by the caller. In
/// expected time of the notices, amortized. Only what is added takes memory.
///
/// `Refused` with the faults of a hand of a batch, as `BadConfig` where `max` is outside 1 to 32, or `TurnsSpent` where
/// the heap has no turn left: then nothing was done. `Refused` also where the notices could not be put in: then they
/// are in the batch. The fault is `TurnsSpent` where the queue has no turn left, `BadQueue` just where one of the lists
/// ends before its place, and `WrongQueue` where another queue stands there. The fault is `NoMemory` where one of the
/// notices was refused so: then the batch holds all that were not added, and nothing was released. `Held` where a hold
/// could not be released, since the heap has no turn left for it, or doesn't count it: the batch holds those that were
/// to be released after it.
pub fn deliver_batch<R: Wait, A: Allocator + Copy>(
    rt: &R,
    heap: &SharedHeap<A>,
    heap_seat: &mut HeapSeat<A>,
    queues: &[SharedQueue<A>],
    queue_seats: &mut [QueueSeat<A>],
    worker: WorkerNo,
    max: u32,
    batch: Batch<Notice, A>,
) -> (Result<Option<Outs>, ShareFault>, Batch<Notice, A>)
    requires seats { IsHeapSeat heap.now heap_seat.old × AreSeats queues.now queue_seats.old }
    requires empty { batch ≡ [] }
    ensures seats { IsHeapSeat heap.now heap_seat.new × AreSeats queues.now queue_seats.new }
    ensures calls { DeliversBatch worker max (heap_view heap_seat.old) queues.now queue_seats.old result.0 result.1
        (heap_view heap_seat.new) queue_seats.new }
{
    let (given, batch) = heap.hand_batch(rt, heap_seat, worker, max, batch);
    match given {
        Ok(Some(handed)) => {
            send_batch(
                rt,
                heap,
                heap_seat,
                queues,
                queue_seats,
                handed.queue,
                batch,
            )
        }
        Ok(None) => (Ok(None), batch),
        Err(fault) => (Err(ShareFault::Refused(fault)), batch),
    }
}

/// Hands on all that is pending of the worker, as `deliver_batch` does as many as go at once, until it answers `None`.
/// The batch, which is empty, comes back empty but with a fault.
///
/// Turns, lists and faults are as those of `deliver_batch`; with the first fault it ends, and what is pending then
/// stays so. The batch then holds what `deliver_batch` says. The seats make no other call.
pub fn deliver_all<R: Wait, A: Allocator + Copy>(
    rt: &R,
    heap: &SharedHeap<A>,
    heap_seat: &mut HeapSeat<A>,
    queues: &[SharedQueue<A>],
    queue_seats: &mut [QueueSeat<A>],
    worker: WorkerNo,
    mut batch: Batch<Notice, A>,
) -> (Result<(), ShareFault>, Batch<Notice, A>)
    requires seats { IsHeapSeat heap.now heap_seat.old × AreSeats queues.now queue_seats.old }
    requires empty { batch ≡ [] }
    ensures seats { IsHeapSeat heap.now heap_seat.new × AreSeats queues.now queue_seats.new }
    ensures calls { DeliversAll worker queues.now (heap_view heap_seat.old) queue_seats.old result.0 result.1
        (heap_view heap_seat.new) queue_seats.new }
    ensures empty { IfOk result.0 (λ _. result.1 ≡ []) }
{
    for _ in rt.forever() {
        let (answer, left) = deliver_batch(
            rt,
            heap,
            heap_seat,
            queues,
            queue_seats,
            worker,
            MOST,
            batch,
        );
        batch = left;
        match answer {
            Ok(given) => {
                if given.is_none() {
                    break;
                }
            }
            Err(fault) => return (Err(fault), batch),
        }
    }
    (Ok(()), batch)
}

// What the heap has given goes into its queue.
fn deliver<R: Wait, A: Allocator + Copy>(
    rt: &R,
    heap: &SharedHeap<A>,
    heap_seat: &mut HeapSeat<A>,
    queues: &[SharedQueue<A>],
    queue_seats: &mut [QueueSeat<A>],
    given: Result<Option<Notice>, Fault>,
) -> Result<Delivery, ShareFault>
    requires { IsHeapSeat heap.now heap_seat.old × AreSeats queues.now queue_seats.old }
    ensures seats { IsHeapSeat heap.now heap_seat.new × AreSeats queues.now queue_seats.new }
    ensures delivers { (v : HeapView) (step : NamedStep) → GivesNotice v step given (heap_view heap_seat.old)
        → Delivers step v queues.now queue_seats.old result (heap_view heap_seat.new) queue_seats.new }
{
    match given {
        Ok(Some(notice)) => send(rt, heap, heap_seat, queues, queue_seats, notice),
        Ok(None) => Ok(Delivery::Nothing),
        Err(fault) => Err(ShareFault::Refused(fault)),
    }
}

// The notice goes into its queue, or back to the heap where the queue doesn't take it.
fn send<R: Wait, A: Allocator + Copy>(
    rt: &R,
    heap: &SharedHeap<A>,
    heap_seat: &mut HeapSeat<A>,
    queues: &[SharedQueue<A>],
    queue_seats: &mut [QueueSeat<A>],
    notice: Notice,
) -> Result<Delivery, ShareFault>
    requires { IsHeapSeat heap.now heap_seat.old × AreSeats queues.now queue_seats.old }
    ensures seats { IsHeapSeat heap.now heap_seat.new × AreSeats queues.now queue_seats.new }
    ensures sends { Sends notice queues.now queue_seats.old (heap_view heap_seat.old) result
        (heap_view heap_seat.new) queue_seats.new }
{
    let object = notice.obj();
    let queue = notice.queue();
    match put_at(rt, queues, queue_seats, notice) {
        Ok(Put::Added(position)) => Ok(Delivery::Added(object, queue, position)),
        Ok(Put::Already(back)) => give_back(rt, heap, heap_seat, object, back.into_hold()),
        Ok(Put::Closed(back)) => give_back(rt, heap, heap_seat, object, back.into_hold()),
        Err((fault, back)) => Err(ShareFault::Notice(back, fault)),
    }
}

// The place of a queue in both lists: `BadQueue` where one of them ends before it.
fn place_of<A: Allocator + Copy>(
    queue: QueueNo,
    queues: &[SharedQueue<A>],
    seats: &[QueueSeat<A>],
) -> Result<usize, Fault>
    ensures place { IfOk result (λ place. place ≡ queue) }
    ensures within { IfOk result (λ place. (place < length queues.now) × (place < length seats.now)) }
    ensures err { OnErr result ((result ≡ Err BadQueue) × IsBeyond queue queues.now seats.now) }
{
    let place = queue.0 as usize;
    if place < queues.len() && place < seats.len() {
        Ok(place)
    } else {
        Err(Fault::BadQueue)
    }
}

// The queue at the place of the notice's own puts it in.
fn put_at<R: Wait, A: Allocator + Copy>(
    rt: &R,
    queues: &[SharedQueue<A>],
    seats: &mut [QueueSeat<A>],
    notice: Notice,
) -> Result<Put<Notice>, (Fault, Notice)>
    requires { AreSeats queues.now seats.old }
    ensures seats { AreSeats queues.now seats.new }
    ensures puts { PutsAt notice queues.now seats.old result seats.new }
    ensures back { ComesBack notice result }
{
    match place_of(notice.queue(), queues, seats) {
        Ok(place) => queues[place].put(rt, &mut seats[place], notice),
        Err(fault) => Err((fault, notice)),
    }
}

// The hold of a notice that no queue took goes back to the heap.
fn give_back<R: Wait, A: Allocator + Copy>(
    rt: &R,
    heap: &SharedHeap<A>,
    seat: &mut HeapSeat<A>,
    object: ObjNo,
    hold: Hold,
) -> Result<Delivery, ShareFault>
    requires { IsHeapSeat heap.now seat.old }
    ensures seat { IsHeapSeat heap.now seat.new }
    ensures gives { GoesBack object hold (heap_view seat.old) result (heap_view seat.new) }
{
    match heap.release(rt, seat, hold) {
        Ok(()) => Ok(Delivery::Dropped(object)),
        Err((fault, hold)) => Err(ShareFault::Held(hold, fault)),
    }
}

// The notices go into the queue at this place, and what it doesn't take goes back to the heap.
fn send_batch<R: Wait, A: Allocator + Copy>(
    rt: &R,
    heap: &SharedHeap<A>,
    heap_seat: &mut HeapSeat<A>,
    queues: &[SharedQueue<A>],
    queue_seats: &mut [QueueSeat<A>],
    queue: QueueNo,
    batch: Batch<Notice, A>,
) -> (Result<Option<Outs>, ShareFault>, Batch<Notice, A>)
    requires { IsHeapSeat heap.now heap_seat.old × AreSeats queues.now queue_seats.old }
    ensures seats { IsHeapSeat heap.now heap_seat.new × AreSeats queues.now queue_seats.new }
    ensures sends { SendsBatch queue batch queues.now queue_seats.old (heap_view heap_seat.old) result.0 result.1
        (heap_view heap_seat.new) queue_seats.new }
{
    let (answer, batch) = put_batch_at(rt, queues, queue_seats, queue, batch);
    match answer {
        Ok(outs) => match refused_in(outs.as_slice()) {
            None => {
                let (answer, batch) = give_all_back(rt, heap, heap_seat, batch);
                (told_of(outs, answer), batch)
            }
            Some(fault) => (Err(ShareFault::Refused(fault)), batch),
        },
        Err(fault) => (Err(ShareFault::Refused(fault)), batch),
    }
}

// The queue at this place puts the notices in.
fn put_batch_at<R: Wait, A: Allocator + Copy>(
    rt: &R,
    queues: &[SharedQueue<A>],
    seats: &mut [QueueSeat<A>],
    queue: QueueNo,
    batch: Batch<Notice, A>,
) -> (Result<Outs, Fault>, Batch<Notice, A>)
    requires { AreSeats queues.now seats.old }
    ensures seats { AreSeats queues.now seats.new }
    ensures puts { PutsBatchAt queue batch queues.now seats.old result.0 result.1 seats.new }
{
    match place_of(queue, queues, seats) {
        Ok(place) => queues[place].put_batch(rt, &mut seats[place], batch),
        Err(fault) => (Err(fault), batch),
    }
}

// The fault with which one of them was refused, if one was.
fn refused_in(done: &[Done]) -> Option<Fault>
    ensures { result ≡ refused_in done.now }
{
    match done {
        [Done::Refused(fault), ..] => Some(*fault),
        [_, rest @ ..] => refused_in(rest),
        [] => None,
    }
}

// The holds of notices that no queue took go back to the heap, first first, until one doesn't.
fn give_all_back<R: Wait, A: Allocator + Copy>(
    rt: &R,
    heap: &SharedHeap<A>,
    seat: &mut HeapSeat<A>,
    mut batch: Batch<Notice, A>,
) -> (Result<(), (Fault, Hold)>, Batch<Notice, A>)
    requires { IsHeapSeat heap.now seat.old }
    ensures seat { IsHeapSeat heap.now seat.new }
    ensures gives { GoBack batch (heap_view seat.old) result.0 result.1 (heap_view seat.new) }
{
    while let Some(notice) = batch.take_first() {
        if let Err(back) = heap.release(rt, seat, notice.into_hold()) {
            return (Err(back), batch);
        }
    }
    (Ok(()), batch)
}

// What became of the notices; or the hold that could not be released, if there is one.
fn told_of(outs: Outs, released: Result<(), (Fault, Hold)>) -> Result<Option<Outs>, ShareFault>
    ensures { TellsReleased outs released result }
{
    match released {
        Ok(()) => Ok(Some(outs)),
        Err((fault, hold)) => Err(ShareFault::Held(hold, fault)),
    }
}
