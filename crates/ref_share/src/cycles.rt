//! One whole cycle of the collector, by one worker.

ghost use Rattle.ref_base.specs.declared.plain_step.PlainStep.TheVariants.{Begin, Scan, EndMark, ClearNext, EndClear};
ghost use Rattle.ref_base.specs.declared.plain_step.PlainStep.TheVariants.{Sweep, EndSweep};
ghost use Rattle.std.specs.Prelude.{◌≡◌, [], IfOk};
ghost use Rattle.ref_share.specs.Cycles.{Cycles, GoesThrough, GoesRound, MarksAndClears};
ghost use Rattle.ref_share.specs.Deliveries.{AreSeats};
ghost use Rattle.ref_share.specs.HeapSeats.{heap_view, IsHeapSeat};

use crate::{HeapSeat, QueueSeat, ShareFault, SharedHeap, SharedQueue, deliver_all};
use ref_base::{Batch, Fault, PlainStep, Reply, Urgency, WorkerNo};
use ref_clear::Notice;
use std::alloc::Allocator;
use std::sync::Wait;

/// One whole cycle: it begins with this clock and urgency, what is found dead is cleared and freed, and what was
/// cleared is told to its queue. It ends with the phase Idle.
///
/// First comes a begin, and then scans until the mark's end is accepted, since what mutators read meanwhile has to be
/// scanned too. Then come looks at what was found, until the clearing's end is accepted. At last what is pending of the
/// worker is handed on by `deliver_all`, and sweeps follow until the sweep's end is accepted. The seats make no other
/// call. Other threads may use the heap meanwhile, and help with the worker's steps of other numbers. It may never
/// return, as where others load without end. Takes no memory but what the queues take. The batch, which is empty, comes
/// back empty but with a fault of the deliveries.
///
/// `Refused` with the faults of a begin, before which nothing was done; with those of the other steps where other
/// threads end a phase meanwhile (`WrongPhase`); or `TurnsSpent`. With the faults of `deliver_all` the clearing has
/// ended, the sweep was not begun, and the batch holds what `deliver_batch` says. After a fault the cycle stays open,
/// in the phase where it was.
pub fn cycle<R: Wait, A: Allocator + Copy>(
    rt: &R,
    heap: &SharedHeap<A>,
    heap_seat: &mut HeapSeat<A>,
    queues: &[SharedQueue<A>],
    queue_seats: &mut [QueueSeat<A>],
    worker: WorkerNo,
    now: u64,
    urgency: Urgency,
    batch: Batch<Notice, A>,
) -> (Result<(), ShareFault>, Batch<Notice, A>)
    requires seats { IsHeapSeat heap.now heap_seat.old × AreSeats queues.now queue_seats.old }
    requires empty { batch ≡ [] }
    ensures seats { IsHeapSeat heap.now heap_seat.new × AreSeats queues.now queue_seats.new }
    ensures cycles { Cycles queues.now worker now urgency (heap_view heap_seat.old) queue_seats.old result.0 result.1
        (heap_view heap_seat.new) queue_seats.new }
    ensures empty { IfOk result.0 (λ _. result.1 ≡ []) }
{
    if let Err(fault) = mark_and_clear(rt, heap, heap_seat, worker, now, urgency) {
        return (Err(fault), batch);
    }
    let (delivered, batch) = deliver_all(rt, heap, heap_seat, queues, queue_seats, worker, batch);
    match delivered {
        Ok(()) => {
            let (sweep, end_sweep) = (PlainStep::Sweep { worker }, PlainStep::EndSweep);
            (phase(rt, heap, heap_seat, sweep, end_sweep), batch)
        }
        Err(fault) => (Err(fault), batch),
    }
}

// Begins a cycle, marks and clears.
fn mark_and_clear<R: Wait, A: Allocator + Copy>(
    rt: &R,
    heap: &SharedHeap<A>,
    seat: &mut HeapSeat<A>,
    worker: WorkerNo,
    now: u64,
    urgency: Urgency,
) -> Result<(), ShareFault>
    requires { IsHeapSeat heap.now seat.old }
    ensures seat { IsHeapSeat heap.now seat.new }
    ensures goes { MarksAndClears worker now urgency (heap_view seat.old) result (heap_view seat.new) }
{
    heap.perform(rt, seat, PlainStep::Begin { now, urgency })?;
    let (scan, end_mark) = (PlainStep::Scan { worker }, PlainStep::EndMark);
    phase(rt, heap, seat, scan, end_mark)?;
    let (clear, end_clear) = (PlainStep::ClearNext { worker }, PlainStep::EndClear);
    phase(rt, heap, seat, clear, end_clear)
}

// Does the work of a phase until nothing is left of it and its end is accepted.
fn phase<R: Wait, A: Allocator + Copy>(
    rt: &R,
    heap: &SharedHeap<A>,
    seat: &mut HeapSeat<A>,
    work: PlainStep,
    end: PlainStep,
) -> Result<(), ShareFault>
    requires { IsHeapSeat heap.now seat.old }
    ensures seat { IsHeapSeat heap.now seat.new }
    ensures goes { GoesThrough work end (heap_view seat.old) result (heap_view seat.new) }
{
    for _ in rt.forever() {
        let (doing, ending) = (work, end);
        if round(rt, heap, seat, doing, ending)? {
            break;
        }
    }
    Ok(())
}

// Does the work once, and tries the phase's end where there was none. True where the phase has ended.
fn round<R: Wait, A: Allocator + Copy>(
    rt: &R,
    heap: &SharedHeap<A>,
    seat: &mut HeapSeat<A>,
    work: PlainStep,
    end: PlainStep,
) -> Result<bool, ShareFault>
    requires { IsHeapSeat heap.now seat.old }
    ensures seat { IsHeapSeat heap.now seat.new }
    ensures goes { GoesRound work end (heap_view seat.old) result (heap_view seat.new) }
{
    match heap.perform(rt, seat, work) {
        Ok(Reply::Nothing) => {}
        Ok(_) => return Ok(false),
        Err(fault) => return Err(ShareFault::Refused(fault)),
    }
    match heap.perform(rt, seat, end) {
        Ok(_) => Ok(true),
        Err(Fault::GreyLeft | Fault::ClearingLeft | Fault::SweepLeft) => Ok(false),
        Err(fault) => Err(ShareFault::Refused(fault)),
    }
}
