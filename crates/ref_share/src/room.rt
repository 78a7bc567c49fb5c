//! Steps that make something, and collect where the heap has no room for it.

ghost use Rattle.std.specs.Prelude.{◌≡◌, [], ◌∷◌, IfOk};
ghost use Rattle.ref_base.specs.declared.urgency.Urgency.TheVariants.{Normal, Urgent};
ghost use Rattle.ref_share.specs.Deliveries.{AreSeats};
ghost use Rattle.ref_share.specs.HeapSeats.{heap_view, IsHeapSeat};
ghost use Rattle.ref_share.specs.WantsOfRoom.{DoesAfter, DoesUnlessFull};

use crate::{HeapSeat, QueueSeat, ShareFault, SharedHeap, SharedQueue, cycle};
use ref_base::{Batch, Fault, PlainStep, Reply, Urgency, WorkerNo};
use ref_clear::Notice;
use std::alloc::Allocator;
use std::sync::Wait;

/// Does a step that makes an object or a reference. Where the heap has no cell for it, one whole cycle comes first, as
/// `cycle` with this clock; where that frees none, an urgent one. So before `NoCell` all soft references to what was
/// only softly reachable were cleared, as Java SE 17 promises it before an OutOfMemoryError.
///
/// `Refused` with the faults of the step, of which `NoCell` comes only behind both cycles, or `TurnsSpent`. With the
/// faults of `cycle` a cycle has stopped, and stays open in the phase where it was; as `WrongPhase`, where one was open
/// before. The seats make no call but these. It may never return, as `cycle`. Takes no memory but what the queues take.
/// The batch, which is empty, comes back as from `cycle`.
pub fn make_or_collect<R: Wait, A: Allocator + Copy>(
    rt: &R,
    heap: &SharedHeap<A>,
    heap_seat: &mut HeapSeat<A>,
    queues: &[SharedQueue<A>],
    queue_seats: &mut [QueueSeat<A>],
    worker: WorkerNo,
    now: u64,
    step: PlainStep,
    mut batch: Batch<Notice, A>,
) -> (Result<Reply, ShareFault>, Batch<Notice, A>)
    requires seats { IsHeapSeat heap.now heap_seat.old × AreSeats queues.now queue_seats.old }
    requires empty { batch ≡ [] }
    ensures seats { IsHeapSeat heap.now heap_seat.new × AreSeats queues.now queue_seats.new }
    ensures does { DoesAfter queues.now worker now step (Normal ∷ Urgent ∷ []) (heap_view heap_seat.old)
        queue_seats.old result.0 result.1 (heap_view heap_seat.new) queue_seats.new }
    ensures empty { IfOk result.0 (λ _. result.1 ≡ []) }
{
    for urgency in [Urgency::Normal, Urgency::Urgent] {
        let (again, how) = (step, urgency);
        match unless_full(rt, heap, heap_seat, again) {
            Ok(Some(reply)) => return (Ok(reply), batch),
            Ok(None) => {}
            Err(fault) => return (Err(fault), batch),
        }
        let (answer, left) = cycle(
            rt,
            heap,
            heap_seat,
            queues,
            queue_seats,
            worker,
            now,
            how,
            batch,
        );
        batch = left;
        if let Err(fault) = answer {
            return (Err(fault), batch);
        }
    }
    match heap.perform(rt, heap_seat, step) {
        Ok(reply) => (Ok(reply), batch),
        Err(fault) => (Err(ShareFault::Refused(fault)), batch),
    }
}

// Does the step. None where the heap has no cell for what it makes.
fn unless_full<R: Wait, A: Allocator + Copy>(
    rt: &R,
    heap: &SharedHeap<A>,
    seat: &mut HeapSeat<A>,
    step: PlainStep,
) -> Result<Option<Reply>, ShareFault>
    requires { IsHeapSeat heap.now seat.old }
    ensures seat { IsHeapSeat heap.now seat.new }
    ensures does { DoesUnlessFull step (heap_view seat.old) result (heap_view seat.new) }
{
    match heap.perform(rt, seat, step) {
        Ok(reply) => Ok(Some(reply)),
        Err(Fault::NoCell) => Ok(None),
        Err(fault) => Err(ShareFault::Refused(fault)),
    }
}
