//! From the heap to one queue, where a program has no other: the calls of `delivery` and `cycles` for lists of one.

ghost use Rattle.std.specs.Prelude.{◌≡◌, [], ◌∷◌, IfOk};
ghost use Rattle.ref_base.specs.declared.heap_step.HeapStep.TheVariants as steps;
ghost use Rattle.ref_share.specs.Cycles.{Cycles};
ghost use Rattle.ref_share.specs.Deliveries.{Delivers, was_added};
ghost use Rattle.ref_share.specs.HeapSeats.{heap_view, IsHeapSeat};
ghost use Rattle.ref_share.specs.QueueSeats.{IsQueueSeat};

use crate::{
    Delivery, HeapSeat, HeapUser, QueueSeat, QueueUser, ShareFault, SharedHeap, SharedQueue, cycle,
    deliver_one, enqueue,
};
use ref_base::{Batch, MutNo, SlotNo, Urgency, WorkerNo};
use ref_clear::Notice;
use std::slice;
use std::sync::Wait;

/// Clears the reference in the mutator's slot and puts its notice into the queue, as `enqueue` with a list of this
/// queue alone: a notice for another than queue 0 is `BadQueue`.
pub fn enqueue_to<R: Wait>(
    rt: &R,
    heap: &SharedHeap,
    heap_seat: &mut HeapSeat,
    queue: &SharedQueue,
    queue_seat: &mut QueueSeat,
    mutator: MutNo,
    slot: SlotNo,
) -> Result<bool, ShareFault>
    requires { IsHeapSeat heap.now heap_seat.old × IsQueueSeat queue.now queue_seat.old }
    ensures seats { IsHeapSeat heap.now heap_seat.new × IsQueueSeat queue.now queue_seat.new }
    ensures calls { (delivery : _) × (result ≡ was_added delivery)
        × Delivers (steps.Unhook mutator slot) (heap_view heap_seat.old) (queue.now ∷ []) (queue_seat.old ∷ [])
        delivery (heap_view heap_seat.new) (queue_seat.new ∷ []) }
{
    let queues = slice::from_ref(queue);
    let seats = slice::from_mut(queue_seat);
    enqueue(rt, heap, heap_seat, queues, seats, mutator, slot)
}

/// Hands on the first of the worker's pending references, as `deliver_one` with a list of this queue alone.
pub fn deliver_one_to<R: Wait>(
    rt: &R,
    heap: &SharedHeap,
    heap_seat: &mut HeapSeat,
    queue: &SharedQueue,
    queue_seat: &mut QueueSeat,
    worker: WorkerNo,
) -> Result<Delivery, ShareFault>
    requires { IsHeapSeat heap.now heap_seat.old × IsQueueSeat queue.now queue_seat.old }
    ensures seats { IsHeapSeat heap.now heap_seat.new × IsQueueSeat queue.now queue_seat.new }
    ensures calls { Delivers (steps.Hand worker) (heap_view heap_seat.old) (queue.now ∷ []) (queue_seat.old ∷ [])
        result (heap_view heap_seat.new) (queue_seat.new ∷ []) }
{
    let queues = slice::from_ref(queue);
    let seats = slice::from_mut(queue_seat);
    deliver_one(rt, heap, heap_seat, queues, seats, worker)
}

/// One whole cycle of a heap whose one queue this is, as `cycle` with a list of it alone.
pub fn cycle_one<R: Wait>(
    rt: &R,
    heap: &SharedHeap,
    heap_seat: &mut HeapSeat,
    queue: &SharedQueue,
    queue_seat: &mut QueueSeat,
    worker: WorkerNo,
    now: u64,
    urgency: Urgency,
    batch: Batch<Notice>,
) -> (Result<(), ShareFault>, Batch<Notice>)
    requires seats { IsHeapSeat heap.now heap_seat.old × IsQueueSeat queue.now queue_seat.old }
    requires empty { batch ≡ [] }
    ensures seats { IsHeapSeat heap.now heap_seat.new × IsQueueSeat queue.now queue_seat.new }
    ensures cycles { Cycles (queue.now ∷ []) worker now urgency (heap_view heap_seat.old) (queue_seat.old ∷ [])
        result.0 result.1 (heap_view heap_seat.new) (queue_seat.new ∷ []) }
    ensures empty { IfOk result.0 (λ _. result.1 ≡ []) }
{
    let queues = slice::from_ref(queue);
    let seats = slice::from_mut(queue_seat);
    cycle(
        rt, heap, heap_seat, queues, seats, worker, now, urgency, batch,
    )
}

impl HeapUser<'_> {
    /// Clears the reference in the slot and puts its notice into the queue, as `enqueue_to`.
    pub fn enqueue_to<R: Wait>(
        &mut self,
        rt: &R,
        slot: SlotNo,
        queue: &mut QueueUser<'_>,
    ) -> Result<bool, ShareFault>
        ensures same { self.new ≡ record self.old { seat = self.new.seat } }
        ensures queue { queue.new ≡ record queue.old { seat = queue.new.seat } }
        ensures calls { (delivery : _) × (result ≡ was_added delivery)
            × Delivers (steps.Unhook self.old.mutator slot) (heap_view self.old.seat) (queue.old.queue ∷ [])
            (queue.old.seat ∷ []) delivery (heap_view self.new.seat) (queue.new.seat ∷ []) }
    {
        let (heap, seat) = (self.heap, &mut self.seat);
        enqueue_to(
            rt,
            heap,
            seat,
            queue.queue,
            &mut queue.seat,
            self.mutator,
            slot,
        )
    }

    /// Hands on the first of the worker's pending references to the queue, as `deliver_one_to`.
    pub fn deliver_one_to<R: Wait>(
        &mut self,
        rt: &R,
        worker: WorkerNo,
        queue: &mut QueueUser<'_>,
    ) -> Result<Delivery, ShareFault>
        ensures same { self.new ≡ record self.old { seat = self.new.seat } }
        ensures queue { queue.new ≡ record queue.old { seat = queue.new.seat } }
        ensures calls { Delivers (steps.Hand worker) (heap_view self.old.seat) (queue.old.queue ∷ [])
            (queue.old.seat ∷ []) result (heap_view self.new.seat) (queue.new.seat ∷ []) }
    {
        let (heap, seat) = (self.heap, &mut self.seat);
        deliver_one_to(rt, heap, seat, queue.queue, &mut queue.seat, worker)
    }
}
