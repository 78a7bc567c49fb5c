//! Registering a job whose reference nothing but the collector and the cleaner can come by.

ghost use Rattle.std.specs.Prelude.{IfOk, IfErr};
ghost use Rattle.ref_share.specs.CleanSeats.{clean_view, IsCleanSeat};
ghost use Rattle.ref_share.specs.Cleanings.{RegistersApart, HasMadeApart, HasNotMadeApart};
ghost use Rattle.ref_share.specs.HeapSeats.{heap_view, IsHeapSeat};

use crate::cleaning::{refer, take_back};
use crate::{CleanSeat, Cleanable, HeapSeat, ShareFault, SharedCleaner, SharedHeap, Task};
use ref_base::{MutNo, PlainStep, QueueNo, SlotNo};
use ref_objects::Hold;
use std::alloc::Allocator;
use std::sync::Wait;

impl<J: Task, A: Allocator + Copy> SharedCleaner<J, A> {
    /// Registers a job for what the source slot holds, with a reference that is in no slot afterwards: the table's hold
    /// alone keeps it. So no slot names it that could be enqueued or cleared, and once it is registered nothing reports
    /// it but a cycle whose mark found the object dead. The job runs once, by `clean` or by a thread that cleans after
    /// that. As `Cleaner.register` of Java SE 17, whose `Cleanable` nobody can get, clear or enqueue.
    ///
    /// The other slot is used on the way, and is empty afterwards: what it held is let go.
    ///
    /// Four turns: three of the heap, by which the reference is made, held, and dropped from the slot, and one of the
    /// table. `Refused` with the faults of the four, tried in this order. First come those of a `Refer`, of a `hold`
    /// and of a `Drop`, with `TurnsSpent` where the heap has no turn left. Then come those of `CleanTable::register`,
    /// and `TurnsSpent` where the table has none left. The job comes back then, and registered is nothing. A hold that
    /// was taken before is released by one more turn of the heap, or it is `Held` where the heap doesn't take it. The
    /// reference stays in the slot where it was made and one of the two turns behind that is refused. Only the table
    /// takes memory.
    ///
    /// By the caller: a cleaner is used with one heap, and no other call uses the mutator meanwhile.
    pub fn register_apart<R: Wait>(
        &self,
        rt: &R,
        seat: &mut CleanSeat<J, A>,
        heap: &SharedHeap<A>,
        heap_seat: &mut HeapSeat<A>,
        mutator: MutNo,
        source: SlotNo,
        slot: SlotNo,
        job: J,
    ) -> Result<Cleanable, (ShareFault, J)>
        requires seats { IsCleanSeat self.now seat.old × IsHeapSeat heap.now heap_seat.old }
        ensures seat { IsCleanSeat self.now seat.new }
        ensures heap_seat { IsHeapSeat heap.now heap_seat.new }
        ensures registers { RegistersApart job (clean_view seat.old) self.now.frame mutator source slot
            (heap_view heap_seat.old) result (heap_view heap_seat.new) (clean_view seat.new) }
    {
        match refer_apart(rt, heap, heap_seat, self.frame, mutator, source, slot) {
            Ok(hold) => self.keep(rt, seat, heap, heap_seat, hold, job),
            Err(fault) => Err((fault, job)),
        }
    }
}

// Makes a phantom reference to what the source holds, gives a hold of it, and empties the slot that it was made in.
fn refer_apart<R: Wait, A: Allocator + Copy>(
    rt: &R,
    heap: &SharedHeap<A>,
    seat: &mut HeapSeat<A>,
    queue: QueueNo,
    mutator: MutNo,
    source: SlotNo,
    slot: SlotNo,
) -> Result<Hold, ShareFault>
    requires { IsHeapSeat heap.now seat.old }
    ensures seat { IsHeapSeat heap.now seat.new }
    ensures made { IfOk result (λ hold. HasMadeApart queue mutator source slot (heap_view seat.old) hold
        (heap_view seat.new)) }
    ensures not { IfErr result (λ fault.
        HasNotMadeApart queue mutator source slot (heap_view seat.old) fault (heap_view seat.new)) }
{
    let hold = match refer(rt, heap, seat, queue, mutator, source, slot) {
        Ok(hold) => hold,
        Err(fault) => return Err(ShareFault::Refused(fault)),
    };
    match heap.perform(rt, seat, PlainStep::Drop { mutator, slot }) {
        Ok(_done) => Ok(hold),
        Err(refused) => Err(take_back(rt, heap, seat, hold, refused)),
    }
}
