//! Registering a job with a cleaner, taking it out again, and cleaning by hand.

ghost use Rattle.std.specs.Prelude.{◌≡◌, Err, IfOk, IfErr};
ghost use Rattle.ref_base.specs.declared.fault.Fault.TheVariants.{NoSuchActor};
ghost use Rattle.ref_share.specs.declared.answers.ShareFault.TheVariants.{Refused};
ghost use Rattle.ref_share.specs.CleanSeats.{clean_view, IsCleanSeat};
ghost use Rattle.ref_share.specs.Cleanings.{RegistersJob, HasMade, HasNotMade, EntersOnce, KeepsJob, TakesBack};
ghost use Rattle.ref_share.specs.Cleanings.{CleansNow, TakesOnce, IsOutside, IsWithoutTurn, Retires};
ghost use Rattle.ref_share.specs.Cleanings.{Unregisters, LooksOnce};
ghost use Rattle.ref_share.specs.HeapSeats.{heap_view, IsHeapSeat};

use crate::{
    CleanReply, CleanSeat, CleanStep, Cleanable, Cleaned, HeapSeat, ShareFault, SharedCleaner,
    SharedHeap, Task,
};
use ref_base::{Fault, MutNo, ObjNo, PlainStep, QueueNo, SLOTS, SlotNo, Strength};
use ref_objects::Hold;
use ref_turn::TurnFault;
use std::alloc::Allocator;
use std::sync::Wait;

impl<J: Task, A: Allocator + Copy> SharedCleaner<J, A> {
    /// Registers a job for what the source slot holds: a phantom reference to it, with the cleaner's queue, is made in
    /// `slot`, and job and a hold of that reference go into the table. The job runs once, by `clean` or by a thread in
    /// `clean_loop` after the object became phantom reachable. As `Cleaner.register` of Java SE 17.
    ///
    /// Three turns: two of the heap, for the reference and its hold, and one of the table. `Refused` with the faults of
    /// the two, with those of `CleanTable::register`, or `TurnsSpent` where heap or table has no turn left; the job
    /// comes back. Where the table refuses, the reference stays in `slot` and its hold was released by one more turn of
    /// the heap, or it is `Held` where the heap has no turn left for that. Only the table takes memory.
    ///
    /// While the slot holds the reference, an `enqueue` of that slot reports it, and then the job runs **though its
    /// object lives**. After a `clear` of that slot nothing reports the reference, and the job runs by `clean` alone.
    /// `register_apart` leaves it in no slot.
    ///
    /// By the caller: a cleaner is used with one heap, and no other call uses the mutator meanwhile.
    pub fn register<R: Wait>(
        &self,
        rt: &R,
        seat: &mut CleanSeat<J, A>,
        heap: &SharedHeap<A>,
        heap_seat: &mut HeapSeat<A>,
        mutator: MutNo,
        source: SlotNo,
        slot: SlotNo,
        job: J,
    ) -> Result<Cleanable, (ShareFault, J)>
        requires seats { IsCleanSeat self.now seat.old × IsHeapSeat heap.now heap_seat.old }
        ensures seat { IsCleanSeat self.now seat.new }
        ensures heap_seat { IsHeapSeat heap.now heap_seat.new }
        ensures registers { RegistersJob job (clean_view seat.old) self.now.frame mutator source slot
            (heap_view heap_seat.old) result (heap_view heap_seat.new) (clean_view seat.new) }
    {
        match refer(rt, heap, heap_seat, self.frame, mutator, source, slot) {
            Ok(hold) => self.keep(rt, seat, heap, heap_seat, hold, job),
            Err(fault) => Err((ShareFault::Refused(fault), job)),
        }
    }

    /// Runs the job, unless it was taken before: then it is `Gone`. As `Cleanable.clean` of Java SE 17, at most once
    /// over all threads, and in no turn: others go on while it runs.
    ///
    /// Four turns at most: one of the table, which gives the job out, and three of the heap, as far as turns are left.
    /// By those three the reference is adopted into `slot`, cleared, so that it is never enqueued, and dropped. Tried
    /// in this order: `Refused(NoSuchActor)` where mutator or slot is outside the heap's, `Refused(TurnsSpent)` where
    /// the table has no turn left; then the job stays. Takes no memory but what the job takes.
    ///
    /// By the caller: no other call uses the mutator meanwhile.
    pub fn clean<R: Wait>(
        &self,
        rt: &R,
        seat: &mut CleanSeat<J, A>,
        heap: &SharedHeap<A>,
        heap_seat: &mut HeapSeat<A>,
        mutator: MutNo,
        slot: SlotNo,
        cleanable: Cleanable,
    ) -> Result<Cleaned, ShareFault>
        requires { IsCleanSeat self.now seat.old × IsHeapSeat heap.now heap_seat.old }
        ensures seat { IsCleanSeat self.now seat.new }
        ensures heap_seat { IsHeapSeat heap.now heap_seat.new }
        ensures outside { IsOutside heap.now.frame.config mutator slot → (result ≡ Err (Refused NoSuchActor))
            × (clean_view seat.new ≡ clean_view seat.old) × (heap_view heap_seat.new ≡ heap_view heap_seat.old) }
        ensures cleans { ¬ (IsOutside heap.now.frame.config mutator slot)
            → CleansNow J.ran cleanable.obj mutator slot
            (heap_view heap_seat.old) (clean_view seat.old) result (heap_view heap_seat.new) (clean_view seat.new) }
    {
        if mutator.0 >= heap.config().mutators || slot.0 as usize >= SLOTS {
            return Err(ShareFault::Refused(Fault::NoSuchActor));
        }
        match self.take(rt, seat, cleanable.obj)? {
            None => Ok(Cleaned::Gone),
            Some((hold, job)) => {
                let back = retire(rt, heap, heap_seat, mutator, slot, hold);
                Ok(Cleaned::Ran(job.run(), back))
            }
        }
    }

    /// Takes the job out, and doesn't run it: it never runs by this cleaner then, neither by `clean` nor once its
    /// object is gone. None where it was taken before. What its action would have done is left to the caller, as where
    /// a file was closed by hand. As `PhantomCleanable.clear` of OpenJDK 17.
    ///
    /// Two turns at most: one of the table, which gives the job out, and one of the heap, by which the hold of its
    /// reference is released. Where the heap has no turn left or doesn't count the hold, it comes back beside the job.
    /// `Refused(TurnsSpent)` where the table has no turn left: then the job stays. Takes no memory.
    pub fn unregister<R: Wait>(
        &self,
        rt: &R,
        seat: &mut CleanSeat<J, A>,
        heap: &SharedHeap<A>,
        heap_seat: &mut HeapSeat<A>,
        cleanable: Cleanable,
    ) -> Result<Option<(J, Option<Hold>)>, ShareFault>
        requires { IsCleanSeat self.now seat.old × IsHeapSeat heap.now heap_seat.old }
        ensures seat { IsCleanSeat self.now seat.new }
        ensures heap_seat { IsHeapSeat heap.now heap_seat.new }
        ensures unregisters { Unregisters cleanable.obj (heap_view heap_seat.old) (clean_view seat.old) result
            (heap_view heap_seat.new) (clean_view seat.new) }
    {
        let Some((hold, job)) = self.take(rt, seat, cleanable.obj)? else {
            return Ok(None);
        };
        match heap.release(rt, heap_seat, hold) {
            Ok(()) => Ok(Some((job, None))),
            Err((_fault, hold)) => Ok(Some((job, Some(hold)))),
        }
    }

    /// Whether the job stands in the table in the turn of this call: whether it was taken neither by `clean`, nor by
    /// `unregister`, nor by a cleaner's thread. Where threads share the cleaner, another may take it right afterwards.
    ///
    /// One turn of the table. `Refused(TurnsSpent)` where it has none left. Takes no memory.
    pub fn is_registered<R: Wait>(
        &self,
        rt: &R,
        seat: &mut CleanSeat<J, A>,
        cleanable: Cleanable,
    ) -> Result<bool, ShareFault>
        requires { IsCleanSeat self.now seat.old }
        ensures seat { IsCleanSeat self.now seat.new }
        ensures looks { LooksOnce (clean_view seat.old) cleanable.obj result (clean_view seat.new) }
    {
        match self.step(rt, seat, CleanStep::Has(cleanable.obj)) {
            Ok(CleanReply::Looked(answer)) => Ok(answer),
            Err(TurnFault::Busy(step) | TurnFault::Spent(step)) => Err(without_turn(step)),
            _answer => unreachable!(),
        }
    }

    // Registers the job in the table, with the hold of its reference, which goes back to the heap where the table
    // doesn't take it.
    pub(crate) fn keep<R: Wait>(
        &self,
        rt: &R,
        seat: &mut CleanSeat<J, A>,
        heap: &SharedHeap<A>,
        heap_seat: &mut HeapSeat<A>,
        hold: Hold,
        job: J,
    ) -> Result<Cleanable, (ShareFault, J)>
        requires { IsCleanSeat self.now seat.old × IsHeapSeat heap.now heap_seat.old }
        ensures seat { IsCleanSeat self.now seat.new }
        ensures heap_seat { IsHeapSeat heap.now heap_seat.new }
        ensures keeps { KeepsJob job (clean_view seat.old) hold (heap_view heap_seat.old) result
            (heap_view heap_seat.new) (clean_view seat.new) }
    {
        let obj = hold.obj();
        match self.enter(rt, seat, hold, job) {
            Ok(()) => Ok(Cleanable { obj }),
            Err((refused, hold, job)) => {
                Err((take_back(rt, heap, heap_seat, hold, refused), job))
            }
        }
    }

    // Registers the job in the table, with a hold of its reference.
    fn enter<R: Wait>(
        &self,
        rt: &R,
        seat: &mut CleanSeat<J, A>,
        hold: Hold,
        job: J,
    ) -> Result<(), (Fault, Hold, J)>
        requires { IsCleanSeat self.now seat.old }
        ensures seat { IsCleanSeat self.now seat.new }
        ensures enters { EntersOnce job (clean_view seat.old) hold result (clean_view seat.new) }
    {
        match self.step(rt, seat, CleanStep::Register(hold.obj(), hold, job)) {
            Ok(CleanReply::Registered(answer)) => answer,
            Err(TurnFault::Spent(CleanStep::Register(_, hold, job))) => {
                Err((Fault::TurnsSpent, hold, job))
            }
            _answer => unreachable!(),
        }
    }

    // Takes the object's job out of the table.
    pub(crate) fn take<R: Wait>(
        &self,
        rt: &R,
        seat: &mut CleanSeat<J, A>,
        object: ObjNo,
    ) -> Result<Option<(Hold, J)>, ShareFault>
        requires { IsCleanSeat self.now seat.old }
        ensures seat { IsCleanSeat self.now seat.new }
        ensures takes { TakesOnce (clean_view seat.old) object result (clean_view seat.new) }
    {
        match self.step(rt, seat, CleanStep::Take(object)) {
            Ok(CleanReply::Taken(taken)) => Ok(taken),
            Ok(CleanReply::Registered(_answer)) => unreachable!(),
            Ok(CleanReply::Looked(_answer)) => unreachable!(),
            Err(TurnFault::Busy(step) | TurnFault::Spent(step)) => Err(without_turn(step)),
        }
    }
}

// Why a step of a table was not made: no turn is left for it.
fn without_turn<J: Task>(step: CleanStep<Hold, J>) -> ShareFault
    ensures { IsWithoutTurn step result }
{
    match step {
        CleanStep::Take(_) | CleanStep::Has(_) => ShareFault::Refused(Fault::TurnsSpent),
        CleanStep::Register(_, hold, _job) => ShareFault::Held(hold, Fault::TurnsSpent),
    }
}

// Makes a phantom reference in the slot to what the source holds, and gives a hold of it.
pub(crate) fn refer<R: Wait, A: Allocator + Copy>(
    rt: &R,
    heap: &SharedHeap<A>,
    seat: &mut HeapSeat<A>,
    queue: QueueNo,
    mutator: MutNo,
    source: SlotNo,
    slot: SlotNo,
) -> Result<Hold, Fault>
    requires { IsHeapSeat heap.now seat.old }
    ensures seat { IsHeapSeat heap.now seat.new }
    ensures made { IfOk result (λ hold. HasMade queue mutator source slot (heap_view seat.old) hold
        (heap_view seat.new)) }
    ensures not { IfErr result (λ fault.
        HasNotMade queue mutator source slot (heap_view seat.old) fault (heap_view seat.new)) }
{
    let step = PlainStep::Refer {
        mutator,
        strength: Strength::Phantom,
        slot,
        source,
        queue: Some(queue),
        fields: 0,
    };
    heap.perform(rt, seat, step)?;
    heap.hold(rt, seat, mutator, slot)
}

// Releases the hold, since this was refused. It comes back where the heap doesn't take it.
pub(crate) fn take_back<R: Wait, A: Allocator + Copy>(
    rt: &R,
    heap: &SharedHeap<A>,
    seat: &mut HeapSeat<A>,
    hold: Hold,
    refused: Fault,
) -> ShareFault
    requires { IsHeapSeat heap.now seat.old }
    ensures seat { IsHeapSeat heap.now seat.new }
    ensures back { TakesBack (heap_view seat.old) hold refused result (heap_view seat.new) }
{
    match heap.release(rt, seat, hold) {
        Ok(()) => ShareFault::Refused(refused),
        Err((fault, hold)) => ShareFault::Held(hold, fault),
    }
}

// Adopts the reference of a job into the slot, clears it and drops it, as far as turns are left. The hold comes back
// where the heap doesn't take it.
fn retire<R: Wait, A: Allocator + Copy>(
    rt: &R,
    heap: &SharedHeap<A>,
    seat: &mut HeapSeat<A>,
    mutator: MutNo,
    slot: SlotNo,
    hold: Hold,
) -> Option<Hold>
    requires { IsHeapSeat heap.now seat.old }
    ensures seat { IsHeapSeat heap.now seat.new }
    ensures retires { Retires mutator slot (heap_view seat.old) hold result (heap_view seat.new) }
{
    if let Err((_fault, hold)) = heap.adopt(rt, seat, mutator, slot, hold) {
        return Some(hold);
    }
    let reference = slot;
    let _ = heap.ask(rt, seat, PlainStep::Clear { mutator, reference });
    let _ = heap.ask(rt, seat, PlainStep::Drop { mutator, slot });
    None
}
