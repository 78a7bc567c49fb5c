//! What the callers of a cleaner can prove of the jobs that go into its table and come out.

ghost use Rattle.std.specs.Prelude.{◌≡◌, ◌≤◌, ◌<◌, ◌+◌, ◌^◌, ◌++◌, [], ◌∷◌, length, true, None, IfSome};
ghost use Rattle.ref_base.specs.declared.heap_step.HeapStep.TheVariants as steps;
ghost use Rattle.ref_base.specs.declared.heap_step.HoldName.{HoldName};
ghost use Rattle.ref_base.specs.declared.plain_step.PlainStep.TheVariants.{Drop};
ghost use Rattle.ref_base.specs.declared.reply.Reply.{Reply};
ghost use Rattle.ref_world.specs.declared.heap_machine.HeapReply.TheVariants as replies;
ghost use Rattle.ref_turn.specs.Seats.{entry};
ghost use Rattle.ref_share.specs.CleanSeats.{clean_view, IsCleanSeat};
ghost use Rattle.ref_share.specs.CleanedHeaps.{HasSeats};
ghost use Rattle.ref_share.specs.Cleanings.{makes_phantom};
ghost use Rattle.ref_share.specs.HeapSeats.{heap_view, IsHeapSeat};
ghost use Rattle.ref_share.specs.QueueSeats.{queue_view, IsQueueSeat};
ghost use Rattle.ref_share.specs.declared.clean_machine.CleanReply.TheVariants.{Taken};
ghost use Rattle.ref_share.specs.declared.clean_machine.CleanStep.TheVariants.{Take};

use crate::shares::cleaners::hearing::Hearing;
use crate::shares::cleaners::{adding, left_in};
use crate::shares::rows::new;
use crate::shares::{CONFIG, M, Q, STARTS, Seats, Starts, make_calls, new_batch, start};
use ref_base::{Fault, ObjNo, PlainStep, SlotNo, Urgency};
use ref_queue::Job;
use ref_share::{
    CleanSeat, Cleanable, CleanedHeap, Gate, HeapSeat, ShareFault, SharedCleaner, SharedHeap,
    SharedQueue, end_batch, end_queue,
};
use std::alloc::Global;
use std::process::Abort;
use std::sync::Wait;
use std::test::Fail;

// promise: SharedCleaner::unregister: none is answered of what the table was asked for, and had no job of
/// Where an unregister answers none it has asked the table for the job, in one turn.
fn asks_for_the_job<R: Wait>(
    rt: &R,
    cleaner: &SharedCleaner,
    seat: &mut CleanSeat,
    heap: &SharedHeap,
    heap_seat: &mut HeapSeat,
    cleanable: Cleanable,
) -> Option<bool>
    requires { IsCleanSeat cleaner.now seat.old × IsHeapSeat heap.now heap_seat.old }
    ensures seats { IsCleanSeat cleaner.now seat.new × IsHeapSeat heap.now heap_seat.new }
    ensures asked { IfSome result (λ is_asked. (is_asked ≡ true)
        × ((clean_view seat.new).mine ≡ (clean_view seat.old).mine
        ++ entry (clean_view seat.old).number (Take cleanable.obj) (Taken None) ∷ [])) }
{
    let before = cleaner.served(seat);
    match cleaner.unregister(rt, seat, heap, heap_seat, cleanable) {
        Ok(None) => Some(before < cleaner.served(seat)),
        Ok(Some((_job, back))) => {
            if let Some(hold) = back {
                hold.leak();
            }
            None
        }
        Err(fault) => {
            let _ = fault.give_up();
            None
        }
    }
}

// promise: SharedCleaner::register_apart: the reference is dropped from the slot where it was made
/// A register apart makes three calls of the heap: the reference is made, held, and dropped from its slot.
fn drops_the_reference<R: Wait>(
    rt: &R,
    cleaner: &SharedCleaner,
    seat: &mut CleanSeat,
    heap: &SharedHeap,
    heap_seat: &mut HeapSeat,
    job: Job,
) -> Option<Cleanable>
    requires { IsCleanSeat cleaner.now seat.old × IsHeapSeat heap.now heap_seat.old }
    ensures seats { IsCleanSeat cleaner.now seat.new × IsHeapSeat heap.now heap_seat.new }
    ensures calls { IfSome result (λ cleanable. (made : Reply) × (hold : HoldName) × (dropped : Reply)
        × (hold.object ≡ cleanable.obj) × ((heap_view heap_seat.new).mine ≡ (heap_view heap_seat.old).mine
        ++ entry (heap_view heap_seat.old).number (steps.Plain (makes_phantom cleaner.now.frame 0 0 7))
        (replies.Told made)
        ∷ entry (heap_view heap_seat.old).number (steps.Hold 0 7) (replies.Held hold)
        ∷ entry (heap_view heap_seat.old).number (steps.Plain (Drop 0 7)) (replies.Told dropped) ∷ [])) }
{
    match cleaner.register_apart(rt, seat, heap, heap_seat, M, SlotNo(0), SlotNo(7), job) {
        Ok(cleanable) => Some(cleanable),
        Err((fault, _job)) => {
            let _ = fault.give_up();
            None
        }
    }
}

// promise: SharedCleaner::clean_loop: behind a fault no job is taken
/// The loop takes no more jobs than it has polled, also where a poll was refused.
fn takes_no_more_than_it_polls<R: Wait, G: Gate>(
    rt: &R,
    cleaner: &SharedCleaner,
    seat: &mut CleanSeat,
    shared: (&SharedHeap, &SharedQueue),
    seats: &mut Seats,
    gate: &G,
) -> Result<u64, ShareFault>
    requires seats { IsHeapSeat shared.0.now seats.old.heap × IsQueueSeat shared.1.now seats.old.queue }
    requires seat { IsCleanSeat cleaner.now seat.old }
    ensures seats { IsHeapSeat shared.entry.0.now seats.new.heap × IsQueueSeat shared.entry.1.now seats.new.queue }
    ensures seat { IsCleanSeat cleaner.now seat.new }
    ensures fewer { length (clean_view seat.new).mine + length (queue_view seats.old.queue).mine
        ≤ length (queue_view seats.new.queue).mine + length (clean_view seat.old).mine }
{
    let (heap, queue) = shared;
    cleaner.clean_loop(
        rt,
        seat,
        heap,
        &mut seats.heap,
        queue,
        &mut seats.queue,
        gate,
    )
}

// promise: CleanedHeap::perform: a step of the heap takes no notice from the queue
/// A step of the heap, which empties slot 0, makes no call of the queue.
fn leaves_the_queue<R: Wait>(rt: &R, heap: &mut CleanedHeap) -> bool
    requires { HasSeats heap.old }
    ensures seats { HasSeats heap.new }
    ensures mine { (queue_view heap.new.queue_seat).mine ≡ (queue_view heap.old.queue_seat).mine }
{
    let (mutator, slot) = (M, SlotNo(0));
    heap.perform(rt, PlainStep::Drop { mutator, slot }).is_ok()
}

/// What a job is asked for that isn't there, where a job was registered apart, and whether its slot is empty then.
fn asked_and_apart<R: Wait>(
    rt: &R,
    cleaner: &SharedCleaner,
    seat: &mut CleanSeat,
    heap: &SharedHeap,
    heap_seat: &mut HeapSeat,
    job: Job,
) -> (Option<bool>, Option<Cleanable>, bool)
    requires { IsCleanSeat cleaner.now seat.old × IsHeapSeat heap.now heap_seat.old }
    ensures { IsCleanSeat cleaner.now seat.new × IsHeapSeat heap.now heap_seat.new }
{
    let other = Cleanable { obj: ObjNo(1) };
    let asked = asks_for_the_job(rt, cleaner, seat, heap, heap_seat, other);
    let apart = drops_the_reference(rt, cleaner, seat, heap, heap_seat, job);
    let is_empty = match heap.hold(rt, heap_seat, M, SlotNo(7)) {
        Ok(hold) => {
            hold.leak();
            false
        }
        Err(fault) => fault == Fault::EmptySlot,
    };
    (asked, apart, is_empty)
}

/// Both of a new cleaner on this heap, and how many jobs are left.
fn asked_on<R: Wait>(
    rt: &R,
    alloc: Global,
    heap: &SharedHeap,
    heap_seat: &mut HeapSeat,
    job: Job,
) -> Result<((Option<bool>, Option<Cleanable>, bool), Option<u64>), Fault>
    requires { IsHeapSeat heap.now heap_seat.old }
    ensures { IsHeapSeat heap.now heap_seat.new }
{
    let (cleaner, mut seat) = SharedCleaner::new(alloc, Q)?;
    let told = asked_and_apart(rt, &cleaner, &mut seat, heap, heap_seat, job);
    Ok((told, left_in(cleaner.finish(seat))))
}

/// Both on a new heap with object 1 in slot 0.
fn asked_anew<R: Wait>(
    rt: &R,
    alloc: Global,
    job: Job,
) -> Result<((Option<bool>, Option<Cleanable>, bool), Option<u64>), Fault> {
    let (heap, mut heap_seat) = SharedHeap::new(alloc, CONFIG, 0)?;
    let _object = heap.ask(rt, &mut heap_seat, new(0));
    asked_on(rt, alloc, &heap, &mut heap_seat, job)
}

#[test]
fn a_table_is_asked_and_a_slot_is_emptied(rt: HostRuntime) -> Result<(), Fail> {
    let (told, left) = asked_anew(&rt, rt.alloc(), adding(rt.alloc(), 1)?)?;
    assert!(rt; told == (Some(true), Some(Cleanable { obj: ObjNo(2) }), true));
    assert!(rt; left == Some(1));
    Ok(())
}

/// The job of reference 2 is registered, the reference is enqueued, and the loop goes on until the queue has no turn.
/// Why it ended, and how many turns of the table there were.
fn looped<R: Wait + Abort>(
    rt: &R,
    cleaner: &SharedCleaner,
    seat: &mut CleanSeat,
    shared: (&SharedHeap, &SharedQueue),
    seats: &mut Seats,
    job: Job,
) -> (Option<Fault>, u64)
    requires { IsHeapSeat shared.0.now seats.old.heap × IsQueueSeat shared.1.now seats.old.queue
        × IsCleanSeat cleaner.now seat.old }
    ensures { IsQueueSeat shared.entry.1.now seats.new.queue × IsCleanSeat cleaner.now seat.new }
{
    let (heap, queue) = shared;
    make_calls(rt, heap, queue, seats, "m0 new s0 0 : object 1");
    let (from, to) = (SlotNo(0), SlotNo(1));
    let own = &mut seats.heap;
    if let Err((fault, _job)) = cleaner.register(rt, seat, heap, own, M, from, to, job) {
        return (Some(fault.into_fault()), 0);
    }
    make_calls(rt, heap, queue, seats, "enqueue 1 : enqueued");
    let hearing = Hearing::new(false);
    let ended = match takes_no_more_than_it_polls(rt, cleaner, seat, shared, seats, &hearing) {
        Ok(_) => None,
        Err(fault) => Some(fault.into_fault()),
    };
    assert!(rt; hearing.heard() == (1, 0, 0));
    (ended, cleaner.served(seat))
}

#[test]
fn a_loop_without_a_turn_of_its_queue_takes_no_job(rt: HostRuntime) -> Result<(), Fail> {
    let job = adding(rt.alloc(), 1)?;
    let starts = Starts {
        queue: u64::MAX - 2,
        ..STARTS
    };
    let (heap, queue, mut seats) = start(&rt, rt.alloc(), starts);
    let Ok((cleaner, mut seat)) = SharedCleaner::new(rt.alloc(), Q) else {
        panic!(rt; "there is no cleaner");
    };
    let told = looped(&rt, &cleaner, &mut seat, (&heap, &queue), &mut seats, job);
    end_queue(queue.finish(seats.queue));
    let left = left_in(cleaner.finish(seat));
    // A register and a take.
    assert!(rt; told == (Some(Fault::TurnsSpent), 2) && left == Some(0));
    Ok(())
}

/// An object with a job is let go, a cycle finds it dead, and one step more is made. How many jobs are run then.
fn run_behind_a_step<R: Wait + Abort>(
    rt: &R,
    alloc: Global,
    heap: &mut CleanedHeap,
    job: Job,
) -> Result<(bool, bool, u64), ShareFault>
    requires { HasSeats heap.old }
    ensures { HasSeats heap.new }
{
    heap.make(rt, SlotNo(0), 0)?;
    if let Err((fault, _job)) = heap.register(rt, SlotNo(0), SlotNo(7), job) {
        return Err(fault);
    }
    let first = leaves_the_queue(rt, heap);
    let (cycled, left) = heap.cycle(rt, 5, Urgency::Normal, new_batch(rt, alloc));
    end_batch(left);
    cycled?;
    let second = leaves_the_queue(rt, heap);
    let count = heap.clean_some(rt, &Hearing::new(false))?;
    Ok((first, second, count))
}

#[test]
fn a_step_takes_no_notice(rt: HostRuntime) -> Result<(), Fail> {
    let job = adding(rt.alloc(), 1)?;
    let mut heap = CleanedHeap::new(rt.alloc(), CONFIG)?;
    let told = match run_behind_a_step(&rt, rt.alloc(), &mut heap, job) {
        Ok(told) => Some(told),
        Err(fault) => {
            let _ = fault.give_up();
            None
        }
    };
    let standing = heap.end(&());
    assert!(rt; told == Some((true, true, 1)) && standing == 0);
    Ok(())
}
