//! What the callers of a cleaner with its own queue can prove.

ghost use Rattle.std.specs.Prelude.{◌≡◌, true, IfSome};
ghost use Rattle.ref_share.specs.HeapSeats.{IsHeapSeat};
ghost use Rattle.ref_share.specs.QueuedCleaners.{IsQueuedSeat};

use crate::shares::cleaners::adding;
use crate::shares::cleaners::hearing::Hearing;
use crate::shares::rows::new;
use crate::shares::{CONFIG, M, W, new_batch};
use ref_base::{Fault, PlainStep, SlotNo, Urgency};
use ref_queue::Job;
use ref_share::{HeapSeat, QueuedCleaner, QueuedSeat, ShareFault, SharedHeap, end_batch};
use std::alloc::Global;
use std::process::Abort;
use std::sync::Wait;
use std::test::Fail;

// promise: QueuedCleaner::register: the slot of the reference is emptied too
/// A register makes three turns of the heap: the reference is made, held, and dropped from its slot.
fn registers_in_three_turns<R: Wait>(
    rt: &R,
    cleaner: &QueuedCleaner,
    seat: &mut QueuedSeat,
    heap: &SharedHeap,
    heap_seat: &mut HeapSeat,
    job: Job,
) -> Option<bool>
    requires { IsQueuedSeat cleaner.now seat.old × IsHeapSeat heap.now heap_seat.old }
    ensures seats { IsQueuedSeat cleaner.now seat.new × IsHeapSeat heap.now heap_seat.new }
    ensures three { IfSome result (λ are_three. are_three ≡ true) }
{
    let before = heap.served(heap_seat);
    match cleaner.register(rt, seat, heap, heap_seat, M, SlotNo(0), SlotNo(7), job) {
        Ok(_cleanable) => Some(heap.served(heap_seat) - before >= 3),
        Err((fault, _job)) => {
            let _ = fault.give_up();
            None
        }
    }
}

/// A whole cycle.
fn cycled<R: Wait + Abort>(
    rt: &R,
    alloc: Global,
    cleaner: &QueuedCleaner,
    seat: &mut QueuedSeat,
    heap: &SharedHeap,
    heap_seat: &mut HeapSeat,
) -> Result<(), ShareFault>
    requires { IsQueuedSeat cleaner.now seat.old × IsHeapSeat heap.now heap_seat.old }
    ensures { IsQueuedSeat cleaner.now seat.new × IsHeapSeat heap.now heap_seat.new }
{
    let batch = new_batch(rt, alloc);
    let normal = Urgency::Normal;
    let (answer, left) = cleaner.cycle(rt, seat, heap, heap_seat, W, 5, normal, batch);
    end_batch(left);
    answer
}

/// An object is made, gets the job, and a cycle finds it alive: whether the register made its turns, and how many jobs
/// were run.
fn lives<R: Wait + Abort>(
    rt: &R,
    alloc: Global,
    cleaner: &QueuedCleaner,
    seat: &mut QueuedSeat,
    heap: &SharedHeap,
    heap_seat: &mut HeapSeat,
    job: Job,
    hearing: &Hearing,
) -> Result<(Option<bool>, u64), ShareFault>
    requires { IsQueuedSeat cleaner.now seat.old × IsHeapSeat heap.now heap_seat.old }
    ensures { IsQueuedSeat cleaner.now seat.new × IsHeapSeat heap.now heap_seat.new }
{
    heap.perform(rt, heap_seat, new(0))?;
    let three = registers_in_three_turns(rt, cleaner, seat, heap, heap_seat, job);
    cycled(rt, alloc, cleaner, seat, heap, heap_seat)?;
    let count = cleaner.clean_some(rt, seat, heap, heap_seat, hearing)?;
    Ok((three, count))
}

/// The object is let go, and a cycle finds it dead: how many jobs were run, and whether the queue was open.
fn dies<R: Wait + Abort>(
    rt: &R,
    alloc: Global,
    cleaner: &QueuedCleaner,
    seat: &mut QueuedSeat,
    heap: &SharedHeap,
    heap_seat: &mut HeapSeat,
    hearing: &Hearing,
) -> Result<(u64, bool), ShareFault>
    requires { IsQueuedSeat cleaner.now seat.old × IsHeapSeat heap.now heap_seat.old }
    ensures { IsQueuedSeat cleaner.now seat.new × IsHeapSeat heap.now heap_seat.new }
{
    let (mutator, slot) = (M, SlotNo(0));
    heap.perform(rt, heap_seat, PlainStep::Drop { mutator, slot })?;
    cycled(rt, alloc, cleaner, seat, heap, heap_seat)?;
    let count = cleaner.clean_some(rt, seat, heap, heap_seat, hearing)?;
    let (delivered, left) = cleaner.deliver_all(rt, seat, heap, heap_seat, W, new_batch(rt, alloc));
    end_batch(left);
    delivered?;
    Ok((count, cleaner.close(rt, seat)?))
}

/// An object gets its job, lives through a cycle, and dies in the next.
fn lives_and_dies<R: Wait + Abort>(
    rt: &R,
    alloc: Global,
    cleaner: &QueuedCleaner,
    seat: &mut QueuedSeat,
    heap: &SharedHeap,
    heap_seat: &mut HeapSeat,
    job: Job,
    hearing: &Hearing,
) -> Result<(Option<bool>, u64, u64, bool), ShareFault>
    requires { IsQueuedSeat cleaner.now seat.old × IsHeapSeat heap.now heap_seat.old }
    ensures { IsQueuedSeat cleaner.now seat.new × IsHeapSeat heap.now heap_seat.new }
{
    let (three, living) = lives(rt, alloc, cleaner, seat, heap, heap_seat, job, hearing)?;
    let (dead, is_open) = dies(rt, alloc, cleaner, seat, heap, heap_seat, hearing)?;
    Ok((three, living, dead, is_open))
}

/// Cleans on a heap by a new cleaner, with a second seat that is taken in, and how many notices are left.
fn cleaned_on<R: Wait + Abort>(
    rt: &R,
    alloc: Global,
    heap: &SharedHeap,
    heap_seat: &mut HeapSeat,
    job: Job,
    hearing: &Hearing,
) -> Result<(Result<(Option<bool>, u64, u64, bool), ShareFault>, usize), Fault>
    requires { IsHeapSeat heap.now heap_seat.old }
    ensures { IsHeapSeat heap.now heap_seat.new }
{
    let (cleaner, mut seat) = QueuedCleaner::new(alloc)?;
    let mut other = cleaner.split(&mut seat);
    let told = lives_and_dies(
        rt, alloc, &cleaner, &mut other, heap, heap_seat, job, hearing,
    );
    cleaner.join(&mut seat, other);
    Ok((told, cleaner.end(seat, &())))
}

/// Cleans on a new heap.
fn anew<R: Wait + Abort>(
    rt: &R,
    alloc: Global,
    job: Job,
    hearing: &Hearing,
) -> Result<(Option<bool>, u64, u64, bool, usize), Fault> {
    let (heap, mut heap_seat) = SharedHeap::new(alloc, CONFIG, 0)?;
    let (told, notices) = cleaned_on(rt, alloc, &heap, &mut heap_seat, job, hearing)?;
    match told {
        Ok((three, living, dead, is_open)) => Ok((three, living, dead, is_open, notices)),
        Err(fault) => Err(fault.into_fault()),
    }
}

#[test]
fn a_cleaner_with_its_queue_runs_the_job_of_what_died(rt: HostRuntime) -> Result<(), Fail> {
    let hearing = Hearing::new(false);
    let told = anew(&rt, rt.alloc(), adding(rt.alloc(), 1)?, &hearing)?;
    assert!(rt; told == (Some(true), 0, 1, true, 0));
    assert!(rt; hearing.heard() == (1, 0, 0));
    Ok(())
}
