//! What the callers of a shared cleaner can prove.

ghost use Rattle.std.specs.Prelude.{◌≡◌, ◌+◌, ◌<◌, ◌^◌, ◌++◌, [], ◌∷◌, true, IfOk, IfSome};
ghost use Rattle.ref_base.specs.declared.heap_step.HeapStep.TheVariants as steps;
ghost use Rattle.ref_base.specs.declared.heap_step.HoldName.{HoldName};
ghost use Rattle.ref_base.specs.declared.reply.Reply.{Reply};
ghost use Rattle.ref_world.specs.declared.heap_machine.HeapReply.TheVariants as replies;
ghost use Rattle.ref_turn.specs.Seats.{entry};
ghost use Rattle.ref_share.specs.CleanSeats.{IsCleanSeat};
ghost use Rattle.ref_share.specs.Cleanings.{makes_phantom};
ghost use Rattle.ref_share.specs.HeapSeats.{heap_view, IsHeapSeat};
ghost use Rattle.ref_share.specs.QueueSeats.{IsQueueSeat};

use crate::shares::cleaners::hearing::Hearing;
use crate::shares::cleaners::{adding, left_in};
use crate::shares::{M, Q, STARTS, Seats, make_calls, start};
use ref_base::{Fault, ObjNo, SlotNo};
use ref_queue::{Action, Job, Ran};
use ref_share::{
    CleanSeat, Cleanable, Cleaned, Gate, HeapSeat, QueueSeat, SharedCleaner, SharedHeap,
    SharedQueue, end_queue,
};
use std::alloc::{AllocError, Global};
use std::fs::File;
use std::process::Abort;
use std::sync::Wait;
use std::test::Fail;

// promise: SharedCleaner::clean: the reference of a job that ran is taken back by the heap
/// What is cleaned is taken back by the heap, which makes a step for it.
fn retires_what_it_cleans<R: Wait>(
    rt: &R,
    cleaner: &SharedCleaner,
    seat: &mut CleanSeat,
    heap: &SharedHeap,
    heap_seat: &mut HeapSeat,
    cleanable: Cleanable,
) -> Option<bool>
    requires { IsCleanSeat cleaner.now seat.old × IsHeapSeat heap.now heap_seat.old }
    ensures seat { IsCleanSeat cleaner.now seat.new }
    ensures heap_seat { IsHeapSeat heap.now heap_seat.new }
    ensures more { IfSome result (λ is_more. is_more ≡ true) }
{
    let before = heap.served(heap_seat);
    match cleaner.clean(rt, seat, heap, heap_seat, M, SlotNo(2), cleanable) {
        Ok(Cleaned::Ran(_, None)) => Some(before < heap.served(heap_seat)),
        Ok(Cleaned::Ran(_, Some(hold))) => {
            hold.leak();
            None
        }
        Ok(Cleaned::Gone) => None,
        Err(fault) => {
            let _ = fault.give_up();
            None
        }
    }
}

// promise: SharedCleaner::register, SharedHeap::perform, SharedHeap::hold: the reference is made, and then held
/// A register makes two calls of the heap: the reference is made, and then a hold of the reference is taken.
fn holds_the_reference<R: Wait>(
    rt: &R,
    cleaner: &SharedCleaner,
    seat: &mut CleanSeat,
    heap: &SharedHeap,
    heap_seat: &mut HeapSeat,
    job: Job,
) -> Option<Cleanable>
    requires { IsCleanSeat cleaner.now seat.old × IsHeapSeat heap.now heap_seat.old }
    ensures seat { IsCleanSeat cleaner.now seat.new }
    ensures heap_seat { IsHeapSeat heap.now heap_seat.new }
    ensures calls { IfSome result (λ cleanable. (made : Reply) × (hold : HoldName) × (hold.object ≡ cleanable.obj)
        × ((heap_view heap_seat.new).mine ≡ (heap_view heap_seat.old).mine
        ++ entry (heap_view heap_seat.old).number (steps.Plain (makes_phantom cleaner.now.frame 0 0 1))
        (replies.Told made)
        ∷ entry (heap_view heap_seat.old).number (steps.Hold 0 1) (replies.Held hold) ∷ [])) }
{
    match cleaner.register(rt, seat, heap, heap_seat, M, SlotNo(0), SlotNo(1), job) {
        Ok(cleanable) => Some(cleanable),
        Err((fault, _job)) => {
            let _ = fault.give_up();
            None
        }
    }
}

// promise: SharedCleaner::clean_loop: a job that is counted has two holds given back
/// For each job that it counts the loop has made two releases.
fn releases_twice_for_each_job<R: Wait, G: Gate>(
    rt: &R,
    cleaner: &SharedCleaner,
    seat: &mut CleanSeat,
    heap: &SharedHeap,
    heap_seat: &mut HeapSeat,
    queue: &SharedQueue,
    queue_seat: &mut QueueSeat,
    gate: &G,
) -> Option<bool>
    requires seats { IsCleanSeat cleaner.now seat.old × IsHeapSeat heap.now heap_seat.old }
    requires queue { IsQueueSeat queue.now queue_seat.old }
    ensures seat { IsCleanSeat cleaner.now seat.new }
    ensures queue_seat { IsQueueSeat queue.now queue_seat.new }
    ensures enough { IfSome result (λ is_enough. is_enough ≡ true) }
{
    let before = heap.served(heap_seat);
    match cleaner.clean_loop(rt, seat, heap, heap_seat, queue, queue_seat, gate) {
        Ok(count) => Some(count <= (heap.served(heap_seat) - before) / 2),
        Err(fault) => {
            let _ = fault.give_up();
            None
        }
    }
}

/// The first job is cleaned by hand, and the second by the loop, behind a notice that has no job. Which references the
/// jobs had, and whether the heap made the steps for both.
fn cleaned_twice<R: Wait + Abort>(
    rt: &R,
    shared: (&SharedHeap, &SharedQueue, &SharedCleaner),
    seats: &mut Seats,
    seat: &mut CleanSeat,
    jobs: (Job, Job),
) -> ([Option<Cleanable>; 2], Option<bool>, Option<bool>)
    requires { IsHeapSeat shared.0.now seats.old.heap × IsQueueSeat shared.1.now seats.old.queue
        × IsCleanSeat shared.2.now seat.old }
    ensures { IsQueueSeat shared.entry.1.now seats.new.queue × IsCleanSeat shared.entry.2.now seat.new }
{
    let (heap, queue, cleaner) = shared;
    make_calls(rt, heap, queue, seats, "m0 new s0 0 : object 1");
    let first = holds_the_reference(rt, cleaner, seat, heap, &mut seats.heap, jobs.0);
    let cleanable = Cleanable { obj: ObjNo(2) };
    let retired = retires_what_it_cleans(rt, cleaner, seat, heap, &mut seats.heap, cleanable);
    let second = holds_the_reference(rt, cleaner, seat, heap, &mut seats.heap, jobs.1);
    let calls =
        "m0 weak s2 s0 q0 0 : object 4; enqueue 2 : enqueued; enqueue 1 : enqueued; close : was open";
    make_calls(rt, heap, queue, seats, &calls);
    let hearing = Hearing::new(false);
    let Seats {
        heap: heap_seat,
        queue: queue_seat,
        ..
    } = seats;
    let enough = releases_twice_for_each_job(
        rt, cleaner, seat, heap, heap_seat, queue, queue_seat, &hearing,
    );
    ([first, second], retired, enough)
}

/// Cleans on a new heap, queue and cleaner, and tells how many jobs are left.
fn cleaned_anew<R: Wait + Abort>(
    rt: &R,
    alloc: Global,
    jobs: (Job, Job),
) -> (
    [Option<Cleanable>; 2],
    Option<bool>,
    Option<bool>,
    Option<u64>,
) {
    let Ok((cleaner, mut seat)) = SharedCleaner::new(alloc, Q) else {
        panic!(rt; "there is no cleaner");
    };
    let (heap, queue, mut seats) = start(rt, alloc, STARTS);
    let (held, retired, enough) = cleaned_twice(
        rt,
        (&heap, &queue, &cleaner),
        &mut seats,
        &mut seat,
        jobs,
    );
    end_queue(queue.finish(seats.queue));
    (held, retired, enough, left_in(cleaner.finish(seat)))
}

#[test]
fn a_cleaner_makes_its_calls_of_the_heap(rt: HostRuntime) -> Result<(), Fail> {
    let jobs = (adding(rt.alloc(), 1)?, adding(rt.alloc(), 2)?);
    let want = [
        Some(Cleanable { obj: ObjNo(2) }),
        Some(Cleanable { obj: ObjNo(3) }),
    ];
    assert!(rt; cleaned_anew(&rt, rt.alloc(), jobs) == (want, Some(true), Some(true), Some(0)));
    Ok(())
}

/// A job that closes a file once it runs.
fn closing(alloc: Global, file: File, number: u64) -> Result<Job, AllocError>
    ensures { IfOk result (λ job. job.number ≡ number) }
{
    let action: Action = Box::new(
        alloc,
        move |number: u64| -> u64
            ensures { result ≡ number }
        {
            drop(file);
            number
        },
    )?;
    Ok(Job::new(number, number, action))
}

#[test]
fn a_job_closes_its_file(rt: HostRuntime) -> Result<(), Fail> {
    let file = File::open(&rt, "/dev/null")?;
    let ran = closing(rt.alloc(), file, 7)?.run();
    assert!(rt;
        ran == (Ran {
            number: 7,
            answer: 7
        })
    );
    Ok(())
}
