//! The calls of a cleaner with its heap and its queue are made, and their answers told as plain data.

ghost use Rattle.ref_share.specs.CleanSeats.{IsCleanSeat};
ghost use Rattle.ref_share.specs.HeapSeats.{IsHeapSeat};
ghost use Rattle.ref_share.specs.QueueSeats.{IsQueueSeat};

use super::hearing::Hearing;
use crate::shares::calls::{answer, refusal};
use crate::shares::rows::{Call, Cleaning};
use crate::shares::told::{Told, Word, bare, counted, numbered};
use crate::shares::{M, Seats};
use ref_base::{ObjNo, SlotNo};
use ref_queue::Job;
use ref_share::{
    CleanSeat, Cleanable, Cleaned, HeapSeat, ShareFault, SharedCleaner, SharedHeap, SharedQueue,
};
use std::collections::VecDeque;
use std::process::Abort;
use std::sync::Wait;

/// What threads share.
#[derive(Clone, Copy)]
pub struct Shared<'a> {
    pub heap: &'a SharedHeap,
    pub queue: &'a SharedQueue,
    pub cleaner: &'a SharedCleaner,
}

/// A seat of each.
#[derive(Drop)]
pub struct Chair {
    pub seats: Seats,
    pub cleaner: CleanSeat,
}

/// Registers the job for what the source slot holds, with a reference in the other.
fn register<R: Wait>(
    rt: &R,
    shared: Shared,
    chair: &mut Chair,
    job: Job,
    source: u32,
    slot: u32,
) -> Told
    requires { IsHeapSeat shared.heap.now chair.old.seats.heap
        × IsQueueSeat shared.queue.now chair.old.seats.queue
        × IsCleanSeat shared.cleaner.now chair.old.cleaner }
    ensures { IsHeapSeat shared.entry.heap.now chair.new.seats.heap
        × IsQueueSeat shared.entry.queue.now chair.new.seats.queue
        × IsCleanSeat shared.entry.cleaner.now chair.new.cleaner }
{
    let Shared { heap, cleaner, .. } = shared;
    let own = &mut chair.cleaner;
    let seat = &mut chair.seats.heap;
    match cleaner.register(rt, own, heap, seat, M, SlotNo(source), SlotNo(slot), job) {
        Ok(cleanable) => counted(Word::Registered, u64::from(cleanable.obj.0)),
        Err((fault, job)) => refusal(rt, heap, seat, fault).with_job(job.number()),
    }
}

/// What a clean did. A hold that came back is given up.
pub fn of_clean(cleaned: Cleaned) -> Told {
    match cleaned {
        Cleaned::Gone => bare(Word::NoJob),
        Cleaned::Ran(job, None) => numbered(Word::Ran, [Some(job.number), Some(job.answer), None]),
        Cleaned::Ran(job, Some(hold)) => {
            let unheld = u64::from(hold.obj().0);
            hold.leak();
            let numbers = [Some(job.number), Some(job.answer), Some(unheld)];
            numbered(Word::RanUnheld, numbers)
        }
    }
}

/// Cleans what has this reference, by this slot.
fn clean<R: Wait>(rt: &R, shared: Shared, chair: &mut Chair, reference: u32, slot: u32) -> Told
    requires { IsHeapSeat shared.heap.now chair.old.seats.heap
        × IsQueueSeat shared.queue.now chair.old.seats.queue
        × IsCleanSeat shared.cleaner.now chair.old.cleaner }
    ensures { IsHeapSeat shared.entry.heap.now chair.new.seats.heap
        × IsQueueSeat shared.entry.queue.now chair.new.seats.queue
        × IsCleanSeat shared.entry.cleaner.now chair.new.cleaner }
{
    let Shared { heap, cleaner, .. } = shared;
    let own = &mut chair.cleaner;
    let seat = &mut chair.seats.heap;
    let cleanable = Cleanable {
        obj: ObjNo(reference),
    };
    match cleaner.clean(rt, own, heap, seat, M, SlotNo(slot), cleanable) {
        Ok(cleaned) => of_clean(cleaned),
        Err(fault) => refusal(rt, heap, seat, fault),
    }
}

/// How many jobs were run, or why not all.
fn of_jobs<R: Wait>(
    rt: &R,
    heap: &SharedHeap,
    seat: &mut HeapSeat,
    answer: Result<u64, ShareFault>,
) -> Told
    requires { IsHeapSeat heap.now seat.old }
    ensures { IsHeapSeat heap.now seat.new }
{
    match answer {
        Ok(count) => counted(Word::RanJobs, count),
        Err(fault) => refusal(rt, heap, seat, fault),
    }
}

/// Runs the jobs of what is gone, until the queue is closed, or those alone whose notices stand.
pub fn run_jobs<R: Wait>(
    rt: &R,
    shared: Shared,
    chair: &mut Chair,
    hearing: &Hearing,
    waits: bool,
) -> Told
    requires { IsHeapSeat shared.heap.now chair.old.seats.heap
        × IsQueueSeat shared.queue.now chair.old.seats.queue
        × IsCleanSeat shared.cleaner.now chair.old.cleaner }
    ensures { IsHeapSeat shared.entry.heap.now chair.new.seats.heap
        × IsQueueSeat shared.entry.queue.now chair.new.seats.queue
        × IsCleanSeat shared.entry.cleaner.now chair.new.cleaner }
{
    let Shared {
        heap,
        queue,
        cleaner,
    } = shared;
    let own = &mut chair.cleaner;
    let Seats {
        heap: heap_seat,
        queue: queue_seat,
        ..
    } = &mut chair.seats;
    if waits {
        let answer = cleaner.clean_loop(rt, own, heap, heap_seat, queue, queue_seat, hearing);
        return of_jobs(rt, heap, heap_seat, answer);
    }
    let answer = cleaner.clean_some(rt, own, heap, heap_seat, queue, queue_seat, hearing);
    of_jobs(rt, heap, heap_seat, answer)
}

/// Makes a call, and tells what was answered. Jobs are registered from the first on.
pub fn told_of_call<R: Wait + Abort>(
    rt: &R,
    shared: Shared,
    chair: &mut Chair,
    jobs: &mut VecDeque<Job>,
    hearing: &Hearing,
    call: Call,
) -> Told
    requires { IsHeapSeat shared.heap.now chair.old.seats.heap
        × IsQueueSeat shared.queue.now chair.old.seats.queue
        × IsCleanSeat shared.cleaner.now chair.old.cleaner }
    ensures { IsHeapSeat shared.entry.heap.now chair.new.seats.heap
        × IsQueueSeat shared.entry.queue.now chair.new.seats.queue
        × IsCleanSeat shared.entry.cleaner.now chair.new.cleaner }
{
    match call {
        Call::Clean(Cleaning::Register(source, slot)) => match jobs.pop_front() {
            Some(job) => register(rt, shared, chair, job, source, slot),
            None => bare(Word::NoJob),
        },
        Call::Clean(Cleaning::Clean(reference, slot)) => clean(rt, shared, chair, reference, slot),
        Call::Clean(Cleaning::Loop) => run_jobs(rt, shared, chair, hearing, true),
        Call::Clean(Cleaning::Some) => run_jobs(rt, shared, chair, hearing, false),
        Call::Clean(Cleaning::Served) => counted(
            Word::Served,
            shared.cleaner.served(&mut chair.cleaner),
        ),
        Call::Clean(_) => bare(Word::Unknown),
        call => answer(rt, shared.heap, shared.queue, &mut chair.seats, call),
    }
}
