//! Jobs of a cleaner, registered beside a shared heap: stories of calls, each with its answer.

ghost use Rattle.ref_share.specs.CleanSeats.{IsCleanSeat};
ghost use Rattle.ref_share.specs.HeapSeats.{IsHeapSeat};
ghost use Rattle.ref_share.specs.QueueSeats.{IsQueueSeat};
ghost use Rattle.std.specs.Prelude.{◌≡◌, ◌+◌, ◌<◌, ◌^◌};

use super::rows::{BREAKS, call_of, is_comment, parts_of};
use super::told::expect;
use super::{Q, STARTS, Starts, start};
use acts::{Chair, Shared, told_of_call};
use hearing::Hearing;
use ref_objects::Hold;
use ref_queue::{Action, CleanTable, Job};
use ref_share::{SharedCleaner, end_queue};
use std::alloc::{AllocError, Global};
use std::collections::VecDeque;
use std::process::Abort;
use std::sync::atomic::{AtomicU64, Ordering};
use std::sync::{Arc, Wait};
use std::thread::Threads;

mod acts;
pub mod hearing;
mod one_thread;
mod stories;
mod threads;

/// What is told of a new heap, queue and cleaner.
#[derive(Drop)]
struct Story<'a> {
    /// The heap's first ticket.
    heap_first: u64,
    /// The cleaner's first ticket.
    first: u64,
    /// The jobs, in the order in which they are registered.
    jobs: &'a [u32],
    calls: &'a str,
    /// What a third thread does while two run the jobs of what is gone. Where it is nothing, there are no such threads.
    meanwhile: &'a str,
    /// What it does then, while job 1 waits for it.
    held: &'a str,
    /// How many jobs the two run.
    count: u64,
    then: &'a str,
    /// How often those who run the jobs of what is gone ran job 1, and job 2.
    heard: (u64, u64),
    /// How many actions were called in all.
    called: u64,
    /// How many jobs are registered in the end.
    left: u64,
}

/// These calls, without a job.
fn story_of<'a>(calls: &'a str) -> Story<'a> {
    Story {
        heap_first: 0,
        first: 0,
        jobs: &[],
        calls,
        meanwhile: "",
        held: "",
        count: 0,
        then: "",
        heard: (0, 0),
        called: 0,
        left: 0,
    }
}

/// Makes calls in turn, each of which has its answer.
fn do_all<R: Wait + Abort>(
    rt: &R,
    shared: Shared,
    chair: &mut Chair,
    jobs: &mut VecDeque<Job>,
    hearing: &Hearing,
    calls: &str,
)
    requires { IsHeapSeat shared.heap.now chair.old.seats.heap
        × IsQueueSeat shared.queue.now chair.old.seats.queue
        × IsCleanSeat shared.cleaner.now chair.old.cleaner }
    ensures { IsHeapSeat shared.entry.heap.now chair.new.seats.heap
        × IsQueueSeat shared.entry.queue.now chair.new.seats.queue
        × IsCleanSeat shared.entry.cleaner.now chair.new.cleaner }
{
    for row in calls.split(BREAKS) {
        if !is_comment(row) {
            let (call, want) = parts_of(row);
            let told = told_of_call(rt, shared, chair, jobs, hearing, call_of(rt, call));
            expect(rt, chair.seats.alloc, told, want, row);
        }
    }
}

impl<'a> Story<'a> {
    /// Tells the story, whose jobs count how often their actions are called, and looks what is left then.
    fn agree<R: Threads + Wait + Abort + Sync>(&self, rt: &R, alloc: Global) {
        let Ok(called) = Arc::new(alloc, AtomicU64::new(0)) else {
            panic!(rt; "no memory for a count");
        };
        let jobs = counting_jobs(rt, alloc, self.jobs, &called);
        let left = left_behind(rt, alloc, jobs, self);
        assert!(rt;
            called.load(Ordering::SeqCst) == self.called,
            "actions called"
        );
        assert!(rt; left == self.left, "jobs registered in the end");
    }
}

/// Tells a story of one thread, from these first tickets of the heap and of the cleaner on, with these jobs. How often
/// those who run the jobs of what is gone ran job 1 and job 2, how many actions were called in all, and how many jobs
/// are registered in the end.
fn agree<R: Threads + Wait + Abort + Sync>(
    rt: &R,
    alloc: Global,
    (heap_first, first): (u64, u64),
    jobs: &[u32],
    calls: &str,
    (heard, called, left): ((u64, u64), u64, u64),
) {
    let story = Story {
        heap_first,
        first,
        jobs,
        heard,
        called,
        left,
        ..story_of(calls)
    };
    story.agree(rt, alloc);
}

/// The story with these jobs.
fn tell<R: Threads + Wait + Abort + Sync>(
    rt: &R,
    shared: Shared,
    chair: Chair,
    mut jobs: VecDeque<Job>,
    story: &Story,
) -> Chair
    requires { IsHeapSeat shared.heap.now chair.seats.heap
        × IsQueueSeat shared.queue.now chair.seats.queue
        × IsCleanSeat shared.cleaner.now chair.cleaner }
    ensures { IsHeapSeat shared.entry.heap.now result.seats.heap
        × IsQueueSeat shared.entry.queue.now result.seats.queue
        × IsCleanSeat shared.entry.cleaner.now result.cleaner }
{
    let hearing = Hearing::new(!story.meanwhile.is_empty());
    let mut chair = chair;
    do_all(rt, shared, &mut chair, &mut jobs, &hearing, story.calls);
    if !story.meanwhile.is_empty() {
        threads::clean_meanwhile(rt, shared, &mut chair, &mut jobs, &hearing, story);
    }
    do_all(rt, shared, &mut chair, &mut jobs, &hearing, story.then);
    assert!(rt; !hearing.gave_up(), "one job waited for the other in vain");
    let (first, second) = story.heard;
    assert!(rt; hearing.heard() == (first, second, 0));
    chair
}

/// A job of this number, which adds 1000 to it.
pub fn adding(alloc: Global, number: u64) -> Result<Job, AllocError>
    requires { number < 2 ^ 32 }
{
    let action: Action = Box::new(
        alloc,
        |number: u64| -> u64
            requires { number < 2 ^ 32 }
            ensures { result ≡ number + 1000 }
        { number + 1000 },
    )?;
    Ok(Job::new(number, number + 1000, action))
}

/// Jobs of these numbers, in order, which count how often their actions are called.
fn counting_jobs(
    rt: &impl Abort,
    alloc: Global,
    numbers: &[u32],
    called: &Arc<AtomicU64>,
) -> VecDeque<Job> {
    let mut jobs = VecDeque::new(alloc);
    for &number in numbers {
        let job = counting_job(rt, alloc, u64::from(number), called);
        assert!(rt; jobs.push_back(job).is_ok(), "no memory for job {number}");
    }
    jobs
}

/// A job of this number.
fn counting_job(rt: &impl Abort, alloc: Global, number: u64, called: &Arc<AtomicU64>) -> Job
    requires { number < 2 ^ 32 }
{
    let Ok(calls) = Arc::try_clone(called) else {
        panic!(rt; "too many jobs");
    };
    let boxed = Box::new(
        alloc,
        move |number: u64| -> u64
            requires { number < 2 ^ 32 }
            ensures { result ≡ number + 1000 }
        {
            calls.fetch_add(1, Ordering::SeqCst);
            number + 1000
        },
    );
    let Ok(boxed) = boxed else {
        panic!(rt; "no memory for a job");
    };
    let action: Action = boxed;
    Job::new(number, number + 1000, action)
}

/// The story with these jobs, and how many of them are registered in the end.
fn left_behind<R: Threads + Wait + Abort + Sync>(
    rt: &R,
    alloc: Global,
    jobs: VecDeque<Job>,
    story: &Story,
) -> u64 {
    let Ok((cleaner, seat)) = SharedCleaner::starting(alloc, Q, story.first) else {
        panic!(rt; "there is no cleaner");
    };
    let starts = Starts {
        heap: story.heap_first,
        ..STARTS
    };
    let (heap, queue, seats) = start(rt, alloc, starts);
    let shared = Shared {
        heap: &heap,
        queue: &queue,
        cleaner: &cleaner,
    };
    let chair = Chair {
        seats,
        cleaner: seat,
    };
    assert!(rt; cleaner.queue() == Q);
    let Chair {
        seats,
        cleaner: seat,
    } = tell(rt, shared, chair, jobs, story);
    end_queue(queue.finish(seats.queue));
    let left = left_in(cleaner.finish(seat));
    match left {
        Some(count) => count,
        None => panic!(rt; "a turn of the cleaner is open"),
    }
}

/// How many jobs a finished cleaner gives, each of which is dropped, not run.
pub fn left_in(finished: Result<CleanTable<Hold>, Option<CleanTable<Hold>>>) -> Option<u64> {
    let mut table = match finished {
        Ok(table) | Err(Some(table)) => table,
        Err(None) => return None,
    };
    let mut count = 0;
    while let Some((_, hold, _job)) = table.take_any() {
        hold.leak();
        count = u64::saturating_add(count, 1);
    }
    match table.end() {
        Ok(()) => Some(count),
        Err(_table) => unreachable!(),
    }
}
