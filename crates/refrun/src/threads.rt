//! A stress run: threads over one heap and one queue, and the queue's lists once they have ended.

ghost use Rattle.std.specs.Prelude.{◌≡◌, ◌≤◌, false, All, Err};
ghost use Rattle.ref_share.specs.HeapSeats.{IsHeapSeat};
ghost use Rattle.ref_share.specs.QueueSeats.{IsQueueSeat};
ghost use Rattle.refrun.specs.CleaningSeats.{IsCleanSeated};
ghost use Rattle.ref_base.specs.declared.fault.Fault.TheVariants.{BadConfig};
ghost use Rattle.refrun.specs.StressRuns.{has_threads_in_range};

use crate::cleaning::{Cleaning, CleaningSeats, CleaningStation, JOBS, config_of};
use crate::gate::Gate;
use crate::lists::Check;
use crate::outcomes::{Outcomes, answer_of};
use crate::station::{QUEUE, Running, Shared};
use crate::stress_options::StressOptions;
use crate::tally::Tally;
use making::run_together;
use ref_base::{Fault, ObjNo};
use ref_queue::{Action, Job};
use ref_share::{HeapSeat, QueueSeat, QueuedCleaner, SharedHeap, SharedQueue, end_queue};
use run_lists::lists_left;
use std::alloc::Global;
use std::sync::Wait;
use std::sync::atomic::AtomicU32;
use std::thread::Threads;
use task::{joined, tasks};

mod making;
mod run_lists;
mod task;

pub use run_lists::StressLists;

/// Runs threads as `stress_lists` does, and then looks at the queue's lists: the first check that fails, or `None`
/// where all hold. Its faults are those of `stress_lists`.
pub fn stress<R: Threads + Wait + Sync>(
    rt: &R,
    alloc: Global,
    options: StressOptions,
    tally: &Tally,
) -> Result<Option<Check>, Fault>
    ensures threads { has_threads_in_range options ≡ false → result ≡ Err BadConfig }
{
    match stress_lists(rt, alloc, options, tally)? {
        Some(lists) => lists.check(alloc),
        None => Ok(Some(Check::Rest)),
    }
}

/// Runs threads over one shared heap and one shared queue, and gives the queue's lists and those of the pollers. `None`
/// where a turn of the queue is open, so that nobody can say what stands.
///
/// Mutators make references of each strength, enqueue every other one, and keep some to the end; workers run the
/// collector and hand on what it cleared; pollers take what arrives. When the mutators have ended the workers bring the
/// cycle to its end and one more behind it, so that each reference that was kept is reported. Then they end, the queue
/// is closed, and the pollers take what is left. The tally says meanwhile how far the run is, and can stop the
/// mutators.
///
/// Beside that mutators register jobs of a cleaner for objects of another heap, and let these objects go; the first
/// worker runs that heap's cycles, and pollers run the jobs of what is gone.
///
/// `BadConfig` where mutators and pollers together, or workers, are not 1 to 8. `NoMemory` where a growth is refused,
/// or the memory for threads. All its memory is of this allocator.
pub fn stress_lists<R: Threads + Wait + Sync>(
    rt: &R,
    alloc: Global,
    options: StressOptions,
    tally: &Tally,
) -> Result<Option<StressLists>, Fault>
    ensures threads { has_threads_in_range options ≡ false → result ≡ Err BadConfig }
{
    options.config().check()?;
    let mut lists = Vec::new(alloc);
    for thread in 0..options.threads() {
        let mut jobs = Vec::new(alloc);
        for place in 0..jobs_of(thread, options) {
            let number = u64::from(thread) * JOBS + place;
            let Ok(action) = Box::new(
                alloc,
                |number: u64| -> u64
                    ensures { result ≡ number }
                { answer_of(number) },
            ) else {
                return Err(Fault::NoMemory);
            };
            let action: Action = action;
            let Ok(()) = jobs.push(Job::new(number, number, action)) else {
                return Err(Fault::NoMemory);
            };
        }
        let Ok(()) = lists.push(jobs) else {
            return Err(Fault::NoMemory);
        };
    }
    stress_with(rt, alloc, options, tally, lists)
}

/// How many jobs this thread has: the first threads are the mutators.
fn jobs_of(thread: u32, options: StressOptions) -> u64
    ensures { result ≤ 64 }
{
    if thread < options.mutators { JOBS } else { 0 }
}

/// Runs the threads, each with the jobs of one list, and then ends their cleaner.
fn stress_with<R: Threads + Wait + Sync>(
    rt: &R,
    alloc: Global,
    options: StressOptions,
    tally: &Tally,
    lists: Vec<Vec<Job>>,
) -> Result<Option<StressLists>, Fault> {
    let Ok(outcomes) = Outcomes::new(alloc, lists.len().saturating_mul(JOBS as usize)) else {
        return Err(Fault::NoMemory);
    };
    let (heap, heap_seat) = SharedHeap::new(alloc, config_of(options.mutators), 0)?;
    let (cleaner, clean) = QueuedCleaner::new(alloc)?;
    let cleaning = Cleaning {
        heap,
        cleaner,
        outcomes,
    };
    let mut seats = CleaningSeats {
        heap: heap_seat,
        clean,
    };
    let answer = match cleaning.stations(alloc, &mut seats, lists) {
        Ok(stations) => stress_at(rt, alloc, options, tally, stations),
        Err(_) => Err(Fault::NoMemory),
    };
    let jobs = cleaning.end(alloc, seats);
    let Some(mut lists) = answer? else {
        return Ok(None);
    };
    lists.jobs = jobs?;
    Ok(Some(lists))
}

/// Runs threads over a heap and a queue, each at one of these stations, and gives what they leave but for the jobs.
fn stress_at<R: Threads + Wait + Sync>(
    rt: &R,
    alloc: Global,
    options: StressOptions,
    tally: &Tally,
    stations: Vec<CleaningStation>,
) -> Result<Option<StressLists>, Fault>
    requires { All (λ station. IsCleanSeated station) stations.items }
{
    let (heap, mut heap_seat) = SharedHeap::new(alloc, options.config(), 0)?;
    let (queue, mut queue_seat) = SharedQueue::new(alloc, QUEUE)?;
    let shared = shared_by(heap, queue, options);
    let lists = run(
        rt,
        alloc,
        &shared,
        tally,
        &mut heap_seat,
        &mut queue_seat,
        stations,
    );
    left_of(alloc, shared, queue_seat, lists)
}

/// What the threads of a run share: none has ended.
fn shared_by(heap: SharedHeap, queue: SharedQueue, options: StressOptions) -> Shared
    ensures { (result.heap ≡ heap) × (result.queue ≡ queue) }
{
    let running = Running {
        mutators: AtomicU32::new(options.mutators),
        workers: AtomicU32::new(options.workers),
        pollers: AtomicU32::new(options.pollers),
    };
    Shared {
        heap,
        queue,
        gate: Gate::new(),
        running,
        options,
    }
}

/// The queue ends, and gives its lists beside these.
fn left_of(
    alloc: Global,
    shared: Shared,
    seat: QueueSeat,
    lists: Result<Vec<Vec<ObjNo>>, Fault>,
) -> Result<Option<StressLists>, Fault>
    requires { IsQueueSeat shared.queue seat }
{
    let Shared {
        heap: _heap,
        queue,
        gate: _gate,
        running: _running,
        options,
    } = shared;
    match queue.finish(seat) {
        Ok(queue) | Err(Some(queue)) => {
            let left = lists.and_then(|lists| lists_left(alloc, &queue, lists, options));
            end_queue(Ok(queue));
            left.map(Some)
        }
        Err(None) => lists.map(|_| None),
    }
}

/// Runs all threads to their ends, and gives what each kept or took. Where one can't be made, none begins, and the
/// answer is `NoMemory`.
fn run<R: Threads + Wait + Sync>(
    rt: &R,
    alloc: Global,
    shared: &Shared,
    tally: &Tally,
    heap_seat: &mut HeapSeat,
    queue_seat: &mut QueueSeat,
    stations: Vec<CleaningStation>,
) -> Result<Vec<Vec<ObjNo>>, Fault>
    requires seats { IsHeapSeat shared.now.heap heap_seat.old × IsQueueSeat shared.now.queue queue_seat.old }
    requires stations { All (λ station. IsCleanSeated station) stations.items }
    ensures { IsHeapSeat shared.now.heap heap_seat.new × IsQueueSeat shared.now.queue queue_seat.new }
{
    let Ok(tasks) = tasks(alloc, shared, heap_seat, queue_seat, stations) else {
        return Err(Fault::NoMemory);
    };
    let left = run_together(rt, alloc, shared, tally, tasks)?;
    joined(alloc, shared, heap_seat, queue_seat, left)
}
