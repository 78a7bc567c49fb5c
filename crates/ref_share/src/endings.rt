//! The ends of queues and of cleaners' tables, once their threads have ended: what is left in them is given up.

ghost use Rattle.std.specs.Prelude.{◌≡◌, ℕ, [], Some, length};
ghost use Rattle.ref_base.specs.declared.heap_step.HoldName.{HoldName};
ghost use Rattle.ref_queue.specs.CleanTables.{job_of};
ghost use Rattle.ref_share.specs.Answers.{found, count_standing, job_left_in};
ghost use Rattle.ref_share.specs.CleanSeats.{IsCleanSeat};
ghost use Rattle.ref_share.specs.CleanedHeaps.{AreEnded};
ghost use Rattle.ref_share.specs.QueueSeats.{IsQueueSeat};

use crate::{CleanSeat, Gate, QueueSeat, SharedCleaner, SharedQueue, Task};
use ref_base::Batch;
use ref_clear::Notice;
use ref_objects::Hold;
use ref_queue::{CleanTable, Job, Queue};
use std::alloc::Allocator;

/// Ends what `SharedQueue::finish` gave. The hold of each notice that stands in it is given up, and its heap, if it is
/// still there, counts it for good. How many these were. Takes no memory.
pub fn end_queue<A: Allocator + Copy>(
    finished: Result<Queue<Notice, A>, Option<Queue<Notice, A>>>,
) -> usize
    ensures { result ≡ count_standing (found finished) }
{
    let queue = match finished {
        Ok(queue) | Err(Some(queue)) => queue,
        Err(None) => return 0,
    };
    let mut standing = queue.end();
    let count = standing.len();
    while let Some(notice) = standing.pop_front() {
        notice.into_hold().leak();
    }
    standing.destroy_empty();
    count
}

/// Ends a batch, as one that a fault of `cycle` left. The hold of each notice in it is given up, as by `end_queue`. How
/// many these were. Takes no memory.
pub fn end_batch<A: Allocator>(batch: Batch<Notice, A>) -> usize
    ensures { result ≡ length batch }
{
    let mut batch = batch;
    let count = batch.len();
    while let Some(notice) = batch.take_first() {
        notice.into_hold().leak();
    }
    batch.end();
    count
}

/// Ends what `SharedCleaner::finish` gave. Each job that is still registered is run, in no order, between the gate's
/// two calls, and the hold of its reference is given up, as by `end_queue`. Takes no memory but what the jobs take.
pub fn run_jobs_left<A: Allocator + Copy, G: Gate>(
    finished: Result<CleanTable<Hold, Job, A>, Option<CleanTable<Hold, Job, A>>>,
    gate: &G,
)
    ensures { (n : ℕ) (hold : HoldName) (job : _) → job_left_in (found finished) n ≡ Some (hold, job)
        → (answer : ℕ)
        × ⟦<Box<dyn FnOnce(u64) -> u64 + Send> as FnOnce(u64) -> u64>⟧.post job.action job.number answer }
{
    match finished {
        Ok(table) => run_all(table, gate),
        Err(Some(table)) => run_all(table, gate),
        Err(None) => {}
    }
}

// Runs each job of the table, and ends it. That a job was run is told by what its action answered.
fn run_all<A: Allocator + Copy, G: Gate>(table: CleanTable<Hold, Job, A>, gate: &G)
    ensures { (n : ℕ) (hold : HoldName) (job : _) → job_of table n ≡ Some (hold, job)
        → (answer : ℕ)
        × ⟦<Box<dyn FnOnce(u64) -> u64 + Send> as FnOnce(u64) -> u64>⟧.post job.action job.number answer }
{
    let mut table = table;
    while let Some((_, hold, job)) = table.take_any() {
        hold.leak();
        gate.before(job.number());
        gate.after(job.run());
    }
    end_empty(table);
}

/// Ends what `SharedCleaner::finish` gave, as `run_jobs_left`, for tasks of any type: each that is still registered is
/// run, in no order, between the gate's two calls.
pub fn run_tasks_left<J: Task, A: Allocator + Copy, G: Gate>(
    finished: Result<CleanTable<Hold, J, A>, Option<CleanTable<Hold, J, A>>>,
    gate: &G,
)
    ensures { (n : ℕ) (hold : HoldName) (task : _) → job_left_in (found finished) n ≡ Some (hold, task)
        → J.was_run task }
{
    match finished {
        Ok(table) => run_all_tasks(table, gate),
        Err(Some(table)) => run_all_tasks(table, gate),
        Err(None) => {}
    }
}

// Runs each task of the table, and ends it.
fn run_all_tasks<J: Task, A: Allocator + Copy, G: Gate>(table: CleanTable<Hold, J, A>, gate: &G)
    ensures { (n : ℕ) (hold : HoldName) (task : _) → job_of table n ≡ Some (hold, task) → J.was_run task }
{
    let mut table = table;
    while let Some((_, hold, task)) = table.take_any() {
        hold.leak();
        gate.before(task.number());
        gate.after(task.run());
    }
    end_empty(table);
}

// Ends a queue, and the cleaner that it tells: notices that stand are given up, and jobs that are still registered are
// run. How many notices that were.
pub(crate) fn end_both<A: Allocator + Copy, G: Gate>(
    queue: SharedQueue<A>,
    queue_seat: QueueSeat<A>,
    cleaner: SharedCleaner<Job, A>,
    clean_seat: CleanSeat<Job, A>,
    gate: &G,
) -> usize
    requires { IsQueueSeat queue queue_seat × IsCleanSeat cleaner clean_seat }
    ensures { AreEnded (λ job. (answer : ℕ)
        × ⟦<Box<dyn FnOnce(u64) -> u64 + Send> as FnOnce(u64) -> u64>⟧.post job.action job.number answer)
        queue queue_seat clean_seat result }
{
    let notices = end_queue(queue.finish(queue_seat));
    run_jobs_left(cleaner.finish(clean_seat), gate);
    notices
}

// Ends a table where nothing is registered.
pub(crate) fn end_empty<J: Task, A: Allocator + Copy>(table: CleanTable<Hold, J, A>)
    requires { table.jobs ≡ [] }
{
    match table.end() {
        Ok(()) => {}
        Err(_table) => unreachable!(),
    }
}
