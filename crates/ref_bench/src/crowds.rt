//! Threads that put notices into one queue and take them out.

ghost use Rattle.std.specs.Prelude.{All};
ghost use Rattle.ref_share.specs.QueueSeats.{IsQueueSeat};

use crate::letters::{Letter, QUEUE, letters};
use crate::tills::{SharedTill, Till};
use crate::timing::{Sample, Timer};
use ref_base::Fault;
use ref_share::{QueueSeat, SharedQueue, end_queue};
use std::alloc::Global;
use std::sync::Wait;
use std::sync::atomic::{AtomicU32, Ordering};
use std::thread;
use std::thread::Threads;
use std::time::Clock;

/// What one thread does: it puts these in, or takes until the queue is closed and nothing stands.
#[derive(Drop)]
enum Task {
    Put(Vec<Letter>),
    Take,
}

/// One thread's task, with its way to the queue, and how many threads still put.
#[derive(Drop)]
struct Job<'a, T: Till> {
    task: Task,
    till: T,
    putting: &'a AtomicU32,
}

impl<T: Till + Drop> Job<'_, T> {
    /// The last that puts closes the queue.
    fn run<R: Wait>(self, rt: &R) -> Result<(), Fault>
        requires { T.is_ready self.till }
    {
        let Job {
            task,
            mut till,
            putting,
        } = self;
        match task {
            Task::Put(letters) => {
                for letter in letters {
                    till.put(rt, letter)?;
                }
                if putting.fetch_sub(1, Ordering::SeqCst) == 1 {
                    till.close(rt);
                }
            }
            Task::Take => for _ in rt.forever() {
                if till.take(rt).is_none() {
                    break;
                }
            },
        }
        Ok(())
    }
}

/// The time that the threads take together.
fn crowd<R: Threads + Wait + Clock + Sync, T: Till + Send + Drop>(
    rt: &R,
    jobs: Vec<Job<T>>,
    count: u32,
) -> Result<Sample, Fault>
    requires { All (λ job. T.is_ready job.till) jobs.items }
{
    let of_job = |job: Job<T>| -> Result<(), Fault>
        requires { T.is_ready job.till }
    { job.run(rt) };
    let timer = Timer::start(rt);
    let Ok(answers) = thread::map_vec(rt, jobs, &of_job) else {
        return Err(Fault::NoMemory);
    };
    let sample = timer.stop(rt, u64::from(count));
    for answer in answers {
        answer?;
    }
    Ok(sample)
}

/// A task for each thread that puts, with its pile of the notices, and then one for each that takes.
fn tasks(alloc: Global, pairs: u32, count: u32) -> Result<Vec<Task>, Fault> {
    let mut tasks = Vec::new(alloc);
    let each = count / pairs.max(1);
    for pair in 0..pairs {
        let first = 1 + pair.saturating_mul(300_000_000).min(u32::MAX - 1);
        let pile = letters(alloc, first, each)?;
        if tasks.push(Task::Put(pile)).is_err() {
            return Err(Fault::NoMemory);
        }
    }
    for _ in 0..pairs {
        if tasks.push(Task::Take).is_err() {
            return Err(Fault::NoMemory);
        }
    }
    Ok(tasks)
}

/// A shared queue between so many threads that put and as many that take.
pub fn shared_queue<R: Threads + Wait + Clock + Sync>(
    rt: &R,
    alloc: Global,
    pairs: u32,
    count: u32,
) -> Result<Sample, Fault> {
    let tasks = tasks(alloc, pairs, count)?;
    let (queue, mut seat) = SharedQueue::new(alloc, QUEUE)?;
    let sample = among_shared(rt, alloc, &queue, &mut seat, tasks, pairs, count);
    end_queue(queue.finish(seat));
    sample
}

fn among_shared<R: Threads + Wait + Clock + Sync>(
    rt: &R,
    alloc: Global,
    queue: &SharedQueue,
    seat: &mut QueueSeat,
    tasks: Vec<Task>,
    pairs: u32,
    count: u32,
) -> Result<Sample, Fault>
    requires { IsQueueSeat queue.now seat.old }
    ensures { IsQueueSeat queue.now seat.new }
{
    let putting = AtomicU32::new(pairs);
    let mut jobs = Vec::new(alloc);
    for task in tasks {
        let job = Job {
            task,
            till: SharedTill::new(queue, queue.split(seat)),
            putting: &putting,
        };
        if jobs.push(job).is_err() {
            return Err(Fault::NoMemory);
        }
    }
    crowd(rt, jobs, count)
}
