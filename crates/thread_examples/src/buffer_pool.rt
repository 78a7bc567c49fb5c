//! A pool of buffers, each given back once its object is gone, by a cleaner's thread, or by hand before.
//!
//! The program takes buffers and gives one back itself. Then three threads share the heap: the program lets some of the
//! buffers' objects go, the collector runs cycles, and the cleaner's thread runs the jobs of what died. A second queue
//! tells the program itself what it lost. It prints the same in every run.

ghost use Rattle.std.specs.Prelude.{◌≡◌};

use pool::{BUFFERS, Buffer, count_free};
use program::{PROGRAM, count_losses, let_go, open_all};
use ref_base::{Config, Fault, QueueNo, WorkerNo};
use ref_queue::{Action, Job};
use ref_share::{CleanUser, Collector, HeapUser, Queues, SharedCleaner, SharedHeap, run_jobs_left};
use std::alloc::Global;
use std::sync::Wait;
use std::thread;
use std::thread::Threads;
use worker::Worker;

mod pool;
mod program;
mod worker;

/// The queue by which the program learns what it lost.
const LOST: QueueNo = QueueNo(0);

/// The queue by which the cleaner's thread learns what is gone.
const CLEANED: QueueNo = QueueNo(1);

/// How many buffers the program gave back, and how many the cleaner's thread, and of how many losses the program was
/// told.
#[derive(Clone, Copy)]
struct Counts {
    by_program: u64,
    by_worker: u64,
    told: u64,
}

/// Runs the example.
pub fn example<R: Threads + Wait + Print + Sync>(
    rt: &R,
    alloc: Global,
) -> Result<(), anyhow::Error> {
    let mut pool = Vec::new(alloc);
    let mut jobs = Vec::new(alloc);
    for number in 0..u64::from(BUFFERS) {
        let buffer = Buffer::taken(alloc)?;
        let owner = buffer.share()?;
        let action: Action = Box::new(
            alloc,
            move |number: u64| -> u64
                ensures { result ≡ number }
            {
                owner.give_back();
                number
            },
        )?;
        jobs.push(Job::new(number, number, action))?;
        pool.push(buffer)?;
    }
    let (counts, free) = use_buffers(rt, alloc, jobs, &pool)?;
    println!(rt; "{} given back by the program", counts.by_program)?;
    println!(rt; "{} given back by the cleaner's thread", counts.by_worker)?;
    println!(rt; "{free} of {BUFFERS} are free")?;
    println!(rt; "{} of {BUFFERS} are free at the end", count_free(&pool))?;
    println!(rt; "{} losses told to the program", counts.told)?;
    Ok(())
}

/// Makes the heap and the cleaner, and runs the threads over them. How many buffers are free then. At the end those
/// that are still in use are given back.
fn use_buffers<R: Threads + Wait + Sync>(
    rt: &R,
    alloc: Global,
    jobs: Vec<Job>,
    pool: &[Buffer],
) -> Result<(Counts, usize), Fault> {
    let (heap, seat) = SharedHeap::new(alloc, Config::default().queues(2), 0)?;
    let (cleaner, mut last) = SharedCleaner::new(alloc, CLEANED)?;
    let user = HeapUser::new(&heap, seat, PROGRAM);
    let clean = CleanUser::new(&cleaner, cleaner.split(&mut last));
    let counts = with_queues(rt, alloc, user, clean, jobs);
    let free = count_free(pool);
    run_jobs_left(cleaner.finish(last), &());
    Ok((counts?, free))
}

/// Makes the queues, runs the threads, and ends the queues.
fn with_queues<R: Threads + Wait + Sync>(
    rt: &R,
    alloc: Global,
    user: HeapUser,
    clean: CleanUser,
    jobs: Vec<Job>,
) -> Result<Counts, Fault> {
    let mut queues = Queues::new(alloc, 2)?;
    let counts = run(rt, alloc, user, clean, jobs, &mut queues);
    queues.end();
    counts
}

/// The program takes the buffers, and then the three threads run to their ends: the collector goes on until the program
/// has ended, and then closes the queues.
fn run<'x, R: Threads + Wait + Sync>(
    rt: &R,
    alloc: Global,
    user: HeapUser<'x>,
    clean: CleanUser<'x>,
    jobs: Vec<Job>,
    queues: &'x mut Queues,
) -> Result<Counts, Fault> {
    let (mut heap, mut clean) = (user, clean);
    let mut told = queues.users()?;
    let (mut lost, cleaned) = (told.user(LOST)?, told.user(CLEANED)?);
    let by_program = open_all(rt, &mut heap, &mut clean, jobs)?;
    let collector = Collector::new(alloc, &mut heap, told, WorkerNo(0));
    let worker = Worker {
        heap: heap.split(PROGRAM),
        clean,
        queue: cleaned,
    };
    let ((let_go, collected), by_worker) = thread::join(
        rt,
        || -> (Result<(), Fault>, Result<(), Fault>) {
            let (let_go, collected) = collector.run_beside(rt, || -> Result<(), Fault> {
                let_go(rt, heap)
            });
            (let_go, collected.ended)
        },
        || -> Result<u64, Fault> { worker.run(rt) },
    );
    let_go?;
    collected?;
    Ok(Counts {
        by_program,
        by_worker: by_worker?,
        told: count_losses(rt, &mut lost),
    })
}
