//! Temporary files that are removed once their objects are gone. Two threads make files, and register a task for each
//! with one cleaner; a third thread removes the files of dead objects, and the cleaner's end the others.
//!
//! A task is a number alone. The gate, which has a handle of the system and is told of each task that is run, removes
//! the file of that number. It prints the same in every run.
#![tactic(auto)]

use anyhow::Error;
use folder::Folder;
use ref_base::{Config, Fault, MutNo, QueueNo, SlotNo, WorkerNo};
use ref_share::{
    CleanUser, Collector, HeapUser, Numbered, QueueUser, Queues, ShareFault, SharedCleaner,
    SharedHeap, run_tasks_left,
};
use std::alloc::Global;
use std::sync::Wait;
use std::thread::Threads;
use std::{io, thread};

mod folder;

/// How many files each of the two makers has.
const FILES: u32 = 4;

/// A slot that is empty between calls: a register uses one on the way.
const EMPTY: SlotNo = SlotNo(15);

const QUEUE: QueueNo = QueueNo(0);

/// What goes wrong in a thread.
#[derive(Debug, Drop, thiserror::Error)]
enum Failure {
    #[error("{0}")]
    Heap(#[from] Fault),
    #[error("{0}")]
    File(#[from] io::Error),
}

impl From<ShareFault> for Failure {
    fn from(fault: ShareFault) -> Failure {
        Failure::Heap(fault.into_fault())
    }
}

fn main(rt: HostRuntime) -> Result<(), Error> {
    let alloc = rt.alloc();
    let folder = Folder::new(&rt)?;
    let mut queues = Queues::new(alloc, 1)?;
    let removed = use_files(&rt, alloc, &folder, &mut queues);
    queues.end();
    println!(rt; "{} files were removed by the cleaner's thread", removed?)?;
    folder.end()?;
    println!(rt; "none is left")?;
    Ok(())
}

/// Makes the heap and the cleaner, runs the threads, and ends the cleaner. How many files the cleaner's thread removed.
fn use_files<R: Threads + Wait + Sync>(
    rt: &R,
    alloc: Global,
    folder: &Folder,
    queues: &mut Queues,
) -> Result<u64, Failure> {
    let (heap, seat) = SharedHeap::new(alloc, Config::default().mutators(3), 0)?;
    let (cleaner, mut last) = SharedCleaner::new(alloc, QUEUE)?;
    let user = HeapUser::new(&heap, seat, MutNo(0));
    let clean = CleanUser::new(&cleaner, cleaner.split(&mut last));
    let removed = run(rt, alloc, user, clean, &*folder, &mut *queues);
    run_tasks_left(cleaner.finish(last), folder);
    removed
}

/// Makes what each thread uses, and runs them to their ends. How many files the remover removed.
fn run<'x, R: Threads + Wait + Sync>(
    rt: &R,
    alloc: Global,
    mut heap: HeapUser<'x>,
    mut clean: CleanUser<'x, Numbered>,
    folder: &'x Folder<'x>,
    queues: &'x mut Queues,
) -> Result<u64, Failure> {
    let mut told = queues.users()?;
    let queue = told.user(QUEUE)?;
    let collector = Collector::new(alloc, &mut heap, told, WorkerNo(0));
    let left = Hand {
        heap: heap.split(MutNo(1)),
        clean: clean.split(),
        folder,
    };
    let right = Hand {
        heap: heap.split(MutNo(2)),
        clean: clean.split(),
        folder,
    };
    let remover = Hand {
        heap,
        clean,
        folder,
    };
    let ((first, second), removed, collected) = collector.run_with_readers(
        rt,
        || -> (Result<(), Failure>, Result<(), Failure>) { make_both(rt, left, right) },
        || -> Result<u64, Failure> { remover.remove_dead(rt, queue) },
    );
    first?;
    second?;
    collected.ended?;
    removed
}

/// The two makers, each in a thread.
fn make_both<R: Threads + Wait + Sync>(
    rt: &R,
    left: Hand,
    right: Hand,
) -> (Result<(), Failure>, Result<(), Failure>) {
    thread::join(
        rt,
        || -> Result<(), Failure> { left.make(rt, 0) },
        || -> Result<(), Failure> { right.make(rt, FILES) },
    )
}

/// A thread that makes files, or removes them.
#[derive(Drop)]
struct Hand<'a> {
    heap: HeapUser<'a>,
    clean: CleanUser<'a, Numbered>,
    folder: &'a Folder<'a>,
}

impl Hand<'_> {
    /// Makes files, numbered from `first`, each with an object and a task, and lets every second object go.
    fn make<R: Wait>(self, rt: &R, first: u32) -> Result<(), Failure> {
        let Hand {
            mut heap,
            mut clean,
            folder,
        } = self;
        for slot in 0..FILES {
            let number = u64::from(first) + u64::from(slot);
            let (source, task) = (SlotNo(slot), Numbered(number));
            folder.write(number)?;
            heap.make(rt, source, 0)?;
            if let Err((fault, _task)) = clean.register(rt, &mut heap, source, EMPTY, task) {
                return Err(fault.into());
            }
            if slot % 2 == 0 {
                heap.empty(rt, source)?;
            }
        }
        Ok(())
    }

    /// Removes the files of dead objects, until the queue is closed. How many these were.
    fn remove_dead<R: Wait>(self, rt: &R, mut queue: QueueUser) -> Result<u64, Failure> {
        let Hand {
            mut heap,
            mut clean,
            folder,
        } = self;
        Ok(clean.clean_loop(rt, &mut heap, &mut queue, folder)?)
    }
}
