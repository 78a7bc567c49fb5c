//! A weak cache whose entries close a file: once nothing but the cache leads to a value, the job of a cleaner closes
//! the file that belongs to it.
#![tactic(auto)]

ghost use Rattle.std.specs.Prelude.{◌≡◌};
ghost use Rattle.ref_share.specs.CleanedHeaps.{HasSeats};

use anyhow::Error;
use ref_base::{Batch, Config, Reply, SlotNo, SpanRule, Strength, Urgency};
use ref_queue::{Action, Job, Ran};
use ref_share::{Cleanable, CleanedHeap, Gate, end_batch};
use std::alloc::Global;
use std::collections::VecDeque;
use std::fs::File;
use std::sync::Wait;

const CONFIG: Config = Config {
    mutators: 1,
    workers: 1,
    queues: 1,
    cells: 64,
    span: 0,
    rule: SpanRule::Fixed,
};

/// The slots below this have the values, those from here on the weak references to them.
const KEYS: u32 = 4;

/// A slot that is empty between calls: a register uses one on the way.
const EMPTY: SlotNo = SlotNo(15);

/// Prints which files are closed.
#[derive(Drop)]
struct Printer<'a, R> {
    rt: &'a R,
}

impl<R: Print> Gate for Printer<'_, R> {
    fn before(&self, _number: u64) {}

    fn after(&self, ran: Ran) {
        let _ = println!(self.rt; "file {} is closed", ran.number);
    }
}

fn main(rt: HostRuntime) -> Result<(), Error> {
    let mut jobs = VecDeque::new(rt.alloc());
    for key in 0..u64::from(KEYS) {
        let file = File::open(&rt, "/dev/null")?;
        let action: Action = Box::new(
            rt.alloc(),
            move |number: u64| -> u64
                ensures { result ≡ number }
            {
                drop(file);
                number
            },
        )?;
        jobs.push_back(Job::new(key, key, action))?;
    }
    let mut heap = CleanedHeap::new(rt.alloc(), CONFIG)?;
    let used = use_cache(&rt, rt.alloc(), &mut heap, jobs);
    heap.end(&Printer { rt: &rt });
    used
}

/// Adds an entry for each job, closes the file of key 0 by hand, and lets the values of the odd keys go. Then it closes
/// the files of what a cycle finds dead, and prints which values are left.
fn use_cache<R: Print + Wait>(
    rt: &R,
    alloc: Global,
    heap: &mut CleanedHeap,
    jobs: VecDeque<Job>,
) -> Result<(), Error>
    requires { HasSeats heap.old }
    ensures { HasSeats heap.new }
{
    let first = fill(rt, heap, jobs)?;
    close(rt, heap, first)?;
    heap.empty(rt, SlotNo(1))?;
    heap.empty(rt, SlotNo(3))?;
    let batch = Batch::new(alloc)?;
    let (cycled, left) = heap.cycle(rt, 0, Urgency::Normal, batch);
    end_batch(left);
    cycled.map_err(|fault| fault.into_fault())?;
    heap.clean_some(rt, &Printer { rt })
        .map_err(|fault| fault.into_fault())?;
    tell(rt, heap)
}

/// Makes a value for each job, with a weak reference to it, and registers the job. The first of them can be closed by
/// what is returned.
fn fill<R: Wait>(
    rt: &R,
    heap: &mut CleanedHeap,
    mut jobs: VecDeque<Job>,
) -> Result<Option<Cleanable>, Error>
    requires { HasSeats heap.old }
    ensures { HasSeats heap.new }
{
    let mut first = None;
    for key in 0..KEYS {
        let Some(job) = jobs.pop_front() else {
            break;
        };
        heap.make(rt, SlotNo(key), 0)?;
        heap.refer(rt, Strength::Weak, SlotNo(KEYS + key), SlotNo(key), None)?;
        match heap.register(rt, SlotNo(key), EMPTY, job) {
            Ok(cleanable) if key == 0 => first = Some(cleanable),
            Ok(_cleanable) => {}
            Err((fault, _job)) => return Err(fault.into_fault().into()),
        }
    }
    Ok(first)
}

/// Closes a file by hand, if there is one: its job comes out of the cleaner, and is dropped with the file. So it is not
/// closed again.
fn close<R: Print + Wait>(
    rt: &R,
    heap: &mut CleanedHeap,
    first: Option<Cleanable>,
) -> Result<(), Error>
    requires { HasSeats heap.old }
    ensures { HasSeats heap.new }
{
    let Some(cleanable) = first else {
        return Ok(());
    };
    let out = heap
        .unregister(rt, cleanable)
        .map_err(|fault| fault.into_fault())?;
    let Some((job, back)) = out else {
        return Ok(());
    };
    if let Some(hold) = back {
        hold.leak();
    }
    println!(rt; "file {} is closed by hand", job.number())?;
    Ok(())
}

/// Prints which values are still there.
fn tell<R: Print + Wait>(rt: &R, heap: &mut CleanedHeap) -> Result<(), Error>
    requires { HasSeats heap.old }
    ensures { HasSeats heap.new }
{
    for key in 0..KEYS {
        if heap.refers_to(rt, SlotNo(KEYS + key), EMPTY)? == Reply::Refers(false) {
            println!(rt; "value {key} is cached")?;
        }
    }
    Ok(())
}
