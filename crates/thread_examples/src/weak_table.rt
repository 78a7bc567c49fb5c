//! A table with weak values, as caches and canonical maps are: once nothing else refers to a value, its entry goes.
//!
//! Four threads share a heap. The program makes values and lets some go, and the collector runs cycles. Two cleaners,
//! each with a queue of its own, take what that reports and remove the entries of what died. It prints the same in
//! every run.

use ref_base::{Config, Fault, MutNo, ObjNo, Parcel, QueueNo, SlotNo, Strength, WorkerNo};
use ref_share::{Collector, HeapUser, QueueUser, Queues, SharedHeap};
use std::alloc::Global;
use std::collections::BTreeMap;
use std::sync::{Mutex, Wait};
use std::thread;
use std::thread::Threads;

/// The key of each entry, by the number of the weak reference to its value.
type Table = Mutex<BTreeMap<ObjNo, u32>>;

/// One thread's way to the heap, and the table.
#[derive(Drop)]
struct Keeper<'a> {
    heap: HeapUser<'a>,
    table: &'a Table,
}

const PROGRAM: MutNo = MutNo(0);

/// The program's slots below this have the values, those from here on the references to them.
const KEYS: u32 = 8;

/// Runs the example.
pub fn example<R: Threads + Wait + Print + Sync>(
    rt: &R,
    alloc: Global,
) -> Result<(), anyhow::Error> {
    let table = Mutex::new(BTreeMap::new(alloc));
    let (heap, seat) = SharedHeap::new(alloc, Config::default().queues(2), 0)?;
    let user = HeapUser::new(&heap, seat, PROGRAM);
    let mut queues = Queues::new(alloc, 2)?;
    let ran = fill_and_clean(rt, alloc, user, &mut queues, &table);
    queues.end();
    ran?;
    let table = table.into_inner();
    println!(rt; "{} of {KEYS} entries are left", table.len())?;
    for key in table.values() {
        println!(rt; "{key}")?;
    }
    Ok(())
}

/// Runs the program, the collector, and a cleaner for each queue. The collector goes on until the program has ended,
/// and then closes the queues.
fn fill_and_clean<'x, R: Threads + Wait + Sync>(
    rt: &R,
    alloc: Global,
    user: HeapUser<'x>,
    queues: &'x mut Queues,
    table: &'x Table,
) -> Result<(), Fault> {
    let mut heap = user;
    let mut told = queues.users()?;
    let (lower, upper) = (told.user(QueueNo(0))?, told.user(QueueNo(1))?);
    let collector = Collector::new(alloc, &mut heap, told, WorkerNo(0));
    let left = Keeper {
        heap: heap.split(PROGRAM),
        table,
    };
    let right = Keeper {
        heap: heap.split(PROGRAM),
        table,
    };
    let program = Keeper { heap, table };
    let (filled, (first, second), collected) = collector.run_with_readers(
        rt,
        || -> Result<(), Fault> { program.fill(rt) },
        || -> (Result<(), Fault>, Result<(), Fault>) { clean_both(rt, left, lower, right, upper) },
    );
    filled?;
    first?;
    second?;
    collected.ended
}

/// The two cleaners, each in a thread.
fn clean_both<R: Threads + Wait + Sync>(
    rt: &R,
    left: Keeper,
    lower: QueueUser,
    right: Keeper,
    upper: QueueUser,
) -> (Result<(), Fault>, Result<(), Fault>) {
    thread::join(
        rt,
        || -> Result<(), Fault> { left.clean(rt, lower) },
        || -> Result<(), Fault> { right.clean(rt, upper) },
    )
}

impl Keeper<'_> {
    /// Makes a value for each key, and a weak reference to it with its entry. The references of the lower half of the
    /// keys are reported by the first queue, and those of the others by the second. Then it lets the values of odd keys
    /// go.
    fn fill<R: Wait>(self, rt: &R) -> Result<(), Fault> {
        let Keeper { mut heap, table } = self;
        for key in 0..KEYS {
            let queue = Some(QueueNo(key * 2 / KEYS));
            heap.make(rt, SlotNo(key), 0)?;
            let reference = heap.refer(rt, Strength::Weak, SlotNo(KEYS + key), SlotNo(key), queue)?;
            table.lock(rt).insert(reference, key)?;
        }
        for key in (1..KEYS).step_by(2) {
            heap.empty(rt, SlotNo(key))?;
        }
        Ok(())
    }

    /// Removes the entry of each reference that the queue reports, until the queue is closed.
    fn clean<R: Wait>(self, rt: &R, queue: QueueUser) -> Result<(), Fault> {
        let Keeper { mut heap, table } = self;
        let mut queue = queue;
        for notice in queue.notices(rt) {
            table.lock(rt).remove(&notice.obj());
            heap.give_back(rt, notice.into_hold())?;
        }
        Ok(())
    }
}
