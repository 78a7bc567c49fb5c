//! A canonical map: two threads ask for words, and while either keeps a word's object, both get the same one.
//!
//! An object that both threads share has a weak reference to each word's object in a field. Once nobody keeps that
//! object a cycle clears the reference, and the thread that the queue tells removes the entry. It prints the same in
//! every run.
#![tactic(auto)]

use anyhow::Error;
use ref_base::{Config, Fault, MutNo, ObjNo, Parcel, QueueNo, SlotNo, Strength, WorkerNo};
use ref_share::{Collector, HeapUser, QueueUser, Queues, SharedHeap};
use std::alloc::Global;
use std::collections::BTreeMap;
use std::sync::{Mutex, Wait};
use std::thread;
use std::thread::Threads;

/// How many words there are. Each has a field of its own, and a slot in each thread.
const WORDS: u32 = 8;

/// The slot for a word that is asked for again.
const AGAIN: SlotNo = SlotNo(WORDS);

/// The slot that a reference is read into.
const REFERENCE: SlotNo = SlotNo(14);

/// The slot of the object with the references.
const TABLE: SlotNo = SlotNo(15);

const QUEUE: QueueNo = QueueNo(0);

/// The word of each entry, by the number of its reference.
type Entries = Mutex<BTreeMap<ObjNo, u32>>;

/// Asks for each word twice, and keeps every fourth, from `first` on. How often it got the same object again.
fn ask<R: Wait>(rt: &R, mut heap: HeapUser, entries: &Entries, first: u32) -> Result<u32, Fault> {
    let mut same: u32 = 0;
    for word in 0..WORDS {
        let slot = SlotNo(word);
        let object = intern(rt, &mut heap, entries, word, slot)?;
        if intern(rt, &mut heap, entries, word, AGAIN)? == object {
            same = same.saturating_add(1);
        }
        if word % 4 != first {
            heap.empty(rt, slot)?;
        }
    }
    heap.empty(rt, AGAIN)?;
    Ok(same)
}

/// The word's one object: the one that is there, or else a new one. The slot then holds it.
fn intern<R: Wait>(
    rt: &R,
    heap: &mut HeapUser,
    entries: &Entries,
    word: u32,
    slot: SlotNo,
) -> Result<ObjNo, Fault> {
    let mut entries = entries.lock(rt);
    if heap.load(rt, REFERENCE, TABLE, word)?.is_some() {
        if let Some(object) = heap.get(rt, slot, REFERENCE)? {
            return Ok(object);
        }
    }
    let object = heap.make(rt, slot, 0)?;
    let reference = heap.refer(rt, Strength::Weak, REFERENCE, slot, Some(QUEUE))?;
    heap.store(rt, TABLE, word, REFERENCE)?;
    entries.insert(reference, word)?;
    Ok(object)
}

/// Removes the entry of each reference that the queue reports, until the queue is closed.
fn remove_dead<R: Wait>(
    rt: &R,
    mut heap: HeapUser,
    mut queue: QueueUser,
    entries: &Entries,
) -> Result<(), Fault> {
    for notice in queue.notices(rt) {
        entries.lock(rt).remove(&notice.obj());
        heap.give_back(rt, notice.into_hold())?;
    }
    Ok(())
}

fn main(rt: HostRuntime) -> Result<(), Error> {
    let alloc = rt.alloc();
    let config = Config::default().mutators(3);
    let (heap, seat) = SharedHeap::new(alloc, config, 0)?;
    let entries = Mutex::new(BTreeMap::new(alloc));
    let mut queues = Queues::new(alloc, 1)?;
    let user = HeapUser::new(&heap, seat, MutNo(0));
    let ran = run(&rt, alloc, user, &mut queues, &entries);
    queues.end();
    let (left, right) = ran?;
    println!(rt; "the same object again: {left} and {right} of {WORDS}")?;
    let entries = entries.into_inner();
    for word in 0..WORDS {
        if entries.values().any(|kept| *kept == word) {
            println!(rt; "word {word} is kept")?;
        }
    }
    Ok(())
}

/// Makes the table, gives it to both askers, and runs the threads to their ends. How often each asker got the same
/// object again.
fn run<'x, R: Threads + Wait + Sync>(
    rt: &R,
    alloc: Global,
    mut heap: HeapUser<'x>,
    queues: &'x mut Queues,
    entries: &'x Entries,
) -> Result<(u32, u32), Fault> {
    let mut told = queues.users()?;
    heap.make(rt, TABLE, WORDS)?;
    let mut other = heap.split(MutNo(1));
    let table = heap.hold(rt, TABLE)?;
    other.adopt(rt, TABLE, table)?;
    let remover = (heap.split(MutNo(2)), told.user(QUEUE)?);
    let collector = Collector::new(alloc, &mut heap, told, WorkerNo(0));
    run_threads(rt, collector, (heap, other), remover, entries)
}

/// Runs the threads: those of the two askers, of the collector, and of the remover of what died.
fn run_threads<'x, R: Threads + Wait + Sync>(
    rt: &R,
    collector: Collector<'x>,
    askers: (HeapUser<'x>, HeapUser<'x>),
    remover: (HeapUser<'x>, QueueUser<'x>),
    entries: &'x Entries,
) -> Result<(u32, u32), Fault> {
    let (heap, queue) = remover;
    let ((first, second), removed, collected) = collector.run_with_readers(
        rt,
        || -> (Result<u32, Fault>, Result<u32, Fault>) { ask_both(rt, askers, entries) },
        || -> Result<(), Fault> { remove_dead(rt, heap, queue, entries) },
    );
    removed?;
    collected.ended?;
    Ok((first?, second?))
}

/// The two askers, each in a thread.
fn ask_both<R: Threads + Wait + Sync>(
    rt: &R,
    askers: (HeapUser, HeapUser),
    entries: &Entries,
) -> (Result<u32, Fault>, Result<u32, Fault>) {
    let (left, right) = askers;
    thread::join(
        rt,
        || -> Result<u32, Fault> { ask(rt, left, entries, 0) },
        || -> Result<u32, Fault> { ask(rt, right, entries, 1) },
    )
}
