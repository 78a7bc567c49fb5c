//! The program: who uses the buffers.

use super::LOST;
use super::pool::BUFFERS;
use ref_base::{Fault, MutNo, SlotNo, Strength};
use ref_queue::Job;
use ref_share::{CleanUser, Cleanable, Cleaned, HeapUser, QueueUser};
use std::sync::Wait;

pub const PROGRAM: MutNo = MutNo(0);

/// A slot that is empty between calls: jobs are registered and cleaned by way of it. Those before it have the buffers'
/// objects.
const SPARE: SlotNo = SlotNo(BUFFERS);

/// Makes an object for each buffer. The program is done with the first, and gives that buffer back itself. How many it
/// gave back.
pub fn open_all<R: Wait>(
    rt: &R,
    heap: &mut HeapUser,
    clean: &mut CleanUser,
    jobs: Vec<Job>,
) -> Result<u64, Fault> {
    let mut given_back = 0;
    for (slot, job) in (0..BUFFERS).zip(jobs) {
        let cleanable = open(rt, heap, clean, SlotNo(slot), job)?;
        if slot == 0 && is_given_back(rt, heap, clean, cleanable)? {
            given_back = 1;
        }
    }
    Ok(given_back)
}

/// An object in the slot, whose buffer the job gives back once the object is gone, if not before. A job that can't be
/// registered is run at once.
fn open<R: Wait>(
    rt: &R,
    heap: &mut HeapUser,
    clean: &mut CleanUser,
    slot: SlotNo,
    job: Job,
) -> Result<Cleanable, Fault> {
    heap.make(rt, slot, 0)?;
    match clean.register(rt, heap, slot, SPARE, job) {
        Ok(cleanable) => Ok(cleanable),
        Err((fault, job)) => {
            job.run();
            Err(fault.into_fault())
        }
    }
}

/// Gives a buffer back without waiting for its object's death; false where that was done before.
fn is_given_back<R: Wait>(
    rt: &R,
    heap: &mut HeapUser,
    clean: &mut CleanUser,
    cleanable: Cleanable,
) -> Result<bool, Fault> {
    match clean.clean(rt, heap, SPARE, cleanable)? {
        Cleaned::Gone => Ok(false),
        Cleaned::Ran(_ran, None) => Ok(true),
        Cleaned::Ran(_ran, Some(hold)) => {
            hold.leak();
            Ok(true)
        }
    }
}

/// Lets the objects of half of the buffers go, but for the first, whose buffer is given back. The program has a weak
/// reference to each, in a slot of its own, so that it learns of the loss.
pub fn let_go<R: Wait>(rt: &R, mut heap: HeapUser) -> Result<(), Fault> {
    for slot in 1..BUFFERS / 2 {
        let reference = SlotNo(BUFFERS + slot);
        heap.refer(rt, Strength::Weak, reference, SlotNo(slot), Some(LOST))?;
        heap.empty(rt, SlotNo(slot))?;
    }
    Ok(())
}

/// Takes what the queue tells, until nothing stands in it. How many losses that were.
pub fn count_losses<R: Wait>(rt: &R, lost: &mut QueueUser) -> u64 {
    let mut count: u64 = 0;
    for notice in lost.standing(rt) {
        notice.into_hold().leak();
        count = count.saturating_add(1);
    }
    count
}
