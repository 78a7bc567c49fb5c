//! The steps of a heap alone: what mutators and workers ask of it, where there are neither queues nor hands.

use crate::{MutNo, ObjNo, PlainStep, SlotNo, WorkerNo};

/// A hold as plain data: the heap that counts it, and the object that it holds.
#[derive(Clone, Copy, PartialEq, Eq)]
pub struct HoldName {
    pub heap_no: u64,
    pub object: ObjNo,
}

/// One step of a heap (this project's profile). A step of the world (`Step`) asks one of these of its heap, or is one
/// of queues. Where that one names a hand, this one names the hold, or has the batch: as values, or as plain data. Any
/// number can be named: a step with one outside the configuration is refused as it runs.
#[derive(Drop)]
pub enum HeapStep<H, B> {
    /// A step that hands nothing over.
    Plain(PlainStep),
    /// Clears the reference in the slot, and gives its notice if it has a queue.
    Unhook {
        mutator: MutNo,
        reference: SlotNo,
    },
    /// Gives a hold of what the slot holds.
    Hold {
        mutator: MutNo,
        slot: SlotNo,
    },
    /// The slot then holds what the hold holds, and the hold is spent.
    Adopt {
        mutator: MutNo,
        slot: SlotNo,
        hold: H,
    },
    /// Gives the hold up.
    Release {
        hold: H,
    },
    /// Gives the notice of the next reference that the worker cleared.
    Hand {
        worker: WorkerNo,
    },
    /// Gives the notices of the next references that the worker cleared into a batch, behind what is in it: so many at
    /// most, and all of one queue and one cycle.
    Hands {
        worker: WorkerNo,
        max: u32,
        batch: B,
    },
}
