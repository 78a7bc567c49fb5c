//! What a heap costs by how many cells it has: whole cycles, and reads and stores along a chain of all its objects.

use crate::heap_runs::{MUTATOR, WORKER, give_back};
use crate::letters::{CONFIG, QUEUE};
use crate::load_runs::{
    Dead, HERE, LAST, NEWEST, Read, Route, cycle, fill, sweep_all, timed_reads,
};
use crate::timing::{Sample, Timer};
use ref_base::{Fault, SlotNo, Strength, Urgency};
use ref_clear::Heap;
use std::time::Clock;

/// How many reads along the chain are timed.
const READS: u32 = 400_000;

/// The slot of the object to which the next reference is made.
const TARGET: SlotNo = SlotNo(3);

/// How many cells a heap has.
#[derive(Clone, Copy)]
pub enum Size {
    /// As many as each other measure has.
    Usual,
    /// As many as a heap may have.
    Largest,
}

impl Size {
    pub fn cells(self) -> u32 {
        match self {
            Size::Usual => CONFIG.cells,
            Size::Largest => 65_536,
        }
    }
}

/// What is measured of a heap of some size.
#[derive(Clone, Copy)]
pub enum Scale {
    /// A cycle in which half of the objects die, to each of which a reference is cleared, handed on and given back.
    Cycle,
    /// Loads, each of the object before the one that was loaded last.
    Load,
    /// Gets, each of the object before the one that was got last.
    Get,
    /// Loads, each with a store that writes back what it answered.
    Store,
}

/// Of a heap of so many cells, where nothing was made yet.
pub fn scale_part<R: Clock>(
    rt: &R,
    heap: &mut Heap,
    part: Scale,
    cells: u32,
) -> Result<Sample, Fault> {
    let times = READS / cells.max(1);
    match part {
        Scale::Cycle => whole_cycle(rt, heap, cells),
        Scale::Load => reads_along(rt, heap, cells, Read::Load, times),
        Scale::Get => reads_along(rt, heap, cells, Read::Get, times),
        Scale::Store => stores_along(rt, heap, cells, times),
    }
}

/// A cycle of a full heap: of each pair of its objects the one is a reference in a chain, and the other its referent,
/// which dies.
fn whole_cycle<R: Clock>(rt: &R, heap: &mut Heap, cells: u32) -> Result<Sample, Fault> {
    let pairs = cells / 2;
    make_pairs(heap, pairs)?;
    let timer = Timer::start(rt);
    clear_pairs(heap, pairs)?;
    for _ in 0..pairs {
        if let Some(notice) = heap.hand(WORKER)? {
            give_back(heap, notice);
        }
    }
    sweep_all(heap)?;
    heap.end_sweep()?;
    Ok(timer.stop(rt, u64::from(cells)))
}

fn make_pairs(heap: &mut Heap, pairs: u32) -> Result<(), Fault> {
    for _ in 0..pairs {
        heap.alloc_obj(MUTATOR, TARGET, 0)?;
        heap.alloc_ref(MUTATOR, NEWEST, Strength::Weak, TARGET, Some(QUEUE), 1)?;
        heap.store(MUTATOR, NEWEST, 0, LAST)?;
        heap.copy(MUTATOR, LAST, NEWEST)?;
    }
    heap.drop_slot(MUTATOR, TARGET)?;
    heap.drop_slot(MUTATOR, NEWEST)
}

/// The cycle until all references are cleared.
fn clear_pairs(heap: &mut Heap, pairs: u32) -> Result<(), Fault> {
    heap.begin(0, Urgency::Normal)?;
    for _ in 0..pairs {
        heap.scan(WORKER)?;
    }
    heap.end_mark()?;
    for _ in 0..pairs {
        heap.clear_next(WORKER)?;
    }
    heap.end_clear()
}

fn reads_along<R: Clock>(
    rt: &R,
    heap: &mut Heap,
    cells: u32,
    read: Read,
    times: u32,
) -> Result<Sample, Fault> {
    fill(heap, cells, Dead::None)?;
    cycle(rt, heap)?;
    timed_reads(rt, heap, (read, Route::Along), times)
}

fn stores_along<R: Clock>(
    rt: &R,
    heap: &mut Heap,
    cells: u32,
    times: u32,
) -> Result<Sample, Fault> {
    fill(heap, cells, Dead::None)?;
    cycle(rt, heap)?;
    let links = cells.saturating_sub(1);
    let timer = Timer::start(rt);
    for _ in 0..times {
        let (mut here, mut next) = (HERE, NEWEST);
        heap.copy(MUTATOR, here, LAST)?;
        for _ in 0..links {
            heap.load(MUTATOR, next, here, 0)?;
            heap.store(MUTATOR, here, 0, next)?;
            (here, next) = (next, here);
        }
    }
    Ok(timer.stop(rt, u64::from(times).saturating_mul(u64::from(links))))
}
