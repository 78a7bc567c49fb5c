//! Loads and gets along a chain of objects, and the parts of a cycle that work on all cells.

use crate::heap_runs::{MUTATOR, WORKER};
use crate::letters::CONFIG;
use crate::timing::{Sample, Timer};
use ref_base::{Fault, SlotNo, Strength, Urgency};
use ref_clear::Heap;
use std::time::Clock;

/// The slot of the last of the chain.
pub const LAST: SlotNo = SlotNo(0);

/// The slot of what was made last.
pub const NEWEST: SlotNo = SlotNo(1);

/// The slot to which one after the other is loaded.
pub const HERE: SlotNo = SlotNo(2);

/// What reads the next of the chain.
#[derive(Clone, Copy)]
pub enum Read {
    /// A load of a field.
    Load,
    /// A get of a weak reference.
    Get,
}

/// Which objects are read.
#[derive(Clone, Copy)]
pub enum Route {
    /// One and the same.
    Same,
    /// One after the other.
    Along,
    /// One after the other, each for the first time in a mark.
    AlongInMark,
}

/// Which of the objects that are made die before they are read.
#[derive(Clone, Copy)]
pub enum Dead {
    None,
    Third,
    Half,
    ThreeQuarters,
}

impl Dead {
    /// Whether the object that was made at this place, from 0 on, is to die.
    fn takes(self, place: u32) -> bool {
        match self {
            Dead::None => false,
            Dead::Third => place % 3 == 2,
            Dead::Half => place % 2 == 1,
            Dead::ThreeQuarters => place % 4 != 0,
        }
    }
}

/// Reads each object again and again, or once in a mark.
pub fn reads<R: Clock>(
    rt: &R,
    heap: &mut Heap,
    (read, route, dead): (Read, Route, Dead),
    times: u32,
) -> Result<Sample, Fault> {
    fill(heap, CONFIG.cells, dead)?;
    cycle(rt, heap)?;
    timed_reads(rt, heap, (read, route), times)
}

pub fn timed_reads<R: Clock>(
    rt: &R,
    heap: &mut Heap,
    (read, route): (Read, Route),
    times: u32,
) -> Result<Sample, Fault> {
    let links = heap.object_count().saturating_sub(1);
    let (from, times) = match route {
        Route::Same => (LAST, times),
        Route::Along => (HERE, times),
        Route::AlongInMark => {
            heap.begin(0, Urgency::Normal)?;
            (HERE, 1)
        }
    };
    let mut sum: u64 = 0;
    let timer = Timer::start(rt);
    for _ in 0..times {
        heap.copy(MUTATOR, HERE, LAST)?;
        let read = match read {
            Read::Load => load_all(heap, from, links)?,
            Read::Get => get_all(heap, from, links)?,
        };
        sum = sum.wrapping_add(read);
    }
    let sample = timer.stop(rt, u64::from(times).saturating_mul(links as u64));
    // What is answered is used, so that no compiler leaves it out.
    if sum == 0 {
        return Err(Fault::EmptySlot);
    }
    Ok(sample)
}

/// The sum of the numbers that so many loads answer.
fn load_all(heap: &mut Heap, from: SlotNo, count: usize) -> Result<u64, Fault> {
    let mut sum: u64 = 0;
    for _ in 0..count {
        if let Some(no) = heap.load(MUTATOR, HERE, from, 0)? {
            sum = sum.wrapping_add(u64::from(no.0));
        }
    }
    Ok(sum)
}

/// The sum of the numbers that so many gets answer.
fn get_all(heap: &mut Heap, from: SlotNo, count: usize) -> Result<u64, Fault> {
    let mut sum: u64 = 0;
    for _ in 0..count {
        if let Some(no) = heap.get(MUTATOR, HERE, from)? {
            sum = sum.wrapping_add(u64::from(no.0));
        }
    }
    Ok(sum)
}

/// A part of a cycle.
#[derive(Clone, Copy)]
pub enum Part {
    /// The begin.
    Begin,
    /// The end of the clearing.
    EndClear,
    /// The sweeps, for each object that they free.
    Sweep,
}

/// What a part of a cycle of a full heap takes, half of whose objects are dead.
pub fn cycle_part<R: Clock>(rt: &R, heap: &mut Heap, part: Part) -> Result<Sample, Fault> {
    fill(heap, CONFIG.cells, Dead::Half)?;
    let samples = cycle(rt, heap)?;
    Ok(match part {
        Part::Begin => samples.begin,
        Part::EndClear => samples.end_clear,
        Part::Sweep => samples.sweep,
    })
}

/// What the parts of a cycle took.
#[derive(Clone, Copy)]
pub struct Samples {
    begin: Sample,
    end_clear: Sample,
    sweep: Sample,
}

/// As many references as there are cells, so many, but for one object that they begin with. Each has the one before it
/// that isn't to die as its referent and in a field. Those that are to die are let go at once.
pub fn fill(heap: &mut Heap, cells: u32, dead: Dead) -> Result<(), Fault> {
    heap.alloc_obj(MUTATOR, LAST, 1)?;
    for place in 1..cells {
        heap.alloc_ref(MUTATOR, NEWEST, Strength::Weak, LAST, None, 1)?;
        if !dead.takes(place) {
            heap.store(MUTATOR, NEWEST, 0, LAST)?;
            heap.copy(MUTATOR, LAST, NEWEST)?;
        }
    }
    heap.drop_slot(MUTATOR, NEWEST)
}

pub fn cycle<R: Clock>(rt: &R, heap: &mut Heap) -> Result<Samples, Fault> {
    let timer = Timer::start(rt);
    heap.begin(0, Urgency::Normal)?;
    let begin = timer.stop(rt, 1);
    for _ in 0..heap.object_count() {
        heap.scan(WORKER)?;
    }
    heap.end_mark()?;
    let timer = Timer::start(rt);
    heap.end_clear()?;
    let end_clear = timer.stop(rt, 1);
    let timer = Timer::start(rt);
    let freed = sweep_all(heap)?;
    let sweep = timer.stop(rt, freed);
    heap.end_sweep()?;
    Ok(Samples {
        begin,
        end_clear,
        sweep,
    })
}

/// How many objects the sweeps free.
pub fn sweep_all(heap: &mut Heap) -> Result<u64, Fault> {
    let mut freed: u64 = 0;
    for _ in 0..u32::MAX {
        let Some(some) = heap.sweep(WORKER)? else {
            break;
        };
        freed = freed.saturating_add(u64::from(some));
    }
    Ok(freed)
}
