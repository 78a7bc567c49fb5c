//! A heap that one thread has alone, of which something is measured.

use crate::heap_runs::{dead_references, hands, looks, scans};
use crate::letters::CONFIG;
use crate::load_runs::{Dead, Part, Read, Route, cycle_part, reads};
use crate::move_runs::{Moves, move_part};
use crate::scale_runs::{Scale, Size, scale_part};
use crate::timing::Sample;
use ref_base::{Config, Fault};
use ref_clear::Heap;
use std::alloc::Global;
use std::time::Clock;

/// What is measured of a heap.
#[derive(Clone, Copy)]
pub enum HeapPart {
    /// The scan of a reference to a dead object, which a worker finds so.
    Scan,
    /// The look at it: it is cleared, and pending then.
    Look,
    /// The hand of its notice, and the release of its hold.
    Hand,
    /// What one reference to a dead object costs, from the mark's end until its notice was polled and given back.
    DeadReference,
    /// Loads or gets by one mutator.
    Read(Read, Route, Dead),
    /// A part of a cycle.
    Cycle(Part),
    /// Moves of a quarter of the objects.
    Move(Moves),
    /// Of a heap of this size.
    Scale(Scale, Size),
}

impl HeapPart {
    /// How many cells its heap has.
    fn cells(self) -> u32 {
        match self {
            HeapPart::Scale(_, size) => size.cells(),
            _ => CONFIG.cells,
        }
    }

    fn timed<R: Clock>(
        self,
        rt: &R,
        alloc: Global,
        heap: &mut Heap,
        times: u32,
    ) -> Result<Sample, Fault> {
        match self {
            HeapPart::Scan => scans(rt, heap),
            HeapPart::Look => looks(rt, heap),
            HeapPart::Hand => hands(rt, heap),
            HeapPart::DeadReference => dead_references(rt, alloc, heap),
            HeapPart::Read(read, route, dead) => reads(rt, heap, (read, route, dead), times),
            HeapPart::Cycle(part) => cycle_part(rt, heap, part),
            HeapPart::Move(part) => move_part(rt, heap, part),
            HeapPart::Scale(part, size) => scale_part(rt, heap, part, size.cells()),
        }
    }
}

/// What a part takes of a new heap. Of reads along all objects it makes so many rounds.
pub fn heap_part<R: Clock>(
    rt: &R,
    alloc: Global,
    part: HeapPart,
    times: u32,
) -> Result<Sample, Fault> {
    let cells = part.cells();
    let mut heap = Heap::new(alloc, Config { cells, ..CONFIG }, 0)?;
    part.timed(rt, alloc, &mut heap, times)
}
