//! Moves of what a cycle left: a quarter of the objects, in as many pages as all of them filled.

use crate::heap_runs::WORKER;
use crate::letters::CONFIG;
use crate::load_runs::{Dead, Read, Route, cycle, fill, timed_reads};
use crate::timing::{Sample, Timer};
use ref_base::Fault;
use ref_clear::Heap;
use std::time::Clock;

/// What is measured of moves.
#[derive(Clone, Copy)]
pub enum Moves {
    /// The choice of what is to move.
    Select,
    /// The moves, one after the other.
    Move,
    /// Loads, each of which moves what it answers.
    Load,
    /// A cycle, the moves of what it left, and a cycle that heals the words of what moved.
    Cycles,
}

pub fn move_part<R: Clock>(rt: &R, heap: &mut Heap, part: Moves) -> Result<Sample, Fault> {
    fill(heap, CONFIG.cells, Dead::ThreeQuarters)?;
    match part {
        Moves::Select => timed_select(rt, heap),
        Moves::Move => timed_moves(rt, heap),
        Moves::Load => loads_that_move(rt, heap),
        Moves::Cycles => cycles_with_moves(rt, heap),
    }
}

fn timed_select<R: Clock>(rt: &R, heap: &mut Heap) -> Result<Sample, Fault> {
    cycle(rt, heap)?;
    let timer = Timer::start(rt);
    heap.select()?;
    Ok(timer.stop(rt, 1))
}

fn timed_moves<R: Clock>(rt: &R, heap: &mut Heap) -> Result<Sample, Fault> {
    cycle(rt, heap)?;
    let count = heap.select()?;
    let timer = Timer::start(rt);
    move_all(heap)?;
    let sample = timer.stop(rt, u64::from(count));
    heap.end_move()?;
    Ok(sample)
}

fn loads_that_move<R: Clock>(rt: &R, heap: &mut Heap) -> Result<Sample, Fault> {
    cycle(rt, heap)?;
    heap.select()?;
    timed_reads(rt, heap, (Read::Load, Route::Along), 1)
}

fn cycles_with_moves<R: Clock>(rt: &R, heap: &mut Heap) -> Result<Sample, Fault> {
    let timer = Timer::start(rt);
    cycle(rt, heap)?;
    heap.select()?;
    move_all(heap)?;
    heap.end_move()?;
    cycle(rt, heap)?;
    Ok(timer.stop(rt, 1))
}

fn move_all(heap: &mut Heap) -> Result<(), Fault> {
    for _ in 0..CONFIG.cells {
        if heap.move_next(WORKER)?.is_none() {
            break;
        }
    }
    Ok(())
}
