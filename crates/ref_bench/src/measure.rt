//! What is measured.

use crate::cleaner_runs::jobs_registered_and_run;
use crate::crowds::shared_queue;
use crate::delivery_runs::{By, deliveries};
use crate::heap_parts::{HeapPart, heap_part};
use crate::heap_runs::heap_calls;
use crate::load_runs::{Dead, Part, Read, Route};
use crate::move_runs::Moves;
use crate::queue_runs::{queue_alone, shared_queue_alone};
use crate::scale_runs::{Scale, Size};
use crate::script_run::script_steps;
use crate::step_runs::{StepList, world_steps};
use crate::timing::Sample;
use ref_base::Fault;
use std::alloc::Global;
use std::sync::Wait;
use std::thread::Threads;
use std::time::Clock;

/// One measure.
pub enum Measure {
    /// Puts and polls of a queue.
    Queue,
    /// Puts and polls of a shared queue by one thread.
    SharedQueue,
    /// A put and a poll of a shared queue, by so many putters and as many takers.
    SharedQueueAmong(u32),
    /// Of a heap that one thread has alone.
    Heap(HeapPart),
    /// A notice's way from a shared heap through its queue.
    Delivery(By),
    /// Calls of a shared heap by so many threads.
    HeapCallAmong(u32),
    /// A job that is registered and run by hand, while so many others are registered.
    CleanedJob(u32),
    /// One step of a script: read, done and printed.
    ScriptStep,
    /// One step of a list, by `World::step`.
    WorldStep(StepList),
}

/// All measures, in the order in which they are printed, each behind what its line says.
pub const ALL: [(&str, Measure); 45] = [
    ("queue, a put or poll", Measure::Queue),
    (
        "shared queue, one thread, a put or poll",
        Measure::SharedQueue,
    ),
    (
        "shared queue, 1 putting, 1 taking, a notice",
        Measure::SharedQueueAmong(1),
    ),
    (
        "shared queue, 2 putting, 2 taking, a notice",
        Measure::SharedQueueAmong(2),
    ),
    (
        "shared queue, 4 putting, 4 taking, a notice",
        Measure::SharedQueueAmong(4),
    ),
    (
        "a scan that finds a reference",
        Measure::Heap(HeapPart::Scan),
    ),
    ("a look that clears it", Measure::Heap(HeapPart::Look)),
    (
        "a hand of its notice, and its hold released",
        Measure::Heap(HeapPart::Hand),
    ),
    (
        "a dead reference, mark's end to notice polled",
        Measure::Heap(HeapPart::DeadReference),
    ),
    (
        "a notice delivered and polled, one by one",
        Measure::Delivery(By::One),
    ),
    (
        "a notice delivered and polled, 32 at once",
        Measure::Delivery(By::Batch),
    ),
    (
        "a load of one object",
        Measure::Heap(HeapPart::Read(Read::Load, Route::Same, Dead::None)),
    ),
    (
        "a load, one after the other",
        Measure::Heap(HeapPart::Read(Read::Load, Route::Along, Dead::None)),
    ),
    (
        "a load, one after the other, first in a mark",
        Measure::Heap(HeapPart::Read(Read::Load, Route::AlongInMark, Dead::None)),
    ),
    (
        "a load of one object, a third dead",
        Measure::Heap(HeapPart::Read(Read::Load, Route::Same, Dead::Third)),
    ),
    (
        "a load, one after the other, a third dead",
        Measure::Heap(HeapPart::Read(Read::Load, Route::Along, Dead::Third)),
    ),
    (
        "a get of one object",
        Measure::Heap(HeapPart::Read(Read::Get, Route::Same, Dead::None)),
    ),
    (
        "a get, one after the other",
        Measure::Heap(HeapPart::Read(Read::Get, Route::Along, Dead::None)),
    ),
    (
        "a get, one after the other, first in a mark",
        Measure::Heap(HeapPart::Read(Read::Get, Route::AlongInMark, Dead::None)),
    ),
    (
        "a get of one object, a third dead",
        Measure::Heap(HeapPart::Read(Read::Get, Route::Same, Dead::Third)),
    ),
    (
        "a get, one after the other, a third dead",
        Measure::Heap(HeapPart::Read(Read::Get, Route::Along, Dead::Third)),
    ),
    (
        "a begin, of 4,096 objects",
        Measure::Heap(HeapPart::Cycle(Part::Begin)),
    ),
    (
        "an end of clearing, half of 4,096 dead",
        Measure::Heap(HeapPart::Cycle(Part::EndClear)),
    ),
    (
        "a sweep, half of 4,096 dead, an object",
        Measure::Heap(HeapPart::Cycle(Part::Sweep)),
    ),
    (
        "a select, of 1,024 objects in 64 pages",
        Measure::Heap(HeapPart::Move(Moves::Select)),
    ),
    (
        "a move, of 1,024 objects",
        Measure::Heap(HeapPart::Move(Moves::Move)),
    ),
    (
        "a load, one after the other, each moves",
        Measure::Heap(HeapPart::Move(Moves::Load)),
    ),
    (
        "two cycles and moves between, of 4,096 objects",
        Measure::Heap(HeapPart::Move(Moves::Cycles)),
    ),
    (
        "a whole cycle of 4,096 cells, an object",
        Measure::Heap(HeapPart::Scale(Scale::Cycle, Size::Usual)),
    ),
    (
        "a whole cycle of 65,536 cells, an object",
        Measure::Heap(HeapPart::Scale(Scale::Cycle, Size::Largest)),
    ),
    (
        "a load of 4,096 cells, one after the other",
        Measure::Heap(HeapPart::Scale(Scale::Load, Size::Usual)),
    ),
    (
        "a load of 65,536 cells, one after the other",
        Measure::Heap(HeapPart::Scale(Scale::Load, Size::Largest)),
    ),
    (
        "a get of 4,096 cells, one after the other",
        Measure::Heap(HeapPart::Scale(Scale::Get, Size::Usual)),
    ),
    (
        "a get of 65,536 cells, one after the other",
        Measure::Heap(HeapPart::Scale(Scale::Get, Size::Largest)),
    ),
    (
        "a load and a store along 4,096 cells",
        Measure::Heap(HeapPart::Scale(Scale::Store, Size::Usual)),
    ),
    (
        "a load and a store along 65,536 cells",
        Measure::Heap(HeapPart::Scale(Scale::Store, Size::Largest)),
    ),
    ("shared heap, 1 calling, a call", Measure::HeapCallAmong(1)),
    ("shared heap, 2 calling, a call", Measure::HeapCallAmong(2)),
    ("shared heap, 4 calling, a call", Measure::HeapCallAmong(4)),
    ("shared heap, 8 calling, a call", Measure::HeapCallAmong(8)),
    (
        "a job registered and run, 0 others registered",
        Measure::CleanedJob(0),
    ),
    (
        "a job registered and run, 3000 others registered",
        Measure::CleanedJob(3_000),
    ),
    ("a script, a step", Measure::ScriptStep),
    (
        "loads and gets along a chain, by World::step",
        Measure::WorldStep(StepList::Reads),
    ),
    (
        "cycles of weak references, by World::step",
        Measure::WorldStep(StepList::Cycles),
    ),
];

impl Measure {
    /// One run, in hundredths of the full size.
    pub fn run<R: Threads + Wait + Clock + Sync>(
        &self,
        rt: &R,
        alloc: Global,
        size: u32,
    ) -> Result<Sample, Fault> {
        let notices = size.saturating_mul(1_000);
        match *self {
            Measure::Queue => queue_alone(rt, alloc, notices),
            Measure::SharedQueue => shared_queue_alone(rt, alloc, notices),
            Measure::SharedQueueAmong(n) => shared_queue(rt, alloc, n, notices),
            Measure::Heap(part) => heap_part(rt, alloc, part, size),
            Measure::Delivery(by) => deliveries(rt, alloc, by),
            Measure::HeapCallAmong(n) => heap_calls(rt, alloc, n, size.saturating_mul(2_000)),
            Measure::CleanedJob(n) => jobs_registered_and_run(rt, alloc, n),
            Measure::ScriptStep => script_steps(rt, alloc, size.saturating_mul(500)),
            Measure::WorldStep(list) => world_steps(rt, alloc, list, size),
        }
    }

    /// The least of so many runs, in tenths of a nanosecond a call.
    pub fn least<R: Threads + Wait + Clock + Sync>(
        &self,
        rt: &R,
        alloc: Global,
        size: u32,
        runs: u32,
    ) -> Result<u64, Fault> {
        let mut least = u64::MAX;
        for _ in 0..runs {
            least = least.min(self.run(rt, alloc, size)?.tenths());
        }
        Ok(least)
    }
}
