//! A heap in its cycles: the steps that it knows, and what the layer above calls.

ghost use Rattle.core_tests.specs.Healing.{IsHealing};

mod cycles;
mod moves;
mod own;
mod refusals;

use crate::closed::{is_closed, known};
use crate::hand::{adopted, leak};
use crate::objects::config;
use crate::steps::{M, Steps, Told, agree, done, looked, made, value};
use ref_base::{Fault, ObjNo, Phase, PlainStep, Reply, SlotNo, Step, WorkerNo};
use ref_mark::Marker;
use ref_objects::{Entry, Hold, Start, Worklist};
use std::alloc::Global;
use std::process::Abort;

impl Steps for Marker {
    ghost is_ready = { λ m. IsHealing m };

    fn step(&mut self, step: Step) -> Told {
        match step {
            Step::Plain(step) => mutated(self, step),
            _ => Told::Unknown,
        }
    }
}

/// A heap in its cycles, a list for its condemned, and its hand, which has one hold at most.
pub struct Bench {
    heap: Marker,
    condemned: Worklist,
    hand: Option<Hold>,
}

impl Bench {
    /// A heap of so many cells that starts so.
    fn starting(rt: &impl Abort, alloc: Global, cells: u32, start: Start) -> Bench
        ensures { IsHealing result.heap }
    {
        let Ok(heap) = Marker::starting(alloc, config(cells), 1, start) else {
            panic!(rt; "there is no heap");
        };
        match Worklist::new(alloc, cells as usize) {
            Ok(condemned) => Bench {
                heap,
                condemned,
                hand: None,
            },
            Err(fault) => panic!(rt; "{fault}"),
        }
    }

    /// What is still held is given up.
    fn end(self) {
        let Bench {
            heap: _heap,
            condemned: _condemned,
            hand,
        } = self;
        leak(hand);
    }
}

impl Steps for Bench {
    ghost is_ready = { λ bench. IsHealing bench.heap };

    fn step(&mut self, step: Step) -> Told {
        self.heap.step(step)
    }

    fn own(&mut self, name: &str, numbers: (u32, u64)) -> Told {
        own::collected(self, name, numbers)
    }
}

/// A story of a heap of so many cells that starts so.
fn tell(rt: &impl Abort, alloc: Global, (cells, start): (u32, Start), story: &str) {
    let mut bench = Bench::starting(rt, alloc, cells, start);
    agree(rt, &mut bench, story);
    bench.end();
}

// What a mutator asks, or else the collector.
fn mutated(heap: &mut Marker, step: PlainStep) -> Told
    requires { IsHealing heap.old }
    ensures { IsHealing heap.new }
{
    // Gives the proof that what is unhealed is there.
    known(heap.objects());
    match step {
        PlainStep::New {
            mutator,
            slot,
            fields,
        } => made(heap.alloc_obj(mutator, slot, fields)),
        PlainStep::Refer {
            mutator,
            strength,
            slot,
            source,
            queue,
            fields,
        } => made(heap.alloc_ref(mutator, slot, strength, source, queue, fields)),
        PlainStep::Store {
            mutator,
            object,
            field,
            value,
        } => done(heap.store(mutator, object, field, value)),
        PlainStep::Load {
            mutator,
            slot,
            object,
            field,
        } => value(heap.load(mutator, slot, object, field)),
        PlainStep::Copy {
            mutator,
            slot,
            source,
        } => value(heap.copy(mutator, slot, source)),
        PlainStep::Drop { mutator, slot } => done(heap.drop_slot(mutator, slot)),
        _ => at_reference(heap, step),
    }
}

// What a mutator asks of a reference, or else the collector.
fn at_reference(heap: &mut Marker, step: PlainStep) -> Told
    requires { IsHealing heap.old }
    ensures { IsHealing heap.new }
{
    // Gives the proof that what is unhealed is there.
    known(heap.objects());
    match step {
        PlainStep::Get {
            mutator,
            slot,
            reference,
        } => value(heap.get(mutator, slot, reference)),
        PlainStep::Clear { mutator, reference } => done(heap.clear(mutator, reference)),
        PlainStep::RefersTo {
            mutator,
            reference,
            other,
        } => refers(heap.refers_to(mutator, reference, other)),
        _ => collected(heap, step),
    }
}

// What the collector asks.
fn collected(heap: &mut Marker, step: PlainStep) -> Told
    requires { IsHealing heap.old }
    ensures { IsHealing heap.new }
{
    // Gives the proof that what is unhealed is there.
    known(heap.objects());
    match step {
        PlainStep::Begin { now, urgency } => began(heap.begin(now, urgency)),
        PlainStep::Scan { worker } => scanned(heap.scan(worker)),
        PlainStep::EndMark => doomed(heap.end_mark()),
        PlainStep::Select => selected(heap.select()),
        PlainStep::MoveNext { worker } => moved(heap.move_next(worker)),
        PlainStep::EndMove => done(heap.end_move()),
        _ => Told::Unknown,
    }
}

fn refers(answer: Result<bool, Fault>) -> Told {
    Told::Reply(match answer {
        Ok(same) => Reply::Refers(same),
        Err(fault) => Reply::Refused(fault),
    })
}

fn began(answer: Result<u64, Fault>) -> Told {
    Told::Reply(match answer {
        Ok(cycle) => Reply::Cycle(cycle),
        Err(fault) => Reply::Refused(fault),
    })
}

fn scanned(answer: Result<Option<ObjNo>, Fault>) -> Told {
    Told::Reply(match answer {
        Ok(Some(no)) => Reply::Scanned(no),
        Ok(None) => Reply::Nothing,
        Err(fault) => Reply::Refused(fault),
    })
}

fn doomed(answer: Result<u32, Fault>) -> Told {
    Told::Reply(match answer {
        Ok(count) => Reply::Doomed(count),
        Err(fault) => Reply::Refused(fault),
    })
}

fn selected(answer: Result<u32, Fault>) -> Told {
    Told::Reply(match answer {
        Ok(count) => Reply::Selected(count),
        Err(fault) => Reply::Refused(fault),
    })
}

fn moved(answer: Result<Option<ObjNo>, Fault>) -> Told {
    Told::Reply(match answer {
        Ok(Some(no)) => Reply::Moved(no),
        Ok(None) => Reply::Nothing,
        Err(fault) => Reply::Refused(fault),
    })
}

// Looks at the next that this worker found.
fn found(heap: &mut Marker, worker: u32) -> Reply
    requires { IsHealing heap.old }
    ensures { IsHealing heap.new }
{
    match heap.take_found(WorkerNo(worker)) {
        Ok(Some(look)) => looked(look),
        Ok(None) => Reply::Nothing,
        Err(fault) => Reply::Refused(fault),
    }
}

// A hold of what this slot holds.
fn held(heap: &mut Marker, slot: u32) -> Result<Hold, Fault>
    requires { IsHealing heap.old }
    ensures { IsHealing heap.new }
{
    // Gives the proof that what is unhealed is there.
    known(heap.objects());
    heap.hold(M, SlotNo(slot))
}

// A hold of this object.
fn minted(heap: &mut Marker, no: u32) -> Result<Hold, Fault>
    requires { IsHealing heap.old }
    ensures { IsHealing heap.new }
{
    heap.mint(ObjNo(no))
}

// Takes a hold back into this slot.
fn taken_back(heap: &mut Marker, slot: u32, hold: Hold) -> Result<ObjNo, Fault>
    requires { IsHealing heap.old }
    ensures { IsHealing heap.new }
{
    // Gives the proof that what is unhealed is there.
    known(heap.objects());
    adopted(heap.adopt(M, SlotNo(slot), hold))
}

// Frees the object of this entry, wherever it lies.
fn freed(heap: &mut Marker, entry: Entry) -> bool
    requires { IsHealing heap.old }
    ensures { IsHealing heap.new }
{
    heap.free(entry)
}

// Frees the next that is listed: its number, and whether it was there.
fn freed_next(heap: &mut Marker, condemned: &mut Worklist) -> Option<(u32, bool)>
    requires { IsHealing heap.old }
    ensures { IsHealing heap.new }
{
    let Some(entry) = condemned.take_first() else {
        return None;
    };
    let number = entry.no.0;
    let was_there = freed(heap, entry);
    Some((number, was_there))
}

// Frees all that is listed, and tells how many there were.
fn freed_all(heap: &mut Marker, condemned: &mut Worklist) -> u32
    requires { IsHealing heap.old }
    ensures { IsHealing heap.new }
{
    let mut count: u32 = 0;
    for _place in 0..condemned.room() {
        if let Some((_, true)) = freed_next(heap, condemned) {
            count = count.saturating_add(1);
        }
    }
    count
}

// Shades a root, where a mark is on.
fn root_greyed(heap: &mut Marker, no: u32) -> bool
    requires { IsHealing heap.old }
    ensures { IsHealing heap.new }
{
    if heap.phase() != Phase::Marking {
        return false;
    }
    heap.grey_root(ObjNo(no));
    true
}

// The step to Sweeping, in Clearing, once all that was found was looked at, where nothing refers to the doomed.
fn sweep_begun(heap: &mut Marker, condemned: &mut Worklist) -> bool
    requires { IsHealing heap.old }
    ensures { IsHealing heap.new }
{
    let count = heap.objects().object_count();
    if heap.phase() != Phase::Clearing
        || heap.has_found()
        || condemned.room() < count
        || !is_closed(heap.objects())
    {
        return false;
    }
    heap.to_sweeping(condemned);
    true
}

// The step to Idle, in Sweeping, once all that is doomed was freed.
fn cycle_ended(heap: &mut Marker) -> bool
    requires { IsHealing heap.old }
    ensures { IsHealing heap.new }
{
    if heap.phase() != Phase::Sweeping || heap.has_doomed() {
        return false;
    }
    // Gives the proof that what is unhealed is there.
    known(heap.objects());
    heap.to_idle();
    true
}
