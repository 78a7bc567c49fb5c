//! The objects of a heap: the steps that they know, and what the layers above call, by name.

mod cells;
mod memory;
pub mod own;
mod stories;

use crate::closed::condemn_if_closed;
use crate::hand::leak;
use crate::steps::{Steps, Told, done, made, value};
use ref_base::{Config, Fault, ObjNo, PlainStep, SpanRule, Step};
use ref_objects::{Colour, Entry, Hold, Objects, Stage, Worklist};
use std::alloc::{Allocator, Global};
use std::process::Abort;

/// The heap of a story, a list for its condemned, and its hand, which has one hold at most.
pub struct Bench<A: Allocator + Copy = Global> {
    heap: Objects<A>,
    condemned: Worklist<A>,
    hand: Option<Hold>,
}

impl<A: Allocator + Copy> Bench<A> {
    /// A heap of so many cells, where numbers begin at one.
    fn new(rt: &impl Abort, alloc: A, cells: u32) -> Self {
        match heap_of(alloc, cells) {
            Ok((heap, condemned)) => Bench {
                heap,
                condemned,
                hand: None,
            },
            Err(fault) => panic!(rt; "{fault}"),
        }
    }

    /// What is still held is given up.
    fn end(self) {
        let Bench {
            heap: _heap,
            condemned: _condemned,
            hand,
        } = self;
        leak(hand);
    }
}

impl<A: Allocator + Copy> Steps for Objects<A> {
    fn step(&mut self, step: Step) -> Told {
        match step {
            Step::Plain(step) => stepped(self, step),
            _ => Told::Unknown,
        }
    }
}

impl<A: Allocator + Copy> Steps for Bench<A> {
    fn step(&mut self, step: Step) -> Told {
        self.heap.step(step)
    }

    fn own(&mut self, name: &str, numbers: (u32, u64)) -> Told {
        own::changed(self, name, numbers)
    }
}

// A get and a clear hide nothing.
fn stepped<A: Allocator + Copy>(heap: &mut Objects<A>, step: PlainStep) -> Told {
    match step {
        PlainStep::New {
            mutator,
            slot,
            fields,
        } => made(heap.alloc_obj(mutator, slot, fields)),
        PlainStep::Refer {
            mutator,
            strength,
            slot,
            source,
            queue,
            fields,
        } => made(heap.alloc_ref(mutator, slot, strength, source, queue, fields)),
        PlainStep::Store {
            mutator,
            object,
            field,
            value,
        } => done(heap.store(mutator, object, field, value)),
        PlainStep::Load {
            mutator,
            slot,
            object,
            field,
        } => value(heap.load(mutator, slot, object, field)),
        PlainStep::Copy {
            mutator,
            slot,
            source,
        } => value(heap.copy(mutator, slot, source)),
        PlainStep::Drop { mutator, slot } => done(heap.drop_slot(mutator, slot)),
        PlainStep::Get {
            mutator,
            slot,
            reference,
        } => value(heap.get(mutator, slot, reference, false)),
        PlainStep::Clear { mutator, reference } => done(heap.cut_in(mutator, reference, false)),
        _ => Told::Unknown,
    }
}

/// One mutator, one worker, one queue, so many cells.
pub const fn config(cells: u32) -> Config {
    Config {
        mutators: 1,
        workers: 1,
        queues: 1,
        cells,
        span: 10,
        rule: SpanRule::Fixed,
    }
}

/// A heap of so many cells, where numbers begin at one, and a list for its condemned.
fn heap_of<A: Allocator + Copy>(alloc: A, cells: u32) -> Result<(Objects<A>, Worklist<A>), Fault> {
    let heap = Objects::new(alloc, config(cells), 1)?;
    match Worklist::new(alloc, cells as usize) {
        Ok(condemned) => Ok((heap, condemned)),
        Err(_) => Err(Fault::NoMemory),
    }
}

// Marks each object but this one.
fn mark_but<A: Allocator + Copy>(heap: &mut Objects<A>, no: ObjNo) {
    let Some(first) = heap.first_from(ObjNo(0)) else {
        return;
    };
    for number in u64::from(first.0)..heap.next_no() {
        if let Ok(other) = u32::try_from(number) {
            if other != no.0 {
                heap.mark(ObjNo(other));
            }
        }
    }
}

// Frees the object of this number as a cycle does that reaches every other: false where something else refers to it. No
// object is marked then.
fn swept<A: Allocator + Copy>(heap: &mut Objects<A>, condemned: &mut Worklist<A>, no: u32) -> bool {
    begun(heap);
    mark_but(heap, ObjNo(no));
    condemn_if_closed(heap, condemned);
    let is_free = freed(heap, Entry::of(ObjNo(no)));
    heap.end_cycle();
    begun(heap);
    is_free
}

// Begins marks with another colour than the last.
fn begun<A: Allocator + Copy>(heap: &mut Objects<A>) {
    if heap.has_left() || heap.stage() == Stage::Tuned && heap.has_choice() {
        return;
    }
    match heap.last_colour() {
        Colour::A => heap.begin_marks(Colour::B),
        Colour::B | Colour::R => heap.begin_marks(Colour::A),
    }
}

// Frees the object of an entry, where none is still to move.
fn freed<A: Allocator + Copy>(heap: &mut Objects<A>, entry: Entry) -> bool {
    !heap.has_left() && heap.free(entry)
}

// Frees the object of this number, wherever it lies.
fn freed_no<A: Allocator + Copy>(heap: &mut Objects<A>, no: u32) -> bool {
    freed(heap, Entry::of(ObjNo(no)))
}

// Frees the next that is listed: its number, and whether it was there.
fn freed_next<A: Allocator + Copy>(
    heap: &mut Objects<A>,
    condemned: &mut Worklist<A>,
) -> Option<(u32, bool)> {
    let Some(entry) = condemned.take_first() else {
        return None;
    };
    let number = entry.no.0;
    let was_there = freed(heap, entry);
    Some((number, was_there))
}

// The number of what was marked.
fn listed(answer: Option<Entry>) -> Option<ObjNo> {
    match answer {
        Some(entry) => Some(entry.no),
        None => None,
    }
}

// Marks what the slot at this place holds: its number, where it wasn't marked.
fn marked_at<A: Allocator + Copy>(heap: &mut Objects<A>, place: usize) -> Option<ObjNo> {
    if place >= heap.slot_count() {
        return None;
    }
    listed(heap.mark_slot_at(place))
}
