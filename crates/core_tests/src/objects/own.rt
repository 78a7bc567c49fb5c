//! Calls of objects that are no steps, by their names. Each function knows some, and hands others on to the next.

use super::{Bench, begun, freed_next, freed_no, listed, marked_at, swept};
use crate::closed::condemn_if_closed;
use crate::hand::keep;
use crate::steps::{M, Told, done, looked, made, value};
use ref_base::{Fault, ObjNo, Reply, SlotNo};
use ref_objects::{Hold, Objects};
use std::alloc::Allocator;

/// Calls that change the heap.
pub fn changed<A: Allocator + Copy>(bench: &mut Bench<A>, name: &str, numbers: (u32, u64)) -> Told {
    let no = ObjNo(numbers.0);
    match name {
        "mark" => Told::Is(bench.heap.mark(no)),
        "free" => Told::Is(freed_no(&mut bench.heap, numbers.0)),
        "sweep" => Told::Is(swept(&mut bench.heap, &mut bench.condemned, numbers.0)),
        "condemn" => Told::Is(condemn_if_closed(&mut bench.heap, &mut bench.condemned)),
        "free_next" => told_free(freed_next(&mut bench.heap, &mut bench.condemned)),
        "look" => Told::Reply(looked(bench.heap.look_at(no, numbers.1))),
        _ => marked(bench, name, numbers),
    }
}

/// The number, or the last of 32 bits in place of a greater one.
fn short(number: u64) -> u32 {
    u32::try_from(number).unwrap_or(u32::MAX)
}

/// The next that was listed is told as an object where it was there, and else as skipped.
pub fn told_free(freed: Option<(u32, bool)>) -> Told {
    Told::Reply(match freed {
        Some((no, true)) => Reply::Object(ObjNo(no)),
        Some((no, false)) => Reply::Skipped(ObjNo(no)),
        None => Reply::Nothing,
    })
}

/// Marks what a slot holds, or gets and cuts what is hidden. What is got goes into slot 3.
fn marked<A: Allocator + Copy>(bench: &mut Bench<A>, name: &str, numbers: (u32, u64)) -> Told {
    let slot = SlotNo(numbers.0);
    match name {
        "mark_slot" => value(bench.heap.mark_slot(M, slot).map(|entry| listed(entry))),
        "mark_slot_at" => value(Ok(marked_at(&mut bench.heap, numbers.0 as usize))),
        "get_hidden" => value(bench.heap.get(M, SlotNo(3), slot, true)),
        "cut_hidden" => done(bench.heap.cut_in(M, slot, true)),
        "set_slot" => done(bench.heap.set_slot(M, slot, Some(ObjNo(short(numbers.1))))),
        _ => set(bench, name, numbers),
    }
}

/// Sets what is kept of an object, or of the heap.
fn set<A: Allocator + Copy>(bench: &mut Bench<A>, name: &str, numbers: (u32, u64)) -> Told {
    let no = ObjNo(numbers.0);
    match name {
        "set_clock" => bench.heap.set_clock(u64::from(numbers.0)),
        "set_stamp" => bench.heap.set_stamp(no, numbers.1),
        "set_link" => bench.heap.set_link(no, short(numbers.1)),
        "set_cleared_in" => bench.heap.set_cleared_in(no, numbers.1),
        "cut" => bench.heap.cut(no),
        "begin_marks" => begun(&mut bench.heap),
        "end_cycle" => bench.heap.end_cycle(),
        _ => return held(bench, name, numbers),
    }
    Told::Reply(Reply::Done)
}

/// Calls of holds. One that is given goes into the hand, and what is taken back is taken from there.
fn held<A: Allocator + Copy>(bench: &mut Bench<A>, name: &str, numbers: (u32, u64)) -> Told {
    match name {
        "hold" => kept(&mut bench.hand, bench.heap.hold(M, SlotNo(numbers.0))),
        "mint" => kept(&mut bench.hand, bench.heap.mint(ObjNo(numbers.0))),
        "adopt" => adopted(bench, SlotNo(numbers.0)),
        "release" => released(bench),
        "hand" => in_hand(&bench.hand),
        _ => asked(&bench.heap, name, numbers),
    }
}

/// The hold that was given goes into the hand.
pub fn kept(hand: &mut Option<Hold>, answer: Result<Hold, Fault>) -> Told {
    match answer {
        Ok(hold) => {
            let no = hold.obj();
            keep(hand, hold);
            Told::Reply(Reply::Object(no))
        }
        Err(fault) => Told::Reply(Reply::Refused(fault)),
    }
}

fn adopted<A: Allocator + Copy>(bench: &mut Bench<A>, slot: SlotNo) -> Told {
    let Some(hold) = bench.hand.take() else {
        return Told::Unknown;
    };
    match bench.heap.adopt(M, slot, hold) {
        Ok(no) => Told::Reply(Reply::Object(no)),
        Err((fault, back)) => given_back(&mut bench.hand, fault, back),
    }
}

fn released<A: Allocator + Copy>(bench: &mut Bench<A>) -> Told {
    let Some(hold) = bench.hand.take() else {
        return Told::Unknown;
    };
    match bench.heap.release(hold) {
        Ok(()) => Told::Reply(Reply::Done),
        Err((fault, back)) => given_back(&mut bench.hand, fault, back),
    }
}

/// The hold that came back goes into the hand.
pub fn given_back(hand: &mut Option<Hold>, fault: Fault, back: Hold) -> Told {
    keep(hand, back);
    Told::Reply(Reply::Refused(fault))
}

/// What the hand has.
pub fn in_hand(hand: &Option<Hold>) -> Told {
    match hand {
        Some(hold) => Told::Of(hold.obj().0, hold.heap_no()),
        None => Told::Number(None),
    }
}

/// Whether it is so of an object.
pub fn asked<A: Allocator + Copy>(heap: &Objects<A>, name: &str, numbers: (u32, u64)) -> Told {
    let no = ObjNo(numbers.0);
    match name {
        "has" => Told::Is(heap.has_object(no)),
        "is_marked" => Told::Is(heap.is_marked(no)),
        "is_unmarked" => Told::Is(heap.is_unmarked(no)),
        "is_condemned" => Told::Is(heap.is_condemned(no)),
        "is_held" => Told::Is(heap.is_held(no)),
        "kind" => Told::Kind(heap.kind_of(no)),
        _ => counted(heap, name, numbers),
    }
}

/// How many there are, or a number of the heap's.
fn counted<A: Allocator + Copy>(heap: &Objects<A>, name: &str, numbers: (u32, u64)) -> Told {
    let count = match name {
        "objects" => heap.object_count() as u64,
        "unmarked" => heap.unmarked_count() as u64,
        "holds" => heap.hold_count() as u64,
        "slots" => heap.slot_count() as u64,
        "next_no" => heap.next_no(),
        "clock" => heap.clock(),
        "heap_no" => heap.heap_no(),
        _ => return numbered(heap, name, numbers),
    };
    Told::Number(Some(count))
}

/// A number that is kept of an object.
fn numbered<A: Allocator + Copy>(heap: &Objects<A>, name: &str, numbers: (u32, u64)) -> Told {
    let no = ObjNo(numbers.0);
    let number = match name {
        "stamp" => Some(heap.stamp_of(no)),
        "cleared_in" => Some(heap.cleared_in(no)),
        "link" => Some(u64::from(heap.link_of(no))),
        "fields" => Some(heap.fields_of(no).len() as u64),
        "word" => heap.word_at(no, short(numbers.1)),
        "word_of_referent" => heap.word_of_referent(no),
        "queue" => heap.queue_of(no).map(|queue| u64::from(queue.0)),
        _ => return named(heap, name, numbers),
    };
    Told::Number(number)
}

/// Another object that an object leads to.
fn named<A: Allocator + Copy>(heap: &Objects<A>, name: &str, numbers: (u32, u64)) -> Told {
    let no = ObjNo(numbers.0);
    match name {
        "referent" => value(Ok(heap.referent_of(no))),
        "field" => value(Ok(heap.fields_of(no).get(numbers.1 as usize))),
        "first_from" => value(Ok(heap.first_from(no))),
        "held_from" => value(Ok(heap.held_from(no))),
        "held_after" => value(Ok(heap.held_after(no))),
        _ => at_slot(heap, name, SlotNo(numbers.0)),
    }
}

/// What a slot holds, the reference in it, and what that reads as in full and where what isn't marked is hidden.
fn at_slot<A: Allocator + Copy>(heap: &Objects<A>, name: &str, slot: SlotNo) -> Told {
    match name {
        "slot" => value(heap.slot_of(M, slot)),
        "reference_in" => made(heap.reference_in(M, slot).map(|(no, _)| no)),
        "referent_in" => value(heap.referent_in(M, slot, false)),
        "hidden_in" => value(heap.referent_in(M, slot, true)),
        _ => Told::Unknown,
    }
}
