//! Calls of a heap in its cycles that are no steps, by their names. Each function knows some, and hands others on to
//! the next.

ghost use Rattle.core_tests.specs.Healing.{IsHealing};

use super::{
    Bench, cycle_ended, found, freed, freed_all, freed_next, held, minted, root_greyed,
    sweep_begun, taken_back,
};
use crate::objects::own;
use crate::steps::{Told, made};
use ref_base::{ObjNo, Reply};
use ref_mark::Marker;
use ref_objects::Entry;

/// Calls of the collector.
pub fn collected(bench: &mut Bench, name: &str, numbers: (u32, u64)) -> Told
    requires { IsHealing bench.old.heap }
    ensures { IsHealing bench.new.heap }
{
    match name {
        "root" => Told::Is(root_greyed(&mut bench.heap, numbers.0)),
        "found" => Told::Reply(found(&mut bench.heap, numbers.0)),
        "to_sweeping" => Told::Is(sweep_begun(&mut bench.heap, &mut bench.condemned)),
        "free" => Told::Is(freed(&mut bench.heap, Entry::of(ObjNo(numbers.0)))),
        "free_next" => own::told_free(freed_next(&mut bench.heap, &mut bench.condemned)),
        "free_all" => all_freed(bench),
        "to_idle" => Told::Is(cycle_ended(&mut bench.heap)),
        _ => handed(bench, name, numbers),
    }
}

fn all_freed(bench: &mut Bench) -> Told
    requires { IsHealing bench.old.heap }
    ensures { IsHealing bench.new.heap }
{
    let count = freed_all(&mut bench.heap, &mut bench.condemned);
    Told::Number(Some(u64::from(count)))
}

/// Calls of holds. One that is given goes into the hand, and what is taken back is taken from there.
fn handed(bench: &mut Bench, name: &str, numbers: (u32, u64)) -> Told
    requires { IsHealing bench.old.heap }
    ensures { IsHealing bench.new.heap }
{
    match name {
        "hold" => own::kept(&mut bench.hand, held(&mut bench.heap, numbers.0)),
        "mint" => own::kept(&mut bench.hand, minted(&mut bench.heap, numbers.0)),
        "adopt" => adopted(bench, numbers.0),
        "release" => released(bench),
        "hand" => own::in_hand(&bench.hand),
        _ => asked(&bench.heap, name, numbers),
    }
}

fn adopted(bench: &mut Bench, slot: u32) -> Told
    requires { IsHealing bench.old.heap }
    ensures { IsHealing bench.new.heap }
{
    match bench.hand.take() {
        Some(hold) => made(taken_back(&mut bench.heap, slot, hold)),
        None => Told::Unknown,
    }
}

fn released(bench: &mut Bench) -> Told
    requires { IsHealing bench.old.heap }
    ensures { IsHealing bench.new.heap }
{
    let Some(hold) = bench.hand.take() else {
        return Told::Unknown;
    };
    match bench.heap.release(hold) {
        Ok(()) => Told::Reply(Reply::Done),
        Err((fault, back)) => own::given_back(&mut bench.hand, fault, back),
    }
}

/// What is asked of the heap or its objects.
fn asked(heap: &Marker, name: &str, numbers: (u32, u64)) -> Told {
    match name {
        "is_doomed" => Told::Is(heap.is_doomed(ObjNo(numbers.0))),
        "has_found" => Told::Is(heap.has_found()),
        "cycle" => Told::Number(Some(heap.cycle())),
        "phase" => Told::Phase(heap.phase()),
        _ => own::asked(heap.objects(), name, numbers),
    }
}
