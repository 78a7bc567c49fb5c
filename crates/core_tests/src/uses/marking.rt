//! What a caller of a heap in its cycles can prove of its answers.

ghost use Rattle.std.specs.Prelude.{◌≡◌, true};
ghost use Rattle.ref_mark.specs.CycleHeaps.{first_cycle_heap};

use ref_base::{Config, MutNo, ObjNo, SlotNo, SpanRule, Strength, Urgency, WorkerNo};
use ref_mark::Marker;
use ref_objects::{Entry, Start};
use std::alloc::Global;
use std::process::Abort;

const CONFIG: Config = Config {
    mutators: 1,
    workers: 1,
    queues: 1,
    cells: 4,
    span: 10,
    rule: SpanRule::Fixed,
};

const START: Start = Start::FIRST;

// promise: Marker::get: a soft reference is stamped with the clock
fn a_get_renews_the_stamp(heap: &mut Marker) -> bool
    requires { heap.old ≡ first_cycle_heap CONFIG 1 START }
    ensures { result ≡ true }
{
    let _made = heap.alloc_obj(MutNo(0), SlotNo(0), 0);
    let _refers = heap.alloc_ref(MutNo(0), SlotNo(1), Strength::Soft, SlotNo(0), None, 0);
    let _began = heap.begin(5, Urgency::Normal);
    let _got = heap.get(MutNo(0), SlotNo(2), SlotNo(1));
    heap.objects().stamp_of(ObjNo(2)) == 5
}

// promise: Marker::alloc_obj, Marker::end_mark: what is made in a mark is not doomed
fn what_is_made_in_a_mark_survives_it(heap: &mut Marker) -> bool
    requires { heap.old ≡ first_cycle_heap CONFIG 1 START }
    ensures { result ≡ true }
{
    let _began = heap.begin(0, Urgency::Normal);
    let _made = heap.alloc_obj(MutNo(0), SlotNo(0), 0);
    let _ended = heap.end_mark();
    !heap.is_doomed(ObjNo(1))
}

// promise: Marker::hold, Marker::begin, Marker::adopt: what is held is scanned
fn what_is_held_is_a_root(heap: &mut Marker) -> bool
    requires { heap.old ≡ first_cycle_heap CONFIG 1 START }
    ensures { result ≡ true }
{
    let _made = heap.alloc_obj(MutNo(0), SlotNo(0), 0);
    let Ok(hold) = heap.hold(MutNo(0), SlotNo(0)) else {
        return false;
    };
    let _dropped = heap.drop_slot(MutNo(0), SlotNo(0));
    let _began = heap.begin(0, Urgency::Normal);
    let is_scanned = match heap.scan(WorkerNo(0)) {
        Ok(Some(_)) => true,
        _ => false,
    };
    match heap.adopt(MutNo(0), SlotNo(0), hold) {
        Ok(_) => is_scanned,
        Err((_, hold)) => {
            hold.leak();
            false
        }
    }
}

// promise: Marker::refers_to, Marker::clear, Marker::free: doomed is null at once, and left to the worker
fn a_doomed_referent_reads_as_null(heap: &mut Marker) -> bool
    requires { heap.old ≡ first_cycle_heap CONFIG 1 START }
    ensures { result ≡ true }
{
    let _made = heap.alloc_obj(MutNo(0), SlotNo(0), 0);
    let _refers = heap.alloc_ref(MutNo(0), SlotNo(1), Strength::Weak, SlotNo(0), None, 0);
    let _dropped = heap.drop_slot(MutNo(0), SlotNo(0));
    let _began = heap.begin(0, Urgency::Normal);
    let _scanned = heap.scan(WorkerNo(0));
    let _ended = heap.end_mark();
    let is_null = match heap.refers_to(MutNo(0), SlotNo(1), SlotNo(0)) {
        Ok(same) => same,
        Err(_) => false,
    };
    let _cleared = heap.clear(MutNo(0), SlotNo(1));
    let is_kept = heap.objects().referent_of(ObjNo(2)).is_some();
    is_null && is_kept && !heap.free(Entry::of(ObjNo(1)))
}

/// A heap where nothing was made yet, between cycles.
fn heap(rt: &impl Abort, alloc: Global) -> Marker
    ensures { result ≡ first_cycle_heap CONFIG 1 START }
{
    match Marker::new(alloc, CONFIG, 1) {
        Ok(heap) => heap,
        Err(fault) => panic!(rt; "no heap: {fault}"),
    }
}

#[test]
fn what_callers_of_a_marker_see(rt: HostRuntime) {
    let alloc = rt.alloc();
    assert!(rt; a_get_renews_the_stamp(&mut heap(&rt, alloc)));
    assert!(rt; what_is_made_in_a_mark_survives_it(&mut heap(&rt, alloc)));
    assert!(rt; what_is_held_is_a_root(&mut heap(&rt, alloc)));
    assert!(rt; a_doomed_referent_reads_as_null(&mut heap(&rt, alloc)));
}
