//! Heaps whose memory runs out.

use super::{Bench, begun, freed};
use crate::closed::condemn_if_closed;
use crate::steps::{M, agree};
use rationed::Rationed;
use ref_base::{Fault, ObjNo, SlotNo};
use ref_objects::{Objects, Worklist};
use std::alloc::{Allocator, Global};
use std::process::Abort;

/// Each step once, and then each call of the layers above.
const EACH_CALL: &'static str = "
    m0 new s0 8 : object 1; m0 soft s1 s0 q0 8 : object 2; m0 store s0 7 s1 : ok; m0 load s5 s0 7 : object 2
    m0 get s6 s1 : object 1; m0 copy s2 s1 : object 2; m0 drop s2 : ok
    set_slot 3 1 : ok; set_clock 5 : ok; set_stamp 2 5 : ok; cut 2 : ok; m0 clear s1 : ok
    set_cleared_in 2 1 : ok; look 2 2 : skipped 2; set_link 2 1 : ok
    hold 1 : object 2; adopt 4 : object 2; mint 1 : object 1; release : ok
    begin_marks : ok; mark 1 : yes; mark_slot 0 : null; mark_slot_at 1 : object 2
    condemn : yes; free 1 : no; free_next : none; begin_marks : ok; end_cycle : ok; objects : 2";

#[test]
fn after_new_no_call_takes_memory(rt: HostRuntime) {
    let memory = Rationed::new(rt.alloc());
    let mut bench = Bench::new(&rt, &memory, 3);
    memory.ration(0);
    agree(&rt, &mut bench, EACH_CALL);
    assert!(rt; !memory.lift(), "no request is refused");
    bench.end();
}

/// Makes plain objects in slot 0 until no cell is free.
fn fill<A: Allocator + Copy>(rt: &impl Abort, heap: &mut Objects<A>, cells: u32) {
    for _object in 0..=cells {
        if let Err(fault) = heap.alloc_obj(M, SlotNo(0), 2) {
            assert!(rt; fault == Fault::NoCell, "{fault}");
            return;
        }
    }
    assert!(rt; false, "it is never full");
}

/// Frees all objects but the first, as a cycle does.
fn free_all_but_one<A: Allocator + Copy>(heap: &mut Objects<A>, condemned: &mut Worklist<A>) {
    let _dropped = heap.drop_slot(M, SlotNo(0));
    begun(heap);
    heap.mark(ObjNo(1));
    condemn_if_closed(heap, condemned);
    for _object in 0..condemned.room() {
        if let Some(entry) = condemned.take_first() {
            freed(heap, entry);
        }
    }
    heap.end_cycle();
    begun(heap);
}

/// Fills the heap, and again so often, each time that all but the first object were freed. As that one stays, the index
/// fills with gaps again and again.
fn fill_again_and_again<A: Allocator + Copy>(
    rt: &impl Abort,
    bench: &mut Bench<A>,
    cells: u32,
    rounds: u32,
) {
    fill(rt, &mut bench.heap, cells);
    for _round in 0..rounds {
        free_all_but_one(&mut bench.heap, &mut bench.condemned);
        fill(rt, &mut bench.heap, cells);
        assert!(rt; bench.heap.object_count() == cells as usize && bench.heap.has_object(ObjNo(1)));
    }
}

/// Fills a heap of so many cells again and again, without a request for memory.
fn fill_without_memory(rt: &impl Abort, alloc: Global, cells: u32) {
    let memory = Rationed::new(alloc);
    let mut bench = Bench::new(rt, &memory, cells);
    memory.ration(0);
    fill_again_and_again(rt, &mut bench, cells, 20);
    assert!(rt; !memory.lift(), "no request is refused, with {cells} cells");
    bench.end();
}

#[test]
fn after_new_no_memory_is_taken(rt: HostRuntime) {
    for cells in 1..70 {
        fill_without_memory(&rt, rt.alloc(), cells);
    }
}
