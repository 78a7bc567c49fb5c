//! Heaps whose memory runs out.

use super::Bench;
use crate::hand::released;
use crate::steps::{M, agree};
use bumpalo::Bump;
use rationed::Rationed;
use ref_base::{Config, Fault, ObjNo, Phase, QueueNo, SlotNo, SpanRule, Strength, WorkerNo};
use ref_clear::{Heap, Pending};
use ref_objects::Kind;
use std::alloc::{Allocator, Global};
use std::process::Abort;
use std::test::Fail;

/// One mutator, two workers, three queues, four cells, and a span of 10.
const SMALL: Config = Config {
    mutators: 1,
    workers: 2,
    queues: 3,
    cells: 4,
    span: 10,
    rule: SpanRule::Fixed,
};

/// The calls of mutators and of holds, once each. Nothing but reference 4 holds object 3 then.
fn mutate<A: Allocator + Copy>(rt: &impl Abort, bench: &mut Bench<A>) {
    assert!(rt; bench.heap.config() == SMALL && bench.heap.heap_no() == 1);
    let story = "
        m0 new s0 8 : object 1
        # With a field of its own, for queue 2.
        m0 soft s1 s0 q2 1 : object 2; m0 store s1 0 s0 : ok; m0 load s2 s1 0 : object 1
        m0 copy s3 s1 : object 2; m0 get s4 s3 : object 1; m0 refers s1 s0 : true; m0 clear s1 : ok
        m0 unhook s1 : notice 2 q2 own";
    agree(rt, bench, story);
    let heap = &mut bench.heap;
    assert!(rt; heap.kind_of(ObjNo(1)) == Some(Kind::Plain));
    assert!(rt; heap.kind_of(ObjNo(2)) == Some(Kind::Reference(Strength::Soft)));
    assert!(rt; heap.queue_of(ObjNo(2)) == Some(QueueNo(2)) && heap.hold_count() == 1);
    match heap.hold(M, SlotNo(0)) {
        Ok(hold) => {
            assert!(rt; hold.obj() == ObjNo(1) && hold.heap_no() == 1);
            assert!(rt; released(heap.release(hold)) == Ok(()));
        }
        Err(fault) => panic!(rt; "{fault}"),
    }
    let story =
        "m0 adopt s5 : object 2; m0 new s6 0 : object 3; m0 phantom s7 s6 q1 0 : object 4; m0 drop s6 : ok";
    agree(rt, bench, story);
    assert!(rt; bench.heap.slot_of(M, SlotNo(5)) == Ok(Some(ObjNo(2))));
    assert!(rt; bench.heap.object_count() == 4);
}

/// The calls of a cycle, once each.
fn collect<A: Allocator + Copy>(rt: &impl Abort, bench: &mut Bench<A>) {
    agree(rt, bench, "begin 9 normal : cycle 1");
    assert!(rt; bench.heap.cycle() == 1 && bench.heap.clock() == 9);
    assert!(rt; bench.heap.phase() == Phase::Marking);
    let story = "w0 scan : scanned 1; w0 scan : scanned 2; w1 scan : scanned 4; endmark : doomed 1";
    agree(rt, bench, story);
    assert!(rt; bench.heap.phase() == Phase::Clearing);
    agree(rt, bench, "w1 clearnext : cleared 4");
    let pending = Pending {
        object: ObjNo(4),
        queue: QueueNo(1),
        cycle: 1,
    };
    assert!(rt; bench.heap.pending_of(WorkerNo(1), 0) == Some(pending));
    agree(rt, bench, "endclear : ok");
    assert!(rt; bench.heap.phase() == Phase::Sweeping);
    let story = "w0 sweep : swept 1; endsweep : ok; w1 hand : notice 4 q1 cycle 1 w1";
    agree(rt, bench, story);
    assert!(rt; bench.heap.object_count() == 3 && bench.heap.phase() == Phase::Idle);
}

#[test]
fn after_new_no_call_takes_memory(rt: HostRuntime) {
    let memory = Rationed::new(rt.alloc());
    let Ok(heap) = Heap::new(&memory, SMALL, 1) else {
        panic!(rt; "there is no heap");
    };
    let mut bench = Bench::new(&memory, heap);
    memory.ration(0);
    mutate(&rt, &mut bench);
    collect(&rt, &mut bench);
    assert!(rt; !memory.lift(), "no request is refused");
    bench.end();
}

#[test]
fn a_heap_out_of_limits_is_refused_before_memory_is_taken(rt: HostRuntime) {
    let none = Rationed::new(rt.alloc());
    none.ration(0);
    for (workers, want) in [
        (2, Fault::NoMemory),
        (0, Fault::BadConfig),
        (9, Fault::BadConfig),
    ] {
        let made = Heap::new(&none, Config { workers, ..SMALL }, 1);
        assert!(rt; made.err() == Some(want), "{workers} workers");
    }
}

/// How many bytes a heap of 4,096 cells and of so many workers takes.
fn taken_by(alloc: Global, workers: u32) -> Result<usize, Fail> {
    let memory = Bump::try_with_capacity(alloc, 2_097_152)?;
    let before = memory.chunk_capacity();
    let config = Config {
        workers,
        cells: 4_096,
        ..SMALL
    };
    let heap = Heap::new(&memory, config, 1)?;
    let left = memory.chunk_capacity();
    heap.end();
    Ok(before.saturating_sub(left))
}

#[test]
fn a_heap_takes_5_920_bytes_a_page_16_a_cell_and_16_a_worker(rt: HostRuntime) -> Result<(), Fail> {
    // Twice as many pages as its cells fill, each with 80, 8 and 4 bytes for each of its 64 cells, and with 32. Beside
    // them are the grey and the condemned list, of 8 bytes a cell.
    let pages = 128 * (64 * (80 + 8 + 4) + 32);
    let lists = 4_096 * (8 + 8);
    // Beside them are the 16 slots of one mutator.
    let slots = 64;
    let without_workers = pages + lists + slots;
    for (workers, of_workers) in [(1, 16), (8, 8 * 16)] {
        let taken = taken_by(rt.alloc(), workers)?;
        assert!(rt;
            taken == without_workers + of_workers,
            "{workers} workers: {taken}"
        );
    }
    Ok(())
}
