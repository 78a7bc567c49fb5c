//! What is cleared, what is told of it, and what never is.

use super::Bench;
use super::hands::take;
use crate::hand::{foreign, keep, leak};
use crate::objects::config;
use crate::steps::{M, agree};
use ref_base::{Config, Fault, ObjNo, Phase, QueueNo, SlotNo, WorkerNo};
use ref_clear::Heap;
use ref_objects::Start;
use std::alloc::Global;
use std::mem;
use std::process::Abort;

/// A heap of 8 cells, with nothing in the hand.
pub fn bench_of(rt: &impl Abort, alloc: Global) -> Bench {
    bench_from(rt, alloc, 0)
}

/// A heap of 8 cells after so many cycles.
fn bench_from(rt: &impl Abort, alloc: Global, cycle: u64) -> Bench {
    let start = Start {
        cycle,
        ..Start::FIRST
    };
    match Heap::starting(alloc, config(8), 1, start) {
        Ok(heap) => Bench::new(alloc, heap),
        Err(fault) => panic!(rt; "{fault}"),
    }
}

/// Object 1 in slot 0, and a weak reference to it in slot 1.
const MADE: &'static str = "m0 new s0 0 : object 1; m0 weak s1 s0 q0 0 : object 2";

#[test]
fn each_unhook_gives_a_notice(rt: HostRuntime) {
    let mut bench = bench_of(&rt, rt.alloc());
    agree(&rt, &mut bench, MADE);
    agree(&rt, &mut bench, "m0 unhook s1 : notice 2 q0 own");
    assert!(rt; bench.heap.hold_count() == 1);
    let mut first = bench.hand.take();
    let story = "m0 get s3 s1 : null; m0 refers s1 s0 : false; m0 unhook s1 : notice 2 q0 own";
    agree(&rt, &mut bench, story);
    assert!(rt; bench.heap.hold_count() == 2);
    agree(&rt, &mut bench, "m0 release : ok");
    assert!(rt; bench.heap.hold_count() == 1);
    let story = "
        m0 release : refused 24 HandEmpty
        # The notice that is left is the one root of reference 2.
        m0 drop s1 : ok; begin 0 normal : cycle 1; w0 scan : scanned 1; w0 scan : scanned 2
        endmark : doomed 0";
    agree(&rt, &mut bench, story);
    mem::swap(&mut bench.hand, &mut first);
    leak(first);
    agree(&rt, &mut bench, "m0 adopt s4 : object 2");
    assert!(rt; bench.heap.hold_count() == 0);
    bench.end();
}

#[test]
fn an_unhook_that_is_refused_or_has_no_queue_takes_no_hold(rt: HostRuntime) {
    let mut bench = bench_of(&rt, rt.alloc());
    agree(&rt, &mut bench, MADE);
    let story = "
        m0 unhook s16 : refused 9 NoSuchActor; m0 unhook s2 : refused 6 EmptySlot
        m0 unhook s0 : refused 8 NotAReference; m0 weak s3 s0 - 0 : object 3; m0 unhook s3 : none
        m0 get s4 s3 : null; m0 release : refused 24 HandEmpty";
    agree(&rt, &mut bench, story);
    assert!(rt; bench.heap.hold_count() == 0 && bench.heap.queue_of(ObjNo(3)) == None);
    assert!(rt; bench.heap.queue_of(ObjNo(2)) == Some(QueueNo(0)));
    bench.end();
}

#[test]
fn a_notice_goes_back_to_its_own_heap(rt: HostRuntime) {
    let mut bench = bench_of(&rt, rt.alloc());
    keep(&mut bench.hand, foreign(&rt, rt.alloc()));
    agree(&rt, &mut bench, MADE);
    bench.has(&rt, Some((1, 2)));
    // A hold of another heap comes back each time.
    for row in [
        "m0 adopt s3 : refused 11 ForeignHold",
        "m0 release : refused 11 ForeignHold",
    ] {
        agree(&rt, &mut bench, row);
        bench.has(&rt, Some((1, 2)));
    }
    leak(bench.hand.take());
    assert!(rt; bench.heap.slot_of(M, SlotNo(3)) == Ok(None));
    let story = "m0 unhook s1 : notice 2 q0 own; m0 adopt s16 : refused 9 NoSuchActor";
    agree(&rt, &mut bench, story);
    bench.has(&rt, Some((2, 1)));
    assert!(rt; bench.heap.hold_count() == 1);
    agree(&rt, &mut bench, "m0 adopt s3 : object 2");
    assert!(rt; bench.heap.slot_of(M, SlotNo(3)) == Ok(Some(ObjNo(2))));
    assert!(rt; bench.heap.hold_count() == 0);
    bench.end();
}

#[test]
fn cycles_are_spent_where_they_begin_at_the_last(rt: HostRuntime) {
    let mut bench = bench_from(&rt, rt.alloc(), u64::MAX);
    assert!(rt; bench.heap.cycle() == u64::MAX);
    for row in [
        "begin 5 normal : refused 5 NumbersSpent",
        "begin 0 urgent : refused 5 NumbersSpent",
    ] {
        agree(&rt, &mut bench, row);
        assert!(rt; bench.heap.phase() == Phase::Idle && bench.heap.cycle() == u64::MAX);
        assert!(rt; bench.heap.clock() == 0);
    }
    agree(&rt, &mut bench, "m0 new s0 0 : object 1");
    bench.end();
}

/// What is pending of this worker at this place: its reference, its queue and its cycle.
fn pending(heap: &Heap, worker: u32, place: usize) -> Option<(u32, u32, u64)> {
    let pending = heap.pending_of(WorkerNo(worker), place)?;
    Some((pending.object.0, pending.queue.0, pending.cycle))
}

#[test]
fn a_notice_tells_the_last_cycle(rt: HostRuntime) {
    let mut bench = bench_from(&rt, rt.alloc(), u64::MAX - 1);
    agree(&rt, &mut bench, MADE);
    let story = "
        m0 drop s0 : ok; begin 5 normal : cycle 18446744073709551615; begin 5 normal : refused 12 WrongPhase
        w0 scan : scanned 2; endmark : doomed 1; w0 clearnext : cleared 2; endclear : ok; w0 sweep : swept 1
        endsweep : ok; begin 4 normal : refused 13 ClockBack; begin 5 normal : refused 5 NumbersSpent";
    agree(&rt, &mut bench, story);
    assert!(rt; pending(&bench.heap, 0, 0) == Some((2, 0, u64::MAX)));
    let story = "w0 hand : notice 2 q0 cycle 18446744073709551615 w0";
    agree(&rt, &mut bench, story);
    assert!(rt; bench.heap.hold_count() == 1);
    agree(&rt, &mut bench, "m0 adopt s2 : object 2");
    assert!(rt; bench.heap.hold_count() == 0);
    assert!(rt; bench.heap.slot_of(M, SlotNo(2)) == Ok(Some(ObjNo(2))));
    bench.end();
}

/// Two workers, which scan references 2, 3 and 4 to object 1, object 5, which is held, and object 6. Object 1 dies.
fn clear_by_two(rt: &impl Abort, bench: &mut Bench) {
    // References 2, 3 and 4 lie in slots 3, 2 and 1.
    let story = "
        m0 new s0 0 : object 1; m0 weak s3 s0 q0 0 : object 2; m0 weak s2 s0 q0 0 : object 3
        m0 weak s1 s0 q0 0 : object 4; m0 new s0 0 : object 5";
    agree(rt, bench, story);
    take(rt, bench, 0, "object 5");
    bench.has(rt, Some((5, 1)));
    leak(bench.hand.take());
    let story = "
        m0 drop s0 : ok; m0 new s4 0 : object 6; begin 1 normal : cycle 1; w0 scan : scanned 4
        w1 scan : scanned 3; w0 scan : scanned 2; w0 scan : scanned 6; w0 scan : scanned 5; endmark : doomed 1
        w1 clearnext : cleared 3; w0 clearnext : cleared 4; w0 clearnext : cleared 2; endclear : ok
        w1 sweep : swept 1; endsweep : ok";
    agree(rt, bench, story);
}

#[test]
fn the_roots_of_a_cycle_are_slots_then_holds_then_what_is_pending(rt: HostRuntime) {
    let two_workers = Config {
        workers: 2,
        ..config(8)
    };
    let Ok(heap) = Heap::new(rt.alloc(), two_workers, 1) else {
        panic!(rt; "there is no heap");
    };
    let mut bench = Bench::new(rt.alloc(), heap);
    clear_by_two(&rt, &mut bench);
    let story = "
        m0 drop s1 : ok; m0 drop s2 : ok; m0 drop s3 : ok; begin 1 normal : cycle 2; w0 scan : scanned 6
        w0 scan : scanned 5; w0 scan : scanned 4; w0 scan : scanned 2; w0 scan : scanned 3";
    agree(&rt, &mut bench, story);
    assert!(rt; pending(&bench.heap, 0, 1) == Some((2, 0, 1)));
    assert!(rt; pending(&bench.heap, 1, 0) == Some((3, 0, 1)));
    assert!(rt; pending(&bench.heap, 2, 0) == None);
    // Each worker hands on its own, in every phase.
    let story =
        "w1 hand : notice 3 q0 cycle 1 w1; w1 hand : none; endmark : doomed 0; w0 hand : notice 4 q0 cycle 1 w0";
    agree(&rt, &mut bench, story);
    assert!(rt; pending(&bench.heap, 0, 0) == Some((2, 0, 1)));
    agree(&rt, &mut bench, "w0 hand : notice 2 q0 cycle 1 w0");
    bench.end();
}
