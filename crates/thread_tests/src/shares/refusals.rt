//! Why calls of a shared heap and queue are refused.

use super::{CONFIG, DEATH, NOTHING, STARTS, Starts, agree, heap_from, queue_from};
use ref_base::{Config, Fault, QueueNo};
use ref_share::SharedHeap;
use std::alloc::Global;

/// The queue has the number 1, and not that of the references.
pub const AT_ANOTHER_QUEUE: Starts = Starts {
    number: QueueNo(1),
    ..STARTS
};

#[test]
fn what_is_not_there_is_refused(rt: HostRuntime) {
    // A limit of polls is from 1 to a million.
    let calls = "
        remove_within 0 : refused: BadConfig; remove_within 1000001 : refused: BadConfig
        remove_within 1 : timed out; remove_within 1000000 : timed out; served : served 1000001";
    agree(&rt, rt.alloc(), STARTS, calls, "", NOTHING);
    // What the heap refuses is told.
    let calls = "
        m0 new s0 0 : object 1; m0 weak s1 s0 - 0 : object 2; enqueue 1 : not enqueued
        enqueue 16 : refused: NoSuchActor; enqueue 5 : refused: EmptySlot; enqueue 0 : refused: NotAReference
        deliver_one 1 : refused: NoSuchActor; deliver_one 0 : none; served : served 0";
    agree(&rt, rt.alloc(), STARTS, calls, "", NOTHING);
}

#[test]
fn what_no_queue_takes_comes_back(rt: HostRuntime) {
    let calls =
        "nowhere enqueue 1 : not put 2: BadQueue; nowhere deliver_one 0 : not put 2: BadQueue";
    agree(&rt, rt.alloc(), STARTS, DEATH, calls, NOTHING);
    let calls = "
        put 1 : not put 2: WrongQueue; enqueue 1 : not put 2: WrongQueue
        deliver_one 0 : not put 2: WrongQueue";
    agree(&rt, rt.alloc(), AT_ANOTHER_QUEUE, DEATH, calls, NOTHING);
    let calls = "
        put 1 : not put 2: TurnsSpent; enqueue 1 : not put 2: TurnsSpent
        deliver_one 0 : not put 2: TurnsSpent";
    let starts = queue_from(u64::MAX);
    agree(&rt, rt.alloc(), starts, DEATH, calls, NOTHING);
}

#[test]
fn the_last_turn_is_made_once(rt: HostRuntime) {
    let calls = "
        close : was open; close : refused: TurnsSpent; poll_now : refused: TurnsSpent
        remove_within 3 : refused: TurnsSpent; remove_wait : refused: TurnsSpent
        remove_within 0 : refused: BadConfig; served : served 18446744073709551615";
    let starts = queue_from(u64::MAX - 1);
    agree(&rt, rt.alloc(), starts, calls, "", NOTHING);
    let calls = "
        m0 new s0 0 : object 1; m0 drop s0 : refused: TurnsSpent; ask m0 drop s0 : refused: TurnsSpent
        enqueue 1 : refused: TurnsSpent; deliver_one 0 : refused: TurnsSpent
        heap_served : served 18446744073709551615; served : served 0";
    let starts = heap_from(u64::MAX - 1);
    agree(&rt, rt.alloc(), starts, calls, "", NOTHING);
}

#[test]
fn without_a_turn_for_the_release_the_hold_comes_back(rt: HostRuntime) {
    // Two objects are made, and two unhooks.
    let calls = "
        m0 new s0 0 : object 1; m0 weak s1 s0 q0 0 : object 2; enqueue 1 : enqueued
        enqueue 1 : not released 2: TurnsSpent";
    let starts = heap_from(u64::MAX - 4);
    agree(&rt, rt.alloc(), starts, calls, "", (&[2], &[2]));
    // Twelve turns of the cycle, an unhook and a hand.
    let calls = "enqueue 1 : enqueued; deliver_one 0 : not released 2: TurnsSpent";
    let starts = heap_from(u64::MAX - 14);
    agree(&rt, rt.alloc(), starts, DEATH, calls, (&[2], &[2]));
}

/// Why a heap of this configuration is not made.
fn fault_of(alloc: Global, config: Config) -> Option<Fault> {
    match SharedHeap::new(alloc, config, 0) {
        Ok(_made) => None,
        Err(fault) => Some(fault),
    }
}

/// With these numbers of mutators, workers, queues and cells.
const fn of(mutators: u32, workers: u32, queues: u32, cells: u32) -> Config {
    Config {
        mutators,
        workers,
        queues,
        cells,
        ..CONFIG
    }
}

#[test]
fn a_heap_outside_the_limits_is_not_made(rt: HostRuntime) {
    let outside = [
        of(0, 1, 1, 8),
        of(9, 1, 1, 8),
        of(1, 0, 1, 8),
        of(1, 9, 1, 8),
        of(1, 1, 0, 8),
        of(1, 1, 17, 8),
        of(1, 1, 1, 0),
        of(1, 1, 1, 65_537),
    ];
    for config in outside {
        assert!(rt;
            fault_of(rt.alloc(), config) == Some(Fault::BadConfig),
            "{config:?}"
        );
    }
    assert!(rt; fault_of(rt.alloc(), CONFIG) == None);
}
