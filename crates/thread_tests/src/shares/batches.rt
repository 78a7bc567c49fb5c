//! Batches between a shared heap and its queue, by one thread: what is handed on, put in and taken at once, and what
//! comes back in the batch where turns run out.

use super::refusals::AT_ANOTHER_QUEUE;
use super::{DEATH, NOTHING, STARTS, agree, heap_from, queue_from};

#[test]
fn a_batch_is_handed_on_and_taken_at_once(rt: HostRuntime) {
    let calls = "
        deliver_batch 0 32 : added 0, added 1 behind 0; heap_served : served 13; served : served 1
        poll_batch 32 : took 2 3; served : served 2; poll_batch 32 : empty
        deliver_batch 0 32 : none; heap_served : served 14; served : served 3";
    agree(&rt, rt.alloc(), STARTS, DEATH, calls, (&[2, 3], &[]));
    // It is of so many at most.
    let calls = "
        hand_and_put 1 : added 0 behind 0; hand_and_put 32 : added 1 behind 1; hand_and_put 32 : none
        poll_batch 1 : took 2; poll_batch 2 : took 3; poll_batch 2 : empty";
    agree(&rt, rt.alloc(), STARTS, DEATH, calls, (&[2, 3], &[]));
}

/// Reference 2 was put in by its own call.
#[test]
fn what_is_not_added_goes_back_or_stays_in_the_batch(rt: HostRuntime) {
    let calls = "
        enqueue 1 : enqueued; deliver_batch 0 1 : already behind 1; close : was open
        deliver_batch 0 32 : closed behind 1
        # An unhook, two hands and two releases.
        heap_served : served 17; poll_batch 32 : took 2; poll_batch 32 : closed";
    agree(&rt, rt.alloc(), STARTS, DEATH, calls, (&[2], &[]));
    // A put alone leaves in the batch what is not added.
    let calls = "
        enqueue 1 : enqueued; hand_and_put 32 : already, added 1 behind 1 left 2; poll_batch 32 : took 2 3";
    agree(&rt, rt.alloc(), STARTS, DEATH, calls, (&[2, 3], &[]));
}

#[test]
fn a_batch_is_of_1_to_32(rt: HostRuntime) {
    let calls = "
        deliver_batch 0 0 : refused: BadConfig; deliver_batch 0 33 : refused: BadConfig
        deliver_batch 1 0 : refused: NoSuchActor; served : served 0
        poll_batch 0 : refused: BadConfig; poll_batch 33 : refused: BadConfig; served : served 2
        deliver_batch 0 2 : added 0, added 1 behind 0";
    agree(&rt, rt.alloc(), STARTS, DEATH, calls, (&[2, 3], &[2, 3]));
}

#[test]
fn without_their_queue_or_a_turn_of_it_all_notices_come_back(rt: HostRuntime) {
    let calls = "nowhere deliver_batch 0 32 : refused: BadQueue left 2 3";
    agree(&rt, rt.alloc(), STARTS, DEATH, calls, NOTHING);
    let calls = "deliver_batch 0 32 : refused: WrongQueue left 2 3; poll_batch 32 : empty";
    agree(&rt, rt.alloc(), AT_ANOTHER_QUEUE, DEATH, calls, NOTHING);
    let calls = "
        deliver_batch 0 32 : refused: TurnsSpent left 2 3; poll_batch 32 : refused: TurnsSpent";
    let starts = queue_from(u64::MAX);
    agree(&rt, rt.alloc(), starts, DEATH, calls, NOTHING);
}

/// A death is 12 turns of the heap. Then there are 0, 1, 2 and 3 more.
#[test]
fn a_heap_at_its_last_turns_releases_no_more(rt: HostRuntime) {
    let left = [
        "deliver_batch 0 32 : refused: TurnsSpent; served : served 0",
        "close : was open; deliver_batch 0 32 : not released 2: TurnsSpent left 3",
        "close : was open; deliver_batch 0 32 : not released 3: TurnsSpent",
        "close : was open; deliver_batch 0 32 : closed, closed behind 0",
    ];
    for (turns, calls) in left.iter().enumerate() {
        let starts = heap_from(u64::MAX - 12 - turns as u64);
        agree(&rt, rt.alloc(), starts, DEATH, calls, NOTHING);
    }
}
