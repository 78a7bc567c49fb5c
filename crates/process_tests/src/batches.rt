//! Stories of what is handed on at once.

use crate::bench::{Bench, agree};
use rationed::Rationed;

// Worker 0 has four for queue 0, of which the second was told by its own call, then one for queue 1, and one more for
// queue 0. Worker 1 has one.
const SEVEN_PENDING: &str = "
    add 1 weak 21 0 : r0 nothing; add 2 weak 22 0 : r1 nothing; add 3 weak 23 0 : r2 nothing
    add 4 weak 24 0 : r3 nothing; add 5 weak 25 1 : r4 nothing; add 6 weak 26 0 : r5 nothing
    add 7 weak 27 0 : r6 nothing
    begin 1 normal : cycle 1
    found 0 r0 : listed; found 0 r1 : listed; found 0 r2 : listed; found 0 r3 : listed; found 0 r4 : listed
    found 0 r5 : listed; found 1 r6 : listed
    end_mark : done; next_queue 0 : no queue
    look 0 : cleared r0; look 0 : cleared r1; look 0 : cleared r2; look 0 : cleared r3; look 0 : cleared r4
    look 0 : cleared r5; look 1 : cleared r6
    end_clear : done
    enqueue r1 : notice r1 q0 own; spend : owner 2; spend : nothing";

#[test]
fn what_is_for_one_queue_is_handed_on_at_once(rt: HostRuntime) {
    let mut bench = Bench::new(rt.alloc(), rt.alloc(), 0);
    agree(&rt, &mut bench, SEVEN_PENDING);
    agree(
        &rt,
        &mut bench,
        "next_queue 0 : q0; hand_batch 0 1 9 : batch 0; hand_batch 0 0 0 : batch 0
        # r1 was told, so it has no notice, but it counts
        hand_batch 0 0 3 : batch 2; next_queue 0 : q0
        put 0 : added 0; put 0 : added 1
        poll 0 : notice r0 q0 cycle 1 w0; poll 0 : notice r2 q0 cycle 1 w0; spend : owner 1; spend : owner 3
        # as long as they are for this queue, so r5 waits for r4
        hand_batch 0 0 9 : batch 1; next_queue 0 : q1; hand_batch 0 0 9 : batch 0; roots : roots 4 5 6 7
        hand_batch 0 1 9 : batch 1; next_queue 0 : q0; hand_batch 0 0 9 : batch 1
        next_queue 0 : no queue; hand_batch 0 0 9 : batch 0
        # the other worker has its own
        next_queue 1 : q0; hand_batch 1 0 9 : batch 1; next_queue 1 : no queue
        put 0 : added 2; put 0 : WrongQueue; put 1 : added 0; put 0 : added 3; put 0 : added 4
        poll 0 : notice r3 q0 cycle 1 w0; poll 0 : notice r5 q0 cycle 1 w0; poll 0 : notice r6 q0 cycle 1 w1
        poll 1 : notice r4 q1 cycle 1 w0
        roots : roots 4 5 6 7; spend : owner 4; spend : owner 6; spend : owner 7; spend : owner 5; roots : roots",
    );
}

// A batch makes one request at most. Where that is refused nothing is handed on.
#[test]
fn a_batch_that_is_refused_memory_hands_on_nothing(rt: HostRuntime) {
    let memory = Rationed::new(rt.alloc());
    let mut bench = Bench::new(rt.alloc(), &memory, 0);
    agree(&rt, &mut bench, SEVEN_PENDING);
    memory.ration(0);
    agree(
        &rt,
        &mut bench,
        "hand_batch 0 0 9 : NoMemory; next_queue 0 : q0; hand_batch 1 0 1 : NoMemory",
    );
    assert!(rt; memory.lift(), "Processor::hand_batch");
    agree(
        &rt,
        &mut bench,
        "# r1 is pending too, whose notice was spent
        roots : roots 1 2 3 4 5 6 7; hand_batch 1 0 1 : batch 1; hand_batch 0 0 9 : batch 3
        spend : owner 7; spend : owner 1; spend : owner 3; spend : owner 4; roots : roots 5 6",
    );
}
