//! A shared heap and queue in one thread.

use super::{DEATH, NOTHING, Q, STARTS, Starts, agree};

/// Object 1, and references 2 and 3 to it in slots 1 and 2.
pub const TWO_REFERENCES: &'static str =
    "m0 new s0 0 : object 1; m0 weak s1 s0 q0 0 : object 2; m0 weak s2 s0 q0 0 : object 3";

/// Object 1, and references 2 to 6 to it in slots 1 to 5.
pub const FIVE_REFERENCES: &'static str = "
    m0 new s0 0 : object 1; m0 weak s1 s0 q0 0 : object 2; m0 weak s2 s0 q0 0 : object 3
    m0 weak s3 s0 q0 0 : object 4; m0 weak s4 s0 q0 0 : object 5; m0 weak s5 s0 q0 0 : object 6";

#[test]
fn what_is_put_in_is_taken_out_in_order(rt: HostRuntime) {
    let alloc = rt.alloc();
    // One thread enqueues and polls.
    let calls = "
        enqueue 1 : enqueued; enqueue 1 : not enqueued; poll_now : took 2; poll_now : empty; served : served 4
        apart enqueue 2 : enqueued; poll_now : took 3
        remove_within 3 : timed out; remove_within 0 : refused: BadConfig";
    agree(&rt, alloc, STARTS, TWO_REFERENCES, calls, (&[2, 3], &[]));
    // A closed queue gives what stands.
    let calls = "
        enqueue 1 : enqueued; enqueue 2 : enqueued; close : was open; close : was closed
        remove_within 1 : took 2; remove_wait : took 3; remove_wait : closed; remove_within 3 : closed
        poll_now : closed";
    agree(&rt, alloc, STARTS, TWO_REFERENCES, calls, (&[2, 3], &[]));
}

#[test]
fn puts_and_steps_take_turns(rt: HostRuntime) {
    let alloc = rt.alloc();
    // A put answers as the queue does.
    let calls = "
        put 1 : added 0; put 1 : already; put 2 : added 1; close : was open; put 2 : already; served : served 5";
    agree(
        &rt,
        alloc,
        STARTS,
        TWO_REFERENCES,
        calls,
        (&[2, 3], &[2, 3]),
    );
    // A step is made by a call that waits, too.
    let calls = "
        ask m0 new s0 0 : object 1; m0 drop s0 : ok; ask m0 drop s16 : refused 9 NoSuchActor
        heap_served : served 10; served : served 5";
    let starts = Starts {
        heap: 7,
        queue: 5,
        number: Q,
    };
    agree(&rt, alloc, starts, calls, "", NOTHING);
}

#[test]
fn what_a_cycle_cleared_is_delivered(rt: HostRuntime) {
    let alloc = rt.alloc();
    let calls = "
        deliver_one 0 : delivered 2 0 0; deliver_one 0 : delivered 3 0 1; deliver_one 0 : none
        poll_now : took 2
        # 12 steps, three hands, and the release of what was taken.
        heap_served : served 16";
    agree(&rt, alloc, STARTS, DEATH, calls, (&[2, 3], &[3]));
    // Nothing is delivered behind a close.
    let calls = "
        deliver_one 0 : delivered 2 0 0; close : was open; deliver_one 0 : dropped 3; put 2 : closed
        enqueue 2 : not enqueued; deliver_one 0 : none";
    agree(&rt, alloc, STARTS, DEATH, calls, (&[2], &[2]));
    // What was enqueued before is dropped.
    let calls = "
        enqueue 1 : enqueued; deliver_one 0 : dropped 2; deliver_one 0 : delivered 3 0 1; poll_now : took 2";
    agree(&rt, alloc, STARTS, DEATH, calls, (&[2, 3], &[3]));
}
