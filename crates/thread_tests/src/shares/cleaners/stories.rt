//! Jobs that are run, and calls that are refused.

use super::{Story, agree, story_of};

#[test]
fn each_job_runs_once_by_hand_or_by_one_of_two_threads(rt: HostRuntime) {
    let calls = "
        m0 new s0 0 : object 1; register 0 1 : registered 2; clean 2 16 : refused: NoSuchActor
        clean 2 3 : ran 3 1003; clean 2 3 : no job; m0 drop s0 : ok; m0 drop s1 : ok; m0 new s4 0 : object 3
        register 4 5 : registered 4; m0 new s6 0 : object 5; register 6 7 : registered 6; m0 drop s4 : ok
        m0 drop s6 : ok; begin 5 normal : cycle 1; w0 scan : scanned 4; w0 scan : scanned 6; w0 scan : none
        endmark : doomed 4; w0 clearnext : cleared 4; w0 clearnext : cleared 6; endclear : ok";
    let story = Story {
        jobs: &[3, 1, 2, 4],
        meanwhile: "deliver_one 0 : delivered 4 0 0; deliver_one 0 : delivered 6 0 1; close : was open",
        held: "ask m0 new s8 0 : object 7; register 8 9 : registered 8; clean 8 3 : ran 4 1004",
        count: 2,
        then: "
            clean 2 3 : no job; clean 4 3 : no job; clean 6 3 : no job; deliver_one 0 : none
            cleaner_served : served 12",
        heard: (1, 1),
        called: 4,
        ..story_of(calls)
    };
    story.agree(&rt, rt.alloc());
}

#[test]
fn jobs_run_whose_notices_stand(rt: HostRuntime) {
    let alloc = rt.alloc();
    // A notice without a job counts for nothing.
    let calls = "
        m0 new s0 0 : object 1; m0 weak s1 s0 q0 0 : object 2; register 0 2 : registered 3
        enqueue 1 : enqueued; enqueue 2 : enqueued; close : was open; clean_loop : ran jobs 1";
    agree(&rt, alloc, (0, 0), &[1], calls, ((1, 0), 1, 0));
    // They run without waiting.
    let calls = "
        m0 new s0 0 : object 1; clean_some : ran jobs 0; register 0 1 : registered 2
        register 0 2 : registered 3; clean_some : ran jobs 0; enqueue 1 : enqueued; enqueue 2 : enqueued
        clean_some : ran jobs 2; clean_some : ran jobs 0; close : was open; clean_some : ran jobs 0";
    agree(&rt, alloc, (0, 0), &[1, 2], calls, ((1, 1), 2, 0));
}

#[test]
fn what_is_refused_gives_the_job_back(rt: HostRuntime) {
    let (alloc, last) = (rt.alloc(), u64::MAX);
    // The heap refuses.
    let calls = "
        register 0 1 : refused: EmptySlot job 0; register 16 1 : refused: NoSuchActor job 1
        cleaner_served : served 0";
    agree(&rt, alloc, (0, 0), &[0, 1], calls, ((0, 0), 0, 0));
    // The first register takes the cleaner's last turn.
    let calls = "
        m0 new s0 0 : object 1; register 0 1 : registered 2; clean 2 3 : refused: TurnsSpent
        register 0 3 : refused: TurnsSpent job 2; enqueue 1 : enqueued; close : was open
        clean_loop : refused: TurnsSpent; cleaner_served : served 18446744073709551615";
    agree(&rt, alloc, (0, last - 1), &[1, 2], calls, ((0, 0), 0, 1));
    // An object, a reference and its hold are the heap's last turns.
    let calls = "m0 new s0 0 : object 1; register 0 1 : not released 2: TurnsSpent job 1";
    agree(&rt, alloc, (last - 3, last), &[1], calls, ((0, 0), 0, 0));
}

#[test]
fn without_a_turn_of_the_heap_a_job_still_runs(rt: HostRuntime) {
    let (alloc, last) = (rt.alloc(), u64::MAX);
    // An object, a reference and its hold are the last turns.
    let calls =
        "m0 new s0 0 : object 1; register 0 1 : registered 2; clean 2 3 : ran unheld 1 1001 2";
    agree(&rt, alloc, (last - 3, 0), &[1], calls, ((0, 0), 1, 0));
    // Or they and an unhook: without a turn for its notice a job stays.
    let calls = "
        m0 new s0 0 : object 1; register 0 1 : registered 2; enqueue 1 : enqueued; close : was open
        clean_loop : not released 2: TurnsSpent; clean 2 3 : ran unheld 1 1001 2";
    agree(&rt, alloc, (last - 4, 0), &[1], calls, ((0, 0), 1, 0));
    // Or the release of the notice, too.
    let calls = "
        m0 new s0 0 : object 1; register 0 1 : registered 2; enqueue 1 : enqueued; close : was open
        clean_loop : not released 2: TurnsSpent; clean 2 3 : no job";
    agree(&rt, alloc, (last - 5, 0), &[1], calls, ((1, 0), 1, 0));
}
