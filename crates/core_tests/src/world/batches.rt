//! Several notices that are put in at once, where memory runs out. Worked traces of batches are scripts, files of the
//! program `refrun_cases`.

use super::{THREE_CLEARED, TWO_WORKERS, world_of};
use crate::rows::outs;
use crate::scarce::MOST;
use crate::steps::agree;
use rationed::Rationed;
use ref_base::{Actor, Done, Fault, Step, WorkerNo};
use std::alloc::Global;
use std::process::Abort;

/// Two notices are put in at once with so many requests for memory met. What finds none stays in the hand, and a second
/// put adds it, and what is behind it. Answers whether a request was refused.
fn is_refused_within(rt: &impl Abort, memory: &Rationed<Global>, met: u64) -> bool {
    let mut world = world_of(rt, memory, TWO_WORKERS);
    agree(rt, &mut world, THREE_CLEARED);
    agree(rt, &mut world, "w0 hands 32 : notices 2 6 q0 cycle 1 w0");
    let wanting = Done::Refused(Fault::NoMemory);
    memory.ration(met);
    let reply = world.step(Step::Puts {
        actor: Actor::Worker(WorkerNo(0)),
    });
    let is_refused = memory.lift();
    if !is_refused {
        assert!(rt; reply == outs(0, &[Done::Added, Done::Added]));
    } else if reply == outs(0, &[wanting]) {
        agree(rt, &mut world, "w0 puts : added 0, added 1");
    } else {
        let first = outs(0, &[Done::Added, wanting]);
        assert!(rt; reply == first, "{met} requests met");
        agree(rt, &mut world, "w0 puts : added 1");
    }
    let story = "w0 puts : refused 24 HandEmpty; m0 polls q0 2 : took 2 6";
    agree(rt, &mut world, story);
    world.end();
    is_refused
}

#[test]
fn what_finds_no_memory_in_a_batch_stays_in_the_hand(rt: HostRuntime) {
    let memory = Rationed::new(rt.alloc());
    let mut requests = 0;
    for met in 0..MOST {
        if !is_refused_within(&rt, &memory, met) {
            break;
        }
        requests = met + 1;
    }
    assert!(rt;
        1 < requests && requests < MOST,
        "a put of two makes {requests} requests"
    );
}
