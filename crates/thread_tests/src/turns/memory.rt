//! Turns whose memory runs out.

use super::counter::Counter;
use rationed::Rationed;
use ref_base::Fault;
use ref_turn::Turn;
use std::alloc::Global;
use std::process::Abort;
use std::test::Fail;

/// More requests than it makes.
const MOST: u64 = 1_000;

/// Makes a turn over a count of 7, from this first ticket on, with each request refused in turn: each time the machine
/// comes back. Answers how many requests it makes.
fn make_each(rt: &impl Abort, memory: &Rationed<Global>, first: Option<u64>) -> u64 {
    for met in 0..MOST {
        memory.ration(met);
        let machine = Counter { count: 7 };
        let made = match first {
            Some(first) => Turn::starting(memory, machine, first),
            None => Turn::new(memory, machine),
        };
        let was_refused = memory.lift();
        match made {
            Ok((turn, seat)) => {
                assert!(rt; !was_refused, "it is made with {met} requests met");
                assert!(rt; turn.finish(seat) == Ok(Counter { count: 7 }));
                return met;
            }
            Err(refused) => {
                assert!(rt; was_refused, "there was memory, with {met} requests met");
                assert!(rt; refused == (Fault::NoMemory, Counter { count: 7 }));
            }
        }
    }
    MOST
}

#[test]
fn where_memory_runs_out_the_machine_comes_back(rt: HostRuntime) -> Result<(), Fail> {
    let memory = Rationed::new(rt.alloc());
    for (name, first) in [("Turn::new", None), ("Turn::starting", Some(7))] {
        let requests = make_each(&rt, &memory, first);
        assert!(rt;
            1 < requests && requests < MOST,
            "{name} makes {requests} requests"
        );
    }
    Ok(())
}
