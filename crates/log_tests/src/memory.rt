//! Logs for which memory is rationed: each request for memory is refused in turn, and each later one with it, until a
//! run meets no refusal.

use crate::logs::{LOGS, Log};
use rationed::Rationed;
use ref_log::{LogFailure, verdict_on};
use ref_text::FromReader;
use std::alloc::Global;
use std::process::Abort;
use std::test::Fail;

/// More requests than a run makes.
const MOST: u64 = 1_000;

/// Judges a log with so many requests for memory met. Answers whether one was refused, and then the answer says so.
/// Once there is memory the same log is judged as ever.
fn is_refused(rt: &impl Abort, memory: &Rationed<Global>, log: &Log, met: u64) -> bool {
    memory.ration(met);
    let answer = verdict_on(memory, &mut FromReader::new(log.text), None);
    let was_refused = memory.lift();
    if was_refused {
        assert_eq!(rt; answer, Err(LogFailure::NoMemory), "{}: {met}", log.name);
    } else {
        assert!(rt; log.is_told(answer), "{}: {met}", log.name);
    }
    let again = verdict_on(memory, &mut FromReader::new(log.text), None);
    assert!(rt; log.is_told(again), "{}: {met}", log.name);
    was_refused
}

/// Each request for memory of a log is refused in turn.
fn refuse_each(rt: &impl Abort, alloc: Global, log: &Log) {
    let memory = Rationed::new(alloc);
    let mut refused = 0;
    for met in 0..MOST {
        if !is_refused(rt, &memory, log, met) {
            break;
        }
        refused = met + 1;
    }
    assert!(rt; refused > 0 && refused < MOST, "{}", log.name);
}

#[test]
fn a_log_is_judged_or_memory_ran_out(rt: HostRuntime) -> Result<(), Fail> {
    for log in &LOGS {
        refuse_each(&rt, rt.alloc(), log);
    }
    Ok(())
}
