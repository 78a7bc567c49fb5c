//! The verdict on a whole trace.

ghost use Rattle.std.specs.Prelude.{IfOk};
ghost use Rattle.ref_judge.specs.Verdicts.{Judges};

use crate::{Judge, Objection, Profile};
use ref_base::{Config, Fault, Row};
use std::alloc::Allocator;

/// Judges a trace of a collector with this configuration and profile: none where it is legal, else how many rows stand
/// in
/// front of the first with which it isn't. The errors are `BadConfig`, and `NoMemory`, which says nothing of the trace.
/// Takes the memory of the heap and of what stands in queues, and time of the rows.
pub fn verdict<A: Allocator + Copy>(
    alloc: A,
    config: Config,
    profile: Profile,
    rows: &[Row],
) -> Result<Option<u64>, Fault>
    ensures { IfOk result (λ verdict. Judges profile config rows.now verdict) }
{
    let mut judge = Judge::new(alloc, config, profile)?;
    for place in 0..rows.len() {
        match judge.row(rows[place]) {
            Ok(()) => {}
            Err(Objection::Illegal(_)) => return Ok(Some(place as u64)),
            Err(Objection::NoMemory) => return Err(Fault::NoMemory),
        }
    }
    Ok(None)
}
