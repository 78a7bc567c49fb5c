//! Replies, spelled shortly.

use ref_base::{Done, Fault, MOST_IN_BATCH, Outs, Reply};

pub const fn refused(fault: Fault) -> Reply {
    Reply::Refused(fault)
}

/// What became of notices, 32 at most, where so many were put in before.
pub fn outs(before: u32, done: &[Done]) -> Reply {
    let mut outs = Outs::new(u64::from(before));
    for one in done {
        if outs.len() < MOST_IN_BATCH {
            outs.push(*one);
        }
    }
    Reply::Outs(outs)
}
