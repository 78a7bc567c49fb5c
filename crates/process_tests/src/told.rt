//! What a call answers.

use ref_base::{Cause, QueueNo};
use ref_process::{Found, Handle, ProcessFault};
use std::fmt;

/// The most roots that a row tells.
pub const MOST_ROOTS: usize = 8;

/// What a call answers. References are told by their numbers, in the order in which they were made.
#[derive(Clone, Copy)]
pub enum Told {
    /// The call is no call of a processor.
    Unknown,
    Done,
    Nothing,
    Is(bool),
    Refused(ProcessFault),
    Cycle(u64),
    Read(Option<Handle>),
    Owner(Option<Handle>),
    Found(Found),
    Added(usize, Found),
    Cleared(usize),
    Kept(usize),
    Skipped(usize),
    Already(usize),
    Notice(usize, QueueNo, Cause),
    /// The position of a notice that was put in.
    Position(u64),
    Empty,
    Closed,
    /// How many stood in a queue as it ended.
    Stood(u64),
    Queue(Option<QueueNo>),
    /// How many notices are in a batch.
    Batch(u64),
    Roots([u64; MOST_ROOTS], usize),
}

impl fmt::Display for Told {
    fn fmt<W: fmt::Write>(&self, f: &mut fmt::Formatter<W>) -> fmt::Result {
        match self {
            Told::Unknown => f.write_str("unknown"),
            Told::Done => f.write_str("done"),
            Told::Nothing => f.write_str("nothing"),
            Told::Is(true) => f.write_str("yes"),
            Told::Is(false) => f.write_str("no"),
            Told::Refused(fault) => write!(f, "{fault:?}"),
            Told::Cycle(number) => write!(f, "cycle {number}"),
            Told::Read(Some(handle)) => write!(f, "{}", handle.0),
            Told::Read(None) => f.write_str("null"),
            Told::Owner(Some(handle)) => write!(f, "owner {}", handle.0),
            Told::Owner(None) => f.write_str("owner none"),
            Told::Found(found) => say_found(f, *found),
            Told::Added(number, found) => {
                write!(f, "r{number} ")?;
                say_found(f, *found)
            }
            Told::Cleared(number) => write!(f, "cleared r{number}"),
            Told::Kept(number) => write!(f, "kept r{number}"),
            Told::Skipped(number) => write!(f, "skipped r{number}"),
            Told::Already(number) => write!(f, "already r{number}"),
            Told::Notice(number, queue, Cause::Own) => write!(f, "notice r{number} {queue} own"),
            Told::Notice(number, queue, Cause::Cycle(cycle, worker)) => {
                write!(f, "notice r{number} {queue} cycle {cycle} {worker}")
            }
            Told::Position(position) => write!(f, "added {position}"),
            Told::Empty => f.write_str("empty"),
            Told::Closed => f.write_str("closed"),
            Told::Stood(count) => write!(f, "stood {count}"),
            Told::Queue(Some(queue)) => write!(f, "{queue}"),
            Told::Queue(None) => f.write_str("no queue"),
            Told::Batch(count) => write!(f, "batch {count}"),
            Told::Roots(roots, count) => say_roots(f, roots, *count),
        }
    }
}

fn say_found<W: fmt::Write>(f: &mut fmt::Formatter<W>, found: Found) -> fmt::Result {
    match found {
        Found::Keep(handle) => write!(f, "keep {}", handle.0),
        Found::Listed => f.write_str("listed"),
        Found::Nothing => f.write_str("nothing"),
    }
}

fn say_roots<W: fmt::Write>(
    f: &mut fmt::Formatter<W>,
    roots: &[u64; MOST_ROOTS],
    count: usize,
) -> fmt::Result {
    f.write_str("roots")?;
    for root in roots.iter().take(count) {
        write!(f, " {root}")?;
    }
    Ok(())
}
