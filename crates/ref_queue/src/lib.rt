//! A reference queue: where a collector puts what it has to report, and where the program takes it from. It is as
//! `java.lang.ref.ReferenceQueue` of Java SE 17, with three differences of this project's profile. A queue is first in,
//! first out (that text says only "appended"). It remembers the number of everything that was ever put in, so that
//! nothing is put in twice, and it can be closed.
//!
//! Beside it stands the table of a cleaner: which action is to run once which object is gone, each given out at most
//! once.
#![tactic(auto)]

mod clean_table;
mod enqueued;
mod job;
mod queue;

pub use clean_table::CleanTable;
pub use job::{Action, Job, Ran};
pub use queue::{Polled, PolledBatch, Put, Queue};
