//! The log of a collector's run, judged: its lines are read one by one, in the memory of one line, of one chunk, of the
//! names of its objects and of the judge.
#![tactic(auto)]

mod called;
mod check;
mod failure;
mod fault;
mod head;
mod heads;
mod names;
mod rows;
mod stream;
mod told;

pub use called::{Called, NameText};
pub use check::verdict_on;
pub use failure::{Finding, LogFailure, Verdict};
pub use fault::LogFault;
pub use heads::{profile_of, rule_of};
pub use ref_judge::{Because, Earlier, Settled};
pub use rows::row_of;
pub use stream::{LineStream, MAX_LINE, StreamFault};
