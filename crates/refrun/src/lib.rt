//! Scripts run, and drawn at random; threads that stress a shared heap, and what is checked behind them.
#![tactic(auto)]

mod cleaning;
mod evidence;
mod gate;
mod jobs;
mod lists;
mod outcomes;
mod random;
mod script_job;
mod station;
mod stress_options;
mod tally;
mod threads;
mod trace;

pub use evidence::{Evidence, WrongRun, evidence_of};
pub use lists::{Check, check_lists};
pub use outcomes::JobFate;
pub use random::{Parts, random_script};
pub use ref_text::{
    FromReader, LineFault, ReadError, TextFault, TextSink, TextSource, ToWriter, WriteFailed,
};
pub use script_job::{PlainJob, ScriptJob, plain_jobs};
pub use stress_options::StressOptions;
pub use tally::{Counts, Tally};
pub use threads::{StressLists, stress, stress_lists};
pub use trace::{run_script, run_script_with};
