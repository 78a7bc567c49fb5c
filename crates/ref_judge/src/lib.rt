//! Judging the traces of other collectors: what a collector may do otherwise than the abstract one of `ref_base`, and
//! which traces are legal then.
#![tactic(auto)]

mod hand;
mod hands;
mod history;
mod judge;
pub mod laws;
mod line;
mod marks;
mod order;
mod profile;
mod roots;
mod rule;
mod stop;
mod survivors;
mod sweeping;
mod traces;
mod worker;

pub use history::{Because, Earlier, History, Settled};
pub use judge::Judge;
pub use order::Order;
pub use profile::Profile;
pub use rule::{Breach, Instead, Objection, Rule};
pub use traces::verdict;
