//! Object graphs, and how strongly their objects are reachable. What that means is in the `specs` of `ref_base`.
#![tactic(auto)]

mod graph;
mod number_list;
mod reachability;
mod search;
mod stored;

pub use graph::Graph;
pub use reachability::{strength_of, strengths};
