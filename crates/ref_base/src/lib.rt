//! What every other crate speaks of: numbers, limits, faults, parcels, and the rows of a trace with their texts. Its
//! `specs` have the definitions of the whole model: object graphs and how strongly their objects are reachable, what a
//! cycle keeps and dooms, and which traces are legal.
#![tactic(auto)]

mod actor;
mod batch;
mod cause;
mod config;
mod fault;
mod heap_step;
pub mod laws;
mod limits;
mod nos;
mod numbers;
mod out;
mod outs;
mod parcel;
mod phase;
mod plain_step;
mod policy;
mod reach;
mod reply;
mod row;
mod span_rule;
mod step;
mod strength;
mod urgency;
mod words;

pub use actor::Actor;
pub use batch::Batch;
pub use cause::Cause;
pub use config::Config;
pub use fault::Fault;
pub use heap_step::{HeapStep, HoldName};
pub use limits::{MOST_FIELDS, MOST_IN_BATCH, SLOTS};
pub use nos::Nos;
pub use numbers::{MutNo, ObjNo, QueueNo, SlotNo, WorkerNo};
pub use out::{Done, Out};
pub use outs::Outs;
pub use parcel::Parcel;
pub use phase::Phase;
pub use plain_step::PlainStep;
pub use policy::Policy;
pub use reach::{ObjectReach, Reach};
pub use reply::Reply;
pub use row::Row;
pub use span_rule::SpanRule;
pub use step::Step;
pub use strength::Strength;
pub use urgency::Urgency;
pub use words::say_number;
