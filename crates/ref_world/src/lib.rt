//! The core: one heap, its queues and everybody's hands. Steps of mutators, workers and pollers go in, one by one or as
//! a list, and each is answered by a row of the abstract collector.
#![tactic(auto)]

mod hand;
mod handed_reply;
mod hands;
mod heap_machine;
mod notice;
mod passage;
mod plain_reply;
mod replies;
mod trace;
mod world;

pub use handed_reply::HandedReply;
pub use heap_machine::{HeapAnswer, HeapCall, HeapReply, WorldHeap, apply_heap};
pub use notice::WorldNotice;
pub use plain_reply::PlainReply;
pub use ref_base::{HeapStep, PlainStep, Reply, Row, Step};
pub use trace::{Trace, run};
pub use world::World;
