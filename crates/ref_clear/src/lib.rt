//! A whole heap: clearing, notices and the sweep upon marking, so that each death is told once. It works in the manner
//! of JEP 333 (ZGC), and its references are those of package `java.lang.ref` of Java SE 17.
//!
//! As a mark ends, each reference to what it doomed reads as cleared for everybody at once. Then each worker looks at
//! the references that it found. It clears those whose referent is doomed; one of them that is registered with a queue
//! stands in the worker's pending list until its notice is handed on. A notice is a hold of its reference, for the one
//! queue that the reference is registered with. Notices are made in two places alone: where a worker hands on what it
//! cleared, and where the program unhooks a reference. What is doomed is swept at last, and its cells are free.
//!
//! `Stands` of `specs/Standing.antt` says which states of the abstract collector a heap stands for; that it stands for
//! one is the type's invariant. What the calls answer and leave stands in `specs/ClearCalls.antt`; by `laws` each of
//! them is a row of that collector.
#![tactic(auto)]

mod handed;
mod heap;
pub mod laws;
mod looked;
mod notice;
mod pending;

pub use handed::Handed;
pub use heap::{Heap, MovingHeap};
pub use looked::Looked;
pub use notice::Notice;
pub use pending::Pending;
