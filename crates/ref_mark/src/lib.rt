//! Marking while mutators run: a heap in its cycles, up to the mark's end and what the layer above needs of the rest.
//! It works in the manner of JEP 333 (ZGC), and the calls of references are those of package `java.lang.ref` of Java
//! SE 17.
//!
//! A cycle begins with all objects white. It reaches some from the roots, which are what the mutators' slots hold and
//! what is held: those become grey, and stand in one grey list. A worker's scan takes the first of it, which is black
//! then, and makes grey what its fields refer to, and its referent if it is a soft reference that the cycle keeps.
//! Between any two scans mutators go on: a load barrier makes grey what they load or get, and what they make is black
//! from the start. Once nothing is grey the mark may end: what is white then is doomed, and each reference to it reads
//! as cleared from that moment on. Each worker has found those of them that it scanned, for the layer above to clear.
//!
//! `Stands` of `specs/Standing.antt` says which states of the abstract collector a heap stands for. What the calls
//! answer and leave stands in one table, `specs/MarkCalls.antt`; by `laws` each of them is a row of that collector.
#![tactic(auto)]

mod chain;
pub mod laws;
mod marker;

pub use chain::Chain;
pub use marker::Marker;
