//! The tests of the reference processor, against answers that were worked out by hand.
//!
//! A story is a text of rows, each a call and its answer, apart by a colon. One runner (`bench`) makes a story's calls
//! in turn, and a failure prints the row.
#![tactic(auto)]

#[cfg(test)]
mod batches;
#[cfg(test)]
mod bench;
#[cfg(test)]
mod cycles;
#[cfg(test)]
mod faults;
#[cfg(test)]
mod memory;
#[cfg(test)]
mod moved;
#[cfg(test)]
mod moves;
#[cfg(test)]
mod queues;
#[cfg(test)]
mod told;
