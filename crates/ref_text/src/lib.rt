//! The ends of a text: what it is read from, what it is written to, and what is wrong with it or with them. The `Read`
//! and `Write` of std don't tell in contracts whether a call failed. A source and a sink do, so that a caller can
//! promise to report a failure only where there was one, and of which of the two.
#![tactic(auto)]

mod fault;
mod sink;
mod source;

pub use fault::{LineFault, TextFault};
pub use sink::{TextSink, ToWriter, WriteFailed};
pub use source::{FromReader, ReadError, TextSource};
