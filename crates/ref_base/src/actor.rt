//! Who has a hand.

ghost use Rattle.std.specs.Prelude.{Some};

use crate::{MutNo, WorkerNo};
use std::fmt;

/// A program thread or a thread of the collector: each has one hand. It prints as `m0` or `w0`.
#[derive(Clone, Copy, PartialEq, Eq)]
pub enum Actor {
    /// A program thread.
    Mutator(MutNo),
    /// A thread of the collector.
    Worker(WorkerNo),
}

impl fmt::Display for Actor {
    ghost use Rattle.ref_base.specs.Texts.{word_text};
    ghost use Rattle.ref_base.specs.Steps.{actor};

    ghost output = { λ who. Some (word_text (actor who)) };

    fn fmt<W: fmt::Write>(&self, f: &mut fmt::Formatter<W>) -> fmt::Result {
        match *self {
            Actor::Mutator(mutator) => fmt::Display::fmt(&mutator, f),
            Actor::Worker(worker) => fmt::Display::fmt(&worker, f),
        }
    }
}

// As in a trace: what a failed test prints reads as the trace does.
impl fmt::Debug for Actor {
    fn fmt<W: fmt::Write>(&self, f: &mut fmt::Formatter<W>) -> fmt::Result {
        fmt::Display::fmt(self, f)
    }
}
