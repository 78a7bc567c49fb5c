//! A row of a trace: what was asked, and what was answered.

ghost use Rattle.std.specs.Prelude.{Some};

use crate::{Reply, Step};
use std::fmt;

/// A step and its reply. It prints as `m0 new s0 0 : object 1`.
#[derive(Clone, Copy, Debug, PartialEq, Eq)]
pub struct Row {
    /// What was asked.
    pub step: Step,
    /// What was answered.
    pub reply: Reply,
}

impl fmt::Display for Row {
    ghost use Rattle.ref_base.specs.Rows.{row_text};

    ghost output = { λ row. Some (row_text row) };

    fn fmt<W: fmt::Write>(&self, f: &mut fmt::Formatter<W>) -> fmt::Result {
        let step = self.step;
        let reply = self.reply;
        write!(f, "{step} : {reply}")
    }
}
