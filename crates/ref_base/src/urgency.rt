//! How urgently a cycle wants memory.

ghost use Rattle.std.specs.Prelude.{Some};

use std::fmt;

/// Whether a cycle keeps soft references (this project's profile: Java leaves it to the collector). It prints as
/// `normal` or `urgent`.
#[derive(Clone, Copy, Debug, PartialEq, Eq)]
pub enum Urgency {
    /// The cycle keeps the soft references that were made or got lately.
    Normal,
    /// The cycle keeps no soft references.
    Urgent,
}

impl Urgency {
    ghost use Rattle.std.specs.Prelude.{◌≡◌};
    ghost use Rattle.ref_base.specs.Steps.{urgency_name};

    /// The word that it prints as.
    pub(crate) fn name(self) -> &'static str
        ensures { result.now ≡ urgency_name self }
    {
        match self {
            Urgency::Normal => "normal",
            Urgency::Urgent => "urgent",
        }
    }
}

impl fmt::Display for Urgency {
    ghost use Rattle.ref_base.specs.Steps.{urgency_name};

    ghost output = { λ urgency. Some (urgency_name urgency) };

    fn fmt<W: fmt::Write>(&self, f: &mut fmt::Formatter<W>) -> fmt::Result {
        f.write_str(self.name())
    }
}
