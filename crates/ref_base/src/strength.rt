//! The three strengths of references.

ghost use Rattle.std.specs.Prelude.{Some};

use std::fmt;

/// How strongly a reference holds its referent (package `java.lang.ref` of Java SE 17). It prints as `weak`.
#[derive(Clone, Copy, Debug, PartialEq, Eq, Hash)]
pub enum Strength {
    /// Cleared only where memory is wanted: the soft policy says when.
    Soft,
    /// Cleared once its referent is neither strongly nor softly reachable.
    Weak,
    /// Its `get` always answers null; cleared once its referent is otherwise gone.
    Phantom,
}

impl Strength {
    ghost use Rattle.std.specs.Prelude.{◌≡◌};
    ghost use Rattle.ref_base.specs.Steps.{strength_name};

    /// The word that it prints as.
    pub(crate) fn name(self) -> &'static str
        ensures { result.now ≡ strength_name self }
    {
        match self {
            Strength::Soft => "soft",
            Strength::Weak => "weak",
            Strength::Phantom => "phantom",
        }
    }
}

impl fmt::Display for Strength {
    ghost use Rattle.ref_base.specs.Steps.{strength_name};

    ghost output = { λ strength. Some (strength_name strength) };

    fn fmt<W: fmt::Write>(&self, f: &mut fmt::Formatter<W>) -> fmt::Result {
        f.write_str(self.name())
    }
}
