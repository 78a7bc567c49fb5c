//! How strongly an object is reachable.

ghost use Rattle.std.specs.Prelude.{Some};

use crate::ObjNo;
use std::fmt;

/// How strongly an object is reachable (package `java.lang.ref` of Java SE 17). It prints as `strong`.
#[derive(Clone, Copy, Debug, PartialEq, Eq)]
pub enum Reach {
    /// By strong fields alone.
    Strong,
    /// Through soft references, and not without.
    Soft,
    /// Through soft and weak references, and not without weak ones.
    Weak,
    /// As the referent of a phantom reference that is reachable so, and not otherwise (this project's profile).
    Phantom,
    /// Not at all.
    Unreachable,
}

impl Reach {
    ghost use Rattle.std.specs.Prelude.{◌≡◌};
    ghost use Rattle.ref_base.specs.ReachNames.{name_of_reach};

    // The word that it prints as.
    fn name(self) -> &'static str
        ensures { result.now ≡ name_of_reach self }
    {
        match self {
            Reach::Strong => "strong",
            Reach::Soft => "soft",
            Reach::Weak => "weak",
            Reach::Phantom => "phantom",
            Reach::Unreachable => "unreachable",
        }
    }
}

impl fmt::Display for Reach {
    ghost use Rattle.ref_base.specs.ReachNames.{name_of_reach};

    ghost output = { λ reach. Some (name_of_reach reach) };

    fn fmt<W: fmt::Write>(&self, f: &mut fmt::Formatter<W>) -> fmt::Result {
        f.write_str(self.name())
    }
}

/// An object and how strongly it is reachable.
#[derive(Clone, Copy, Debug, PartialEq, Eq)]
pub struct ObjectReach {
    /// The object.
    pub object: ObjNo,
    /// How strongly it is reachable.
    pub reach: Reach,
}
