//! What an object is.

use ref_base::Strength;

/// What an object is: plain, or a reference of this strength (package `java.lang.ref` of Java SE 17).
#[derive(Clone, Copy, Debug, PartialEq, Eq)]
pub enum Kind {
    /// An object that has its fields alone.
    Plain,
    /// An object that has a referent beside its fields.
    Reference(Strength),
}
