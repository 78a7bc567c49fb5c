//! What finding a reference answers.

use crate::{Handle, Key};

/// What becomes of a reference that the marker came upon.
#[derive(Clone, Copy, Debug, PartialEq, Eq)]
pub enum Found {
    /// The cycle keeps this soft reference: the marker marks its referent, which is this.
    Keep(Handle),
    /// A worker looks at it once the mark has ended.
    Listed,
    /// Nothing: it has no referent.
    Nothing,
}

/// A reference that was made.
#[derive(Clone, Copy, Debug, PartialEq, Eq)]
pub struct Added {
    pub key: Key,
    /// In a mark it counts as found, so this says what becomes of it. Outside of marks it is `Nothing`.
    pub found: Found,
}
