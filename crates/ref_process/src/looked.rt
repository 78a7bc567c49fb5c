//! What looking at a reference answers.

use crate::Key;

/// What looking at the first reference that a worker found answers.
#[derive(Clone, Copy, Debug, PartialEq, Eq)]
pub enum Looked {
    /// Its referent isn't marked, so it was cleared. Where it has a queue it is pending now.
    Cleared(Key),
    /// Its referent is marked.
    Kept(Key),
    /// There was no referent, or the reference is dead.
    Skipped(Key),
}
