//! What last changed the good colour of a heap.

/// What last changed the good colour, and so what the words that objects hold may be.
#[derive(Clone, Copy, Debug, PartialEq, Eq)]
pub enum Stage {
    /// Nothing: no cycle has begun, and no objects were chosen to move.
    Fresh,
    /// The begin of a cycle.
    Tuned,
    /// A choice of objects that are to move, since the last begin of a cycle if there was one.
    Moved,
}
