//! What a cycle goes by.

use crate::Urgency;

/// What says which soft references a cycle keeps. It is fixed at the cycle's begin (this project's profile: Java leaves
/// it to the collector).
#[derive(Clone, Copy, Debug, PartialEq, Eq)]
pub struct Policy {
    /// The clock at the cycle's begin.
    pub clock: u64,
    /// Whether the cycle keeps soft references at all.
    pub urgency: Urgency,
    /// How far the stamp of a soft reference may lie behind the clock, at most, for a normal cycle to keep its
    /// referent.
    pub span: u64,
}
