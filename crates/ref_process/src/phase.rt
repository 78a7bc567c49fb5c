//! Where a processor stands in a cycle.

/// The phases of a cycle, as far as references go.
#[derive(Clone, Copy, Debug, PartialEq, Eq)]
pub enum Phase {
    /// From `end_clear` to `begin`: no cycle runs.
    Idle,
    /// From `begin` to `end_mark`: the marker tells which references it came upon.
    Marking,
    /// From `end_mark` to `end_clear`: what isn't marked reads as null, and what was found is looked at.
    Clearing,
}
