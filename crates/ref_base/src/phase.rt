//! Where a collector stands in its cycle.

/// The phases of a collector (this project's profile, in the manner of JEP 333).
#[derive(Clone, Copy, Debug, PartialEq, Eq)]
pub enum Phase {
    /// Between cycles, while nothing moves.
    Idle,
    /// From `begin` to `endmark`: what is reached is found out.
    Marking,
    /// From `endmark` to `endclear`: references to the doomed are cleared one by one.
    Clearing,
    /// From `endclear` to `endsweep`: the doomed are freed.
    Sweeping,
    /// From `select` to `endmove`, between cycles: objects move to other pages.
    Moving,
}
