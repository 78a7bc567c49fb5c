//! What a collector may do otherwise than the abstract one.

use crate::Order;

/// What a collector may do otherwise than the abstract one of `ref_base`.
#[derive(Clone, Copy, Debug, PartialEq, Eq)]
pub struct Profile {
    /// Whether a cycle may scan, and so keep, any object that is there: collectors by generations, with conservative
    /// roots, or with reference counts do so.
    pub keeps_more: bool,
    /// Whether a cycle may keep or clear any soft reference, whatever its stamp.
    pub soft_free: bool,
    /// In which order a queue gives what stands in it.
    pub order: Order,
}

impl Profile {
    ghost use Rattle.std.specs.Prelude.{◌≡◌};
    ghost use Rattle.ref_judge.specs.ProfiledRows.{strict};

    /// The profile of the abstract collector itself: it keeps what kept paths lead to, and its queues give the first
    /// first.
    pub const fn strict() -> Self
        ensures { result ≡ strict }
    {
        Profile {
            keeps_more: false,
            soft_free: false,
            order: Order::First,
        }
    }
}
