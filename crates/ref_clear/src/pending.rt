//! Pending references.

ghost use Rattle.std.specs.Prelude.{◌≡◌, IsSome};
ghost use Rattle.ref_base.specs.Heaps.{registered_in};
ghost use Rattle.ref_base.specs.Refusals.{goes_with};
ghost use Rattle.ref_clear.specs.ClearViews.{pending_by, may_go};

use ref_base::{ObjNo, QueueNo};
use ref_objects::Linked;
use std::marker::Model;

/// A reference that a worker cleared and hasn't handed on yet.
#[derive(Clone, Copy, Debug, PartialEq, Eq)]
pub struct Pending {
    /// The reference.
    pub object: ObjNo,
    /// The queue that it is registered with.
    pub queue: QueueNo,
    /// The cycle in which it was cleared.
    pub cycle: u64,
}

impl Model for Pending {
    ghost use Rattle.ref_base.specs.Worlds.{Pending as Data};

    ghost Value = { Data };

    ghost view = { λ p. record { object = p.object; queue = p.queue; cycle = p.cycle } };

    ghost inverse = { λ p. record { object = p.object; queue = p.queue; cycle = p.cycle } };
}

impl Pending {
    /// A pending reference, by what its list has of it.
    pub(crate) fn of(linked: Linked) -> Self
        requires { IsSome (registered_in linked.reference) }
        ensures { result ≡ pending_by linked }
    {
        Pending {
            object: linked.no,
            queue: linked.reference.unwrap().queue.unwrap(),
            cycle: linked.cleared_in,
        }
    }

    /// Whether it may be handed on at once with this one: both have one queue, and were cleared in one cycle.
    #[inline(always)]
    pub(crate) fn goes_with(self, first: Pending) -> bool
        ensures { result ≡ goes_with first self }
    {
        self.queue == first.queue && self.cycle == first.cycle
    }

    /// Whether it may be handed on at once with the other, if one is told: with none it may.
    #[inline(always)]
    pub(crate) fn may_go(self, with: Option<Pending>) -> bool
        ensures { result ≡ may_go with self }
    {
        match with {
            Some(first) => self.goes_with(first),
            None => true,
        }
    }
}
