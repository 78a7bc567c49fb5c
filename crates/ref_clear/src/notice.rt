//! Notices.

use ref_base::{Cause, ObjNo, Parcel, QueueNo};
use ref_objects::Hold;
use std::marker::Model;

/// The notice of a reference: what its queue takes, and nobody but a heap makes. While it is out the reference is a
/// root. It can't be copied and must be spent: into a hold, which the heap takes back (this project's profile).
#[derive(Debug)]
pub struct Notice {
    hold: Hold,
    queue: QueueNo,
    cause: Cause,
}

impl Model for Notice {
    ghost use Rattle.ref_base.specs.HeapSteps.{HeldNotice};

    ghost Value = { HeldNotice };

    ghost view = { λ n. record { hold = n.hold; queue = n.queue; cause = n.cause } };
}

impl Notice {
    ghost use Rattle.std.specs.Prelude.{◌≡◌};

    // Only a heap makes one, by an unhook or of what a worker cleared.
    pub(crate) fn new(hold: Hold, queue: QueueNo, cause: Cause) -> Self
        ensures { result ≡ record { hold = hold; queue = queue; cause = cause } }
    {
        Notice { hold, queue, cause }
    }

    /// Why there is one. Takes no memory.
    pub fn cause(&self) -> Cause
        ensures { result ≡ self.now.cause }
    {
        self.cause
    }

    /// The hold of the reference that it reports: its heap takes it back by `adopt` or `release`. Takes no memory.
    pub fn into_hold(self) -> Hold
        ensures { result ≡ self.hold }
    {
        let Notice {
            hold,
            queue: _,
            cause: _,
        } = self;
        hold
    }
}

impl Parcel for Notice {
    ghost object_of = { λ n. n.hold.object };

    ghost queue_of = { λ n. n.queue };

    fn obj(&self) -> ObjNo {
        self.hold.obj()
    }

    fn queue(&self) -> QueueNo {
        self.queue
    }
}
