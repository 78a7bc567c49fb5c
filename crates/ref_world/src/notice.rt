//! Notices of the world's own heap.

ghost use Rattle.std.specs.Prelude.{◌≡◌};
ghost use Rattle.ref_world.specs.Cores.{as_notice};

use ref_base::{ObjNo, Parcel, QueueNo, Reply};
use ref_clear::Notice;
use ref_objects::Hold;
use std::marker::Model;

/// A notice of the world's own heap, in a hand or in a queue. It can't be copied and must be spent.
#[derive(Debug)]
pub struct WorldNotice {
    notice: Notice,
}

impl Model for WorldNotice {
    ghost use Rattle.std.specs.Prelude.{◌≡◌};
    ghost use Rattle.ref_base.specs.Worlds.{Notice as Data};
    ghost use Rattle.ref_world.specs.Cores.{as_notice};

    ghost Value = { Data };

    ghost view = { λ n. as_notice n.notice };

    // The world's heap has number 0.
    ghost invariant = { λ n. n.notice.hold.heap_no ≡ 0 };
}

impl WorldNotice {
    // Of the world's own heap.
    pub(crate) fn new(notice: Notice) -> Self
        requires { notice.hold.heap_no ≡ 0 }
        ensures { result ≡ as_notice notice }
    {
        WorldNotice { notice }
    }

    // The reply that gives it.
    pub(crate) fn reply(&self) -> Reply
        ensures { result ≡ Reply.Notice self.now.object self.now.queue self.now.cause }
    {
        Reply::Notice {
            object: self.notice.obj(),
            queue: self.notice.queue(),
            cause: self.notice.cause(),
        }
    }

    // The hold of the reference that it reports.
    pub(crate) fn into_hold(self) -> Hold
        ensures { result ≡ record { heap_no = 0; object = self.object } }
    {
        let WorldNotice { notice } = self;
        notice.into_hold()
    }
}

impl Parcel for WorldNotice {
    ghost object_of = { λ n. n.object };

    ghost queue_of = { λ n. n.queue };

    fn obj(&self) -> ObjNo {
        self.notice.obj()
    }

    fn queue(&self) -> QueueNo {
        self.notice.queue()
    }
}
