//! What a mutator or a worker carries.

ghost use Rattle.std.specs.Prelude.{◌≡◌, [], length};
ghost use Rattle.ref_base.specs.Members.{first_of};

use ref_base::{Nos, ObjNo, QueueNo};

// The notices that a mutator or a worker carries, first first: at most 32, all for one queue.
#[derive(Clone, Copy)]
pub(crate) struct Hand {
    // The queue that they are for.
    pub(crate) queue: QueueNo,
    // The references that they report.
    pub(crate) objects: Nos,
}

impl Hand {
    // An empty one.
    pub(crate) fn new() -> Self
        ensures { result ≡ record { queue = 0; objects = [] } }
    {
        Hand {
            queue: QueueNo(0),
            objects: Nos::new(),
        }
    }

    // How many it holds.
    pub(crate) fn len(&self) -> usize
        ensures { result ≡ length self.now.objects }
    {
        self.objects.as_slice().len()
    }

    // The reference that its first notice reports, if it holds one.
    pub(crate) fn first(&self) -> Option<ObjNo>
        ensures { result ≡ first_of self.now.objects }
    {
        self.objects.as_slice().first().copied()
    }
}
