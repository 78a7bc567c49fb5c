//! What becomes of an item of a batch that is put in.

ghost use Rattle.std.specs.Prelude.{◌≡◌};
ghost use Rattle.ref_base.specs.Outs.{is_added, is_refused};

use crate::Fault;

/// What became of an item of a batch, but for its position (this project's profile).
#[derive(Clone, Copy, Debug, PartialEq, Eq)]
pub enum Done {
    /// The item stands last in the queue now.
    Added,
    /// Its number was put in before.
    Already,
    /// The queue takes nothing any more.
    Closed,
    /// The item was refused with this fault. What stands behind it in the batch wasn't tried.
    Refused(Fault),
}

impl Done {
    /// Whether it was added. Takes no memory.
    pub fn is_added(self) -> bool
        ensures { result ≡ is_added self }
    {
        matches!(self, Done::Added)
    }

    /// Whether it was refused. Takes no memory.
    pub fn is_refused(self) -> bool
        ensures { result ≡ is_refused self }
    {
        matches!(self, Done::Refused(_))
    }
}

/// What became of an item of a batch (this project's profile).
#[derive(Clone, Copy, Debug, PartialEq, Eq)]
pub enum Out {
    /// The item stands last in the queue now. The number says how many were ever put in before it.
    Added(u64),
    /// Its number was put in before.
    Already,
    /// The queue takes nothing any more.
    Closed,
    /// The item was refused with this fault. What stands behind it in the batch wasn't tried.
    Refused(Fault),
}
