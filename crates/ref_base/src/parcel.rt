//! What a queue takes.

use crate::{ObjNo, QueueNo};

/// What a queue takes: it names the reference that it reports, and the one queue that it is for. Neither changes.
pub trait Parcel {
    ghost use Rattle.std.specs.Prelude.{◌≡◌, ℕ};

    /// The number of the reference.
    ghost object_of: { Self → ℕ };

    /// The number of its queue.
    ghost queue_of: { Self → ℕ };

    /// The reference that this reports. Takes no memory.
    fn obj(&self) -> ObjNo
        ensures { result ≡ object_of self.now };

    /// The queue that this is for. Takes no memory.
    fn queue(&self) -> QueueNo
        ensures { result ≡ queue_of self.now };
}
