//! Notices.

ghost use Rattle.std.specs.Prelude.{◌≡◌};

use crate::Key;
use ref_base::{Cause, QueueNo};

/// That a reference was cleared and is to be put into its queue. Only a processor makes notices, one for each reference
/// at most, and none can be copied. Until it is spent the reference's owner is among the processor's roots.
#[derive(Debug, Drop)]
pub struct Notice {
    pub(crate) key: Key,
    pub(crate) queue: QueueNo,
    pub(crate) cause: Cause,
}

impl Notice {
    /// The key of the reference. In constant time.
    pub fn key(&self) -> Key
        ensures { result ≡ self.now.key }
    {
        self.key
    }

    /// The queue that the notice is for. In constant time.
    pub fn queue(&self) -> QueueNo
        ensures { result ≡ self.now.queue }
    {
        self.queue
    }

    /// Why there is a notice. In constant time.
    pub fn cause(&self) -> Cause
        ensures { result ≡ self.now.cause }
    {
        self.cause
    }
}
