//! What was handed on at once.

use ref_base::{Nos, QueueNo};

/// The references that a worker handed on at once: all of one queue, and all cleared in one cycle (this project's
/// profile).
#[derive(Clone, Copy, Debug, PartialEq, Eq)]
pub struct Handed {
    /// The references, first first: 1 to 32.
    pub numbers: Nos,
    /// The queue that they are registered with.
    pub queue: QueueNo,
    /// The cycle in which the worker cleared them.
    pub cycle: u64,
}
