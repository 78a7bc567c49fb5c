//! Why there is a notice.

use crate::WorkerNo;

/// Why a notice of a reference was made (this project's profile).
#[derive(Clone, Copy, Debug, PartialEq, Eq)]
pub enum Cause {
    /// The program unhooked the reference.
    Own,
    /// The cycle of this number found the referent dead, and this worker cleared the reference.
    Cycle(u64, WorkerNo),
}
