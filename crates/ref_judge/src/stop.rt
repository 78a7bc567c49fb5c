//! Why a judge stops.

use std::alloc::{AllocError, AllocFailed};

// Why a judge stops at a row.
#[derive(Clone, Copy, Debug, PartialEq, Eq)]
pub(crate) enum Stop {
    // No state that fits the rows before has this row.
    Illegal,
    // Memory was refused, and nothing is said of the row.
    NoMemory,
}

impl From<AllocError> for Stop {
    fn from(_: AllocError) -> Self {
        Stop::NoMemory
    }
}

impl<T: Drop> From<AllocFailed<T>> for Stop {
    fn from(_: AllocFailed<T>) -> Self {
        Stop::NoMemory
    }
}
