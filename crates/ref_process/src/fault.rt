//! Why a call is refused.

use thiserror::Error;

/// A refusal. After it nothing has changed. It prints why.
#[derive(Clone, Copy, Debug, PartialEq, Eq, Error)]
pub enum ProcessFault {
    /// The key is of no reference: it is dead, or another processor's.
    #[error("no such reference")]
    NoSuchReference,
    /// The reference is pending, or its notice was not spent yet.
    #[error("the reference is pending or its notice is out")]
    StillOut,
    /// The call isn't allowed in this phase.
    #[error("wrong phase")]
    WrongPhase,
    /// The new time is before the clock.
    #[error("the clock goes back")]
    ClockBack,
    /// The clearing can't end while something that was found or made in the mark was not looked at.
    #[error("something is left to look at")]
    ClearingLeft,
    /// The notice is for another queue.
    #[error("the notice is for another queue")]
    WrongQueue,
    /// No place, cycle number, count or position is left.
    #[error("numbers spent")]
    NumbersSpent,
    /// A growth was refused.
    #[error("no memory")]
    NoMemory,
}
