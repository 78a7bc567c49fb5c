//! What a processor keeps of a reference.

use crate::Handle;
use ref_base::{QueueNo, Strength};

/// A reference.
#[derive(Clone, Copy, Debug, PartialEq, Eq)]
pub struct Reference {
    /// The object that the reference itself is, if it is one.
    pub owner: Option<Handle>,
    pub strength: Strength,
    /// The object that it refers to, until it is cleared.
    pub referent: Option<Handle>,
    /// The queue that its notice is for, if it is registered with one.
    pub queue: Option<QueueNo>,
    /// The clock at which a soft one was made or last got, and 0 of others.
    pub stamp: u64,
    /// Its notice was given.
    pub is_told: bool,
    /// A worker cleared it, and has not handed it on.
    pub is_pending: bool,
    /// Its notice was given and not spent.
    pub is_out: bool,
}

/// A place for references, one after the other, each with its round.
#[derive(Clone, Copy, Debug, PartialEq, Eq)]
pub struct Place {
    /// The round of its reference, or of the next one. The last round, 2^32 - 1, is of none: then it is spent.
    pub round: u32,
    pub held: Option<Reference>,
}
