//! What a cell has of a reference.

use crate::word::Word;
use ref_base::{QueueNo, Strength};
use std::marker::Model;

/// What the cell of a reference has of it.
#[derive(Clone, Copy)]
pub(crate) struct Kept {
    /// How strongly it holds its referent.
    pub(crate) strength: Strength,
    /// The word of its referent, or null once it is cleared.
    pub(crate) referent: Word,
    /// The clock at which a soft one was made or last got.
    pub(crate) stamp: u64,
    /// The queue that it is registered with, if any.
    pub(crate) queue: Option<QueueNo>,
}

impl Model for Kept {
    ghost use Rattle.ref_base.specs.Graphs.{Reference as Data};

    ghost Value = { Data };

    ghost view = { λ r. record {
      strength = r.strength;
      referent = r.referent;
      stamp = r.stamp;
      queue = r.queue;
    } };

    ghost inverse = { λ r. record {
      strength = r.strength;
      referent = r.referent;
      stamp = r.stamp;
      queue = r.queue;
    } };
}

/// A reference that is to be made, to what a slot holds.
#[derive(Clone, Copy)]
pub struct NewReference {
    /// How strongly it holds its referent.
    pub strength: Strength,
    /// The place of the slot that holds its referent.
    pub from: usize,
    /// The clock at which a soft one is made.
    pub stamp: u64,
    /// The queue that it is registered with, if any.
    pub queue: Option<QueueNo>,
}
