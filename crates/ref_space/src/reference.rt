//! What an object has that is a reference.

use ref_base::{ObjNo, QueueNo, Strength};
use std::marker::Model;

/// What an object has that is a reference (package `java.lang.ref` of Java SE 17; stamps and the numbers of queues are
/// this project's profile).
#[derive(Clone, Copy, Debug, PartialEq, Eq)]
pub struct Reference {
    /// How strongly it holds its referent.
    pub strength: Strength,
    /// The referent, or none once it is cleared.
    pub referent: Option<ObjNo>,
    /// The clock at which a soft one was made or last got.
    pub stamp: u64,
    /// The queue that it is registered with, if any.
    pub queue: Option<QueueNo>,
}

impl Model for Reference {
    ghost use Rattle.ref_base.specs.Graphs.{Reference as Data};

    ghost Value = { Data };

    ghost view = { λ r. record {
      strength = r.strength;
      referent = r.referent;
      stamp = r.stamp;
      queue = r.queue;
    } };

    ghost inverse = { λ r. record {
      strength = r.strength;
      referent = r.referent;
      stamp = r.stamp;
      queue = r.queue;
    } };
}
