//! The objects of a heap, with the slots of its mutators and the holds that are out, in memory that is all taken as the
//! heap is made.
#![tactic(auto)]

mod hold;
mod kind;
mod objects;
mod stage;
mod start;

pub use hold::Hold;
pub use kind::Kind;
pub use objects::Objects;
pub use ref_space::{Colour, Entry, Fields, Linked, Look, Reference, Worklist, parts_of, word_of};
pub use stage::Stage;
pub use start::Start;
