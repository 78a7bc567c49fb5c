//! A reference processor for a runtime that has a heap and a marker of its own. The runtime's objects are handles, with
//! which nothing is done but to ask whether they are marked, or where they have moved, and to give them back.
//!
//! A **processor** has a record for each reference: its referent, its queue, how strong it is. Its **key** names it for
//! as long as it lives, and nothing afterwards. In a mark, the runtime's marker tells which references it came upon; a
//! **finder** keeps them, one for each worker. From the mark's end on, what isn't marked reads as null, for all
//! references at that instant. Then the workers look at what they found: a reference whose referent isn't marked is
//! cleared, and its **notice** is handed on for its queue. A **queue of notices** gives out what was put in, first in,
//! first out.
//!
//! What the runtime promises of its marks is `MarksKept` of the specs. The laws say what holds with this promise, and
//! what holds without it.
#![tactic(auto)]

mod fault;
mod finder;
mod found;
mod handed;
mod handle;
mod key;
pub mod laws;
mod looked;
mod marks;
mod moves;
mod notice;
mod notice_queue;
mod phase;
mod place;
mod places;
mod processor;

pub use fault::ProcessFault;
pub use finder::{Finder, Pending};
pub use found::{Added, Found};
pub use handed::Handed;
pub use handle::Handle;
pub use key::Key;
pub use looked::Looked;
pub use marks::Marks;
pub use moves::Moves;
pub use notice::Notice;
pub use notice_queue::{NoticePolled, NoticePut, NoticeQueue};
pub use phase::Phase;
pub use place::{Place, Reference};
pub use processor::Processor;
