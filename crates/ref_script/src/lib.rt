//! The texts that `refrun` reads and prints: scripts and the rows of their traces, graph texts and their listings.
#![tactic(auto)]

mod declarations;
mod graph_text;
pub mod laws;
mod lines;
mod listing;
mod numerals;
mod operands;
mod printed;
mod reading;
mod replies;
mod reply_kind;
mod script;
mod script_step;
mod steps;
mod told;
mod version;

pub use lines::next_word;
pub use listing::strength_text;
pub use printed::Printed;
pub use reading::{MAX_TEXT, text_of};
pub use replies::reply_of;
pub use reply_kind::ReplyKind;
pub use script::{Script, config_of, script_of};
pub use script_step::{ScriptReply, ScriptRow, ScriptStep, say_row};
pub use steps::step_of;
pub use told::{are_ascii, is_titled, says_nothing};
pub use version::{is_in_version, trace_title};
