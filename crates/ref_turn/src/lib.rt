//! One value that threads share, one turn at a time, with one history.
//!
//! A [`Turn`] owns a [`Machine`]: a value that makes steps and answers replies. Threads use it through a `&`, each with
//! a [`TurnSeat`] of its own, a value with no bytes. A call draws the next ticket, runs the machine's `apply`, and ends
//! the turn, so calls never overlap, and what they did is one list of *entries*: which seat, which step, which reply.
//!
//! A seat knows, in contracts alone, what it has *seen* of that history, and which of its entries are its own (*mine*).
//! Beside that it knows a number that the tickets have reached (*drawn*), and how often it *looked* at the count of
//! ended turns. What two threads saw is joined with their seats.
//!
//! It stands on `atomic_table`, whose slot has the machine and whose two words count the tickets and the ended turns.
//! Nothing is proved of waiting: not that a turn comes, in which order, or when a sleeper is woken.
#![tactic(auto)]

mod history;
mod machine;
mod turn;

pub use history::{Entry, Origin, Stage, View};
pub use machine::Machine;
pub use turn::{SeatOf, Turn, TurnFault, TurnSeat};
