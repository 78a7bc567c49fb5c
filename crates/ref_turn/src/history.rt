//! What a seat knows of the history of a turn. Entries and views are for contracts: no value of them is ever made.

use std::collections::LinkedList;
use std::snapshot::Snapshot;

/// One call in a history: the number of the seat that made it, its step and its reply.
pub struct Entry<S, R> {
    pub by: u64,
    pub step: S,
    pub reply: R,
}

/// Where a seat stands.
pub enum Stage<S, R> {
    /// The seat was cut off another, and its number isn't known yet.
    Fresh,
    /// The seat holds no turn.
    Idle,
    /// The seat holds the turn.
    Open,
    /// The seat took in another of this number, which had seen and made these entries.
    Met(u64, LinkedList<Entry<S, R>>, LinkedList<Entry<S, R>>),
    /// Another seat took it in.
    Spent,
}

/// How a turn began: its first ticket, and its machine.
#[derive(Drop)]
pub struct Origin<M> {
    pub first: u64,
    pub start: Snapshot<Option<M>>,
}

/// What a seat knows: how its turn began, where it stands, its number, the history that it has seen, and its own
/// entries in that. Beside that it knows a number that the tickets have reached, and how often it has looked at the
/// count of ended turns.
pub struct View<M, S, R> {
    pub first: u64,
    pub start: Option<M>,
    pub stage: Stage<S, R>,
    pub number: u64,
    pub seen: LinkedList<Entry<S, R>>,
    pub mine: LinkedList<Entry<S, R>>,
    pub drawn: u64,
    pub looks: u64,
}
