//! The rounds of a table.

use crate::colour::Colour;

/// A round of a table: from the begin of a cycle to that of the next. What is marked or healed in it gets its number,
/// so that nothing is any more as the next one begins. A byte has it, since each cell has two of them: once in 255
/// rounds the cells forget theirs, and numbers begin anew.
#[derive(Clone, Copy)]
pub struct Round {
    /// Its number: from 1 on.
    pub number: u8,
    /// The colour that is good in it.
    pub good: Colour,
}

impl Round {
    /// The round of a new table.
    pub(crate) const FIRST: Round = Round {
        number: 1,
        good: Colour::R,
    };
}
