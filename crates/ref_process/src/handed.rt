//! What handing on answers.

use crate::{Key, Notice};

/// What handing on the first reference that is pending answers.
#[derive(Debug, Drop)]
pub enum Handed {
    /// Its one notice.
    Notice(Notice),
    /// Its notice was given before, by its own enqueue call.
    Already(Key),
    /// Nothing is pending.
    Nothing,
}
