//! The limits that every heap has (this project's profile).

/// The most strong fields that an object has.
pub const MOST_FIELDS: usize = 8;

/// The most items that a batch has.
pub const MOST_IN_BATCH: usize = 32;

/// How many slots each mutator has.
pub const SLOTS: usize = 16;
