//! Keys of references.

/// A reference's name for as long as it lives: a place, which is used again once the reference is dead, and a round,
/// which is not. Only a processor makes keys. A key doesn't say whose it is: with another processor it is of nothing,
/// or of another reference.
#[derive(Clone, Copy, Debug, PartialEq, Eq, Hash)]
pub struct Key {
    pub(crate) place: u32,
    pub(crate) round: u32,
}
