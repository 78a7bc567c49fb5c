//! What a worker does with what it found.

use ref_base::ObjNo;

/// What a worker did with the reference that it looked at (this project's profile).
#[derive(Clone, Copy, Debug, PartialEq, Eq)]
pub enum Looked {
    /// Its referent is doomed, so it is cleared now. If it is registered, it is pending.
    Cleared(ObjNo),
    /// Its referent lives.
    Kept(ObjNo),
    /// The program cleared it before the mark ended: it reports nothing.
    Skipped(ObjNo),
}
