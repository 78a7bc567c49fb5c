//! An object as a list has it.

ghost use Rattle.std.specs.Prelude.{◌≡◌, None};
ghost use Rattle.ref_space.specs.Tables.{tabled_linked};

use crate::reference::Reference;
use ref_base::ObjNo;

/// What is read of an object that stands in a list, all at once.
#[derive(Clone, Copy, Debug)]
pub struct Linked {
    /// The number of the object.
    pub no: ObjNo,
    /// What it has as a reference.
    pub reference: Option<Reference>,
    /// Its link: the number of the object behind it in the list, or 0.
    pub link: u32,
    /// The cycle in which a worker cleared it last, or 0.
    pub cleared_in: u64,
}

impl Linked {
    /// What a list has of a number of which there is no object.
    pub(crate) fn missing(no: ObjNo) -> Self
        ensures { result ≡ tabled_linked no None }
    {
        Linked {
            no,
            reference: None,
            link: 0,
            cleared_in: 0,
        }
    }
}

/// A look at an object that stands in a list.
#[derive(Clone, Copy, Debug)]
pub struct Look {
    /// What the list had of it before.
    pub was: Linked,
    /// Whether the look cleared it.
    pub is_cleared: bool,
}
