//! What a graph stores of an object.

ghost use Rattle.std.specs.Prelude.{◌≡◌, ◌+◌, ◌≤◌, length, take, drop};

use ref_base::{ObjNo, Strength};
use std::mem::size_of;

/// What an object has that is a reference.
#[derive(Clone, Copy)]
pub(crate) struct Link {
    pub(crate) strength: Strength,
    pub(crate) referent: Option<ObjNo>,
}

/// An object but for its number. Its fields stand in the graph's list of all fields.
#[derive(Clone, Copy)]
pub(crate) struct Stored {
    /// Where its fields begin there.
    pub(crate) start: u32,
    /// How many they are.
    pub(crate) count: u8,
    pub(crate) link: Option<Link>,
}

const _: () = prove!(size_of::<Stored>() == 24);

impl Stored {
    /// Its fields, of those that the graph's list of all fields has. In constant time.
    pub(crate) fn fields_among(self, all: &[Option<ObjNo>]) -> &[Option<ObjNo>]
        requires { self.start + self.count ≤ length all.now }
        ensures { result.now ≡ take self.count (drop self.start all.now) }
    {
        &all[self.start as usize..][..usize::from(self.count)]
    }
}

/// An object but for its number, as a graph lends it.
#[derive(Clone, Copy)]
pub(crate) struct Lent<'a> {
    pub(crate) fields: &'a [Option<ObjNo>],
    pub(crate) link: Option<Link>,
}
