//! What objects are called in a report on a log.

use crate::names::{MAX_NAME, Names, name_of};
use crate::rows::parts_of;
use ref_base::ObjNo;
use ref_script::next_word;
use std::alloc::Allocator;
use std::fmt;

/// A name, to be printed.
#[derive(Clone, Copy, Debug, PartialEq, Eq)]
pub struct NameText {
    bytes: [u8; MAX_NAME],
    length: usize,
}

impl NameText {
    /// The first bytes of a text, as many as a name has.
    fn of(text: &[u8]) -> Self {
        let mut bytes = [0; MAX_NAME];
        for (place, byte) in bytes.iter_mut().zip(text) {
            *place = *byte;
        }
        NameText {
            bytes,
            length: text.len().min(MAX_NAME),
        }
    }
}

impl fmt::Display for NameText {
    fn fmt<W: fmt::Write>(&self, f: &mut fmt::Formatter<W>) -> fmt::Result {
        let bytes = self.bytes.get(..self.length).unwrap_or(&[]);
        f.write_str(str::from_utf8(bytes).unwrap_or(""))
    }
}

/// What an object of a report is called. It prints as `object 1 is 0x7f10`.
#[derive(Clone, Copy, Debug, PartialEq, Eq)]
pub struct Called {
    /// Its number, or 0 where no object has the name.
    pub object: ObjNo,
    /// Its name.
    pub name: NameText,
}

impl fmt::Display for Called {
    fn fmt<W: fmt::Write>(&self, f: &mut fmt::Formatter<W>) -> fmt::Result {
        if self.object.0 == 0 {
            write!(f, "no object is {}", self.name)
        } else {
            write!(f, "object {} is {}", self.object, self.name)
        }
    }
}

/// What the object of this number is called. Takes the time of all names.
pub(crate) fn known_as<A: Allocator + Copy>(names: &Names<A>, object: ObjNo) -> Option<Called> {
    let name = names.name_with(object.0)?;
    Some(Called {
        object,
        name: NameText::of(name),
    })
}

/// What the first object that the reply of a row names is called there, by this number.
pub(crate) fn told_as(line: &[u8], object: ObjNo) -> Option<Called> {
    let (_, reply) = parts_of(line)?;
    let (_, rest) = next_word(reply)?;
    let (word, _) = next_word(rest)?;
    let name = name_of(word)?;
    Some(Called {
        object,
        name: NameText::of(name.as_slice()),
    })
}
