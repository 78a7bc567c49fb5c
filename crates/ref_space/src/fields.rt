//! An object's fields.

ghost use Rattle.std.specs.Prelude.{◌≡◌, ◌≤◌, ◌<◌, ◌++◌, ◌∷◌, [], length, replicate, slice_index_or};

use ref_base::{MOST_FIELDS, ObjNo};
use std::marker::Model;

/// The fields of an object, at most 8, kept in place: each holds an object's number or null. In a clause they are their
/// list.
#[derive(Drop)]
pub struct Fields {
    held: [Option<ObjNo>; MOST_FIELDS],
    count: usize,
}

impl Model for Fields {
    ghost use Rattle.std.specs.Prelude.{◌≡◌, ◌≤◌, ℕ, List, Option, length, take};

    ghost Value = { List (Option ℕ) };

    ghost view = { λ f. take f.count f.held };

    ghost invariant = { λ f. (f.count ≤ 8) × (length f.held ≡ 8) };
}

impl Fields {
    /// As many null fields as `count` says.
    pub(crate) fn nulls(count: usize) -> Self
        requires { count ≤ 8 }
        ensures { result ≡ replicate count None }
    {
        Fields {
            held: [None; MOST_FIELDS],
            count,
        }
    }

    /// How many fields there are, at most 8.
    pub fn len(&self) -> usize
        ensures count { result ≡ length self.now }
        ensures few { result ≤ 8 }
    {
        self.count
    }

    /// What a field holds: null also where there is no such field.
    pub fn get(&self, field: usize) -> Option<ObjNo>
        ensures { result ≡ slice_index_or self.now field None }
    {
        let values = &self.held;
        if field < self.len() {
            values[field]
        } else {
            None
        }
    }

    /// Adds a field, which holds `value`, behind the others.
    pub fn push(&mut self, value: Option<ObjNo>)
        requires { length self.old < 8 }
        ensures { self.new ≡ self.old ++ value ∷ [] }
    {
        self.held[self.count] = value;
        self.count += 1;
    }
}
