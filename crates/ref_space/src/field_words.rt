//! An object's fields, as its cell has them.

ghost use Rattle.std.specs.Prelude.{◌≡◌, ◌≤◌, nat_lt, length, map, replicate, None, slice_index_or, slice_set};
ghost use Rattle.ref_space.specs.ColouredWords.{recoloured};

use crate::colour::Colour;
use crate::word::Word;
use ref_base::MOST_FIELDS;
use std::marker::Model;

/// The fields of an object, at most 8, kept in place: each holds a word or null. In a clause they are their list.
#[derive(Drop)]
pub(crate) struct Words {
    held: [Word; MOST_FIELDS],
    // At most 8.
    count: u8,
}

impl Model for Words {
    ghost use Rattle.std.specs.Prelude.{◌≡◌, ◌≤◌, ℕ, List, Option, length, take};

    ghost Value = { List (Option ℕ) };

    ghost view = { λ f. take f.count f.held };

    ghost invariant = { λ f. (f.count ≤ 8) × (length f.held ≡ 8) };
}

impl Words {
    /// As many null fields as `count` says.
    #[inline(always)]
    pub(crate) fn nulls(count: usize) -> Self
        requires { count ≤ 8 }
        ensures { result ≡ replicate count None }
    {
        Words {
            held: [Word::null(); MOST_FIELDS],
            count: count as u8,
        }
    }

    /// A copy of the fields.
    #[inline(always)]
    pub(crate) fn copied(&self) -> Self
        ensures { result ≡ self.now }
    {
        let mut held = [Word::null(); MOST_FIELDS];
        held.copy_from_slice(&self.held);
        Words {
            held,
            count: self.count,
        }
    }

    /// How many fields there are, at most 8.
    #[inline(always)]
    pub(crate) fn len(&self) -> usize
        ensures count { result ≡ length self.now }
        ensures few { result ≤ 8 }
    {
        usize::from(self.count)
    }

    /// What a field holds: null also where there is no such field.
    #[inline(always)]
    pub(crate) fn get(&self, field: usize) -> Word
        ensures { result ≡ slice_index_or self.now field None }
    {
        let values = &self.held;
        if field < self.len() {
            values[field]
        } else {
            Word::null()
        }
    }

    /// Each field gets this colour.
    #[inline(always)]
    pub(crate) fn recolour(&mut self, colour: Colour)
        ensures { self.new ≡ map (recoloured colour) self.old }
    {
        for field in 0..self.len() {
            self.held[field] = self.held[field].in_colour(colour);
        }
    }

    /// Writes a field. False where there is no such field: then nothing changes.
    #[inline(always)]
    pub(crate) fn set(&mut self, field: usize, value: Word) -> bool
        ensures there { result ≡ nat_lt field (length self.old) }
        ensures after { self.new ≡ slice_set self.old field value }
    {
        if field >= self.len() {
            return false;
        }
        self.held[field] = value;
        true
    }
}
