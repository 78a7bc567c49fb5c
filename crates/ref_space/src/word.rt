//! What a slot or a field holds.

ghost use Rattle.std.specs.Prelude.{◌≡◌, ◌+◌, ◌^◌, ◌<◌, None};
ghost use Rattle.std.specs.Option.{is_none};
ghost use Rattle.ref_space.specs.ColouredWords.{place_by, word_of_place, has_colour, recoloured, bits_at, IsIndexOf};
ghost use Rattle.ref_space.specs.ColouredWords.{is_in_colour};

use crate::colour::Colour;
use std::marker::Model;

/// What a slot or a field holds: null, or the coloured word of a cell. It has the cell's frame, counted from 1 on,
/// where the format has the address of the frame's page. In a clause it is that word, if there is one.
#[derive(Clone, Copy)]
pub struct Word {
    // 0 is null. Else the colour's number in the two highest bits, and 64 more than the place of the cell in the
    // others: half as many bits as the word has, so that an object's fields take half the memory.
    bits: u32,
}

impl Model for Word {
    ghost use Rattle.std.specs.Prelude.{ℕ, Option, if◌then◌else◌, ◌==◌};
    ghost use Rattle.ref_space.specs.ColouredWords.{word_held, bits_held, unpacked, packed, packed-unpacked};

    ghost Value = { Option ℕ };

    ghost view = { λ w. word_held (unpacked w.bits) };

    ghost inverse = { λ v. record { bits = packed (bits_held v) } };

    ghost inverse_ok = { λ w h i. record { bits = packed-unpacked w.bits i } };
}

// How many places there may be: the bits below the colour tell so many, 64 of which are null's.
const PLACES: u32 = 1 << 30;

impl Word {
    /// Null. Takes no memory, in constant time, as all that words do.
    #[inline(always)]
    pub fn null() -> Self
        ensures { result ≡ None }
    {
        Word { bits: 0 }
    }

    /// The word of the cell at this place, which is below 2^30 - 64, in this colour.
    #[inline(always)]
    pub fn of_place(colour: Colour, place: u32) -> Self
        requires { place + 64 < 2 ^ 30 }
        ensures { result ≡ word_of_place colour place }
    {
        Word {
            bits: colour.number() * PLACES + 64 + place,
        }
    }

    /// Whether it is null.
    #[inline(always)]
    pub fn is_null(self) -> bool
        ensures { result ≡ is_none self }
    {
        self.bits == 0
    }

    /// Whether it has this colour: false for null.
    #[inline(always)]
    pub fn has_colour(self, colour: Colour) -> bool
        ensures { result ≡ has_colour colour self }
    {
        self.bits / PLACES == colour.number()
    }

    /// Whether it is null, or has this colour.
    #[inline(always)]
    pub fn is_in_colour(self, colour: Colour) -> bool
        ensures { result ≡ is_in_colour colour self }
    {
        self.has_colour(colour) || self.is_null()
    }

    /// The word of the same cell in this colour, or null.
    #[inline(always)]
    pub fn in_colour(self, colour: Colour) -> Word
        ensures { result ≡ recoloured colour self }
    {
        if self.is_null() {
            return self;
        }
        Word {
            bits: colour.number() * PLACES + self.bits % PLACES,
        }
    }

    /// Its bits with this address of a page in the place of its frame, which is what the format has: 0 for null.
    pub fn bits_at(self, address: u32) -> u64
        ensures { result ≡ bits_at address self }
    {
        if self.is_null() {
            return 0;
        }
        u64::from(self.bits / PLACES) * (1 << 62)
            + u64::from(address) * 64
            + u64::from(self.bits % 64)
    }

    /// Where its cell lies, by place: none of null.
    pub fn place(self) -> Option<u64>
        ensures { result ≡ place_by self }
    {
        // The bits of null are in front of each frame's.
        u64::from(self.bits % PLACES).checked_sub(64)
    }

    /// Where its cell lies, by place, and behind all places for null, so that one test serves for both.
    #[inline(always)]
    pub fn index(self) -> usize
        ensures { IsIndexOf (place_by self) result }
    {
        ((self.bits % PLACES) as usize).wrapping_sub(64)
    }
}
