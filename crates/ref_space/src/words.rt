//! Coloured words: a colour, the address of a page, and a cell of it, in 64 bits.

ghost use Rattle.std.specs.Prelude.{◌≡◌, ℕ, ◌<◌, ◌≤◌, Some};
ghost use Rattle.std.specs.Option.{IfSome};
ghost use Rattle.ref_space.specs.declared.colour.Colour.{Colour};
ghost use Rattle.ref_space.specs.ColouredWords.{coloured_word, parts_of, IsWordOf, is_coloured};

use crate::colour::Colour;

/// The word of a cell: the colour's number in the two highest bits, the page's address from bit 6 on, the cell in the
/// six lowest. The page is from 1 on, and the cell below 64. Takes no memory, in constant time.
pub fn word_of(colour: Colour, page: u32, cell: u32) -> u64
    requires page { 1 ≤ page }
    requires cell { cell < 64 }
    ensures { result ≡ coloured_word colour page cell }
{
    u64::from(colour.number()) * (1 << 62) + u64::from(page) * 64 + u64::from(cell)
}

/// The colour, the page's address and the cell of a word. None for null, which is 0, and for each number that is no
/// word: without a colour, of page 0, or with any of the bits 38 to 61 set. Takes no memory, in constant time.
pub fn parts_of(word: u64) -> Option<(Colour, u32, u32)>
    ensures parts { result ≡ parts_of word }
    ensures own { IfSome result (IsWordOf word) }
    ensures all { (parts : Colour × ℕ × ℕ) → IsWordOf word parts → result ≡ Some parts }
{
    let page = word / 64 % (1 << 56);
    if page == 0 || page >= 1 << 32 {
        return None;
    }
    match Colour::of(word >> 62) {
        Some(colour) => Some((colour, page as u32, (word % 64) as u32)),
        None => None,
    }
}

/// Whether a word has this colour: false for null, which has none. Of a number that is no word it tells the two highest
/// bits alone. Takes no memory, in constant time.
pub fn has_colour(word: u64, colour: Colour) -> bool
    ensures { result ≡ is_coloured word colour }
{
    word >> 62 == u64::from(colour.number())
}
