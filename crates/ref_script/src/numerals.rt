//! Numbers as a text spells them: 1 to 20 decimal digits, leading zeros allowed.

ghost use Rattle.std.specs.Prelude.{◌≡◌, ◌^◌, ◌∷◌, ◌≤◌, [], true, not, length, take, MatchOption};
ghost use Rattle.std.specs.Char.{is_ascii_digit};
ghost use Rattle.std.specs.List.{list_all};
ghost use Rattle.std.specs.Str.Parse.{digits_value};
ghost use Rattle.ref_script.specs.Lines.{goes_on, words_of};
ghost use Rattle.ref_script.specs.Numerals.{number_below};

use crate::lines::{behind_spaces, next_word};

/// How many digits are always a number below 2^32.
const FEW: usize = 9;

/// The number below 2^64 that a word spells, or `None`. A text is mostly numbers: so they are read from their bytes, in
/// one pass, with no test for UTF-8.
pub fn long_number(word: &[u8]) -> Option<u64>
    ensures { result ≡ number_below (2 ^ 64) word.now }
{
    if word.is_empty() || word.len() > 20 {
        return None;
    }
    let mut value = 0u64;
    for byte in word {
        if !byte.is_ascii_digit() {
            return None;
        }
        value = value.checked_mul(10)?.checked_add(u64::from(*byte - b'0'))?;
    }
    Some(value)
}

/// The number below 2^32 that a word spells, or `None`.
pub fn short_number(word: &[u8]) -> Option<u32>
    ensures { result ≡ number_below (2 ^ 32) word.now }
{
    u32::try_from(long_number(word)?).ok()
}

/// A word, and the number below 2^32 that it spells, if it spells one.
#[derive(Clone, Copy)]
pub struct Numeral<'a> {
    pub word: &'a [u8],
    pub number: Option<u32>,
    ghost read: { number ≡ number_below (2 ^ 32) word.now },
}

/// The first word of a line with its number, and the line behind it, or `None` where no word is left. A word of few
/// digits is read as its end is looked for.
pub fn next_numeral(line: &[u8]) -> Option<(Numeral<'_>, &[u8])>
    ensures { MatchOption result (words_of line.now ≡ [])
        (λ r. words_of line.now ≡ r.0.word.now ∷ words_of r.1.now) }
{
    let behind = behind_spaces(line);
    let (count, number) = few_digits(behind);
    let (word, rest) = behind.split_at(count);
    if count > 0 && ends_word(rest) {
        let number = Some(number);
        return Some((Numeral { word, number }, rest));
    }
    let (word, rest) = next_word(behind)?;
    let number = short_number(word);
    Some((Numeral { word, number }, rest))
}

/// With how many digits a line begins, few at most, and the number that they spell.
fn few_digits(line: &[u8]) -> (usize, u32)
    ensures count { (result.0 ≤ length line.now) × (result.0 ≤ 9) }
    ensures digits { list_all is_ascii_digit (take result.0 line.now) ≡ true }
    ensures number { result.1 ≡ digits_value 10 (take result.0 line.now) }
{
    let mut count = 0;
    let mut number = 0u32;
    for byte in line {
        if count == FEW || !byte.is_ascii_digit() {
            break;
        }
        number = number * 10 + u32::from(*byte - b'0');
        count += 1;
    }
    (count, number)
}

/// Whether no word goes on here.
fn ends_word(rest: &[u8]) -> bool
    ensures { result ≡ not (goes_on rest.now) }
{
    match rest.first() {
        Some(byte) => *byte == b' ',
        None => true,
    }
}
