//! What steps and replies print of: numbers, alone and behind letters, and the first words that steps have in common.

ghost use Rattle.std.specs.Prelude.{◌≡◌, [], ◌∷◌, ◌++◌, Some, decimal, IfSome};
ghost use Rattle.std.specs.Fmt.{DisplaysOnOk};
ghost use Rattle.ref_base.specs.Texts.{Letters, word_text, text_of, mutator, worker, slot, number};

use crate::{MutNo, SlotNo, WorkerNo};
use itoa::Buffer;
use std::fmt;

/// The text of a number of one digit. A byte is written faster than digits are made and copied, and most numbers of a
/// trace have one.
#[tactic(auto, using(std::proofs::lemmas::Fmt::decimal_digit))]
#[inline(always)]
fn digit(number: u64) -> Option<&'static str>
    ensures { IfSome result (λ digit. digit.now ≡ decimal number) }
{
    match number {
        0 => Some("0"),
        1 => Some("1"),
        2 => Some("2"),
        3 => Some("3"),
        4 => Some("4"),
        5 => Some("5"),
        6 => Some("6"),
        7 => Some("7"),
        8 => Some("8"),
        9 => Some("9"),
        _ => None,
    }
}

/// Prints a number: its decimal digits, without leading zeros. An option of the formatter, as a width, does nothing.
pub fn say_number<W: fmt::Write>(f: &mut fmt::Formatter<W>, number: u64) -> fmt::Result
    ensures { DisplaysOnOk W.write_str_gives f.old result (Some (decimal number)) f.new }
{
    match digit(number) {
        Some(digit) => f.write_str(digit),
        None => f.write_str(Buffer::new().format(number)),
    }
}

/// Prints letters, and a number behind them.
#[inline(always)]
pub(crate) fn say_behind<W: fmt::Write>(
    f: &mut fmt::Formatter<W>,
    letters: &'static str,
    number: u32,
) -> fmt::Result
    ensures { DisplaysOnOk W.write_str_gives f.old result (Some (letters.now ++ decimal number)) f.new }
{
    f.write_str(letters)?;
    say_number(f, u64::from(number))
}

/// Prints a space and a number, as ` 2`.
#[inline(always)]
pub(crate) fn say_next<W: fmt::Write>(f: &mut fmt::Formatter<W>, count: u32) -> fmt::Result
    ensures { DisplaysOnOk W.write_str_gives f.old result (Some (32 ∷ word_text (number count))) f.new }
{
    say_behind(f, " ", count)
}

/// Prints a space and a slot, as ` s1`.
#[inline(always)]
pub(crate) fn say_slot<W: fmt::Write>(f: &mut fmt::Formatter<W>, at: SlotNo) -> fmt::Result
    ensures { DisplaysOnOk W.write_str_gives f.old result (Some (32 ∷ word_text (slot at))) f.new }
{
    say_behind(f, " s", at.0)
}

// An actor's letter and number, and the name of its step.
#[inline(always)]
fn say_actor<W: fmt::Write>(
    f: &mut fmt::Formatter<W>,
    letter: &'static str,
    number: u32,
    name: &'static str,
) -> fmt::Result
    ensures { DisplaysOnOk W.write_str_gives f.old result
        (Some (letter.now ++ decimal number ++ 32 ∷ name.now)) f.new }
{
    say_behind(f, letter, number)?;
    f.write_str(" ")?;
    f.write_str(name)
}

/// As `m0 new`.
#[inline(always)]
pub(crate) fn say_by<W: fmt::Write>(
    f: &mut fmt::Formatter<W>,
    by: MutNo,
    name: &'static str,
) -> fmt::Result
    ensures { DisplaysOnOk W.write_str_gives f.old result
        (Some (text_of (mutator by ∷ Letters name.now ∷ []))) f.new }
{
    say_actor(f, "m", by.0, name)
}

/// As `w0 scan`.
#[inline(always)]
pub(crate) fn say_by_worker<W: fmt::Write>(
    f: &mut fmt::Formatter<W>,
    by: WorkerNo,
    name: &'static str,
) -> fmt::Result
    ensures { DisplaysOnOk W.write_str_gives f.old result
        (Some (text_of (worker by ∷ Letters name.now ∷ []))) f.new }
{
    say_actor(f, "w", by.0, name)
}

/// As `m0 drop s0`.
#[inline(always)]
pub(crate) fn say_at_slot<W: fmt::Write>(
    f: &mut fmt::Formatter<W>,
    by: MutNo,
    name: &'static str,
    at: SlotNo,
) -> fmt::Result
    ensures { DisplaysOnOk W.write_str_gives f.old result
        (Some (text_of (mutator by ∷ Letters name.now ∷ slot at ∷ []))) f.new }
{
    say_by(f, by, name)?;
    say_slot(f, at)
}
