//! A row of a log, read from its line.

ghost use Rattle.std.specs.Prelude.{◌≡◌, Some, None, MatchOption, MatchResult, IfErr, not};
ghost use Rattle.std.specs.Char.{is_ascii_digit};
ghost use Rattle.std.specs.List.{list_all};
ghost use Rattle.ref_log.specs.LogRows.{SpellsNoRow, SpellsRow, has_padding, no_padding, parted, row_fault};
ghost use Rattle.ref_log.specs.LogRows.{unnumbered};
ghost use Rattle.ref_script.specs.Lines.{goes_on, words_of};
ghost use Rattle.ref_script.specs.ReplyReading.{is_padded};

use crate::fault::{LogFault, log_fault};
use ref_script::{ReplyKind, ScriptRow, next_word, reply_of, step_of};

/// The row that a line of a log spells, or why it spells none. A number in front isn't looked at, and may be left out.
/// Behind it stand the words of a step, a colon, and the words of the reply. No number of the step has a leading zero.
/// Faults of the step are told before those of the reply.
pub fn row_of(line: &[u8]) -> Result<ScriptRow, LogFault>
    ensures row { MatchResult result (SpellsRow (words_of line.now)) (λ _. SpellsNoRow (words_of line.now)) }
    ensures fault { IfErr result (λ fault. fault ≡ row_fault (words_of line.now)) }
{
    let Some((front, back)) = parts_of(behind_number(line)) else {
        return Err(LogFault::NoReply);
    };
    let step = match step_of(front) {
        Ok(step) => step,
        Err(fault) => return Err(log_fault(fault)),
    };
    if !has_no_padding(front) {
        return Err(LogFault::BadWord);
    }
    match reply_of(ReplyKind::of(&step), back) {
        Some(reply) => Ok(ScriptRow { step, reply }),
        None => Err(LogFault::NoReply),
    }
}

/// The line behind a word of digits alone that it begins with, or all of it.
pub(crate) fn behind_number(line: &[u8]) -> &[u8]
    ensures { words_of result.now ≡ unnumbered (words_of line.now) }
{
    match next_word(line) {
        Some((word, rest)) if has_only_digits(word) => rest,
        _ => line,
    }
}

/// Whether each byte is a digit.
pub(crate) fn has_only_digits(word: &[u8]) -> bool
    ensures { result ≡ list_all is_ascii_digit word.now }
{
    word.iter().all(|byte| byte.is_ascii_digit())
}

/// What stands in front of the first word that is a colon, and what stands behind it.
pub(crate) fn parts_of(line: &[u8]) -> Option<(&[u8], &[u8])>
    ensures { MatchOption result (parted (words_of line.now) ≡ None) (λ r. parted (words_of line.now)
        ≡ Some (record { front = words_of r.0.now; back = words_of r.1.now })) }
{
    let mut begins = true;
    for (at, byte) in line.iter().enumerate() {
        if begins && *byte == b':' {
            let (front, rest) = line.split_at(at);
            let (_, back) = rest.split_at(1);
            if !goes_on(back) {
                return Some((front, back));
            }
        }
        begins = *byte == b' ';
    }
    None
}

/// Whether a word goes on here.
fn goes_on(rest: &[u8]) -> bool
    ensures { result ≡ goes_on rest.now }
{
    match rest.first() {
        Some(byte) => *byte != b' ',
        None => false,
    }
}

/// Whether no word of a line is a number with a leading zero, alone or behind its letter.
fn has_no_padding(line: &[u8]) -> bool
    ensures { result ≡ no_padding (words_of line.now) }
{
    let mut rest = line;
    while let Some((word, behind)) = next_word(rest) {
        if has_padding(word) {
            return false;
        }
        rest = behind;
    }
    true
}

/// Whether a word is a number with a leading zero, alone or behind its letter.
fn has_padding(word: &[u8]) -> bool
    ensures { result ≡ has_padding word.now }
{
    match word.split_first() {
        Some((letter, number)) => {
            is_padded(word) || matches!(*letter, b'm' | b'w' | b's' | b'q') && is_padded(number)
        }
        None => false,
    }
}

/// Whether a word has more than one digit and begins with 0.
fn is_padded(word: &[u8]) -> bool
    ensures { result ≡ is_padded word.now }
{
    match word {
        [first, _, ..] => *first == b'0',
        _ => false,
    }
}
