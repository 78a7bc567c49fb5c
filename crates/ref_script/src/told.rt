//! The lines of a text that say something, and its header.

ghost use Rattle.std.specs.Prelude.{◌≡◌, ◌+◌, ◌≤◌, ◌<◌, true, Some, None, OnSome, length, IfOk, IfErr, MatchResult};
ghost use Rattle.std.specs.Char.{is_ascii};
ghost use Rattle.std.specs.List.{list_all};
ghost use Rattle.ref_script.specs.Lines.{lines_of, content_of, words_of, most_bytes};
ghost use Rattle.ref_script.specs.LineReading.{Finds, ReadsAny};
ghost use Rattle.ref_script.specs.LineViews.{line_of};
ghost use Rattle.ref_script.specs.TextFaults.{Place, plain_fault, first_fault};
ghost use Rattle.ref_script.specs.ToldLines.{says_nothing, is_titled};

use crate::lines::{Line, next_line, next_word};
use ref_text::{LineFault, TextFault};
use std::marker::Model;

/// The lines of a text that are still to read, one after the other.
#[derive(Drop)]
pub struct Lines<'a> {
    rest: &'a [u8],
    // Of the line that was read last.
    number: u64,
    // Whether the whole text was found to be ASCII, as most are, so that no line has to be looked at for that.
    has_only_ascii: bool,
}

impl<'a> Model for Lines<'a> {
    ghost use Rattle.std.specs.Prelude.{◌≡◌, ◌+◌, ◌≤◌, true, length};
    ghost use Rattle.std.specs.List.{list_all};
    ghost use Rattle.ref_script.specs.Lines.{lines_of, most_bytes};
    ghost use Rattle.ref_script.specs.LineReading.{LinesLeft};
    ghost use Rattle.ref_script.specs.ToldLines.{is_ascii_line};

    ghost Value = { LinesLeft };

    ghost view = { λ l. record { lines = lines_of l.rest.now; number = l.number } };

    ghost invariant = { λ l. (l.number + length (lines_of l.rest.now) ≤ most_bytes)
        × (l.has_only_ascii ≡ true → list_all is_ascii_line (lines_of l.rest.now) ≡ true) };
}

impl<'a> Lines<'a> {
    /// All lines of a text.
    pub fn of(text: &'a [u8]) -> Lines<'a>
        requires { length text.now ≤ most_bytes }
        ensures { result ≡ record { lines = lines_of text.now; number = 0 } }
    {
        Lines {
            rest: text,
            number: 0,
            has_only_ascii: are_ascii(text),
        }
    }

    /// The number of the line that was read last, from 1 on, and 0 where none was.
    pub fn number(&self) -> u64
        ensures number { result ≡ self.now.number }
        ensures within { result ≤ most_bytes }
    {
        self.number
    }

    /// Reads up to the next line that says something, and answers what its words stand in, or `None` where none is
    /// left. Each line up to it is short enough and ASCII, or else the answer is the fault of the first that isn't.
    pub fn next_told(&mut self) -> Result<Option<&'a [u8]>, TextFault>
        ensures found { IfOk result (λ content. Finds self.old content self.new) }
        ensures shorter { IfOk result (λ content. OnSome content (length self.new.lines < length self.old.lines)) }
        ensures fault { IfErr result (λ e. (place : Place) → first_fault place (self.old.number + 1) self.old.lines
            ≡ Some e) }
    {
        while let Some(content) = self.next()? {
            if !says_nothing(content) {
                return Ok(Some(content));
            }
        }
        Ok(None)
    }

    /// Reads the next line, if one is left, whatever it says.
    fn next(&mut self) -> Result<Option<&'a [u8]>, TextFault>
        ensures found { IfOk result (λ content. ReadsAny self.old content self.new) }
        ensures fault { IfErr result (λ e. (place : Place) → first_fault place (self.old.number + 1) self.old.lines
            ≡ Some e) }
    {
        let Some((line, behind)) = next_line(self.rest) else {
            return Ok(None);
        };
        self.rest = behind;
        self.number += 1;
        match plain(line, self.has_only_ascii) {
            Ok(content) => Ok(Some(content)),
            Err(fault) => Err(TextFault::Line(self.number, fault)),
        }
    }
}

/// What a line's words stand in, where the line isn't too long and is ASCII, as may be known.
fn plain(line: Line<'_>, is_known_ascii: bool) -> Result<&[u8], LineFault>
    requires { is_known_ascii ≡ true → list_all is_ascii line.bytes.now ≡ true }
    ensures { MatchResult result (λ content. (plain_fault (line_of line.entry) ≡ None) × (content.now ≡ content_of
        (line_of line.entry)))
        (λ fault. plain_fault (line_of line.entry) ≡ Some fault) }
{
    if line.bytes.len() > 200 {
        return Err(LineFault::LineTooLong);
    }
    if !is_known_ascii && !are_ascii(line.bytes) {
        return Err(LineFault::NotAscii);
    }
    Ok(line.content())
}

/// Whether each byte is ASCII. The loop has no early end, so that the compiler takes many bytes at once. It is kept out
/// of its callers.
#[inline(never)]
pub fn are_ascii(bytes: &[u8]) -> bool
    ensures { result ≡ list_all is_ascii bytes.now }
{
    let mut bits = 0u8;
    for byte in bytes {
        bits |= *byte;
    }
    bits.is_ascii()
}

/// Whether a line is blank or a remark: the first byte that isn't a space tells.
pub fn says_nothing(content: &[u8]) -> bool
    ensures { result ≡ says_nothing (words_of content.now) }
{
    for byte in content {
        if *byte != b' ' {
            return *byte == b'#';
        }
    }
    true
}

/// Whether a line is a header: this name, and this word as its version.
pub fn is_titled(line: &[u8], title: &[u8], version: &[u8]) -> bool
    ensures { result ≡ is_titled title.now version.now (words_of line.now) }
{
    let Some((name, rest)) = next_word(line) else {
        return false;
    };
    let Some((word, rest)) = next_word(rest) else {
        return false;
    };
    if next_word(rest).is_some() {
        return false;
    }
    name == title && word == version
}
