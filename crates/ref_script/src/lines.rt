//! Lines and words, as slices of the text.

ghost use Rattle.std.specs.Prelude.{◌≡◌, ◌<◌, ◌≤◌, ◌==◌, ◌⊎◌, not, nat_eq, [], ◌∷◌, true, length, IfSome};
ghost use Rattle.std.specs.Prelude.{MatchOption};
ghost use Rattle.std.specs.Cmp.Lexicographic.{pointwise};
ghost use Rattle.std.specs.List.{prefix_len};
ghost use Rattle.ref_script.specs.LineViews.{line_of};
ghost use Rattle.ref_script.specs.Lines.{lines_of, content_of, goes_on, words_of};

use memchr::memchr;

/// A line of a text.
#[derive(Clone, Copy)]
pub struct Line<'a> {
    /// The bytes before its LF, a CR too.
    pub bytes: &'a [u8],
    /// Whether an LF ends it; the last line of a text may have none.
    pub is_ended: bool,
}

impl<'a> Line<'a> {
    /// The bytes that its words stand in: without the CR that stands right before an LF.
    pub fn content(&self) -> &'a [u8]
        ensures { result.now ≡ content_of (line_of self.now) }
    {
        let bytes = self.bytes;
        if !self.is_ended {
            return bytes;
        }
        match bytes.split_last() {
            Some((last, front)) if *last == b'\r' => front,
            _ => bytes,
        }
    }
}

/// How many bytes stand in front of the first that is `byte`: all of them where none is.
fn length_before(bytes: &[u8], byte: u8) -> usize
    ensures length { result ≡ prefix_len (λ b. not (b == byte)) bytes.now }
    ensures within { result ≤ length bytes.now }
{
    let mut count = 0;
    for other in bytes {
        if *other == byte {
            return count;
        }
        count += 1;
    }
    count
}

/// How many bytes stand in front of the first LF, or of the end. Many bytes are looked at at once.
fn length_of_line(text: &[u8]) -> usize
    ensures length { result ≡ prefix_len (λ b. not (b == 10)) text.now }
    ensures within { result ≤ length text.now }
{
    match memchr(b'\n', text) {
        Some(length) => length,
        None => text.len(),
    }
}

/// How many bytes from the front on are `byte`.
fn length_of_run(bytes: &[u8], byte: u8) -> usize
    ensures length { result ≡ prefix_len (λ b. b == byte) bytes.now }
    ensures within { result ≤ length bytes.now }
{
    let mut count = 0;
    for other in bytes {
        if *other != byte {
            return count;
        }
        count += 1;
    }
    count
}

/// The first line of a text and the text behind it, or `None` at the end.
pub fn next_line(text: &[u8]) -> Option<(Line<'_>, &[u8])>
    ensures lines { MatchOption result (lines_of text.now ≡ [])
        (λ r. lines_of text.now ≡ line_of r.0 ∷ lines_of r.1.now) }
    ensures shorter { IfSome result (λ r. length r.1.now < length text.now) }
{
    if text.is_empty() {
        return None;
    }
    let length = length_of_line(text);
    let (bytes, rest) = text.split_at(length);
    match rest.split_first() {
        Some((_, behind)) => Some((
            Line {
                bytes,
                is_ended: true,
            },
            behind,
        )),
        None => Some((
            Line {
                bytes,
                is_ended: false,
            },
            rest,
        )),
    }
}

/// The line behind the spaces that it begins with.
pub fn behind_spaces(line: &[u8]) -> &[u8]
    ensures same { words_of result.now ≡ words_of line.now }
    ensures begins { (result.now ≡ []) ⊎ (goes_on result.now ≡ true) }
{
    let (_, behind) = line.split_at(length_of_run(line, b' '));
    behind
}

/// The first word of a line and the line behind it, or `None` where none is left.
pub fn next_word(line: &[u8]) -> Option<(&[u8], &[u8])>
    ensures { MatchOption result (words_of line.now ≡ [])
        (λ r. words_of line.now ≡ r.0.now ∷ words_of r.1.now) }
{
    let behind = behind_spaces(line);
    if behind.is_empty() {
        return None;
    }
    Some(behind.split_at(length_before(behind, b' ')))
}

/// Whether a word is this name. Most names are of another length, which is looked at first. A name is known where this
/// is called, so that its bytes are compared with no loop there.
#[inline(always)]
pub fn is_name(word: &[u8], name: &'static [u8]) -> bool
    ensures { result ≡ pointwise nat_eq word.now name.now }
{
    if word.len() != name.len() {
        return false;
    }
    let mut at = 0;
    for byte in name {
        if word[at] != *byte {
            return false;
        }
        at += 1;
    }
    true
}
