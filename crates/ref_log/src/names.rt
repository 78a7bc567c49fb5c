//! Objects that have names of the collector's own in a log.

ghost use Rattle.std.specs.Prelude.{◌≡◌, ◌∷◌, ◌++◌, [], Some, None, false, true, MatchOption, OnOk, OnErr};
ghost use Rattle.std.specs.List.{list_all};
ghost use Rattle.std.specs.Option.{option_map};
ghost use Rattle.ref_log.specs.Names.{MeanAlike, is_making, is_making_word, is_name, is_name_byte, is_naming};
ghost use Rattle.ref_log.specs.Names.{is_queue_word, name_given, name_in, number_named, number_words};
ghost use Rattle.ref_log.specs.Names.{numbered_reply, numbered_row, with_name};
ghost use Rattle.ref_script.specs.Lines.{words_of};

use crate::rows::{behind_number, has_only_digits, parts_of};
use arrayvec::ArrayVec;
use indexmap::IndexMap;
use itoa::Buffer;
use ref_script::next_word;
use std::alloc::{AllocError, Allocator};
use std::hash::{BuildHasherDefault, FoldHasher};
use std::marker::Model;

/// How many bytes a name has at most.
pub(crate) const MAX_NAME: usize = 20;

/// The bytes of a name.
pub(crate) type Name = ArrayVec<u8, MAX_NAME>;

/// The number of the object that each name was given to last.
#[derive(Drop)]
struct Table<A: Allocator> {
    numbers: IndexMap<Name, u32, BuildHasherDefault<FoldHasher>, A>,
}

impl<A: Allocator> Model for Table<A> {
    ghost use Rattle.std.specs.Prelude.{List};
    ghost use Rattle.ref_log.specs.Names.{Given};
    ghost use Rattle.ref_log.specs.NameViews.{names_in};

    ghost Value = { List Given };

    ghost view = { λ t. names_in t.numbers.entries };
}

impl<A: Allocator> Table<A> {
    /// The number of the object that has this name, and 0 where none has. In expected constant time.
    fn number_of(&self, name: &Name) -> u32
        ensures { result ≡ number_named self.now name.now.items }
    {
        self.numbers.get(name).copied().unwrap_or(0)
    }
}

impl<A: Allocator + Copy> Table<A> {
    /// The name means the object of this number from now on. In expected constant time, amortized. Where memory is
    /// refused, nothing has changed.
    fn give(&mut self, name: Name, number: u32) -> Result<(), AllocError>
        ensures given { OnOk result (MeanAlike self.new (with_name (Some name.items) number self.old)) }
        ensures err { OnErr result (self.new ≡ self.old) }
    {
        self.numbers.insert(name, number)?;
        Ok(())
    }
}

/// The names that objects were given, and the numbers of the objects that have them; and the line that was written
/// last. Takes memory for each name once, and for one line.
#[derive(Drop)]
pub struct Names<A: Allocator> {
    table: Table<A>,
    line: Vec<u8, A>,
}

impl<A: Allocator> Model for Names<A> {
    ghost use Rattle.ref_log.specs.NameViews.{NamesAndLine};

    ghost Value = { NamesAndLine };

    ghost view = { λ n. record { names = n.table; line = n.line.items } };
}

impl<A: Allocator + Copy> Names<A> {
    /// No name was given, and no line written. Takes no memory.
    pub fn new(alloc: A) -> Self
        ensures { result ≡ record { names = []; line = [] } }
    {
        Names {
            table: Table {
                numbers: IndexMap::new(alloc),
            },
            line: Vec::new(alloc),
        }
    }

    /// The number of the object that has the name which a row gives to the object that it makes, and 0 where none has.
    /// `None` where the row gives no name.
    pub fn number_given(&self, line: &[u8]) -> Option<u32>
        ensures { result ≡ option_map (number_named self.now.names) (name_given (words_of line.now)) }
    {
        let name = name_given(line)?;
        Some(self.table.number_of(&name))
    }

    /// The name that a row gives to the object that it makes means the object of this number from now on. Nothing
    /// changes where it gives none, and where memory is refused.
    pub fn give(&mut self, line: &[u8], number: u32) -> Result<(), AllocError>
        ensures given { OnOk result (MeanAlike self.new.names (with_name (name_given (words_of line.now)) number
            self.old.names)) }
        ensures line { self.new.line ≡ self.old.line }
        ensures err { OnErr result (self.new ≡ self.old) }
    {
        match name_given(line) {
            Some(name) => self.table.give(name, number),
            None => Ok(()),
        }
    }

    /// Writes a row with numbers in the place of names, in the place of the line that was written before. Takes the
    /// memory of a line. Where it is refused, only a part of the row is written.
    pub fn number_names(&mut self, line: &[u8]) -> Result<(), AllocError>
        ensures words { OnOk result (words_of self.new.line ≡ numbered_row self.old.names (words_of line.now)) }
        ensures names { self.new.names ≡ self.old.names }
    {
        self.line.clear();
        let Some((front, reply)) = parts_of(line) else {
            return self.line.extend_from_slice(line);
        };
        append(&mut self.line, front)?;
        append(&mut self.line, b":".as_slice())?;
        append_reply(&mut self.line, &self.table, reply)
    }

    /// The name that was given to the object of this number, if one was. Takes the time of all names.
    pub(crate) fn name_with(&self, number: u32) -> Option<&[u8]> {
        for (name, other) in self.table.numbers.iter() {
            if *other == number {
                return Some(name.as_slice());
            }
        }
        None
    }

    /// The line that was written last, and no bytes where none was.
    pub fn line(&self) -> &[u8]
        ensures { result.now ≡ self.now.line }
    {
        self.line.as_slice()
    }
}

/// Appends a text to a line, with a space in front.
fn append<A: Allocator>(line: &mut Vec<u8, A>, text: &[u8]) -> Result<(), AllocError>
    ensures { OnOk result (words_of line.new.items ≡ words_of line.old.items ++ words_of text.now) }
{
    line.push(b' ')?;
    line.extend_from_slice(text)
}

/// Appends a reply to a line, with numbers in the place of names.
fn append_reply<A: Allocator>(
    line: &mut Vec<u8, A>,
    table: &Table<A>,
    reply: &[u8],
) -> Result<(), AllocError>
    ensures { OnOk result (words_of line.new.items
        ≡ words_of line.old.items ++ numbered_reply table.now (words_of reply.now)) }
{
    match next_word(reply) {
        Some((word, names)) if is_naming(word) => {
            append(line, word)?;
            append_numbered(line, table, names)
        }
        _ => append(line, reply),
    }
}

/// Appends words to a line, with numbers in the place of names, up to a word that is spelled as a queue.
fn append_numbered<A: Allocator>(
    line: &mut Vec<u8, A>,
    table: &Table<A>,
    words: &[u8],
) -> Result<(), AllocError>
    ensures { OnOk result (words_of line.new.items
        ≡ words_of line.old.items ++ number_words table.now (words_of words.now)) }
{
    let mut rest = words;
    while let Some((word, behind)) = next_word(rest) {
        if is_queue_word(word) {
            return append(line, rest);
        }
        match name_of(word) {
            Some(name) => append(
                line,
                Buffer::new().format(table.number_of(&name)).as_bytes(),
            )?,
            None => append(line, word)?,
        }
        rest = behind;
    }
    Ok(())
}

/// The name that a row gives to the object that it makes.
fn name_given(line: &[u8]) -> Option<Name>
    ensures { MatchOption result (name_given (words_of line.now) ≡ None) (λ name. name_given (words_of line.now)
        ≡ Some name.items) }
{
    let (front, reply) = parts_of(behind_number(line))?;
    if !is_making(front) {
        return None;
    }
    name_in(reply)
}

/// Whether the second word is that of a step that makes an object.
fn is_making(step: &[u8]) -> bool
    ensures { result ≡ is_making (words_of step.now) }
{
    let Some((_, rest)) = next_word(step) else {
        return false;
    };
    match next_word(rest) {
        Some((word, _)) => is_making_word(word),
        None => false,
    }
}

/// The name that the reply to such a step gives.
fn name_in(reply: &[u8]) -> Option<Name>
    ensures { MatchOption result (name_in (words_of reply.now) ≡ None) (λ name. name_in (words_of reply.now)
        ≡ Some name.items) }
{
    let (word, rest) = next_word(reply)?;
    let (name, rest) = next_word(rest)?;
    match next_word(rest) {
        None if word == b"object".as_slice() => name_of(name),
        _ => None,
    }
}

/// The name that a word spells, if it spells one.
pub(crate) fn name_of(word: &[u8]) -> Option<Name>
    ensures { MatchOption result (is_name word.now ≡ false) (λ name. (is_name word.now ≡ true)
        × (name.items ≡ word.now)) }
{
    if !has_name_bytes(word) || is_queue_word(word) {
        return None;
    }
    Name::try_from(word).ok()
}

/// Whether each byte is a letter, a digit or `_`.
fn has_name_bytes(word: &[u8]) -> bool
    ensures { result ≡ list_all is_name_byte word.now }
{
    word.iter()
        .all(|byte| byte.is_ascii_alphanumeric() || *byte == b'_')
}

/// Whether a word is spelled as a queue.
fn is_queue_word(word: &[u8]) -> bool
    ensures { result ≡ is_queue_word word.now }
{
    match word.split_first() {
        Some((letter, number)) => *letter == b'q' && !number.is_empty() && has_only_digits(number),
        None => false,
    }
}

/// Whether a word is that of a step that makes an object.
fn is_making_word(word: &[u8]) -> bool
    ensures { result ≡ is_making_word word.now }
{
    word == b"new".as_slice()
        || word == b"soft".as_slice()
        || word == b"weak".as_slice()
        || word == b"phantom".as_slice()
}

/// Whether a reply that begins with this word names objects.
fn is_naming(word: &[u8]) -> bool
    ensures { result ≡ is_naming word.now }
{
    word == b"object".as_slice()
        || word == b"took".as_slice()
        || word == b"scanned".as_slice()
        || word == b"cleared".as_slice()
        || word == b"kept".as_slice()
        || word == b"skipped".as_slice()
        || word == b"moved".as_slice()
        || word == b"notice".as_slice()
        || word == b"notices".as_slice()
}
