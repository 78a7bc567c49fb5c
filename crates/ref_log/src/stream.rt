//! The lines of a text, read one by one.

ghost use Rattle.std.specs.Prelude.{◌≡◌, ◌<◌, ◌≤◌, ◌+◌, ◌++◌, ◌∷◌, ◌||◌, ◌^◌, [], true, false, length, take, drop};
ghost use Rattle.std.specs.Prelude.{IfOk, IfErr, IfSome, OnOk};
ghost use Rattle.ref_log.specs.Streams.{most_in_line, has_no_lf};
ghost use Rattle.ref_log.specs.StreamAnswers.{Advances, CountsLine, is_reading_failed, IsReadFault, HoldsSome};
ghost use Rattle.ref_log.specs.StreamAnswers.{TakesPiece, HoldsTooMuch};

use memchr::memchr;
use ref_text::{ReadError, TextSource};
use std::alloc::{AllocError, Allocator};
use std::marker::Model;
use thiserror::Error;

/// How many bytes may stand in a line before its LF.
pub const MAX_LINE: usize = 1_000;

/// How many bytes are asked for at a time.
const CHUNK: usize = 65_536;

/// Why no line was read.
#[derive(Clone, Copy, Debug, PartialEq, Eq, Error)]
pub enum StreamFault {
    /// The next line has more than 1,000 bytes before its LF.
    #[error("line too long")]
    TooLong,
    /// The last line had the greatest number that there is.
    #[error("numbers spent")]
    NumbersSpent,
    /// A read failed.
    #[error("cannot read")]
    CannotRead,
    /// The reader found no memory.
    #[error("no memory")]
    NoMemory,
}

impl From<AllocError> for StreamFault {
    fn from(_: AllocError) -> Self {
        StreamFault::NoMemory
    }
}

impl From<ReadError> for StreamFault {
    ghost use Rattle.std.specs.Prelude.{◌≡◌};
    ghost use Rattle.ref_log.specs.StreamAnswers.{stream_fault_of};

    ghost from_gives = { λ error e. e ≡ stream_fault_of error };

    fn from(error: ReadError) -> Self {
        match error {
            ReadError::Failed => StreamFault::CannotRead,
            ReadError::NoMemory => StreamFault::NoMemory,
        }
    }
}

/// The lines of a text, one after the other, from a source that is read as far as they need. The memory of a chunk and
/// of a line is enough, however long the text is, and is taken at first.
#[derive(Drop)]
pub struct LineStream<A: Allocator> {
    // Where each read puts its bytes.
    chunk: Vec<u8, A>,
    // What of it belongs to later lines: chunk[at..end].
    at: usize,
    end: usize,
    // The bytes of the line that was read last, without its LF.
    line: Vec<u8, A>,
    // Whether an LF ended it.
    is_ended: bool,
    // Its number, from 1 on, and 0 before the first.
    number: u64,
}

impl<A: Allocator> Model for LineStream<A> {
    ghost use Rattle.std.specs.Prelude.{◌≡◌, ◌≤◌, ◌<◌, ◌^◌, slice_range, vec_len, vec_capacity};
    ghost use Rattle.ref_log.specs.Streams.{Streamed, chunk_size, most_in_line};

    ghost Value = { Streamed };

    ghost view = { λ s. record {
      held = slice_range s.chunk.items s.at s.end;
      line = s.line.items;
      is_ended = s.is_ended;
      number = s.number;
    } };

    ghost invariant = { λ s. (s.at ≤ s.end) × (s.end ≤ chunk_size) × (vec_len s.chunk ≡ chunk_size)
        × (vec_len s.line ≤ most_in_line) × (most_in_line ≤ vec_capacity s.line) × (s.number < 2 ^ 64) };
}

impl<A: Allocator + Copy> LineStream<A> {
    /// A stream of which no line was read.
    pub fn new(alloc: A) -> Result<Self, AllocError>
        ensures { IfOk result (λ s. s ≡ record { held = []; line = []; is_ended = false; number = 0 }) }
    {
        Ok(LineStream {
            chunk: vec![in alloc; 0u8; CHUNK]?,
            at: 0,
            end: 0,
            line: Vec::with_capacity(alloc, MAX_LINE)?,
            is_ended: false,
            number: 0,
        })
    }
}

impl<A: Allocator> LineStream<A> {
    /// The bytes of the line that was read last, without its LF.
    pub fn bytes(&self) -> &[u8]
        ensures bytes { result.now ≡ self.now.line }
        ensures short { length result.now ≤ most_in_line }
    {
        self.line.as_slice()
    }

    /// Whether an LF ended the line that was read last: the last line of a text may have none.
    pub fn is_ended(&self) -> bool
        ensures { result ≡ self.now.is_ended }
    {
        self.is_ended
    }

    /// The number of the line that was read last, from 1 on, and 0 before the first.
    pub fn number(&self) -> u64
        ensures number { result ≡ self.now.number }
        ensures fits { self.now.number < 2 ^ 64 }
    {
        self.number
    }

    /// Reads the next line, and answers whether there was one: there is none only at the end of the text. Behind a
    /// fault what was read of its line is lost, and the next line may begin within it.
    pub fn advance<R: TextSource>(&mut self, reader: &mut R) -> Result<bool, StreamFault>
        ensures lines { IfSome (R.remaining reader.old) (λ rest. Advances (self.old.held ++ rest)
            (R.remaining reader.new) self.new result) }
        ensures number { CountsLine self.old.number self.new.number result }
        ensures short { OnOk result (length self.new.line ≤ most_in_line) }
        ensures failed { R.has_failed reader.new ≡ (R.has_failed reader.old || is_reading_failed result) }
    {
        self.line.clear();
        if !self.hold_some(reader)? {
            return Ok(false);
        }
        if self.number == u64::MAX {
            return Err(StreamFault::NumbersSpent);
        }
        self.number += 1;
        while !self.take_piece()? {
            if !self.hold_some(reader)? {
                return Ok(true);
            }
        }
        Ok(true)
    }

    // Reads where no byte is held. Answers whether one is held now: there is none only at the end of the text.
    fn hold_some<R: TextSource>(&mut self, reader: &mut R) -> Result<bool, StreamFault>
        ensures held { IfOk result (λ is_more. HoldsSome self.old.held self.new.held (R.remaining reader.old)
            (R.remaining reader.new) is_more) }
        ensures line { self.new.line ≡ self.old.line }
        ensures is_ended { self.new.is_ended ≡ self.old.is_ended }
        ensures number { self.new.number ≡ self.old.number }
        ensures kinds { IfErr result IsReadFault }
        ensures failed { R.has_failed reader.new ≡ (R.has_failed reader.old || is_reading_failed result) }
    {
        if self.at < self.end {
            return Ok(true);
        }
        let count = reader.read(self.chunk.as_mut_slice())?;
        self.at = 0;
        self.end = count;
        Ok(count > 0)
    }

    // Appends what is held of a line to it. Answers whether its LF was held too, and takes that.
    fn take_piece(&mut self) -> Result<bool, StreamFault>
        requires { 0 < length self.old.held }
        ensures ok { IfOk result (λ is_whole. TakesPiece self.old self.new is_whole) }
        ensures err { IfErr result (λ e. (e ≡ StreamFault.TooLong) × HoldsTooMuch self.old) }
        ensures number { self.new.number ≡ self.old.number }
    {
        let held = &self.chunk.as_slice()[self.at..self.end];
        let length = length_before_lf(held);
        if length > MAX_LINE - self.line.len() {
            return Err(StreamFault::TooLong);
        }
        let (piece, _) = held.split_at(length);
        let is_whole = length < held.len();
        self.line.extend_from_slice(piece)?;
        self.at += length + usize::from(is_whole);
        self.is_ended = is_whole;
        Ok(is_whole)
    }
}

/// How many bytes stand in front of the first LF, or of the end. Many bytes are looked at at once.
fn length_before_lf(bytes: &[u8]) -> usize
    ensures within { result ≤ length bytes.now }
    ensures none { has_no_lf (take result bytes.now) ≡ true }
    ensures lf { result < length bytes.now → drop result bytes.now ≡ 10 ∷ drop (result + 1) bytes.now }
{
    match memchr(b'\n', bytes) {
        Some(length) => length,
        None => bytes.len(),
    }
}
