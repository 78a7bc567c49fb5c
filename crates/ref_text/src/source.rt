//! What a text is read from.

ghost use Rattle.std.specs.Prelude.{◌≡◌, ◌||◌, ◌<◌, ◌≤◌, false};
ghost use Rattle.std.specs.Io.{ReadsAtMost};
ghost use Rattle.std.specs.Io.KnownBytes.{ReadConsumes};
ghost use Rattle.ref_text.specs.Reads.{is_failed_read};

use std::io::{ErrorKind, Read};

/// Why a read gave nothing.
#[derive(Clone, Copy, Debug, PartialEq, Eq)]
pub enum ReadError {
    /// The read failed.
    Failed,
    /// The reader found no memory.
    NoMemory,
}

/// What a text is read from. Unlike `std::io::Read` it tells, in contracts, whether a read has failed: so that a
/// caller can promise to report a failure only where there was one.
pub trait TextSource {
    ghost use Rattle.std.specs.Prelude.{ℕ, List, Option, Bool};

    /// The bytes that reads will give from here on, where they are known.
    ghost remaining: { Self → Option (List ℕ) };

    /// Whether a read has failed.
    ghost has_failed: { Self → Bool };

    /// Reads into the front of the buffer, and answers how many bytes: 0 only at the end, or where there is no room.
    fn read(&mut self, buffer: &mut [u8]) -> Result<usize, ReadError>
        ensures bound { ReadsAtMost result buffer.new }
        ensures bytes { ReadConsumes (remaining self.old) (remaining self.new) result buffer.new }
        ensures failed { has_failed self.new ≡ (has_failed self.old || is_failed_read result) };
}

/// Any reader as a source. A read that was interrupted is tried again, up to the 999th interruption of this source;
/// the 1,000th is a failure. `OutOfMemory` is answered `ReadError::NoMemory`, and is no failure. Every other error is
/// one.
#[derive(Drop)]
pub struct FromReader<R> {
    reader: R,
    interruptions: u32,
    has_failed: bool,
}

impl<R: Read> FromReader<R> {
    /// A source that hasn't failed and was never interrupted. Takes no memory.
    pub fn new(reader: R) -> Self
        ensures bytes { ⟦<FromReader<R> as TextSource>⟧.remaining result ≡ R.remaining reader }
        ensures fresh { ⟦<FromReader<R> as TextSource>⟧.has_failed result ≡ false }
    {
        FromReader {
            reader,
            interruptions: 0,
            has_failed: false,
        }
    }
}

impl<R: Read> TextSource for FromReader<R> {
    ghost remaining = { λ s. R.remaining s.reader };

    ghost has_failed = { λ s. s.has_failed };

    fn read(&mut self, buffer: &mut [u8]) -> Result<usize, ReadError> {
        while self.interruptions < 1_000 {
            match self.reader.read(buffer) {
                Ok(count) => return Ok(count),
                Err(error) => match error.kind() {
                    ErrorKind::Interrupted => self.interruptions += 1,
                    ErrorKind::OutOfMemory => return Err(ReadError::NoMemory),
                    _ => break,
                },
            }
        }
        self.has_failed = true;
        Err(ReadError::Failed)
    }
}
