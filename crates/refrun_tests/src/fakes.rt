//! Readers and writers that fail.

ghost use Rattle.std.specs.Prelude.{◌≤◌, length, IfOk};

use std::io::{self, Error, ErrorKind, Read, Write};

/// Gives its bytes, and fails so where they end.
#[derive(Drop)]
pub struct ReadsThenFails<'a> {
    pub bytes: &'a [u8],
    pub failure: ErrorKind,
}

impl Read for ReadsThenFails<'_> {
    fn read(&mut self, buffer: &mut [u8]) -> io::Result<usize> {
        if self.bytes.is_empty() {
            return Err(Error::from(self.failure));
        }
        let count = self.bytes.len().min(buffer.len());
        let (front, rest) = self.bytes.split_at(count);
        buffer[..count].copy_from_slice(front);
        self.bytes = rest;
        Ok(count)
    }
}

/// Which calls of a reader or writer fail. Those behind the last one that fails go on as if none had.
#[derive(Clone, Copy)]
pub struct Failing {
    /// How many calls come before the next that fails.
    before: usize,
    /// How many calls are still to fail.
    left: u32,
    /// How many calls come between two that fail.
    between: usize,
    has_failed: bool,
}

impl Failing {
    /// One call, behind so many others.
    pub fn once(before: usize) -> Self {
        Failing::often(before, 1, 0)
    }

    /// Fails as many calls as `times`, the first behind so many others, and each next one behind so many more.
    pub fn often(before: usize, times: u32, between: usize) -> Self {
        Failing {
            before,
            left: times,
            between,
            has_failed: false,
        }
    }

    /// Whether a call has failed.
    pub fn has_failed(&self) -> bool {
        self.has_failed
    }

    /// Whether the call that comes now fails.
    fn is_now(&mut self) -> bool {
        if self.before > 0 {
            self.before -= 1;
            return false;
        }
        if self.left == 0 {
            return false;
        }
        self.left -= 1;
        self.before = self.between;
        self.has_failed = true;
        true
    }
}

/// Gives its bytes in pieces, and fails so at some of its reads.
#[derive(Drop)]
pub struct FailingReader<'a> {
    pub bytes: &'a [u8],
    /// The most bytes that a read gives.
    pub piece: usize,
    pub failing: Failing,
    pub failure: ErrorKind,
}

impl Read for FailingReader<'_> {
    fn read(&mut self, buffer: &mut [u8]) -> io::Result<usize> {
        if self.failing.is_now() {
            return Err(Error::from(self.failure));
        }
        let count = self.bytes.len().min(buffer.len()).min(self.piece);
        let (front, rest) = self.bytes.split_at(count);
        buffer[..count].copy_from_slice(front);
        self.bytes = rest;
        Ok(count)
    }
}

/// How a writer fails.
#[derive(Clone, Copy)]
pub enum WriteFailure {
    /// A write is an error.
    Write(ErrorKind),
    /// A write takes nothing of what was left.
    TakesNothing,
    /// A flush is an error.
    Flush(ErrorKind),
}

/// Takes bytes in pieces, and fails so at some of its writes; or, where a flush is to fail, at some of its flushes.
#[derive(Drop)]
pub struct FailingWriter {
    pub taken: Vec<u8>,
    /// The most bytes that a write takes.
    pub piece: usize,
    pub failing: Failing,
    pub failure: WriteFailure,
}

impl FailingWriter {
    /// Takes the next piece.
    fn take(&mut self, bytes: &[u8]) -> io::Result<usize>
        ensures { IfOk result (λ n. n ≤ length bytes.now) }
    {
        let count = bytes.len().min(self.piece);
        self.taken.extend_from_slice(&bytes[..count])?;
        Ok(count)
    }
}

impl Write for FailingWriter {
    fn write(&mut self, bytes: &[u8]) -> io::Result<usize> {
        match self.failure {
            WriteFailure::Write(kind) if self.failing.is_now() => Err(Error::from(kind)),
            WriteFailure::TakesNothing if self.failing.is_now() => Ok(0),
            _ => self.take(bytes),
        }
    }

    fn flush(&mut self) -> io::Result<()> {
        match self.failure {
            WriteFailure::Flush(kind) if self.failing.is_now() => Err(Error::from(kind)),
            _ => Ok(()),
        }
    }
}
