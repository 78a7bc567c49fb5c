//! What becomes of a log of which a read fails: each in turn, until a run meets no failure.

ghost use Rattle.std.specs.Prelude.{◌≤◌, length, IfOk};

use crate::logs::{LOGS, Log};
use ref_log::{LogFailure, verdict_on};
use ref_text::FromReader;
use std::alloc::Global;
use std::io::{self, Error, ErrorKind, Read};
use std::process::Abort;
use std::test::Fail;

/// More calls than a run of a log makes.
const MOST: usize = 1_000;

/// Gives its bytes in pieces, and fails so at one of its reads.
#[derive(Drop)]
struct FailingReader<'a> {
    bytes: &'a [u8],
    /// The most bytes that a read gives.
    piece: usize,
    failure: ErrorKind,
    /// How many reads come before the one that fails.
    before: usize,
    has_failed: bool,
}

impl Read for FailingReader<'_> {
    fn read(&mut self, buffer: &mut [u8]) -> io::Result<usize> {
        if self.before == 0 && !self.has_failed {
            self.has_failed = true;
            return Err(Error::from(self.failure));
        }
        self.before = self.before.saturating_sub(1);
        let count = self.bytes.len().min(buffer.len()).min(self.piece);
        let (front, rest) = self.bytes.split_at(count);
        buffer[..count].copy_from_slice(front);
        self.bytes = rest;
        Ok(count)
    }
}

/// How a read fails, the most bytes that the others give, and what is told: `None` where the read is tried again.
const FAILURES: [(ErrorKind, usize, Option<LogFailure>); 6] = [
    (ErrorKind::BrokenPipe, 1, Some(LogFailure::CannotRead)),
    (
        ErrorKind::BrokenPipe,
        usize::MAX,
        Some(LogFailure::CannotRead),
    ),
    (ErrorKind::UnexpectedEof, 7, Some(LogFailure::CannotRead)),
    (ErrorKind::WouldBlock, 40, Some(LogFailure::CannotRead)),
    (ErrorKind::OutOfMemory, 7, Some(LogFailure::NoMemory)),
    (ErrorKind::Interrupted, 7, None),
];

/// A read behind so many others fails so, and is told of by the third part. Answers whether there was such a read; else
/// the log is judged as ever.
fn is_read_failed(
    rt: &impl Abort,
    alloc: Global,
    log: &Log,
    (failure, piece, want): (ErrorKind, usize, Option<LogFailure>),
    before: usize,
) -> bool {
    let mut reader = FailingReader {
        bytes: log.text,
        piece,
        failure,
        before,
        has_failed: false,
    };
    let answer = verdict_on(alloc, &mut FromReader::new(&mut reader), None);
    let has_failed = reader.has_failed;
    match want {
        Some(failure) if has_failed => {
            assert_eq!(rt; answer, Err(failure), "{}: read {before}", log.name);
        }
        _ => assert!(rt; log.is_told(answer), "{}: read {before}", log.name),
    }
    has_failed
}

/// Each read of a log fails so in turn.
fn fail_each_read(
    rt: &impl Abort,
    alloc: Global,
    log: &Log,
    failure: (ErrorKind, usize, Option<LogFailure>),
) {
    let mut reads = 0;
    for before in 0..MOST {
        if !is_read_failed(rt, alloc, log, failure, before) {
            break;
        }
        reads = before + 1;
    }
    assert!(rt; reads > 0 && reads < MOST, "{}", log.name);
}

#[test]
fn a_read_that_fails_is_told_of(rt: HostRuntime) -> Result<(), Fail> {
    for failure in FAILURES {
        for log in &LOGS {
            fail_each_read(&rt, rt.alloc(), log, failure);
        }
    }
    Ok(())
}
