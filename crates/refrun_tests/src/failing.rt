//! What becomes of a text where a read, a write or a flush fails: each in turn, until a run meets no failure.

use crate::cases::{CASES, Case, Task};
use crate::fakes::{Failing, FailingReader, FailingWriter, ReadsThenFails, WriteFailure};
use crate::texts::{agree, answer, whole};
use refrun::{FromReader, TextFault, ToWriter};
use std::alloc::Global;
use std::io::{ErrorKind, Read};
use std::process::Abort;

/// More calls than a run of a case makes.
const MOST: usize = 1_000;

/// What a text answers that is read from here, and what it prints.
fn read_from<R: Read + Drop>(
    alloc: Global,
    task: Task,
    reader: R,
) -> (Result<(), TextFault>, Vec<u8>) {
    let mut output = Vec::new(alloc);
    let answer = answer(
        task,
        alloc,
        alloc,
        &mut FromReader::new(reader),
        &mut ToWriter::new(&mut output),
    );
    (answer, output)
}

/// How a read fails, the most bytes that the others give, and what is told: `None` where the read is tried again.
const READ_FAILURES: [(ErrorKind, usize, Option<TextFault>); 8] = [
    (ErrorKind::BrokenPipe, 1, Some(TextFault::CannotRead)),
    (
        ErrorKind::BrokenPipe,
        usize::MAX,
        Some(TextFault::CannotRead),
    ),
    (ErrorKind::WouldBlock, 7, Some(TextFault::CannotRead)),
    (ErrorKind::TimedOut, 7, Some(TextFault::CannotRead)),
    (ErrorKind::UnexpectedEof, 7, Some(TextFault::CannotRead)),
    (ErrorKind::Other, 7, Some(TextFault::CannotRead)),
    (ErrorKind::OutOfMemory, 7, Some(TextFault::NoMemory)),
    (ErrorKind::Interrupted, 7, None),
];

/// A read behind so many others fails so, is told of by this, and nothing is printed. Answers whether there was such a
/// read; else the text is read as ever.
fn is_read_failed(
    rt: &impl Abort,
    alloc: Global,
    case: &Case,
    (failure, piece, want): (ErrorKind, usize, Option<TextFault>),
    before: usize,
) -> bool {
    let mut bytes = FailingReader {
        bytes: case.text,
        piece,
        failing: Failing::once(before),
        failure,
    };
    let (answer, output) = read_from(alloc, case.task, &mut bytes);
    let has_failed = bytes.failing.has_failed();
    match want {
        Some(fault) if has_failed => {
            assert_eq!(rt; answer, Err(fault), "{}: read {before}", case.name);
            assert!(rt; output.is_empty(), "{}: read {before}", case.name);
        }
        _ => agree(rt, alloc, case, answer, output.as_slice()),
    }
    has_failed
}

/// Each read of a text fails so in turn.
fn fail_each_read(
    rt: &impl Abort,
    alloc: Global,
    case: &Case,
    failure: (ErrorKind, usize, Option<TextFault>),
) {
    let (_, piece, _) = failure;
    let mut reads = 0;
    for before in 0..MOST {
        if !is_read_failed(rt, alloc, case, failure, before) {
            break;
        }
        reads = before + 1;
    }
    // All pieces are read, and then the end.
    assert!(rt;
        reads < MOST && reads.saturating_mul(piece) > case.text.len(),
        "{}",
        case.name
    );
}

#[test]
fn a_read_that_fails_is_told_of_and_nothing_is_printed(rt: HostRuntime) {
    for failure in READ_FAILURES {
        for case in &CASES {
            fail_each_read(&rt, rt.alloc(), case, failure);
        }
    }
}

/// Interruptions of reading: how many reads come before the first, how many interruptions there are, how many reads
/// come between two, and whether the text is read.
const INTERRUPTIONS: [(usize, u32, usize, bool); 8] = [
    (0, 999, 0, true),
    (0, 1_000, 0, false),
    (9, 999, 0, true),
    (9, 1_000, 0, false),
    (0, 999, 1, true),
    (0, 1_000, 1, false),
    (5, 999, 2, true),
    (5, 1_000, 2, false),
];

/// The text of a case, with so many empty lines behind it that thousands of reads come before its end.
fn lengthened(rt: &impl Abort, alloc: Global, case: &Case) -> Vec<u8> {
    let mut text = whole(rt, Vec::from_slice(alloc, case.text));
    let blank = whole(rt, vec![in alloc; b'\n'; 4_000]);
    whole(rt, text.extend_from_slice(blank.as_slice()));
    text
}

/// What becomes of a case whose reader is interrupted so.
fn survive(rt: &impl Abort, alloc: Global, case: &Case, failing: Failing, is_read: bool) {
    let text = lengthened(rt, alloc, case);
    let reader = FailingReader {
        bytes: text.as_slice(),
        piece: 1,
        failing,
        failure: ErrorKind::Interrupted,
    };
    let (answer, output) = read_from(alloc, case.task, reader);
    if is_read {
        agree(rt, alloc, case, answer, output.as_slice());
    } else {
        assert_eq!(rt; answer, Err(TextFault::CannotRead), "{}", case.name);
        assert!(rt; output.is_empty(), "{}", case.name);
    }
}

#[test]
fn the_thousandth_interruption_is_a_failure(rt: HostRuntime) {
    for (before, times, between, is_read) in INTERRUPTIONS {
        for case in &CASES {
            let failing = Failing::often(before, times, between);
            survive(&rt, rt.alloc(), case, failing, is_read);
        }
    }
}

#[test]
fn reading_stops_once_a_text_is_too_long(rt: HostRuntime) {
    let alloc = rt.alloc();
    for (length, want) in [
        (4_194_304, TextFault::CannotRead),
        (4_194_305, TextFault::TooLong),
    ] {
        let text = whole(&rt, vec![in alloc; b'\n'; length]);
        for task in [Task::Run, Task::List] {
            let reader = ReadsThenFails {
                bytes: text.as_slice(),
                failure: ErrorKind::BrokenPipe,
            };
            let (answer, output) = read_from(alloc, task, reader);
            assert_eq!(rt; answer, Err(want), "{length}");
            assert!(rt; output.is_empty(), "{length}");
        }
    }
}

/// The most bytes that a write takes: one at a time, a few, all.
const PIECES: [usize; 3] = [1, 7, usize::MAX];

/// How a write or a flush fails. An interruption is a failure too.
const WRITE_FAILURES: [WriteFailure; 8] = [
    WriteFailure::Write(ErrorKind::BrokenPipe),
    WriteFailure::Write(ErrorKind::Interrupted),
    WriteFailure::Write(ErrorKind::WouldBlock),
    WriteFailure::Write(ErrorKind::StorageFull),
    WriteFailure::Write(ErrorKind::OutOfMemory),
    WriteFailure::TakesNothing,
    WriteFailure::Flush(ErrorKind::BrokenPipe),
    WriteFailure::Flush(ErrorKind::Interrupted),
];

/// A write or flush behind so many others fails so and is told of, and a prefix of the output went out. Answers whether
/// there was such a one; else the whole output went out.
fn is_write_failed(
    rt: &impl Abort,
    alloc: Global,
    case: &Case,
    piece: usize,
    before: usize,
    failure: WriteFailure,
) -> bool {
    let mut writer = FailingWriter {
        taken: Vec::new(alloc),
        piece,
        failing: Failing::once(before),
        failure,
    };
    let mut reader = FromReader::new(case.text);
    let mut sink = ToWriter::new(&mut writer);
    let answer = answer(case.task, alloc, alloc, &mut reader, &mut sink);
    drop(sink);
    let taken = writer.taken.as_slice();
    let has_failed = writer.failing.has_failed();
    if !has_failed {
        agree(rt, alloc, case, answer, taken);
        return false;
    }
    assert_eq!(rt;
        answer,
        Err(TextFault::CannotWrite),
        "{}: {before}",
        case.name
    );
    assert!(rt; case.prints.starts_with(taken), "{}: {before}", case.name);
    true
}

/// Each write or flush of a text's output fails so in turn.
fn fail_each_write(
    rt: &impl Abort,
    alloc: Global,
    case: &Case,
    piece: usize,
    failure: WriteFailure,
) {
    let mut calls = 0;
    for before in 0..MOST {
        if !is_write_failed(rt, alloc, case, piece, before, failure) {
            break;
        }
        calls = before + 1;
    }
    // All that goes out is written, and then flushed.
    let wanted = match failure {
        WriteFailure::Flush(_) => case.prints.len().min(1),
        _ => case.prints.len(),
    };
    let is_enough = calls < MOST && calls.saturating_mul(piece) >= wanted;
    assert!(rt; is_enough, "{}: {calls}", case.name);
}

#[test]
fn a_write_that_fails_is_told_of_and_a_prefix_went_out(rt: HostRuntime) {
    for failure in WRITE_FAILURES {
        for case in &CASES {
            for piece in PIECES {
                fail_each_write(&rt, rt.alloc(), case, piece, failure);
            }
        }
    }
}
