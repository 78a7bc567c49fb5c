//! What becomes of texts, and of texts as long as they may be.

use crate::cases::{CASES, Case, Task};
use crate::jobs::script_jobs;
use ref_script::strength_text;
use refrun::{
    FromReader, LineFault, TextFault, TextSink, TextSource, ToWriter, plain_jobs, run_script,
    run_script_with,
};
use std::alloc::{AllocError, Allocator, Global};
use std::process::Abort;

/// A graph with each kind of line.
pub const GRAPH: &[u8] =
    b"refgraph 1\nroot 1\nplain 1 2 4 6\nsoft 2 3\nplain 3\nweak 4 5\nplain 5 8\nphantom 6 7\nplain 7\nplain 8\n";

/// Its listing.
pub const LISTING: &[u8] =
    b"1 strong\n2 strong\n3 soft\n4 strong\n5 weak\n6 strong\n7 phantom\n8 weak\n";

/// Does it, with memory of this allocator.
pub fn answer<R: TextSource, W: TextSink, A: Allocator + Copy>(
    task: Task,
    memory: A,
    alloc: Global,
    reader: &mut R,
    writer: &mut W,
) -> Result<(), TextFault> {
    match task {
        Task::Run => run_script(memory, reader, writer, Vec::new(memory)),
        Task::RunWithJobs => {
            let jobs = script_jobs(memory, alloc)?;
            run_script(memory, reader, writer, jobs)
        }
        Task::RunWithPlainJobs => {
            let jobs = plain_jobs(memory)?;
            run_script_with(memory, reader, writer, jobs)
        }
        Task::List => strength_text(memory, reader, writer),
    }
}

/// What a text answers, with memory of this allocator, and what it prints.
pub fn printed<A: Allocator + Copy>(
    task: Task,
    memory: A,
    alloc: Global,
    text: &[u8],
) -> (Result<(), TextFault>, Vec<u8>) {
    let mut output = Vec::new(alloc);
    let mut reader = FromReader::new(text);
    let answer = answer(
        task,
        memory,
        alloc,
        &mut reader,
        &mut ToWriter::new(&mut output),
    );
    (answer, output)
}

/// What was made: a test ends where there was no memory for it.
pub fn whole<T: Drop>(rt: &impl Abort, made: Result<T, AllocError>) -> T {
    match made {
        Ok(made) => made,
        Err(_) => panic!(rt; "no memory"),
    }
}

/// What the program says of a fault.
pub fn message(rt: &impl Abort, alloc: Global, fault: TextFault) -> String {
    whole(rt, format!(in alloc; "refrun: {fault}\n"))
}

/// The answer to the text of a case is what it must be, and so is what was printed.
pub fn agree(
    rt: &impl Abort,
    alloc: Global,
    case: &Case,
    answer: Result<(), TextFault>,
    output: &[u8],
) {
    let name = case.name;
    assert_eq!(rt; output, case.prints, "{name}");
    let error = match answer {
        Ok(()) => String::new(alloc),
        Err(fault) => {
            assert_eq!(rt; fault.exit_status(), 3, "{name}");
            message(rt, alloc, fault)
        }
    };
    assert_eq!(rt; error.as_str(), case.error, "{name}");
}

#[test]
fn each_text_prints_what_it_must_or_its_fault(rt: HostRuntime) {
    let alloc = rt.alloc();
    for case in &CASES {
        let (answer, output) = printed(case.task, alloc, alloc, case.text);
        agree(&rt, alloc, case, answer, output.as_slice());
        // Jobs that are two numbers each, and no action, print the same.
        if let Task::RunWithJobs = case.task {
            let (answer, output) = printed(Task::RunWithPlainJobs, alloc, alloc, case.text);
            agree(&rt, alloc, case, answer, output.as_slice());
        }
    }
}

#[test]
fn each_fault_of_no_line_has_its_message_and_its_status(rt: HostRuntime) {
    let faults = [
        (TextFault::CannotRead, "refrun: cannot read\n", 3),
        (TextFault::CannotWrite, "refrun: cannot write\n", 3),
        (TextFault::TooLong, "refrun: script too long\n", 3),
        (TextFault::NoMemory, "refrun: no memory\n", 5),
    ];
    for (fault, want, status) in faults {
        assert_eq!(rt; message(&rt, rt.alloc(), fault).as_str(), want);
        assert_eq!(rt; fault.exit_status(), status);
    }
}

/// A text as long as a text may be, which begins so and goes on with one byte, answers and prints this; with one byte
/// more it is too long, whatever faults it has.
fn may_be_so_long(
    rt: &impl Abort,
    alloc: Global,
    (task, start, byte): (Task, &[u8], u8),
    want: Result<(), TextFault>,
    prints: &[u8],
) {
    let mut text = whole(rt, Vec::from_slice(alloc, start));
    let rest = vec![in alloc; byte; 4_194_304usize.saturating_sub(text.len())];
    whole(rt, text.extend_from_slice(whole(rt, rest).as_slice()));
    let (answer, output) = printed(task, alloc, alloc, text.as_slice());
    assert_eq!(rt; answer, want);
    assert_eq!(rt; output.as_slice(), prints);
    assert!(rt; text.push(byte).is_ok(), "no memory");
    let (answer, output) = printed(task, alloc, alloc, text.as_slice());
    assert_eq!(rt; answer, Err(TextFault::TooLong), "{want:?}");
    assert!(rt; output.is_empty());
}

#[test]
fn a_text_may_have_4194304_bytes(rt: HostRuntime) {
    let script = b"refscript 1\nconfig 1 1 1 1 0\n".as_slice();
    let graph = b"refgraph 1\nplain 1\n".as_slice();
    let good = [
        ((Task::Run, script, b'\n'), b"reftrace 1\n".as_slice()),
        ((Task::List, graph, b'\n'), b"1 unreachable\n".as_slice()),
    ];
    for (text, prints) in good {
        may_be_so_long(&rt, rt.alloc(), text, Ok(()), prints);
    }
    let faulty = [
        ((Task::Run, script, 0), 3, LineFault::LineTooLong),
        (
            (Task::List, b"".as_slice(), 0xff),
            1,
            LineFault::LineTooLong,
        ),
    ];
    for (text, line, fault) in faulty {
        let want = Err(TextFault::Line(line, fault));
        may_be_so_long(&rt, rt.alloc(), text, want, b"".as_slice());
    }
}
