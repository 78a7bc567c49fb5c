//! A text that is given, and what it prints into a buffer that is given too.

ghost use Rattle.std.specs.Prelude.{◌≡◌, length, Some};
ghost use Rattle.refrun.specs.JobViews.{answering_jobs, plain_note, plain_number};
ghost use Rattle.refrun.specs.Traces.{AnswersRun};
ghost use Rattle.ref_text_c.specs.GivenTexts.{ListsText, RunsText, answer_told, buffer_by_room, buffer_left};
ghost use Rattle.ref_text_c.specs.GivenTexts.{told_by_room};

use crate::answer::TextAnswer;
use crate::output::Output;
use ref_script::strength_text;
use ref_text::{FromReader, TextFault};
use refrun::{plain_jobs, run_script_with};
use std::alloc::Global;

/// Runs a script with the jobs of `refrun run`, and writes its trace to the buffer's front, if there is room.
pub fn run(alloc: Global, script: &[u8], buffer: &mut [u8]) -> TextAnswer
    ensures { RunsText script.now buffer.old result buffer.new }
{
    let mut trace = Output::new(alloc);
    let done = trace_into(alloc, script, &mut trace);
    hand(done, trace.bytes.as_slice(), buffer)
}

/// Lists the strengths of a graph's objects, and writes the listing to the buffer's front, if there is room.
pub fn list_strengths(alloc: Global, graph: &[u8], buffer: &mut [u8]) -> TextAnswer
    ensures { ListsText graph.now buffer.old result buffer.new }
{
    let mut listing = Output::new(alloc);
    let mut reader = FromReader::new(graph);
    let done = strength_text(alloc, &mut reader, &mut listing);
    hand(done, listing.bytes.as_slice(), buffer)
}

// Runs a script, and writes its trace behind what was written.
fn trace_into(alloc: Global, script: &[u8], trace: &mut Output) -> Result<(), TextFault>
    ensures { AnswersRun plain_number plain_note answering_jobs script.now (Some trace.old.bytes.items)
        (Some trace.new.bytes.items) result }
{
    let jobs = plain_jobs(alloc)?;
    let mut reader = FromReader::new(script);
    run_script_with(alloc, &mut reader, trace, jobs)
}

// What is told of a text that was answered so and printed this. What is printed goes to the buffer's front, if there is
// room.
fn hand(done: Result<(), TextFault>, printed: &[u8], buffer: &mut [u8]) -> TextAnswer
    ensures answer { result ≡ answer_told done (length printed.now) (length buffer.old) }
    ensures buffer { buffer.new ≡ buffer_left done printed.now buffer.old }
{
    match done {
        Ok(()) => place(printed, buffer),
        Err(TextFault::Line(line, fault)) => TextAnswer::Faulty(line, fault),
        Err(TextFault::TooLong) => TextAnswer::TooLong,
        // Nothing but want of memory can go wrong where memory is read and written.
        Err(TextFault::CannotRead | TextFault::CannotWrite | TextFault::NoMemory) => {
            TextAnswer::NoMemory
        }
    }
}

// Copies what is printed to the buffer's front, if there is room.
fn place(printed: &[u8], buffer: &mut [u8]) -> TextAnswer
    ensures answer { result ≡ told_by_room (length printed.now) (length buffer.old) }
    ensures buffer { buffer.new ≡ buffer_by_room printed.now buffer.old }
{
    let length = printed.len();
    if buffer.len() < length {
        return TextAnswer::NoRoom(length);
    }
    buffer[..length].copy_from_slice(printed);
    TextAnswer::Printed(length)
}
