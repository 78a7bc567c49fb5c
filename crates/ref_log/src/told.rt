//! The lines of a log that say something.

ghost use Rattle.std.specs.Prelude.{◌≡◌, ◌||◌, List, MatchResult};
ghost use Rattle.ref_log.specs.Failures.{is_unread};
ghost use Rattle.ref_log.specs.ReadLines.{CountsOn, FindsTold, HasRead, IsPast, IsStopped};
ghost use Rattle.ref_log.specs.Streams.{line_in};
ghost use Rattle.ref_script.specs.Lines.{TextLine, content_of};

use crate::failure::LogFailure;
use crate::fault::LogFault;
use crate::stream::{LineStream, StreamFault};
use ref_script::{are_ascii, says_nothing};
use ref_text::TextSource;
use std::alloc::Allocator;

/// Reads up to the next line that says something. Answers whether there is one.
pub fn next_told<R: TextSource, A: Allocator>(
    stream: &mut LineStream<A>,
    reader: &mut R,
) -> Result<bool, LogFailure>
    ensures told { (lines read : List TextLine) → HasRead lines read (R.remaining reader.old) stream.old
        → MatchResult result (FindsTold lines read (R.remaining reader.new) stream.new) (IsStopped lines read) }
    ensures failed { R.has_failed reader.new ≡ (R.has_failed reader.old || is_unread result) }
{
    while next_plain(stream, reader)? {
        if !says_nothing(content(stream)) {
            return Ok(true);
        }
    }
    Ok(false)
}

/// Reads the next line, whatever it says. Answers whether there is one.
fn next_plain<R: TextSource, A: Allocator>(
    stream: &mut LineStream<A>,
    reader: &mut R,
) -> Result<bool, LogFailure>
    ensures past { (lines read : List TextLine) → HasRead lines read (R.remaining reader.old) stream.old
        → MatchResult result (IsPast lines read (R.remaining reader.new) stream.new) (IsStopped lines read) }
    ensures count { CountsOn stream.old.number stream.new.number result }
    ensures failed { R.has_failed reader.new ≡ (R.has_failed reader.old || is_unread result) }
{
    match stream.advance(reader) {
        Ok(true) => {
            if !are_ascii(stream.bytes()) {
                return Err(LogFailure::Line(stream.number(), LogFault::NotAscii));
            }
            Ok(true)
        }
        Ok(false) => Ok(false),
        Err(StreamFault::TooLong) => {
            Err(LogFailure::Line(stream.number(), LogFault::LineTooLong))
        }
        Err(StreamFault::CannotRead) => Err(LogFailure::CannotRead),
        Err(StreamFault::NumbersSpent | StreamFault::NoMemory) => Err(LogFailure::NoMemory),
    }
}

/// The bytes that the words of the line stand in that was read last: without the CR that stands right before an LF.
pub fn content<A: Allocator>(stream: &LineStream<A>) -> &[u8]
    ensures { result.now ≡ content_of (line_in stream.now) }
{
    let bytes = stream.bytes();
    if !stream.is_ended() {
        return bytes;
    }
    match bytes.split_last() {
        Some((last, front)) if *last == b'\r' => front,
        _ => bytes,
    }
}
