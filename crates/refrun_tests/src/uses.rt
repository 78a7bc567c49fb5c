//! What a caller can prove of the answers to texts, from the contracts alone.

ghost use Rattle.std.specs.Prelude.{◌≡◌, true, [], Some};
ghost use Rattle.std.specs.Io.KnownBytes.{Keeps};
ghost use Rattle.ref_script.specs.Answers.{TellsFault};
ghost use Rattle.ref_text.specs.declared.fault.TextFault.TheVariants.{Line};
ghost use Rattle.ref_text.specs.declared.fault.LineFault.TheVariants.{ExtraWord, NotAscii, MissingWord};

use crate::fakes::ReadsThenFails;
use ref_base::ObjNo;
use ref_script::strength_text;
use refrun::{
    Check, FromReader, LineFault, ReadError, TextFault, TextSink, TextSource, ToWriter,
    evidence_of, run_script,
};
use std::alloc::Global;
use std::io::{self, ErrorKind, Read, Write};

// promise: run_script: ExtraWord with its line, and nothing is printed
/// A word behind the last operand is told of, and nothing is printed.
pub fn an_extra_word_is_told<W: TextSink>(alloc: Global, writer: &mut W) -> Result<(), TextFault>
    ensures told { TellsFault (Line 3 ExtraWord) result }
    ensures nothing { Keeps (W.contents writer.old) (W.contents writer.new) }
{
    let script = b"refscript 1\nconfig 1 1 1 8 10\nm0 put x\n".as_slice();
    run_script(alloc, &mut FromReader::new(script), writer, Vec::new(alloc))
}

// promise: run_script: NotAscii with its line, in a remark too, and nothing is printed
/// A byte above 127 is told, in a remark too.
pub fn a_byte_above_127_is_told<W: TextSink>(alloc: Global, writer: &mut W) -> Result<(), TextFault>
    ensures told { TellsFault (Line 3 NotAscii) result }
    ensures nothing { Keeps (W.contents writer.old) (W.contents writer.new) }
{
    let script = b"refscript 1\nconfig 1 1 1 8 10\n# \xff\n".as_slice();
    run_script(alloc, &mut FromReader::new(script), writer, Vec::new(alloc))
}

// promise: strength_text: MissingWord with its line, and nothing is listed
/// Of a graph text a line that wants a word is told of, and nothing is listed.
pub fn a_missing_word_is_told<W: TextSink>(alloc: Global, writer: &mut W) -> Result<(), TextFault>
    ensures told { TellsFault (Line 3 MissingWord) result }
    ensures nothing { Keeps (W.contents writer.old) (W.contents writer.new) }
{
    let graph = b"refgraph 1\nplain 1\nsoft 2\n".as_slice();
    strength_text(alloc, &mut FromReader::new(graph), writer)
}

/// A writer that takes nothing.
#[derive(Drop)]
pub struct Full;

impl Write for Full {
    ghost contents = { λ _. Some [] };

    fn write(&mut self, _bytes: &[u8]) -> io::Result<usize> {
        Ok(0)
    }

    fn flush(&mut self) -> io::Result<()> {
        Ok(())
    }
}

// promise: ToWriter::write_text: a writer that takes nothing is a failure
/// Nothing goes out to a writer that takes nothing.
pub fn a_full_writer_fails() -> bool
    ensures { result ≡ true }
{
    ToWriter::new(Full).write_text(b"x".as_slice()).is_err()
}

// promise: FromReader::read: a read that failed is marked
/// A read that failed is marked.
pub fn a_failed_read_is_marked<R: Read>(source: &mut FromReader<R>) -> bool
    ensures { result ≡ true → ⟦<FromReader<R> as TextSource>⟧.has_failed source.new ≡ true }
{
    let mut buffer = [0u8; 8];
    matches!(source.read(buffer.as_mut_slice()), Err(ReadError::Failed))
}

// promise: evidence_of: where the rest check fails something is told
/// Where a number stands, something is told that shows it.
pub fn what_stands_is_told(number: ObjNo, lists: &[Vec<ObjNo>]) -> bool
    ensures { result ≡ true }
{
    evidence_of(Check::Rest, &[], &[], &[number], lists, &[], &[]).is_some()
}

#[test]
fn a_faulty_line_is_told_of_and_nothing_is_printed(rt: HostRuntime) {
    let alloc = rt.alloc();
    let mut printed = Vec::new(alloc);
    let mut writer = ToWriter::new(&mut printed);
    let answers = [
        (
            an_extra_word_is_told(alloc, &mut writer),
            LineFault::ExtraWord,
        ),
        (
            a_byte_above_127_is_told(alloc, &mut writer),
            LineFault::NotAscii,
        ),
        (
            a_missing_word_is_told(alloc, &mut writer),
            LineFault::MissingWord,
        ),
    ];
    for (answer, fault) in answers {
        assert_eq!(rt; answer, Err(TextFault::Line(3, fault)));
    }
    drop(writer);
    assert!(rt; printed.is_empty());
}

#[test]
fn what_fails_is_no_success(rt: HostRuntime) {
    let failing = ReadsThenFails {
        bytes: b"".as_slice(),
        failure: ErrorKind::BrokenPipe,
    };
    let facts = [
        ("nothing goes out to a full writer", a_full_writer_fails()),
        (
            "a read that failed",
            a_failed_read_is_marked(&mut FromReader::new(failing)),
        ),
        (
            "a number that stands is told",
            what_stands_is_told(ObjNo(7), &[]),
        ),
    ];
    for (fact, holds) in facts {
        assert!(rt; holds, "{fact}");
    }
}
