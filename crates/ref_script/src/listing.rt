//! How strongly the objects of a graph text are reachable, and the text that says so.

ghost use Rattle.std.specs.Prelude.{◌≡◌, ◌≤◌, ◌||◌, length, None, Some, IfOk, IfErr, OnErr, IfSome};
ghost use Rattle.std.specs.Fmt.{DisplaysOnOk};
ghost use Rattle.ref_script.specs.Answers.{KeepsUnlessDone, TellsFault, is_cannot_read, is_cannot_write};
ghost use Rattle.ref_script.specs.LineReading.{FailsFor};
ghost use Rattle.ref_script.specs.Lines.{lines_of, most_bytes};
ghost use Rattle.ref_script.specs.Listings.{AnswersStrengths, ListsStrengths, PrintsStrengths, listing_line};
ghost use Rattle.ref_script.specs.Listings.{listing_text};
ghost use Rattle.ref_script.specs.TextFaults.{GraphHeader, first_fault, graph_fault};

use crate::graph_text::declared_graph;
use crate::printed::Printed;
use crate::reading::text_of;
use ref_base::ObjectReach;
use ref_graph::{Graph, strengths};
use ref_text::{TextFault, TextSink, TextSource, WriteFailed};
use std::alloc::{AllocError, Allocator};
use std::fmt;
use std::fmt::Formatter;

/// How many bytes are taken for a line at first: few lines are longer.
const LINE_TEXT: usize = 20;

/// Reads a graph text, and writes how strongly each of its objects is reachable.
///
/// The whole text is read and all the output is made before anything is written. Returns `Ok` where the output has gone
/// out, and else the first of three: `CannotRead` where a read failed; `TooLong`, or the fault of the first faulty
/// line; `CannotWrite` where a write failed. With the last a prefix of the output may have gone out, and `NoMemory` may
/// come in place of each other.
///
/// All its memory is of this allocator.
pub fn strength_text<R: TextSource, W: TextSink, A: Allocator + Copy>(
    alloc: A,
    reader: &mut R,
    writer: &mut W,
) -> Result<(), TextFault>
    ensures answer { IfSome (R.remaining reader.old) (λ text.
        AnswersStrengths text (W.contents writer.old) (W.contents writer.new) result) }
    ensures refused { IfSome (R.remaining reader.old) (λ text.
        IfSome (graph_fault text) (λ fault. TellsFault fault result)) }

    // Whatever is known of the text.
    ensures kept { KeepsUnlessDone (W.contents writer.old) (W.contents writer.new) result }
    ensures cannot_read { R.has_failed reader.new ≡ (R.has_failed reader.old || is_cannot_read result) }
    ensures cannot_write { W.has_failed writer.new ≡ (W.has_failed writer.old || is_cannot_write result) }
{
    let text = text_of(alloc, reader)?;
    let listing = listing_behind(alloc, text.as_slice())?;
    match writer.write_text(listing.as_slice()) {
        Ok(()) => Ok(()),
        Err(WriteFailed) => Err(TextFault::CannotWrite),
    }
}

/// The listing of the graph that a text declares, or the fault of the text's first faulty line.
fn listing_behind<A: Allocator + Copy>(alloc: A, text: &[u8]) -> Result<Printed<A>, TextFault>
    requires { length text.now ≤ most_bytes }
    ensures prints { IfOk result (λ listing. PrintsStrengths text.now listing) }
    ensures sound { IfOk result (λ listing. graph_fault text.now ≡ None) }
    ensures fault { IfErr result (λ e. FailsFor e (first_fault GraphHeader 1 (lines_of text.now))) }
{
    let graph = declared_graph(alloc, text)?;
    listing_of(alloc, &graph)
}

/// The listing of the strengths of a graph's objects.
fn listing_of<A: Allocator + Copy>(alloc: A, graph: &Graph<A>) -> Result<Printed<A>, TextFault>
    ensures text { IfOk result (λ text. ListsStrengths graph.now text) }
    ensures err { OnErr result (result ≡ Err TextFault.NoMemory) }
{
    let listed = strengths(alloc, graph).map_err(|_| TextFault::NoMemory)?;
    Ok(lines_of_objects(alloc, listed.as_slice())?)
}

/// A line for each object.
fn lines_of_objects<A: Allocator>(
    alloc: A,
    listed: &[ObjectReach],
) -> Result<Printed<A>, AllocError>
    ensures { IfOk result (λ text. text ≡ listing_text listed.now) }
{
    // Room for most listings at once, and one formatter for all lines.
    let text = Printed::with_capacity(alloc, listed.len().saturating_mul(LINE_TEXT))?;
    let mut listing = Formatter::new(text);
    for object in listed {
        // What it prints into fails where memory is refused, and only there.
        let Ok(()) = say_object(&mut listing, object) else {
            return Err(AllocError);
        };
    }
    Ok(listing.into_inner())
}

/// Prints the line of an object.
#[inline(always)]
fn say_object<W: fmt::Write>(f: &mut Formatter<W>, listed: &ObjectReach) -> fmt::Result
    ensures { DisplaysOnOk W.write_str_gives f.old result (Some (listing_line listed.now)) f.new }
{
    fmt::Display::fmt(&listed.object, f)?;
    f.write_str(" ")?;
    fmt::Display::fmt(&listed.reach, f)?;
    f.write_str("\n")
}
