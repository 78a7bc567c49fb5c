//! A whole graph text: its header and its declarations.

ghost use Rattle.std.specs.Prelude.{◌≡◌, ◌+◌, ◌≤◌, [], true, length, IfOk, IfErr, OnOk, OnErr};
ghost use Rattle.std.specs.List.{list_all};
ghost use Rattle.ref_script.specs.DeclarationViews.{declared_by};
ghost use Rattle.ref_script.specs.GraphReading.{AddsObject, AddsDeclared, AddsAll, FailsAfter};
ghost use Rattle.ref_script.specs.GraphTexts.{is_graph_header, DeclareGraph};
ghost use Rattle.ref_script.specs.Lines.{lines_of, words_of, most_bytes};
ghost use Rattle.ref_script.specs.LineReading.{FailsFor};
ghost use Rattle.ref_script.specs.TextFaults.{GraphHeader, Declarations, first_fault};
ghost use Rattle.ref_script.specs.ToldLines.{is_plain_line, told};

use crate::declarations::{Declaration, Fields, declaration_of};
use crate::told::{Lines, is_titled};
use ref_base::{Fault, ObjNo};
use ref_graph::Graph;
use ref_text::{LineFault, TextFault};
use std::alloc::Allocator;

/// The graph that a text declares, or the fault of its first faulty line.
pub fn declared_graph<A: Allocator + Copy>(alloc: A, text: &[u8]) -> Result<Graph<A>, TextFault>
    requires { length text.now ≤ most_bytes }
    ensures found { IfOk result (λ graph. DeclareGraph (lines_of text.now) graph) }
    ensures fault { IfErr result (λ e. FailsFor e (first_fault GraphHeader 1 (lines_of text.now))) }
{
    let mut lines = Lines::of(text);
    let Some(line) = lines.next_told()? else {
        return Err(TextFault::Line(lines.number() + 1, LineFault::BadHeader));
    };
    if !is_header(line) {
        return Err(TextFault::Line(lines.number(), LineFault::BadHeader));
    }
    graph_behind(alloc, &mut lines)
}

/// The graph of the lines behind the header.
fn graph_behind<A: Allocator + Copy>(alloc: A, lines: &mut Lines<'_>) -> Result<Graph<A>, TextFault>
    ensures spelt { IfOk result (λ graph. AddsAll (told lines.old.lines) graph) }
    ensures plain { IfOk result (λ graph. list_all is_plain_line lines.old.lines ≡ true) }
    ensures fault { IfErr result (λ e. FailsFor e
        (first_fault (Declarations []) (lines.old.number + 1) lines.old.lines)) }
{
    let mut graph = Graph::new(alloc);
    let mut fields = Fields::new();
    while let Some(content) = lines.next_told()? {
        add_line(&mut graph, content, lines.number(), &mut fields)?;
    }
    Ok(graph)
}

/// Adds what the line of this number says. Its fields are read into `fields`, in the place of another line's.
fn add_line<A: Allocator + Copy>(
    graph: &mut Graph<A>,
    content: &[u8],
    number: u64,
    fields: &mut Fields,
) -> Result<(), TextFault>
    ensures ok { OnOk result (AddsDeclared (words_of content.now) graph.old graph.new) }
    ensures fault { IfErr result (FailsAfter (words_of content.now) number graph.old) }
{
    let declaration = match declaration_of(content, fields) {
        Ok(declaration) => declaration,
        Err(fault) => return Err(TextFault::Line(number, fault)),
    };
    if !add_declaration(graph, declaration, fields.as_slice())? {
        return Err(TextFault::Line(number, LineFault::DoubleObject));
    }
    Ok(())
}

/// Adds what a line says. Answers whether it could be said: its object may not be there already. What was read has at
/// most 8 fields, so that the graph refuses it for want of memory alone.
fn add_declaration<A: Allocator + Copy>(
    graph: &mut Graph<A>,
    declaration: Declaration,
    fields: &[Option<ObjNo>],
) -> Result<bool, TextFault>
    ensures ok { IfOk result (AddsObject graph.old graph.new (declared_by declaration fields.now)) }
    ensures err { OnErr result (result ≡ Err TextFault.NoMemory) }
{
    let added = match declaration {
        Declaration::Root { no } => graph.add_root(no).map(|_| true),
        Declaration::Plain { no } => graph.add_object(no, fields),
        Declaration::Reference {
            no,
            strength,
            referent,
        } => graph.add_reference(no, strength, referent, fields),
    };
    added.map_err(|_| TextFault::NoMemory)
}

/// Whether a line is the header.
fn is_header(line: &[u8]) -> bool
    ensures { result ≡ is_graph_header (words_of line.now) }
{
    is_titled(line, b"refgraph".as_slice(), b"1".as_slice())
}
