//! The judging of a log.

ghost use Rattle.std.specs.Prelude.{◌≡◌, ◌||◌, ◌<◌, ◌^◌, ℕ, List, Option, Some, IfOk, IfSome, MatchResult, OnOk};
ghost use Rattle.ref_base.specs.declared.config.Config.{Config as Configuration};
ghost use Rattle.ref_log.specs.Checking.{Tells, TellsOfRow};
ghost use Rattle.ref_log.specs.Failures.{is_unread};
ghost use Rattle.ref_judge.specs.Standing.{ObjectsTo};
ghost use Rattle.ref_log.specs.HeadReading.{IsBehindHead, IsNoRowIn};
ghost use Rattle.ref_log.specs.JudgedRows.{AreSameNames, IsPlacedPart, IsRowRead, named_judged, part_of, ReadsPart};
ghost use Rattle.ref_log.specs.JudgedRows.{ReadsRow, SpellsSome, TakesPart};
ghost use Rattle.ref_log.specs.LogHeads.{first_names};
ghost use Rattle.ref_log.specs.LogRows.{SpellsRow};
ghost use Rattle.ref_log.specs.NameViews.{names_known};
ghost use Rattle.ref_log.specs.Names.{MeanAlike, numbered_row};
ghost use Rattle.ref_log.specs.RowTexts.{in_script, IsPlacedRow};
ghost use Rattle.ref_log.specs.Streams.{line_in};
ghost use Rattle.ref_script.specs.Lines.{TextLine, lines_of, words_of};
ghost use Rattle.ref_script.specs.ToldLines.{line_words};

use crate::called::{Called, known_as, told_as};
use crate::failure::{Finding, LogFailure, Verdict};
use crate::fault::LogFault;
use crate::head::{Head, head_of};
use crate::names::Names;
use crate::rows::row_of;
use crate::stream::LineStream;
use crate::told::{content, next_told};
use ref_base::{Config, MutNo, ObjNo, Outs, PlainStep, Reply, Row, SlotNo, Step};
use ref_judge::{Because, Breach, History, Instead, Judge, Objection};
use ref_script::{ScriptReply, ScriptRow, ScriptStep};
use ref_text::TextSource;
use std::alloc::{AllocError, Allocator};

/// Judges a log, row by row, as it is read. It stops at the first illegal row. The configuration is that of the log's
/// line, or the given one with the rule of the log, and then the log has no such line. Takes the memory of the heap and
/// of what stands in queues, of one line and of one chunk, and of each name once, and the time of the rows.
pub fn verdict_on<R: TextSource, A: Allocator + Copy>(
    alloc: A,
    reader: &mut R,
    config: Option<Config>,
) -> Result<Verdict, LogFailure>
    ensures verdict { IfSome (R.remaining reader.old) (λ text. Tells config (lines_of text) result) }
    ensures failed { R.has_failed reader.new ≡ (R.has_failed reader.old || is_unread result) }
{
    let mut stream = LineStream::new(alloc)?;
    let head = head_of(&mut stream, reader, config)?;
    verdict_behind(alloc, &mut stream, reader, head)
}

/// Judges the rows behind a head.
fn verdict_behind<R: TextSource, A: Allocator + Copy>(
    alloc: A,
    stream: &mut LineStream<A>,
    reader: &mut R,
    head: Head,
) -> Result<Verdict, LogFailure>
    ensures verdict { (given : Option Configuration) (lines : List TextLine)
        → IsBehindHead given lines (R.remaining reader.old) stream.old head.profile head.config head.is_named
        head.has_row
        → Tells given lines result }
    ensures failed { R.has_failed reader.new ≡ (R.has_failed reader.old || is_unread result) }
{
    let Ok(mut judge) = Judge::new(alloc, head.config, head.profile) else {
        return Err(LogFailure::NoMemory);
    };
    let mut names = first_names(alloc, head.is_named);
    let mut history = History::new();
    let mut rows = 0u64;
    let mut has_row = head.has_row;
    while has_row {
        let row = next_row(&judge, &mut names, stream, rows)?;
        if rows == u64::MAX {
            return Err(LogFailure::NoMemory);
        }
        rows += 1;
        match taken(&mut judge, row) {
            Ok(row) => history.note(rows, row),
            Err(refused) => return told_of(&judge, &history, &names, stream, rows, refused),
        }
        has_row = next_told(stream, reader)?;
    }
    Ok(Verdict::Legal { rows })
}

/// What is told of a row that the judge didn't take: it is the last of so many, and the last line that was read.
fn told_of<A: Allocator + Copy>(
    judge: &Judge<A>,
    history: &History,
    names: &Option<Names<A>>,
    stream: &LineStream<A>,
    rows: u64,
    refused: (Row, Objection),
) -> Result<Verdict, LogFailure>
    ensures { TellsOfRow rows stream.now.number refused.0 refused.1 result }
{
    let (row, objection) = refused;
    let Objection::Illegal(breach) = objection else {
        return Err(LogFailure::NoMemory);
    };
    let finding = Finding::bare(rows, stream.number(), row, breach);
    Ok(Verdict::Illegal(explained(judge, history, names, content(stream), finding)))
}

/// The names that were given at first, where objects have names.
fn first_names<A: Allocator + Copy>(alloc: A, is_named: bool) -> Option<Names<A>>
    ensures { AreSameNames (first_names is_named) (names_known result) }
{
    if is_named {
        Some(Names::new(alloc))
    } else {
        None
    }
}

/// The row of the collector that the line spells that was read last, behind so many rows. None is where it spells one
/// of jobs.
fn next_row<A: Allocator + Copy>(
    judge: &Judge<A>,
    names: &mut Option<Names<A>>,
    stream: &LineStream<A>,
    rows: u64,
) -> Result<Option<Row>, LogFailure>
    ensures { MatchResult result (λ row. ReadsPart judge.now (names_known names.old)
        (line_words (line_in stream.now)) row (names_known names.new))
        (IsNoRowIn judge.now (names_known names.old) stream.now rows) }
{
    match row_in(judge, names, content(stream))? {
        Ok(row) => Ok(placed(judge, row)),
        Err(fault) => {
            let line = stream.number();
            if stream.is_ended() {
                Err(LogFailure::Line(line, fault))
            } else {
                Err(LogFailure::CutOff { rows, line })
            }
        }
    }
}

/// The row that a line spells, with numbers in the place of names where objects have names. The name that it gives is
/// the new object's.
fn row_in<A: Allocator + Copy>(
    judge: &Judge<A>,
    names: &mut Option<Names<A>>,
    line: &[u8],
) -> Result<Result<ScriptRow, LogFault>, AllocError>
    ensures { IfOk result (λ read. ReadsRow judge.now (names_known names.old) (words_of line.now) read
        (names_known names.new)) }
{
    match names {
        None => Ok(row_of(line)),
        Some(names) => {
            name_new(judge, names, line)?;
            named_row_in(names, line)
        }
    }
}

/// The row that a line spells with numbers in the place of names.
fn named_row_in<A: Allocator + Copy>(
    names: &mut Names<A>,
    line: &[u8],
) -> Result<Result<ScriptRow, LogFault>, AllocError>
    ensures read { IfOk result (λ read. IsRowRead (numbered_row names.old.names (words_of line.now)) read) }
    ensures names { names.new.names ≡ names.old.names }
{
    names.number_names(line)?;
    Ok(row_of(names.line()))
}

/// Gives the name that the row of a line gives to the next object, unless an object that is there has it.
fn name_new<A: Allocator + Copy>(
    judge: &Judge<A>,
    names: &mut Names<A>,
    line: &[u8],
) -> Result<(), AllocError>
    ensures { OnOk result (MeanAlike (named_judged judge.now names.old.names (words_of line.now)) names.new.names) }
{
    let Some(number) = names.number_given(line) else {
        return Ok(());
    };
    if judge.is_there(ObjNo(number)) {
        return Ok(());
    }
    match u32::try_from(judge.next_no()) {
        Ok(next) => names.give(line, next),
        Err(_) => Ok(()),
    }
}

/// The collector's row of a row, if it has one: as it is read behind the rows that the judge was told.
fn placed<A: Allocator + Copy>(judge: &Judge<A>, row: ScriptRow) -> Option<Row>
    ensures text { (words : List (List ℕ)) → SpellsRow words row → SpellsSome words (part_of result) }
    ensures placed { IsPlacedPart judge.now result }
{
    let ScriptRow { step, reply } = row;
    match step {
        ScriptStep::World(step) => match reply {
            ScriptReply::World(reply) => Some(placed_row(judge, Row { step, reply })),
            _ => None,
        },
        ScriptStep::Run { mutator, slot } => match reply {
            ScriptReply::Ran(_) => Some(clear_row(mutator, slot)),
            _ => None,
        },
        ScriptStep::Job { .. } => None,
    }
}

/// The row of a job that was run: its reference was cleared.
fn clear_row(mutator: MutNo, reference: SlotNo) -> Row
    ensures { result ≡ record { step = Step.Plain (PlainStep.Clear mutator reference); reply = Reply.Done } }
{
    Row {
        step: Step::Plain(PlainStep::Clear { mutator, reference }),
        reply: Reply::Done,
    }
}

/// Has the judge take the row, if it is one. It comes back, also with an objection.
fn taken<A: Allocator + Copy>(
    judge: &mut Judge<A>,
    row: Option<Row>,
) -> Result<Option<Row>, (Row, Objection)>
    ensures { MatchResult result (λ _. TakesPart judge.old row judge.new)
        (λ r. (row ≡ Some r.0) × ObjectsTo judge.old r.0 r.1 judge.new) }
{
    let Some(row) = row else {
        return Ok(None);
    };
    let judged = row;
    match judge.row(judged) {
        Ok(()) => Ok(Some(row)),
        Err(objection) => Err((row, objection)),
    }
}

/// The row as it is read behind the rows that a judge was told. The text of a batch in which nothing was added doesn't
/// tell how many notices were put in before it: it is as many as were.
fn placed_row<A: Allocator + Copy>(judge: &Judge<A>, row: Row) -> Row
    ensures text { (words : List (List ℕ)) → SpellsRow words (in_script row) → SpellsRow words (in_script result) }
    ensures placed { IsPlacedRow judge.now result }
{
    match (row.step, row.reply) {
        (Step::Puts { actor }, Reply::Outs(outs)) => {
            let before = judge.put_before(actor);
            if outs.as_slice().iter().any(|done| done.is_added()) {
                return row;
            }
            Row {
                step: row.step,
                reply: Reply::Outs(behind(before, outs)),
            }
        }
        _ => row,
    }
}

/// A batch of which the same became, behind so many notices.
fn behind(before: u64, outs: Outs) -> Outs
    requires { before < 2 ^ 63 }
    ensures { result ≡ record outs { before = before } }
{
    let mut moved = Outs::new(before);
    for done in outs.as_slice() {
        moved.push(*done);
    }
    moved
}

/// A finding with what settled what its row breaks, if it is known, and with names, where objects have names.
fn explained<A: Allocator + Copy>(
    judge: &Judge<A>,
    history: &History,
    names: &Option<Names<A>>,
    line: &[u8],
    finding: Finding,
) -> Finding
    ensures number { result.number ≡ finding.number }
    ensures line { result.line ≡ finding.line }
    ensures row { result.row ≡ finding.row }
    ensures breach { result.breach ≡ finding.breach }
{
    let (asked, told) = (finding, finding);
    Finding {
        because: because(judge, history, names.is_some(), asked),
        called: both_called(names, line, told),
        ..finding
    }
}

/// What settled what the row of a finding breaks, if it is known.
fn because<A: Allocator + Copy>(
    judge: &Judge<A>,
    history: &History,
    is_named: bool,
    finding: Finding,
) -> Option<Because> {
    let told = finding;
    match name_in_use(judge, is_named, told.row) {
        Some(no) => Some(Because::InUse(no)),
        None => history.because(judge, finding.row, finding.breach),
    }
}

/// The object that is there and has the name which a row gives to a new one.
fn name_in_use<A: Allocator + Copy>(judge: &Judge<A>, is_named: bool, row: Row) -> Option<ObjNo> {
    let (Step::Plain(step), Reply::Object(no)) = (row.step, row.reply) else {
        return None;
    };
    match step {
        PlainStep::New { .. } | PlainStep::Refer { .. } if is_named && judge.is_there(no) => Some(
            no,
        ),
        _ => None,
    }
}

/// What objects are called that the row of a finding and the answer in its place name, where objects have names.
fn both_called<A: Allocator + Copy>(
    names: &Option<Names<A>>,
    line: &[u8],
    finding: Finding,
) -> [Option<Called>; 2] {
    let Some(names) = names else {
        return [None, None];
    };
    let one = match first_object(finding.row.reply) {
        Some(no) => told_as(line, no),
        None => None,
    };
    let other = match named_instead(finding.breach.instead) {
        Some(no) => known_as(names, no),
        None => None,
    };
    [one, other]
}

/// The first object that the answer names which would have been legal.
fn named_instead(instead: Instead) -> Option<ObjNo> {
    match instead {
        Instead::Only(reply) | Instead::Among(reply) => first_object(reply),
        Instead::Untold => None,
    }
}

/// The first object that a reply names.
fn first_object(reply: Reply) -> Option<ObjNo> {
    match reply {
        Reply::Object(no)
        | Reply::Took(no)
        | Reply::Scanned(no)
        | Reply::Cleared(no)
        | Reply::Kept(no)
        | Reply::Skipped(no)
        | Reply::Moved(no) => Some(no),
        Reply::Notice { object, .. } => Some(object),
        Reply::Notices { objects, .. } => objects.as_slice().first().copied(),
        Reply::TookSome(objects) => objects.as_slice().first().copied(),
        _ => None,
    }
}
