//! Running a script, and the text of its trace.

ghost use Rattle.std.specs.Prelude.{◌≡◌, ◌≤◌, ◌||◌, ◌++◌, ◌∷◌, [], length, None, decimal};
ghost use Rattle.std.specs.Prelude.{IfOk, IfErr, OnOk, OnErr, IfSome, Some};
ghost use Rattle.std.specs.Fmt.{DisplaysOnOk, IsPlainFormatter, formatter_writer};
ghost use Rattle.refrun.specs.JobViews.{job_number, note_of};
ghost use Rattle.ref_script.specs.LineReading.{FailsFor};
ghost use Rattle.ref_script.specs.Lines.{lines_of, most_bytes};
ghost use Rattle.refrun.specs.ScriptStanding.{jobs};
ghost use Rattle.ref_script.specs.ScriptSteps.{script_row_text};
ghost use Rattle.ref_script.specs.TextFaults.{ScriptHeader, first_fault, script_fault};
ghost use Rattle.refrun.specs.Traces.{AnswersRun, PrintsTrace, TellsRow, TellsRun, TellsTrace};
ghost use Rattle.ref_script.specs.Answers.{KeepsUnlessDone, TellsFault, is_cannot_read, is_cannot_write};

use crate::jobs::Stage;
use crate::script_job::ScriptJob;
use ref_base::{SpanRule, say_number};
use ref_queue::{CleanTable, Job};
use ref_script::{
    Printed, Script, ScriptReply, ScriptStep, say_row, script_of, text_of, trace_title,
};
use ref_text::{TextFault, TextSink, TextSource, WriteFailed};
use ref_world::World;
use std::alloc::{AllocError, Allocator};
use std::fmt;
use std::fmt::Formatter;

/// How many bytes are taken for a row at first: few rows are longer.
const ROW_TEXT: usize = 40;

/// Reads a script, runs it with these jobs, and writes its trace.
///
/// The whole text is read before the first step runs, and the whole trace is made before anything of it is written.
/// Returns `Ok` where the trace has gone out, and else the first of three: `CannotRead` where a read failed; `TooLong`,
/// or the fault of the first faulty line; `CannotWrite` where a write failed. With the last a prefix of the trace may
/// have gone out, and `NoMemory` may come in place of each other. A growth that is refused inside a put or a `job` is a
/// row of the trace, and the script goes on.
///
/// A `job` names a job by its number, so no two should have the same. The jobs are spent: one that no `run` took is
/// dropped without being run.
///
/// Beside the text and its trace, the run takes what the world takes, and 48 bytes a step, or at most 144 while the
/// steps are read. All its memory is of this allocator.
pub fn run_script<R: TextSource, W: TextSink, A: Allocator + Copy>(
    alloc: A,
    reader: &mut R,
    writer: &mut W,
    jobs: Vec<Job, A>,
) -> Result<(), TextFault>
    ensures answer { IfSome (R.remaining reader.old) (λ text.
        AnswersRun job_number note_of jobs.items text (W.contents writer.old) (W.contents writer.new) result) }
    ensures refused { IfSome (R.remaining reader.old) (λ text.
        IfSome (script_fault text) (λ fault. TellsFault fault result)) }

    // Whatever is known of the text.
    ensures kept { KeepsUnlessDone (W.contents writer.old) (W.contents writer.new) result }
    ensures cannot_read { R.has_failed reader.new ≡ (R.has_failed reader.old || is_cannot_read result) }
    ensures cannot_write { W.has_failed writer.new ≡ (W.has_failed writer.old || is_cannot_write result) }
{
    run_script_with(alloc, reader, writer, jobs)
}

/// Reads a script, runs it with jobs of any kind, and writes its trace: `run_script`, which has answers and memory the
/// same, is of jobs with actions. A job that no `run` took is dropped.
pub fn run_script_with<R: TextSource, W: TextSink, A: Allocator + Copy, J: ScriptJob>(
    alloc: A,
    reader: &mut R,
    writer: &mut W,
    jobs: Vec<J, A>,
) -> Result<(), TextFault>
    ensures answer { IfSome (R.remaining reader.old) (λ text. AnswersRun J.number_of J.note_of jobs.items text
        (W.contents writer.old) (W.contents writer.new) result) }
    ensures refused { IfSome (R.remaining reader.old) (λ text.
        IfSome (script_fault text) (λ fault. TellsFault fault result)) }

    // Whatever is known of the text.
    ensures kept { KeepsUnlessDone (W.contents writer.old) (W.contents writer.new) result }
    ensures cannot_read { R.has_failed reader.new ≡ (R.has_failed reader.old || is_cannot_read result) }
    ensures cannot_write { W.has_failed writer.new ≡ (W.has_failed writer.old || is_cannot_write result) }
{
    let text = text_of(alloc, reader)?;
    let trace = trace_behind(alloc, text.as_slice(), jobs)?;
    match writer.write_text(trace.as_slice()) {
        Ok(()) => Ok(()),
        Err(WriteFailed) => Err(TextFault::CannotWrite),
    }
}

/// The text of the trace of the script that a text spells, or the fault of the text's first faulty line.
fn trace_behind<A: Allocator + Copy, J: ScriptJob>(
    alloc: A,
    text: &[u8],
    jobs: Vec<J, A>,
) -> Result<Printed<A>, TextFault>
    requires { length text.now ≤ most_bytes }
    ensures prints { IfOk result (λ trace. PrintsTrace J.number_of J.note_of jobs.items text.now trace) }
    ensures sound { IfOk result (λ trace. script_fault text.now ≡ None) }
    ensures fault { IfErr result (λ e. FailsFor e (first_fault ScriptHeader 1 (lines_of text.now))) }
{
    let script = script_of(alloc, text)?;
    let trace = trace_of(alloc, script, jobs)?;
    Ok(trace)
}

/// The text of a trace of the script's steps with these jobs. The world that answered them has ended.
fn trace_of<A: Allocator + Copy, J: ScriptJob>(
    alloc: A,
    script: Script<A>,
    jobs: Vec<J, A>,
) -> Result<Printed<A>, TextFault>
    ensures told { IfOk result (λ text. TellsTrace J.number_of J.note_of script.config jobs.items script.steps.items
        text) }
    ensures err { OnErr result (result ≡ Err TextFault.NoMemory) }
{
    let Script { config, steps } = script;
    // A script's configuration is within its limits, so that only memory can be wanting.
    let Ok(world) = World::new(alloc, config) else {
        return Err(TextFault::NoMemory);
    };
    let mut stage = Stage {
        world,
        table: CleanTable::new(alloc),
        left: jobs,
    };
    let told = told_run(alloc, config.rule, &mut stage, steps.as_slice());
    stage.end();
    Ok(told?)
}

/// Does these steps, and tells them: the header of this rule's version, and their rows numbered from 1.
fn told_run<A: Allocator + Copy, J: ScriptJob>(
    alloc: A,
    rule: SpanRule,
    stage: &mut Stage<J, A>,
    steps: &[ScriptStep],
) -> Result<Printed<A>, AllocError>
    ensures { IfOk result (λ text. TellsRun J.number_of J.note_of rule stage.old.world
        (jobs stage.old.table stage.old.left.items) steps.now text stage.new.world
        (jobs stage.new.table stage.new.left.items)) }
{
    // Room for most traces at once: while it grows, a text is copied, and takes its room more than once.
    let text = Printed::with_capacity(alloc, steps.len().saturating_mul(ROW_TEXT))?;
    // One formatter for all rows. What it prints into fails where memory is refused, and only there.
    let mut trace = Formatter::new(text);
    let Ok(()) = trace.write_str(trace_title(rule)) else {
        return Err(AllocError);
    };
    let mut number = 0u64;
    for step in steps {
        number += 1;
        let Ok(()) = tell_step(stage, &mut trace, number, step) else {
            return Err(AllocError);
        };
    }
    Ok(trace.into_inner())
}

/// Does a step, and adds the line of its row, which has this number.
#[inline(always)]
fn tell_step<A: Allocator + Copy, J: ScriptJob>(
    stage: &mut Stage<J, A>,
    trace: &mut Formatter<Printed<A>>,
    number: u64,
    step: &ScriptStep,
) -> fmt::Result
    requires { IsPlainFormatter trace.old }
    ensures row { OnOk result (TellsRow J.number_of J.note_of number stage.old.world
        (jobs stage.old.table stage.old.left.items) step.now (formatter_writer trace.old)
        (formatter_writer trace.new) stage.new.world
        (jobs stage.new.table stage.new.left.items)) }
    ensures plain { OnOk result (IsPlainFormatter trace.new) }
{
    match (*step).plain() {
        // The reply to most steps is narrow: its row is written before it is passed on as one that has lists.
        Some(plain) => {
            let reply = ScriptReply::World(stage.world.ask(plain).reply());
            say_line(trace, number, step, &reply)
        }
        None => tell_other(stage, trace, number, step),
    }
}

/// Does a step of any kind and writes its row. It is kept out of its caller, whose replies are narrow.
#[inline(never)]
fn tell_other<A: Allocator + Copy, J: ScriptJob>(
    stage: &mut Stage<J, A>,
    trace: &mut Formatter<Printed<A>>,
    number: u64,
    step: &ScriptStep,
) -> fmt::Result
    requires { IsPlainFormatter trace.old }
    ensures row { OnOk result (TellsRow J.number_of J.note_of number stage.old.world
        (jobs stage.old.table stage.old.left.items) step.now (formatter_writer trace.old)
        (formatter_writer trace.new) stage.new.world
        (jobs stage.new.table stage.new.left.items)) }
    ensures plain { OnOk result (IsPlainFormatter trace.new) }
{
    let reply = stage.step(*step);
    say_line(trace, number, step, &reply)
}

/// Prints the line of the row of this number.
#[inline(always)]
fn say_line<W: fmt::Write>(
    f: &mut Formatter<W>,
    number: u64,
    step: &ScriptStep,
    reply: &ScriptReply,
) -> fmt::Result
    ensures { DisplaysOnOk W.write_str_gives f.old result (Some (decimal number ++ 32 ∷
        (script_row_text (record { step = step.now; reply = reply.now }) ++ 10 ∷ []))) f.new }
{
    say_number(f, number)?;
    f.write_str(" ")?;
    say_row(f, step, reply)?;
    f.write_str("\n")
}
