//! Scripts that are drawn at random.

ghost use Rattle.std.specs.Prelude.{◌≡◌, ◌||◌, ◌⊎◌, Err, IfOk, OnOk, OnErr};
ghost use Rattle.ref_text.specs.declared.fault.TextFault.TheVariants.{TooLong, NoMemory};
ghost use Rattle.ref_script.specs.Answers.{KeepsUnlessDone, is_cannot_write};
ghost use Rattle.refrun.specs.DrawnScripts.{AnswersDrawn, IsDrawnScript};

mod author;
mod dice;
mod known;
mod parts;
mod patterns;
mod plan;
mod rehearsal;

use author::{Author, drawn_config};
use dice::Dice;
pub use parts::Parts;
use ref_base::{Config, SpanRule};
use ref_script::{MAX_TEXT, Printed, ScriptStep, script_of};
use ref_text::{TextFault, TextSink, WriteFailed};
use rehearsal::Rehearsal;
use std::alloc::{AllocError, Allocator};
use std::fmt;
use std::fmt::Formatter;

/// How many bytes are taken for a step at first: few lines are longer.
const STEP_TEXT: usize = 20;

/// How often another step is drawn in place of one that changed nothing.
const TRIES: u32 = 20;

/// Writes a script of so many steps, which is drawn by a generator of this seed, with these parts. The same seed, count
/// and parts give the same script.
///
/// The whole script is made, and read, before anything of it is written. Returns `Ok` where it has gone out, and else
/// `TooLong` where it is too long to be read, `NoMemory`, or `CannotWrite` where a write failed: then a prefix of it
/// may have gone out. A script of up to 100,000 steps isn't too long.
///
/// Beside the text it takes what a world of the script takes, and 250 bytes a step. All its memory is of this
/// allocator.
pub fn random_script<W: TextSink, A: Allocator + Copy>(
    alloc: A,
    writer: &mut W,
    seed: u64,
    steps: u32,
    parts: Parts,
) -> Result<(), TextFault>
    ensures answer { AnswersDrawn steps (W.contents writer.old) (W.contents writer.new) result }
    ensures kept { KeepsUnlessDone (W.contents writer.old) (W.contents writer.new) result }
    ensures cannot_write { W.has_failed writer.new ≡ (W.has_failed writer.old || is_cannot_write result) }
{
    let script = script_text(alloc, seed, steps, parts)?;
    match writer.write_text(script.as_slice()) {
        Ok(()) => Ok(()),
        Err(WriteFailed) => Err(TextFault::CannotWrite),
    }
}

/// The text of a script that is drawn so. It was read as a script of so many steps.
fn script_text<A: Allocator + Copy>(
    alloc: A,
    seed: u64,
    steps: u32,
    parts: Parts,
) -> Result<Printed<A>, TextFault>
    ensures drawn { IfOk result (IsDrawnScript steps) }
    ensures err { OnErr result ((result ≡ Err TooLong) ⊎ (result ≡ Err NoMemory)) }
{
    let text = drawn_text(alloc, seed, steps, parts)?;
    read_back(alloc, text.as_slice(), steps)?;
    Ok(text)
}

/// Reads a text as a script of so many steps.
fn read_back<A: Allocator + Copy>(alloc: A, text: &[u8], steps: u32) -> Result<(), TextFault>
    ensures drawn { OnOk result (IsDrawnScript steps text.now) }
    ensures err { OnErr result ((result ≡ Err TooLong) ⊎ (result ≡ Err NoMemory)) }
{
    if text.len() > MAX_TEXT {
        return Err(TextFault::TooLong);
    }
    match script_of(alloc, text) {
        Ok(script) if script.steps.len() == steps as usize => Ok(()),
        Err(TextFault::NoMemory) => Err(TextFault::NoMemory),
        // No step that is printed is read as another, nor as none.
        _ => Err(TextFault::TooLong),
    }
}

/// The text of a script that is drawn so.
fn drawn_text<A: Allocator + Copy>(
    alloc: A,
    seed: u64,
    steps: u32,
    parts: Parts,
) -> Result<Printed<A>, AllocError> {
    let mut dice = Dice::of(seed);
    let config = drawn_config(&mut dice, parts);
    let mut author = Author::new(alloc, dice, parts, config, steps)?;
    let mut rehearsal = Rehearsal::new(alloc, config)?;
    let text = rehearsed_text(alloc, config, steps, &mut author, &mut rehearsal);
    rehearsal.end();
    text
}

/// The text of a script of this configuration and so many steps.
fn rehearsed_text<A: Allocator + Copy>(
    alloc: A,
    config: Config,
    steps: u32,
    author: &mut Author<A>,
    rehearsal: &mut Rehearsal<A>,
) -> Result<Printed<A>, AllocError> {
    let text = Printed::with_capacity(alloc, (steps as usize).saturating_mul(STEP_TEXT))?;
    let mut script = Formatter::new(text);
    let Ok(()) = say_config(&mut script, &config) else {
        return Err(AllocError);
    };
    for _ in 0..steps {
        let step = next_step(author, rehearsal)?;
        let Ok(()) = say_step(&mut script, &step) else {
            return Err(AllocError);
        };
    }
    Ok(script.into_inner())
}

/// The next step: it was drawn, and played in the rehearsal's world.
fn next_step<A: Allocator + Copy>(
    author: &mut Author<A>,
    rehearsal: &mut Rehearsal<A>,
) -> Result<ScriptStep, AllocError> {
    let mut step = author.draft();
    let mut reply = rehearsal.play(step)?;
    author.hear(&reply);
    for _ in 0..TRIES {
        if author.keeps(&reply) {
            break;
        }
        step = author.draft();
        reply = rehearsal.play(step)?;
        author.hear(&reply);
    }
    author.learn(&step, &reply)?;
    Ok(step)
}

/// Prints the header and the configuration.
fn say_config<W: fmt::Write>(f: &mut Formatter<W>, config: &Config) -> fmt::Result {
    let Config {
        mutators,
        workers,
        queues,
        cells,
        span,
        rule,
    } = config;
    f.write_str(match rule {
        SpanRule::Fixed => "refscript 1\n",
        SpanRule::Scaled => "refscript 2\n",
    })?;
    write!(f, "config {mutators} {workers} {queues} {cells} {span}\n")
}

/// Prints the line of a step.
fn say_step<W: fmt::Write>(f: &mut Formatter<W>, step: &ScriptStep) -> fmt::Result {
    fmt::Display::fmt(step, f)?;
    f.write_str("\n")
}
