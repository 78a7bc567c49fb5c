//! The steps of a script, its replies and its rows: those of the world, and those of jobs.

ghost use Rattle.std.specs.Prelude.{◌≡◌, Some, IfSome};
ghost use Rattle.std.specs.Fmt.{DisplaysOnOk};
ghost use Rattle.ref_base.specs.Texts.{text_of};
ghost use Rattle.ref_script.specs.ScriptSteps.{script_step_words, script_reply_text, script_row_text};

use ref_base::{MutNo, PlainStep, Reply, SlotNo, Step};
use ref_queue::Ran;
use std::fmt;

/// One step of a script. It prints as it is spelled there, with single spaces and no leading zeros.
#[derive(Clone, Copy, PartialEq, Eq)]
pub enum ScriptStep {
    /// A step of the world.
    World(Step),
    /// `m0 job s1 3`: registers job 3 for the reference in the slot.
    Job {
        mutator: MutNo,
        slot: SlotNo,
        number: u32,
    },
    /// `m0 run s1`: takes the job of the reference in the slot, clears the reference, and runs the job.
    Run {
        mutator: MutNo,
        slot: SlotNo,
    },
}

/// The answer to one step of a script. It prints as it stands in a trace.
#[derive(Clone, Copy, PartialEq, Eq)]
pub enum ScriptReply {
    /// An answer of the world, or why a step of jobs was refused.
    World(Reply),
    /// `ok`: the job was registered.
    Registered,
    /// `used`: the number is that of no job, or its job was registered before.
    Used,
    /// `ran 3 1003`: the job's number, and what its action answered.
    Ran(Ran),
    /// `gone`: the reference has no job.
    Gone,
}

/// A step of a script and its reply. It prints as `m0 run s1 : ran 3 1003`.
#[derive(Clone, Copy, PartialEq, Eq)]
pub struct ScriptRow {
    /// What was asked.
    pub step: ScriptStep,
    /// What was answered.
    pub reply: ScriptReply,
}

impl fmt::Display for ScriptStep {
    ghost output = { λ step. Some (text_of (script_step_words step)) };

    #[inline(always)]
    fn fmt<W: fmt::Write>(&self, f: &mut fmt::Formatter<W>) -> fmt::Result {
        match self {
            ScriptStep::World(step) => fmt::Display::fmt(step, f),
            ScriptStep::Job {
                mutator,
                slot,
                number,
            } => write!(f, "{mutator} job {slot} {number}"),
            ScriptStep::Run { mutator, slot } => write!(f, "{mutator} run {slot}"),
        }
    }
}

impl fmt::Display for ScriptReply {
    ghost output = { λ reply. Some (script_reply_text reply) };

    #[inline(always)]
    fn fmt<W: fmt::Write>(&self, f: &mut fmt::Formatter<W>) -> fmt::Result {
        match self {
            ScriptReply::World(reply) => fmt::Display::fmt(reply, f),
            ScriptReply::Registered => f.write_str("ok"),
            ScriptReply::Used => f.write_str("used"),
            ScriptReply::Ran(Ran { number, answer }) => write!(f, "ran {number} {answer}"),
            ScriptReply::Gone => f.write_str("gone"),
        }
    }
}

impl fmt::Display for ScriptRow {
    ghost output = { λ row. Some (script_row_text row) };

    fn fmt<W: fmt::Write>(&self, f: &mut fmt::Formatter<W>) -> fmt::Result {
        say_row(f, &self.step, &self.reply)
    }
}

/// Prints the row of this step and reply. A reply is wide, so that it isn't copied into a row first.
#[inline(always)]
pub fn say_row<W: fmt::Write>(
    f: &mut fmt::Formatter<W>,
    step: &ScriptStep,
    reply: &ScriptReply,
) -> fmt::Result
    ensures { DisplaysOnOk W.write_str_gives f.old result
        (Some (script_row_text (record { step = step.now; reply = reply.now }))) f.new }
{
    fmt::Display::fmt(step, f)?;
    f.write_str(" : ")?;
    fmt::Display::fmt(reply, f)
}

impl ScriptStep {
    /// The step of the heap alone that it is, if it is one.
    #[inline(always)]
    pub fn plain(self) -> Option<PlainStep>
        ensures { IfSome result (λ plain. self ≡ ScriptStep.World (Step.Plain plain)) }
    {
        match self {
            ScriptStep::World(Step::Plain(plain)) => Some(plain),
            _ => None,
        }
    }
}
