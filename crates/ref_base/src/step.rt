//! The steps of a script: what mutators and workers ask of the heap and its queues, and the turns of the collector.

ghost use Rattle.std.specs.Prelude.{[], ◌∷◌, Some};
ghost use Rattle.std.specs.Fmt.{DisplaysOnOk};
ghost use Rattle.ref_base.specs.Texts.{Letters, text_of, mutator, queue};
ghost use Rattle.ref_base.specs.Steps.{actor, step_words};

use crate::words::{say_at_slot, say_behind, say_by, say_by_worker, say_next};
use crate::{Actor, MutNo, PlainStep, QueueNo, SlotNo, WorkerNo};
use std::fmt;

/// One step. It prints as it is spelled in a script, with single spaces and no leading zeros. Any number can be named:
/// a step with one outside the configuration is refused as it runs.
#[derive(Clone, Copy, PartialEq, Eq)]
pub enum Step {
    /// A step of the heap that hands nothing over.
    Plain(PlainStep),
    /// `m0 unhook s1`: clears the reference in the slot, and takes its notice into the hand if it has a queue.
    Unhook {
        mutator: MutNo,
        reference: SlotNo,
    },
    /// `m0 put`: puts the hand's first notice into its own queue.
    Put {
        actor: Actor,
    },
    /// `m0 puts`: puts all notices of the hand into their queue, one after the other, until memory is refused for one.
    Puts {
        actor: Actor,
    },
    /// `m0 poll q0`: takes the first notice of the queue into the hand.
    Poll {
        mutator: MutNo,
        queue: QueueNo,
    },
    /// `m0 polls q0 2`: takes the first notices of the queue into the hand, so many at most.
    Polls {
        mutator: MutNo,
        queue: QueueNo,
        max: u32,
    },
    /// `m0 adopt s1`: the slot then holds the reference that the hand's first notice reports, and the notice is spent.
    Adopt {
        mutator: MutNo,
        slot: SlotNo,
    },
    /// `m0 release`: gives the hand's first notice up.
    Release {
        actor: Actor,
    },
    /// `m0 close q0`: closes the queue, which then takes nothing more.
    Close {
        mutator: MutNo,
        queue: QueueNo,
    },
    /// `w0 hand`: takes the notice of the next reference that the worker cleared into its hand.
    Hand {
        worker: WorkerNo,
    },
    /// `w0 hands 32`: takes the notices of the next references that the worker cleared into its hand, so many at most,
    /// and all of one queue and one cycle.
    Hands {
        worker: WorkerNo,
        max: u32,
    },
}

impl fmt::Display for Step {
    ghost output = { λ step. Some (text_of (step_words step)) };

    fn fmt<W: fmt::Write>(&self, f: &mut fmt::Formatter<W>) -> fmt::Result {
        match *self {
            Step::Plain(step) => fmt::Display::fmt(&step, f),
            Step::Unhook { mutator, reference } => say_at_slot(f, mutator, "unhook", reference),
            Step::Put { actor } => say_by_actor(f, actor, "put"),
            Step::Puts { actor } => say_by_actor(f, actor, "puts"),
            Step::Poll { mutator, queue } => say_at_queue(f, mutator, "poll", queue),
            Step::Polls {
                mutator,
                queue,
                max,
            } => {
                say_at_queue(f, mutator, "polls", queue)?;
                say_next(f, max)
            }
            Step::Adopt { mutator, slot } => say_at_slot(f, mutator, "adopt", slot),
            Step::Release { actor } => say_by_actor(f, actor, "release"),
            Step::Close { mutator, queue } => say_at_queue(f, mutator, "close", queue),
            Step::Hand { worker } => say_by_worker(f, worker, "hand"),
            Step::Hands { worker, max } => {
                say_by_worker(f, worker, "hands")?;
                say_next(f, max)
            }
        }
    }
}

// As `m0 put`.
fn say_by_actor<W: fmt::Write>(
    f: &mut fmt::Formatter<W>,
    by: Actor,
    name: &'static str,
) -> fmt::Result
    ensures { DisplaysOnOk W.write_str_gives f.old result (Some (text_of (actor by ∷ Letters name.now ∷ []))) f.new }
{
    match by {
        Actor::Mutator(mutator) => say_by(f, mutator, name),
        Actor::Worker(worker) => say_by_worker(f, worker, name),
    }
}

// As `m0 poll q0`.
#[inline(always)]
fn say_at_queue<W: fmt::Write>(
    f: &mut fmt::Formatter<W>,
    by: MutNo,
    name: &'static str,
    at: QueueNo,
) -> fmt::Result
    ensures { DisplaysOnOk W.write_str_gives f.old result
        (Some (text_of (mutator by ∷ Letters name.now ∷ queue at ∷ []))) f.new }
{
    say_by(f, by, name)?;
    say_behind(f, " q", at.0)
}

// As in a trace: what a failed test prints reads as the trace does.
impl fmt::Debug for Step {
    fn fmt<W: fmt::Write>(&self, f: &mut fmt::Formatter<W>) -> fmt::Result {
        fmt::Display::fmt(self, f)
    }
}
