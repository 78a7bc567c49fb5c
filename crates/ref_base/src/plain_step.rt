//! The steps that hand nothing over: what mutators and workers do with a heap's objects alone, and the turns of cycles
//! and moves.

ghost use Rattle.std.specs.Prelude.{[], ◌∷◌, Some};
ghost use Rattle.std.specs.Fmt.{DisplaysOnOk};
ghost use Rattle.ref_base.specs.Texts.{Letters, text_of, word_text, mutator, slot, queue_or_none};
ghost use Rattle.ref_base.specs.Steps.{plain_words};

use crate::words::{say_at_slot, say_behind, say_by_worker, say_next, say_number, say_slot};
use crate::{MutNo, QueueNo, SlotNo, Strength, Urgency, WorkerNo};
use std::fmt;

/// One step that hands nothing over: neither a hold nor a notice goes with it. A world and a heap have these in common
/// (`Step::Plain`, `HeapStep::Plain`). It prints as the world's step does. Any number can be named: a step with one
/// outside the configuration is refused as it runs.
#[derive(Clone, Copy, PartialEq, Eq)]
pub enum PlainStep {
    /// `m0 new s1 2`: makes a plain object, and the slot then holds it.
    New {
        mutator: MutNo,
        slot: SlotNo,
        /// How many fields it has, all of them null. More than 8 are refused.
        fields: u32,
    },
    /// `m0 weak s1 s0 q0 2`: makes a reference, and the slot then holds it.
    Refer {
        mutator: MutNo,
        strength: Strength,
        slot: SlotNo,
        /// The slot that holds what the reference is to.
        source: SlotNo,
        /// The queue that its notice is for. It prints as `-` where there is none.
        queue: Option<QueueNo>,
        /// How many fields it has, all of them null. More than 8 are refused.
        fields: u32,
    },
    /// `m0 store s0 1 s2`: the field of the object in the first slot then holds what the last slot holds, or null.
    Store {
        mutator: MutNo,
        object: SlotNo,
        field: u32,
        value: SlotNo,
    },
    /// `m0 load s2 s0 1`: the first slot then holds what the field of the object in the other holds, or nothing.
    Load {
        mutator: MutNo,
        slot: SlotNo,
        object: SlotNo,
        field: u32,
    },
    /// `m0 copy s1 s0`: the first slot then holds what the other holds.
    Copy {
        mutator: MutNo,
        slot: SlotNo,
        source: SlotNo,
    },
    /// `m0 drop s0`: the slot then holds nothing.
    Drop {
        mutator: MutNo,
        slot: SlotNo,
    },
    /// `m0 get s2 s1`: the first slot then holds the referent of the reference in the other, or nothing.
    Get {
        mutator: MutNo,
        slot: SlotNo,
        reference: SlotNo,
    },
    /// `m0 clear s1`: clears the reference in the slot, and enqueues nothing.
    Clear {
        mutator: MutNo,
        reference: SlotNo,
    },
    /// `m0 refers s1 s0`: whether the referent of the reference is what the other slot holds, or none where it is
    /// empty.
    RefersTo {
        mutator: MutNo,
        reference: SlotNo,
        other: SlotNo,
    },
    /// `begin 5 normal`: begins a cycle, at this clock.
    Begin {
        now: u64,
        urgency: Urgency,
    },
    /// `w0 scan`: scans one object that was reached.
    Scan {
        worker: WorkerNo,
    },
    /// `endmark`: ends the mark, and with it the lives of what was not reached.
    EndMark,
    /// `w0 clearnext`: looks at the next reference that the worker found, and clears it if its referent is doomed.
    ClearNext {
        worker: WorkerNo,
    },
    /// `endclear`: ends the clearing.
    EndClear,
    /// `w0 sweep`: frees some of what is doomed.
    Sweep {
        worker: WorkerNo,
    },
    /// `endsweep`: ends the sweep, and the cycle.
    EndSweep,
    /// `select`: chooses the objects that are to move to other pages.
    Select,
    /// `w0 move`: moves the next of them.
    MoveNext {
        worker: WorkerNo,
    },
    /// `endmove`: ends the move.
    EndMove,
}

impl fmt::Display for PlainStep {
    ghost output = { λ step. Some (text_of (plain_words step)) };

    fn fmt<W: fmt::Write>(&self, f: &mut fmt::Formatter<W>) -> fmt::Result {
        match *self {
            PlainStep::New {
                mutator,
                slot,
                fields,
            } => {
                say_at_slot(f, mutator, "new", slot)?;
                say_next(f, fields)
            }
            PlainStep::Refer {
                mutator,
                strength,
                slot,
                source,
                queue,
                fields,
            } => {
                say_at_slots(f, mutator, strength.name(), slot, source)?;
                say_queue_or_none(f, queue)?;
                say_next(f, fields)
            }
            PlainStep::Store {
                mutator,
                object,
                field,
                value,
            } => {
                say_at_slot(f, mutator, "store", object)?;
                say_next(f, field)?;
                say_slot(f, value)
            }
            PlainStep::Load {
                mutator,
                slot,
                object,
                field,
            } => {
                say_at_slots(f, mutator, "load", slot, object)?;
                say_next(f, field)
            }
            PlainStep::Copy {
                mutator,
                slot,
                source,
            } => say_at_slots(f, mutator, "copy", slot, source),
            PlainStep::Drop { mutator, slot } => say_at_slot(f, mutator, "drop", slot),
            PlainStep::Get {
                mutator,
                slot,
                reference,
            } => say_at_slots(f, mutator, "get", slot, reference),
            PlainStep::Clear { mutator, reference } => say_at_slot(f, mutator, "clear", reference),
            PlainStep::RefersTo {
                mutator,
                reference,
                other,
            } => say_at_slots(f, mutator, "refers", reference, other),
            PlainStep::Begin { now, urgency } => say_begin(f, now, urgency),
            PlainStep::Scan { worker } => say_by_worker(f, worker, "scan"),
            PlainStep::EndMark => f.write_str("endmark"),
            PlainStep::ClearNext { worker } => say_by_worker(f, worker, "clearnext"),
            PlainStep::EndClear => f.write_str("endclear"),
            PlainStep::Sweep { worker } => say_by_worker(f, worker, "sweep"),
            PlainStep::EndSweep => f.write_str("endsweep"),
            PlainStep::Select => f.write_str("select"),
            PlainStep::MoveNext { worker } => say_by_worker(f, worker, "move"),
            PlainStep::EndMove => f.write_str("endmove"),
        }
    }
}

// As `m0 copy s1 s0`.
#[inline(always)]
fn say_at_slots<W: fmt::Write>(
    f: &mut fmt::Formatter<W>,
    by: MutNo,
    name: &'static str,
    first: SlotNo,
    second: SlotNo,
) -> fmt::Result
    ensures { DisplaysOnOk W.write_str_gives f.old result
        (Some (text_of (mutator by ∷ Letters name.now ∷ slot first ∷ slot second ∷ []))) f.new }
{
    say_at_slot(f, by, name, first)?;
    say_slot(f, second)
}

// As ` q0`, or ` -` where there is none.
fn say_queue_or_none<W: fmt::Write>(
    f: &mut fmt::Formatter<W>,
    queue: Option<QueueNo>,
) -> fmt::Result
    ensures { DisplaysOnOk W.write_str_gives f.old result (Some (32 ∷ word_text (queue_or_none queue))) f.new }
{
    match queue {
        Some(queue) => say_behind(f, " q", queue.0),
        None => f.write_str(" -"),
    }
}

// As `begin 5 normal`.
fn say_begin<W: fmt::Write>(f: &mut fmt::Formatter<W>, now: u64, urgency: Urgency) -> fmt::Result
    ensures { DisplaysOnOk W.write_str_gives f.old result
        (Some (text_of (plain_words (PlainStep.Begin now urgency)))) f.new }
{
    f.write_str("begin ")?;
    say_number(f, now)?;
    f.write_str(" ")?;
    f.write_str(urgency.name())
}
