//! Steps by numbers.

ghost use Rattle.std.specs.Prelude.{◌≡◌};
ghost use Rattle.ref_c.specs.StepNumbers.{cycle_step, hand_step, mutator_step, numbered_step};
ghost use Rattle.ref_c.specs.StepNumbers.{reference_step, unqueued_step, worker_step};

use ref_base::{Actor, MutNo, PlainStep, QueueNo, SlotNo, Step, Strength, Urgency, WorkerNo};

/// A step by numbers: its kind, who does it, and what else it names. What a kind doesn't name may have any number.
#[repr(C)]
#[derive(Clone, Copy)]
pub struct RefStep {
    /// 0 to 18 and 20 to 37, as the header names them. Any other is no step.
    pub kind: u32,
    /// The number of the mutator or the worker.
    pub by: u32,
    /// The slot that is written, or the one that the step is about.
    pub a: u32,
    /// The other slot.
    pub b: u32,
    /// The queue.
    pub c: u32,
    /// How many fields, the field's number, how many at most, or whether the cycle is urgent: 0 where it isn't.
    pub n: u32,
    /// The clock of a cycle's begin.
    pub clock: u64,
}

/// The step that these numbers are, if they are one. Takes no memory.
#[inline(always)]
pub fn step_of(s: &RefStep) -> Option<Step>
    ensures { result ≡ numbered_step s.now }
{
    match s.kind {
        0..=10 => Some(Step::Plain(of_mutator(s)?)),
        11..=18 => Some(of_hand(s)),
        20..=34 => of_worker(s),
        35..=37 => Some(Step::Plain(unqueued(s))),
        _ => None,
    }
}

// The step of a mutator that hands nothing over, but for references that are for no queue.
#[inline(always)]
fn of_mutator(s: &RefStep) -> Option<PlainStep>
    ensures { result ≡ mutator_step s.now }
{
    match s.kind {
        0 => Some(PlainStep::New {
            mutator: MutNo(s.by),
            slot: SlotNo(s.a),
            fields: s.n,
        }),
        1 => Some(refer(s, Strength::Soft, Some(QueueNo(s.c)))),
        2 => Some(refer(s, Strength::Weak, Some(QueueNo(s.c)))),
        3 => Some(refer(s, Strength::Phantom, Some(QueueNo(s.c)))),
        4 => Some(PlainStep::Store {
            mutator: MutNo(s.by),
            object: SlotNo(s.a),
            field: s.n,
            value: SlotNo(s.b),
        }),
        5 => Some(PlainStep::Load {
            mutator: MutNo(s.by),
            slot: SlotNo(s.a),
            object: SlotNo(s.b),
            field: s.n,
        }),
        6 => Some(PlainStep::Copy {
            mutator: MutNo(s.by),
            slot: SlotNo(s.a),
            source: SlotNo(s.b),
        }),
        7 => Some(PlainStep::Drop {
            mutator: MutNo(s.by),
            slot: SlotNo(s.a),
        }),
        8 => Some(PlainStep::Get {
            mutator: MutNo(s.by),
            slot: SlotNo(s.a),
            reference: SlotNo(s.b),
        }),
        9 => Some(PlainStep::Clear {
            mutator: MutNo(s.by),
            reference: SlotNo(s.a),
        }),
        10 => Some(PlainStep::RefersTo {
            mutator: MutNo(s.by),
            reference: SlotNo(s.a),
            other: SlotNo(s.b),
        }),
        _ => None,
    }
}

// The step that makes a reference which is for no queue.
#[inline(always)]
fn unqueued(s: &RefStep) -> PlainStep
    ensures { result ≡ unqueued_step s.now }
{
    match s.kind {
        35 => refer(s, Strength::Soft, None),
        36 => refer(s, Strength::Weak, None),
        _ => refer(s, Strength::Phantom, None),
    }
}

// The step that makes a reference.
#[inline(always)]
fn refer(s: &RefStep, strength: Strength, queue: Option<QueueNo>) -> PlainStep
    ensures { result ≡ reference_step strength queue s.now }
{
    PlainStep::Refer {
        mutator: MutNo(s.by),
        strength,
        slot: SlotNo(s.a),
        source: SlotNo(s.b),
        queue,
        fields: s.n,
    }
}

// The step of a mutator about its hand and the queues.
#[inline(always)]
fn of_hand(s: &RefStep) -> Step
    ensures { result ≡ hand_step s.now }
{
    let mutator = MutNo(s.by);
    let actor = Actor::Mutator(mutator);
    let queue = QueueNo(s.c);
    let slot = SlotNo(s.a);
    match s.kind {
        11 => Step::Unhook {
            mutator,
            reference: slot,
        },
        12 => Step::Put { actor },
        13 => Step::Puts { actor },
        14 => Step::Poll { mutator, queue },
        15 => Step::Polls {
            mutator,
            queue,
            max: s.n,
        },
        16 => Step::Adopt { mutator, slot },
        17 => Step::Release { actor },
        _ => Step::Close { mutator, queue },
    }
}

// The step of a worker, or a turn of cycles and moves.
#[inline(always)]
fn of_worker(s: &RefStep) -> Option<Step>
    ensures { result ≡ worker_step s.now }
{
    let worker = WorkerNo(s.by);
    let actor = Actor::Worker(worker);
    let step = match s.kind {
        25 => Step::Hand { worker },
        26 => Step::Hands { worker, max: s.n },
        27 => Step::Put { actor },
        28 => Step::Puts { actor },
        29 => Step::Release { actor },
        _ => return Some(Step::Plain(of_cycle(s)?)),
    };
    Some(step)
}

// The step of a cycle or a move that hands nothing over.
#[inline(always)]
fn of_cycle(s: &RefStep) -> Option<PlainStep>
    ensures { result ≡ cycle_step s.now }
{
    let worker = WorkerNo(s.by);
    let step = match s.kind {
        20 => PlainStep::Begin {
            now: s.clock,
            urgency: if s.n == 0 {
                Urgency::Normal
            } else {
                Urgency::Urgent
            },
        },
        21 => PlainStep::Scan { worker },
        22 => PlainStep::EndMark,
        23 => PlainStep::ClearNext { worker },
        24 => PlainStep::EndClear,
        30 => PlainStep::Sweep { worker },
        31 => PlainStep::EndSweep,
        32 => PlainStep::Select,
        33 => PlainStep::MoveNext { worker },
        34 => PlainStep::EndMove,
        _ => return None,
    };
    Some(step)
}
