//! A pattern as it goes on.

use super::dice::Dice;
use super::known::{Known, Want};
use super::patterns::{ALL_ROLES, Act, Clock, Pattern, ROLES, Role, Times};
use ref_base::{Actor, MutNo, Phase, PlainStep, QueueNo, Reply, SLOTS, SlotNo, Step, WorkerNo};
use ref_script::ScriptStep;
use std::alloc::Allocator;

/// A heap with more cells isn't filled.
const MOST_FILLED: u32 = 40;

/// How many fields an object is given, how many notices are asked for, and numbers at the edges of what there is.
const FIELDS: [u32; 8] = [0, 1, 1, 2, 2, 2, 3, 8];

const NOTICES: [u32; 5] = [1, 2, 3, 32, 32];

const EDGES: [u32; 10] = [0, 1, 7, 8, 9, 16, 32, 33, 64, u32::MAX];

/// A pattern as it goes on, with what was drawn for it.
#[derive(Clone, Copy)]
pub struct Plan {
    pattern: &'static Pattern,
    mutator: MutNo,
    worker: WorkerNo,
    queue: QueueNo,
    slots: [SlotNo; ROLES],
    /// A number that is asked for in the place of one that fits.
    number: Option<u32>,
    /// How often its first part is still to come.
    times: u32,
    place: usize,
    /// The act whose step was given last.
    last: Option<Act>,
}

impl Plan {
    /// A pattern from its begin on, where slots of one mutator hold what it wants.
    pub fn of<A: Allocator + Copy>(
        pattern: &'static Pattern,
        dice: &mut Dice,
        known: &Known<A>,
    ) -> Option<Plan> {
        let config = known.config;
        let times = match pattern.times {
            Times::Once => 1,
            Times::Cells if config.cells <= MOST_FILLED => config.cells,
            Times::Hands if config.cells > 64 => 33,
            Times::Pages if config.cells > 70 => 70,
            _ => return None,
        };
        let mutator = MutNo(dice.below(config.mutators));
        Some(Plan {
            pattern,
            mutator,
            worker: WorkerNo(dice.below(config.workers)),
            queue: QueueNo(dice.below(config.queues)),
            slots: slots_of(pattern, mutator, dice, known)?,
            number: None,
            times,
            place: 0,
            last: None,
        })
    }

    /// Puts one of its numbers at an edge.
    pub fn put_on_edge(&mut self, dice: &mut Dice) {
        let edge = dice.one_of(EDGES.as_slice()).unwrap_or(u32::MAX);
        match dice.below(6) {
            0 => self.mutator = MutNo(edge),
            1 => self.worker = WorkerNo(edge),
            2 => self.queue = QueueNo(edge),
            3 => self.put_slots(SlotNo(edge)),
            _ => self.number = Some(edge),
        }
    }

    fn put_slots(&mut self, edge: SlotNo) {
        for slot in self.slots.as_mut_slice() {
            *slot = edge;
        }
    }

    /// The next step, where one is left.
    pub fn next<A: Allocator + Copy>(
        &mut self,
        dice: &mut Dice,
        known: &Known<A>,
    ) -> Option<ScriptStep> {
        let act = self.next_act()?;
        self.last = Some(act);
        let mutator = self.mutator;
        Some(match act {
            Act::Job(role) => ScriptStep::Job {
                mutator,
                slot: self.slot(role),
                number: self.number.unwrap_or(dice.below(64)),
            },
            Act::Run(role) => ScriptStep::Run {
                mutator,
                slot: self.slot(role),
            },
            _ => ScriptStep::World(self.step_of(act, dice, known)),
        })
    }

    /// Hears what its last step was answered: what is to go on until nothing is left may go on.
    pub fn hear(&mut self, reply: &Reply) {
        if matches!(self.last, Some(Act::WorkAll))
            && !matches!(reply, Reply::Nothing | Reply::Refused(_))
        {
            self.place = self.place.saturating_sub(1);
        }
    }

    /// The next act, where one is left.
    fn next_act(&mut self) -> Option<Act> {
        if self.times > 0 {
            if let Some(act) = self.pattern.first.get(self.place) {
                self.place = self.place.saturating_add(1);
                return Some(*act);
            }
            self.times -= 1;
            self.place = 0;
            if self.times > 0 {
                self.place = 1;
                return self.pattern.first.first().copied();
            }
        }
        let act = self.pattern.then.get(self.place)?;
        self.place = self.place.saturating_add(1);
        Some(*act)
    }

    /// The slot of a role.
    fn slot(&self, role: Role) -> SlotNo {
        self.slots.get(role as usize).copied().unwrap_or(SlotNo(0))
    }

    /// A number of these, or the one that is asked for.
    fn number(&self, dice: &mut Dice, numbers: &[u32]) -> u32 {
        let number = dice.one_of(numbers).unwrap_or(0);
        self.number.unwrap_or(number)
    }

    /// A number at an edge.
    fn any(&self, dice: &mut Dice) -> u32 {
        self.number(dice, EDGES.as_slice())
    }

    /// The queue of a reference: most have one.
    fn queue_or_none(&self, dice: &mut Dice) -> Option<QueueNo> {
        if dice.is_one_in(10) {
            None
        } else {
            Some(self.queue)
        }
    }

    /// The step of an act that is none of jobs.
    fn step_of<A: Allocator + Copy>(&self, act: Act, dice: &mut Dice, known: &Known<A>) -> Step {
        let mutator = self.mutator;
        let worker = self.worker;
        let queue = self.queue;
        let program = Actor::Mutator(mutator);
        let collector = Actor::Worker(worker);
        match act {
            Act::Unhook(role) => Step::Unhook {
                mutator,
                reference: self.slot(role),
            },
            Act::Put => Step::Put { actor: program },
            Act::Puts => Step::Puts { actor: program },
            Act::Release => Step::Release { actor: program },
            Act::PutByWorker => Step::Put { actor: collector },
            Act::PutsByWorker => Step::Puts { actor: collector },
            Act::ReleaseByWorker => Step::Release { actor: collector },
            Act::Poll => Step::Poll { mutator, queue },
            Act::Polls => Step::Polls {
                mutator,
                queue,
                max: self.number(dice, NOTICES.as_slice()),
            },
            Act::Adopt(role) => Step::Adopt {
                mutator,
                slot: self.slot(role),
            },
            Act::Close => Step::Close { mutator, queue },
            Act::CloseAny => Step::Close {
                mutator,
                queue: QueueNo(self.any(dice)),
            },
            Act::Hand => Step::Hand { worker },
            Act::Hands => Step::Hands {
                worker,
                max: self.number(dice, NOTICES.as_slice()),
            },
            _ => Step::Plain(self.plain_step_of(act, dice, known)),
        }
    }

    /// The step of an act that is one of a heap alone.
    fn plain_step_of<A: Allocator + Copy>(
        &self,
        act: Act,
        dice: &mut Dice,
        known: &Known<A>,
    ) -> PlainStep {
        let mutator = self.mutator;
        match act {
            Act::New(role) => PlainStep::New {
                mutator,
                slot: self.slot(role),
                fields: self.number(dice, FIELDS.as_slice()),
            },
            Act::Refer(strength, role, source) => PlainStep::Refer {
                mutator,
                strength,
                slot: self.slot(role),
                source: self.slot(source),
                queue: self.queue_or_none(dice),
                fields: self.number(dice, FIELDS.as_slice()),
            },
            Act::Load(role, object) => self.load(
                role,
                object,
                known.field(mutator, self.slot(object)),
            ),
            Act::Store(object, value) => self.store(
                object,
                value,
                known.field(mutator, self.slot(object)),
            ),
            Act::LoadAny(role, object) => self.load(
                role,
                object,
                self.number(dice, FIELDS.as_slice()),
            ),
            Act::StoreAny(object, value) => self.store(
                object,
                value,
                self.number(dice, FIELDS.as_slice()),
            ),
            _ => self.other_step_of(act, dice, known),
        }
    }

    /// The step of an act that is about slots or references alone, or about a cycle or moves.
    fn other_step_of<A: Allocator + Copy>(
        &self,
        act: Act,
        dice: &mut Dice,
        known: &Known<A>,
    ) -> PlainStep {
        let mutator = self.mutator;
        let worker = self.worker;
        match act {
            Act::Copy(role, source) => PlainStep::Copy {
                mutator,
                slot: self.slot(role),
                source: self.slot(source),
            },
            Act::Drop(role) => PlainStep::Drop {
                mutator,
                slot: self.slot(role),
            },
            Act::Get(role, reference) => PlainStep::Get {
                mutator,
                slot: self.slot(role),
                reference: self.slot(reference),
            },
            Act::Clear(role) => PlainStep::Clear {
                mutator,
                reference: self.slot(role),
            },
            Act::Refers(role, other) => PlainStep::RefersTo {
                mutator,
                reference: self.slot(role),
                other: self.slot(other),
            },
            Act::Begin(clock, urgency) => PlainStep::Begin {
                now: moved(clock, known.clock, dice),
                urgency,
            },
            Act::Select => PlainStep::Select,
            Act::End => end_of(known.phase),
            Act::EndOf(phase) => end_of(phase),
            Act::WorkIn(phase) => work_in(phase, worker),
            Act::WorkByAny => work_in(known.phase, WorkerNo(self.any(dice))),
            _ => work_in(known.phase, worker),
        }
    }

    fn load(&self, role: Role, object: Role, field: u32) -> PlainStep {
        PlainStep::Load {
            mutator: self.mutator,
            slot: self.slot(role),
            object: self.slot(object),
            field,
        }
    }

    fn store(&self, object: Role, value: Role, field: u32) -> PlainStep {
        PlainStep::Store {
            mutator: self.mutator,
            object: self.slot(object),
            field,
            value: self.slot(value),
        }
    }
}

/// A clock, moved so.
fn moved(clock: Clock, now: u64, dice: &mut Dice) -> u64 {
    match clock {
        Clock::Same => now,
        Clock::Later => now.saturating_add(u64::from(dice.below(4))),
        Clock::Back => now.saturating_sub(1),
        Clock::Last => u64::MAX,
    }
}

/// What a worker does in a phase.
pub fn work_in(phase: Phase, worker: WorkerNo) -> PlainStep {
    match phase {
        Phase::Idle | Phase::Marking => PlainStep::Scan { worker },
        Phase::Clearing => PlainStep::ClearNext { worker },
        Phase::Sweeping => PlainStep::Sweep { worker },
        Phase::Moving => PlainStep::MoveNext { worker },
    }
}

/// What ends a phase.
pub fn end_of(phase: Phase) -> PlainStep {
    match phase {
        Phase::Idle | Phase::Marking => PlainStep::EndMark,
        Phase::Clearing => PlainStep::EndClear,
        Phase::Sweeping => PlainStep::EndSweep,
        Phase::Moving => PlainStep::EndMove,
    }
}

/// A slot for each role, all of them different, that holds what the pattern wants.
fn slots_of<A: Allocator + Copy>(
    pattern: &Pattern,
    mutator: MutNo,
    dice: &mut Dice,
    known: &Known<A>,
) -> Option<[SlotNo; ROLES]> {
    let mut slots = [SlotNo(u32::MAX); ROLES];
    let mut place = 0usize;
    for role in ALL_ROLES {
        let slot = slot_for(want_of(pattern, role), mutator, &slots, dice, known)?;
        if let Some(held) = slots.get_mut(place) {
            *held = slot;
        }
        place = place.saturating_add(1);
    }
    Some(slots)
}

/// What a pattern wants of a role.
fn want_of(pattern: &Pattern, role: Role) -> Want {
    for (wanted, want) in pattern.wants {
        if *wanted == role {
            return *want;
        }
    }
    Want::Any
}

/// A slot that holds what is wanted, and is none of these.
fn slot_for<A: Allocator + Copy>(
    want: Want,
    mutator: MutNo,
    taken: &[SlotNo],
    dice: &mut Dice,
    known: &Known<A>,
) -> Option<SlotNo> {
    let first = dice.below(SLOTS as u32);
    for number in 0..SLOTS as u32 {
        let slot = SlotNo((first + number) % SLOTS as u32);
        if known.meets(mutator, slot, want) && !taken.contains(&slot) {
            return Some(slot);
        }
    }
    None
}
