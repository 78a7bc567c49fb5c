//! What is known of a script so far, by what a world answered to its steps.

use ref_base::{
    Config, MOST_FIELDS, MutNo, ObjNo, Phase, PlainStep, QueueNo, Reply, SLOTS, SlotNo, Step,
};
use std::alloc::{AllocError, Allocator};

/// What is wanted of the object in a slot.
#[derive(Clone, Copy, PartialEq, Eq)]
pub enum Want {
    /// Any, or none.
    Any,
    /// None.
    Nothing,
    /// An object.
    Object,
    /// An object with a field.
    Fields,
    /// An object with a field that isn't null.
    Full,
    /// An object with a field, which this mark has scanned, or which was made since it began.
    Black,
    /// An object that this mark has not scanned, with a field that isn't null.
    White,
    /// A reference.
    Reference,
    /// A reference with a queue, which a worker cleared in this cycle.
    Pending,
}

/// An object that was made.
#[derive(Clone, Copy)]
struct Made {
    is_reference: bool,
    queue: Option<QueueNo>,
    count: u32,
    fields: [Option<ObjNo>; MOST_FIELDS],
    /// The cycle that scanned it last, or in which it was made, and the one that cleared it.
    scanned: u64,
    cleared: u64,
}

impl Made {
    /// The last field that isn't null.
    fn full_field(&self) -> Option<u32> {
        let place = self
            .fields
            .iter()
            .rposition(|field: &Option<ObjNo>| -> bool { field.is_some() })?;
        u32::try_from(place).ok()
    }
}

/// What is known of a script so far. Numbers outside the configuration name nothing.
#[derive(Drop)]
pub struct Known<A: Allocator> {
    pub config: Config,
    pub phase: Phase,
    pub clock: u64,
    cycle: u64,
    slots: Vec<Option<ObjNo>, A>,
    objects: Vec<Made, A>,
}

impl<A: Allocator + Copy> Known<A> {
    /// What is known of a script of this configuration that has no step yet, with memory for so many.
    pub fn new(alloc: A, config: Config, steps: u32) -> Result<Self, AllocError> {
        let slots = (config.mutators as usize).saturating_mul(SLOTS);
        Ok(Known {
            config,
            phase: Phase::Idle,
            clock: 0,
            cycle: 0,
            slots: vec![in alloc; None; slots]?,
            objects: Vec::with_capacity(alloc, steps as usize)?,
        })
    }

    /// What a slot holds.
    fn held(&self, mutator: MutNo, slot: SlotNo) -> Option<ObjNo> {
        self.slots.get(place_of(mutator, slot)).copied().flatten()
    }

    /// The object in a slot.
    fn made(&self, mutator: MutNo, slot: SlotNo) -> Option<&Made> {
        self.objects.get(index_of(self.held(mutator, slot)?))
    }

    /// Whether what a slot holds is as wanted.
    pub fn meets(&self, mutator: MutNo, slot: SlotNo, want: Want) -> bool {
        let Some(made) = self.made(mutator, slot) else {
            return matches!(want, Want::Any | Want::Nothing);
        };
        let is_black = made.scanned == self.cycle;
        match want {
            Want::Any | Want::Object => true,
            Want::Nothing => false,
            Want::Fields => made.count > 0,
            Want::Full => made.full_field().is_some(),
            Want::Black => made.count > 0 && is_black,
            Want::White => !is_black && made.full_field().is_some(),
            Want::Reference => made.is_reference,
            Want::Pending => made.cleared == self.cycle && made.queue.is_some(),
        }
    }

    /// The field of what a slot holds that a script is to use: the last that isn't null, and else the first.
    pub fn field(&self, mutator: MutNo, slot: SlotNo) -> u32 {
        self.made(mutator, slot)
            .and_then(|made: &Made| -> Option<u32> { made.full_field() })
            .unwrap_or(0)
    }

    /// Learns what this step was answered.
    pub fn learn(&mut self, step: &Step, reply: &Reply) -> Result<(), AllocError> {
        match reply {
            Reply::Object(no) => {
                self.learn_object(step)?;
                self.learn_slot(step, Some(*no));
            }
            Reply::Null => self.learn_slot(step, None),
            Reply::Done => self.learn_done(step),
            Reply::Cycle(cycle) => self.learn_begin(step, *cycle),
            Reply::Doomed(_) => self.phase = Phase::Clearing,
            Reply::Selected(_) => self.phase = Phase::Moving,
            Reply::Scanned(no) => self.learn_scan(*no),
            Reply::Cleared(no) => self.learn_clear(*no),
            _ => {}
        }
        Ok(())
    }

    fn learn_scan(&mut self, no: ObjNo) {
        let cycle = self.cycle;
        if let Some(made) = self.objects.get_mut(index_of(no)) {
            made.scanned = cycle;
        }
    }

    fn learn_clear(&mut self, no: ObjNo) {
        let cycle = self.cycle;
        if let Some(made) = self.objects.get_mut(index_of(no)) {
            made.cleared = cycle;
        }
    }

    /// Learns of an object, if the step made one.
    fn learn_object(&mut self, step: &Step) -> Result<(), AllocError> {
        let (is_reference, queue, count) = match step {
            Step::Plain(PlainStep::New { fields, .. }) => (false, None, *fields),
            Step::Plain(PlainStep::Refer { queue, fields, .. }) => (true, *queue, *fields),
            _ => return Ok(()),
        };
        self.objects.push(Made {
            is_reference,
            queue,
            count,
            fields: [None; MOST_FIELDS],
            scanned: self.cycle,
            cleared: 0,
        })?;
        Ok(())
    }

    /// Learns what a slot holds, if the step wrote one.
    fn learn_slot(&mut self, step: &Step, object: Option<ObjNo>) {
        let place = match step {
            Step::Plain(plain) => place_in(plain),
            Step::Adopt { mutator, slot } => place_of(*mutator, *slot),
            _ => usize::MAX,
        };
        if let Some(held) = self.slots.get_mut(place) {
            *held = object;
        }
    }

    /// Learns that the step was done.
    fn learn_done(&mut self, step: &Step) {
        match step {
            Step::Plain(
                PlainStep::Store {
                    mutator,
                    object,
                    field,
                    value,
                },
            ) => self.learn_field(*mutator, *object, *field, *value),
            Step::Plain(PlainStep::EndClear) => self.phase = Phase::Sweeping,
            Step::Plain(PlainStep::EndSweep) => self.phase = Phase::Idle,
            Step::Plain(PlainStep::EndMove) => self.phase = Phase::Idle,
            _ => self.learn_slot(step, None),
        }
    }

    /// Learns what a field of an object holds.
    fn learn_field(&mut self, mutator: MutNo, object: SlotNo, field: u32, value: SlotNo) {
        let value = self.held(mutator, value);
        let Some(no) = self.held(mutator, object) else {
            return;
        };
        if let Some(made) = self.objects.get_mut(index_of(no))
            && let Some(held) = made.fields.get_mut(field as usize)
        {
            *held = value;
        }
    }

    /// Learns that a cycle began.
    fn learn_begin(&mut self, step: &Step, cycle: u64) {
        self.phase = Phase::Marking;
        self.cycle = cycle;
        if let Step::Plain(PlainStep::Begin { now, .. }) = step {
            self.clock = *now;
        }
    }
}

/// The place of an object among those that were made, of which the first has number 1.
fn index_of(no: ObjNo) -> usize {
    (no.0 as usize).saturating_sub(1)
}

/// The place of a slot among those of all mutators, and one behind them all where there is no such slot.
fn place_of(mutator: MutNo, slot: SlotNo) -> usize {
    if slot.0 as usize >= SLOTS {
        return usize::MAX;
    }
    (mutator.0 as usize)
        .saturating_mul(SLOTS)
        .saturating_add(slot.0 as usize)
}

/// The place of the slot that a step writes, and one behind all where it writes none.
fn place_in(step: &PlainStep) -> usize {
    match step {
        PlainStep::New { mutator, slot, .. } => place_of(*mutator, *slot),
        PlainStep::Refer { mutator, slot, .. } => place_of(*mutator, *slot),
        PlainStep::Load { mutator, slot, .. } => place_of(*mutator, *slot),
        PlainStep::Copy { mutator, slot, .. } => place_of(*mutator, *slot),
        PlainStep::Drop { mutator, slot } => place_of(*mutator, *slot),
        PlainStep::Get { mutator, slot, .. } => place_of(*mutator, *slot),
        _ => usize::MAX,
    }
}
