//! The marker: a heap in its cycles, and the calls of mutators that make and change objects.

ghost use Rattle.std.specs.Prelude.{◌≡◌, ◌++◌, ◌∷◌, [], false, IfOk, replicate};
ghost use Rattle.ref_base.specs.Collectors.{first_state_of};
ghost use Rattle.ref_base.specs.CollectorRows.{value_reply};
ghost use Rattle.ref_base.specs.declared.heap_step.HeapStep.TheVariants.{Plain};
ghost use Rattle.ref_base.specs.declared.plain_step.PlainStep.TheVariants.{Copy, Drop, New, Refer, Store};
ghost use Rattle.ref_objects.specs.Grounds.{starting_refusal, IsMade, IsWellFormed};
ghost use Rattle.ref_space.specs.Worklists.{empty_worklist};
ghost use Rattle.ref_mark.specs.Chains.{no_chain};
ghost use Rattle.ref_mark.specs.CycleHeaps.{first_cycle_heap, is_in_cycle, shaded, shaded_if_any, young};
ghost use Rattle.ref_mark.specs.MarkCalls.{MarkerDoes, reply_of, done_reply};
ghost use Rattle.ref_mark.specs.MarkViews.{ground_of, MayGrey};
ghost use Rattle.ref_mark.specs.Standing.{MarkStands};
ghost use Rattle.ref_mark.specs.MarkRows.{starting_state};

mod barriers;
mod cycle;
mod holds;
mod layer;
mod moves;

use crate::chain::Chain;
use ref_base::{Config, Fault, MutNo, ObjNo, Phase, Policy, QueueNo, Reply, SlotNo, Strength};
use ref_objects::{Entry, Objects, Start, Worklist};
use ref_space::first_policy;
use std::alloc::{AllocError, Allocator, Global};
use std::marker::Model;

/// How many workers there may be.
const MOST_WORKERS: usize = 8;

/// A heap in its cycles.
///
/// All its memory is taken as it is made: that of `Objects`, 8 bytes for each cell, which are the grey list, and 8 for
/// each worker. No other call takes any.
#[derive(Drop)]
pub struct Marker<A: Allocator = Global> {
    // An object is marked as the cycle reaches it, or as it is made once a cycle has begun.
    objects: Objects<A>,
    // The marked objects that are still to be scanned.
    grey: Worklist<A>,
    // For each worker, the references that it found, linked in their records.
    found: Vec<Chain, A>,
    // Where the last lay of each of these lists, so that it needn't be searched.
    found_last: [u32; MOST_WORKERS],
    phase: Phase,
    // What the cycle goes by, since its begin.
    policy: Policy,
    cycle: u64,
}

impl<A: Allocator> Model for Marker<A> {
    ghost use Rattle.ref_mark.specs.CycleHeaps.{CycleHeap};
    ghost use Rattle.ref_mark.specs.MarkViews.{seen_marker, IsMarker};

    ghost Value = { CycleHeap };

    ghost view = { λ m. seen_marker m.objects m.grey m.found.items m.phase m.policy m.cycle };

    ghost invariant = { λ m. IsMarker m.objects m.grey m.found.items m.phase m.cycle };
}

impl<A: Allocator + Copy> Marker<A> {
    /// A heap without objects, between cycles, whose first object and first cycle have number 1. Heaps of one program
    /// have distinct numbers, by the caller. Tried in this order: `BadConfig`, `NoMemory`.
    pub fn new(alloc: A, config: Config, heap_no: u64) -> Result<Self, Fault>
        ensures made { IsMade (starting_refusal config (record { obj = 1; cycle = 0; page = 1 }))
            (first_cycle_heap config heap_no (record { obj = 1; cycle = 0; page = 1 })) result }
        ensures stands { IfOk result (λ heap. MarkStands heap (first_state_of config heap_no)) }
    {
        Self::starting(alloc, config, heap_no, Start::FIRST)
    }

    /// A marker whose numbers begin at `start`, and else as `new` makes it. `BadConfig` also where they can't begin so.
    pub fn starting(alloc: A, config: Config, heap_no: u64, start: Start) -> Result<Self, Fault>
        ensures made { IsMade (starting_refusal config start)
            (first_cycle_heap config heap_no start) result }
        ensures stands { IfOk result (λ heap. MarkStands heap (starting_state config heap_no start.obj start.cycle)) }
    {
        let objects = Objects::starting(alloc, config, heap_no, start)?;
        match worklists(alloc, config) {
            Ok((grey, found)) => Ok(Marker {
                objects,
                grey,
                found,
                found_last: [0; MOST_WORKERS],
                phase: Phase::Idle,
                policy: first_policy(config),
                cycle: start.cycle,
            }),
            Err(_) => Err(Fault::NoMemory),
        }
    }

    /// The objects, slots and holds, for reading. A reference whose referent is doomed may hold it still.
    pub fn objects(&self) -> &Objects<A>
        ensures { result.now ≡ ground_of self.now }
    {
        &self.objects
    }

    /// The phase.
    pub fn phase(&self) -> Phase
        ensures { result ≡ self.now.phase }
    {
        self.phase
    }

    /// How many cycles have begun.
    pub fn cycle(&self) -> u64
        ensures { result ≡ self.now.cycle }
    {
        self.cycle
    }

    /// Makes a plain object, as `Objects::alloc_obj` does: `NoSuchActor`, `BadField`, `NumbersSpent`, `NoCell`. It is
    /// black from the start once a cycle has begun.
    pub fn alloc_obj(&mut self, mutator: MutNo, into: SlotNo, fields: u32) -> Result<ObjNo, Fault>
        ensures { MarkerDoes self.old (Plain (New mutator into fields)) (reply_of Reply.Object result) self.new }
    {
        // Gives the proof that the next number is that of no object, nor marked.
        known(&self.objects);
        let no = self.objects.alloc_obj(mutator, into, fields)?;
        known(&self.objects);
        self.make_young(no);
        Ok(no)
    }

    /// Makes a reference to the object in slot `from`, as `Objects::alloc_ref` does: `NoSuchActor`, `BadQueue`,
    /// `EmptySlot`, `BadField`, `NumbersSpent`, `NoCell`. It is black from the start once a cycle has begun.
    pub fn alloc_ref(
        &mut self,
        mutator: MutNo,
        into: SlotNo,
        strength: Strength,
        from: SlotNo,
        queue: Option<QueueNo>,
        fields: u32,
    ) -> Result<ObjNo, Fault>
        ensures { MarkerDoes self.old (Plain (Refer mutator strength into from queue fields))
            (reply_of Reply.Object result) self.new }
    {
        // Gives the proof that the next number is that of no object, nor marked.
        known(&self.objects);
        let no = self
            .objects
            .alloc_ref(mutator, into, strength, from, queue, fields)?;
        known(&self.objects);
        self.make_young(no);
        Ok(no)
    }

    /// Stores what slot `from` holds into a field of the object in slot `into`, as `Objects::store` does:
    /// `NoSuchActor`, `EmptySlot`, `BadField`.
    pub fn store(
        &mut self,
        mutator: MutNo,
        into: SlotNo,
        field: u32,
        from: SlotNo,
    ) -> Result<(), Fault>
        ensures { MarkerDoes self.old (Plain (Store mutator into field from)) (reply_of done_reply result) self.new }
    {
        self.objects.store(mutator, into, field, from)
    }

    /// Copies slot `from` into slot `into`, and answers what it holds: `NoSuchActor`.
    pub fn copy(
        &mut self,
        mutator: MutNo,
        into: SlotNo,
        from: SlotNo,
    ) -> Result<Option<ObjNo>, Fault>
        ensures { MarkerDoes self.old (Plain (Copy mutator into from)) (reply_of value_reply result) self.new }
    {
        self.objects.copy(mutator, into, from)
    }

    /// Empties a slot: `NoSuchActor`.
    pub fn drop_slot(&mut self, mutator: MutNo, slot: SlotNo) -> Result<(), Fault>
        ensures { MarkerDoes self.old (Plain (Drop mutator slot)) (reply_of done_reply result) self.new }
    {
        self.objects.drop_slot(mutator, slot)
    }

    // ---- parts of calls

    // Once a cycle has begun, what is made is black.
    fn make_young(&mut self, no: ObjNo)
        ensures { self.new ≡ young self.old no }
    {
        if self.is_in_cycle() {
            self.objects.mark(no);
            known(&self.objects);
        }
    }

    // Whether a cycle has begun, and has not ended.
    fn is_in_cycle(&self) -> bool
        ensures { result ≡ is_in_cycle self.now.phase }
    {
        match self.phase {
            Phase::Marking | Phase::Clearing | Phase::Sweeping => true,
            Phase::Idle | Phase::Moving => false,
        }
    }

    // A white object becomes grey.
    fn shade(&mut self, no: ObjNo)
        ensures { self.new ≡ shaded self.old no }
    {
        if self.objects.mark(no) {
            known(&self.objects);
            self.push_grey(Entry::of(no));
        }
    }

    // An object that was just marked becomes grey.
    #[inline(always)]
    fn push_grey(&mut self, entry: Entry)
        requires { MayGrey self.old entry.no }
        ensures { self.new ≡ record self.old { grey = self.old.grey ++ entry.no ∷ [] } }
    {
        self.grey.push(entry);
    }
}

// The grey list, and a list for each worker, all of them empty.
fn worklists<A: Allocator + Copy>(
    alloc: A,
    config: Config,
) -> Result<(Worklist<A>, Vec<Chain, A>), AllocError>
    ensures grey { IfOk result (λ made. made.0 ≡ empty_worklist config.cells) }
    ensures found { IfOk result (λ made. made.1.items ≡ replicate config.workers no_chain) }
{
    let room = config.cells as usize;
    let grey = Worklist::new(alloc, room)?;
    let workers = config.workers as usize;
    let mut found = Vec::with_capacity(alloc, workers)?;
    for _worker in 0..workers {
        found.push_reserved(Chain::new());
    }
    Ok((grey, found))
}

// What holds of every heap, for the proofs: it does nothing.
fn known<A: Allocator + Copy>(objects: &Objects<A>)
    ensures { IsWellFormed objects.now }
{
    let _count = objects.object_count();
}
