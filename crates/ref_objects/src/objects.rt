//! The objects of a heap, with the mutators' slots and the holds: how they lie, and the calls of mutators that make and
//! change them.

ghost use Rattle.std.specs.Prelude.{◌≡◌, ◌*◌, ◌+◌, ◌^◌, ◌<◌, ◌≤◌, if◌then◌else◌, true, false, None, Some};
ghost use Rattle.std.specs.Prelude.{length, slice_index_or, replicate, IfOk, MatchResult, [], is_some, map};
ghost use Rattle.ref_base.specs.Paths.{is_soft};
ghost use Rattle.ref_base.specs.Graphs.{plain_object};
ghost use Rattle.ref_base.specs.Heaps.{slot_at, with_slot, with_changed, with_field, nulls, stored};
ghost use Rattle.ref_base.specs.Heaps.{reference_made, new_reference};
ghost use Rattle.ref_base.specs.Refusals.{unless, has_slot, is_queue_or_none, new_refusal, refer_refusal};
ghost use Rattle.ref_base.specs.Refusals.{store_refusal, drop_refusal, copy_refusal, object_refusal, field_refusal};
ghost use Rattle.ref_base.specs.Refusals.{load_refusal};
ghost use Rattle.ref_base.specs.CollectorRows.{field_in};
ghost use Rattle.ref_objects.specs.Grounds.{first_ground, starting_refusal, IsMade, IsRefused, if_done};
ghost use Rattle.ref_objects.specs.Grounds.{ground_with_heap, ground_brought, with_new_object, is_spared};
ghost use Rattle.ref_objects.specs.Grounds.{IsSparedIfAny};
ghost use Rattle.ref_objects.specs.GroundViews.{made_at};
ghost use Rattle.ref_space.specs.Moves.{AreFree};
ghost use Rattle.ref_space.specs.Tables.{made_of, IsOrderlyTable, left_of, LieOnce, tabled_at};
ghost use Rattle.std.specs.Option.{option_map, is_none, IfSome};

mod holds;
mod layer;
mod marks;
mod moves;
mod readers;
mod references;

use crate::stage::Stage;
use crate::start::Start;
use ref_base::{Config, Fault, MOST_FIELDS, MutNo, ObjNo, QueueNo, SLOTS, SlotNo, Strength};
use ref_space::{Colour, NewReference, Table};
use std::alloc::{Allocator, Global};
use std::marker::Model;

/// The objects of a heap: their fields and references, the slots of the mutators, and the holds that are out.
///
/// All its memory is taken as it is made, and none by any other call. A page of 64 cells takes 5,920 bytes, and there
/// are twice as many pages as the cells of the configuration fill. The slots of a mutator take 64 bytes. What a slot or
/// a field holds is found by its word, in constant time. An object is found by its number in logarithmic time, and in
/// constant time where none with a greater number was freed before the gaps were last closed: so is each that was made
/// since.
#[derive(Drop)]
pub struct Objects<A: Allocator = Global> {
    config: Config,
    heap_no: u64,
    // The slots of mutator m begin at 16 * m.
    table: Table<A>,
    // How many holds are out.
    holds: u64,
    clock: u64,
    // The number of the next object: 2^32 where none is left.
    next: u64,
    // Whether what isn't marked is condemned.
    condemning: bool,
    // The colour of the last cycle that began, and what last made a colour good.
    last: Colour,
    stage: Stage,
    // Whether objects were chosen to move since a cycle last ended.
    has_choice: bool,
}

impl<A: Allocator> Model for Objects<A> {
    ghost use Rattle.ref_objects.specs.Grounds.{Ground};
    ghost use Rattle.ref_objects.specs.GroundViews.{stored_fields, seen_ground, IsSoundObjects};

    ghost Value = { Ground };

    ghost view = { λ o. seen_ground
        (stored_fields o.config o.heap_no o.table o.holds o.clock o.next o.condemning o.last o.stage o.has_choice) };

    ghost invariant = { λ o. IsSoundObjects
        (stored_fields o.config o.heap_no o.table o.holds o.clock o.next o.condemning o.last o.stage o.has_choice) };
}

impl<A: Allocator + Copy> Objects<A> {
    /// A heap without objects, whose first object has number 1. Heaps of one program have distinct numbers, by the
    /// caller. Tried in this order: `BadConfig`, `NoMemory`.
    pub fn new(alloc: A, config: Config, heap_no: u64) -> Result<Self, Fault>
        ensures { IsMade (starting_refusal config (record { obj = 1; cycle = 0; page = 1 }))
            (first_ground config heap_no (record { obj = 1; cycle = 0; page = 1 })) result }
    {
        Self::starting(alloc, config, heap_no, Start::FIRST)
    }

    /// A heap without objects whose numbers begin at `start`, and else as `new` makes it. `BadConfig` also where they
    /// can't begin so.
    pub fn starting(alloc: A, config: Config, heap_no: u64, start: Start) -> Result<Self, Fault>
        ensures { IsMade (starting_refusal config start) (first_ground config heap_no start) result }
    {
        if config.check().is_err() || !start.is_allowed(&config) {
            return Err(Fault::BadConfig);
        }
        let slots = SLOTS * config.mutators as usize;
        let table = Table::new(alloc, config.cells as usize, slots, start.page)?;
        Ok(Objects {
            config,
            heap_no,
            table,
            holds: 0,
            clock: 0,
            next: u64::from(start.obj),
            condemning: false,
            last: Colour::of_cycle(start.cycle),
            stage: Stage::Fresh,
            has_choice: false,
        })
    }

    /// Makes a plain object with so many null fields; the slot holds it. Tried in this order: `NoSuchActor`, `BadField`
    /// above 8 fields, `NumbersSpent`, `NoCell` where there are as many objects as there may be. In constant time, but
    /// for two things. It passes over each full page once, and again after an object in front of that page was freed.
    /// And one call in as many as there are cells takes time of the cells, where `end_cycle` wasn't called for so long.
    pub fn alloc_obj(&mut self, mutator: MutNo, into: SlotNo, fields: u32) -> Result<ObjNo, Fault>
        ensures refused { IsRefused (new_refusal self.old.heap self.old.next mutator into fields) result }
        ensures answer { IfOk result (λ no. no ≡ self.old.next) }
        ensures after { self.new ≡ if_done result
            (with_new_object self.old mutator into (plain_object self.old.next (nulls fields))) self.old }
    {
        let place = self.place(mutator, into)?;
        self.make(place, fields, None)
    }

    /// Makes a reference to the object in slot `from`, with so many null fields; slot `into` holds it. A soft one is
    /// stamped with the clock. Tried in this order: `NoSuchActor`, `BadQueue`, `EmptySlot`, then as for `alloc_obj`,
    /// whose costs it has.
    pub fn alloc_ref(
        &mut self,
        mutator: MutNo,
        into: SlotNo,
        strength: Strength,
        from: SlotNo,
        queue: Option<QueueNo>,
        fields: u32,
    ) -> Result<ObjNo, Fault>
        ensures refused { IsRefused (refer_refusal self.old.heap self.old.next mutator into from queue fields) result }
        ensures answer { IfOk result (λ no. no ≡ self.old.next) }
        ensures after { self.new ≡ if_done result
            (with_new_object self.old mutator into
            (new_reference self.old.heap self.old.next strength (slot_at self.old.heap mutator from)
            queue fields)) self.old }
    {
        let place = self.place(mutator, into)?;
        let held = self.place(mutator, from)?;
        let registered = queue;
        if !self.is_queue(queue) {
            return Err(Fault::BadQueue);
        }
        if self.table.slot(held).is_none() {
            return Err(Fault::EmptySlot);
        }
        self.make_reference(place, fields, strength, held, registered)
    }

    /// Writes what slot `from` holds, an object or null, into a field of the object in slot `into`. Tried in this
    /// order: `NoSuchActor`, `EmptySlot` of `into`, `BadField`. In constant time.
    pub fn store(
        &mut self,
        mutator: MutNo,
        into: SlotNo,
        field: u32,
        from: SlotNo,
    ) -> Result<(), Fault>
        ensures refused { IsRefused (store_refusal self.old.heap mutator into field from) result }
        ensures after { self.new ≡ if_done result
            (ground_with_heap self.old (stored self.old.heap mutator into field from)) self.old }
    {
        let object = self.place(mutator, into)?;
        let value = self.place(mutator, from)?;
        if self.table.slot(object).is_none() {
            return Err(Fault::EmptySlot);
        }
        if !self.table.store(object, field as usize, value) {
            return Err(Fault::BadField);
        }
        Ok(())
    }

    /// Loads a field of the object in slot `from` into slot `into`, and answers what it holds: an object or null. One
    /// that is still to move moves first. Tried in this order: `NoSuchActor`, `EmptySlot` of `from`, `BadField`. In
    /// constant time.
    #[inline(always)]
    pub fn load(
        &mut self,
        mutator: MutNo,
        into: SlotNo,
        from: SlotNo,
        field: u32,
    ) -> Result<Option<ObjNo>, Fault>
        ensures refused { IsRefused (load_refusal self.old.heap mutator into from field) result }
        ensures answer { IfOk result
            (λ value. value ≡ field_in self.old.heap (slot_at self.old.heap mutator from) field) }
        ensures after { self.new ≡ if_done result
            (ground_with_heap
            (ground_brought self.old (field_in self.old.heap (slot_at self.old.heap mutator from) field))
            (with_slot self.old.heap mutator into
            (field_in self.old.heap (slot_at self.old.heap mutator from) field))) self.old }
    {
        let place = self.place(mutator, into)?;
        let object = self.place(mutator, from)?;
        if self.table.slot(object).is_none() {
            return Err(Fault::EmptySlot);
        }
        match self.table.load(place, object, field as usize) {
            Some(value) => Ok(value),
            None => Err(Fault::BadField),
        }
    }

    /// Empties a slot. The one error is `NoSuchActor`. In constant time.
    pub fn drop_slot(&mut self, mutator: MutNo, slot: SlotNo) -> Result<(), Fault>
        ensures refused { IsRefused (drop_refusal self.old.heap mutator slot) result }
        ensures after { self.new ≡ if_done result
            (ground_with_heap self.old (with_slot self.old.heap mutator slot None)) self.old }
    {
        let place = self.place(mutator, slot)?;
        self.table.empty_slot(place);
        Ok(())
    }

    /// Copies what slot `from` holds, an object or null, into slot `into`, and answers it. The one error is
    /// `NoSuchActor`. In constant time.
    pub fn copy(
        &mut self,
        mutator: MutNo,
        into: SlotNo,
        from: SlotNo,
    ) -> Result<Option<ObjNo>, Fault>
        ensures refused { IsRefused (copy_refusal self.old.heap mutator into from) result }
        ensures answer { IfOk result (λ value. value ≡ slot_at self.old.heap mutator from) }
        ensures after { self.new ≡ if_done result
            (ground_with_heap self.old (with_slot self.old.heap mutator into
            (slot_at self.old.heap mutator from))) self.old }
    {
        let place = self.place(mutator, into)?;
        let from = self.place(mutator, from)?;
        self.table.copy_slot(place, from);
        Ok(self.table.slot(from))
    }

    // ---- parts of calls

    // Where a slot lies.
    #[inline(always)]
    fn place(&self, mutator: MutNo, slot: SlotNo) -> Result<usize, Fault>
        ensures place { MatchResult result
            (λ place. (has_slot self.now.heap mutator slot ≡ true) × (place ≡ 16 * mutator + slot)
            × (place < length self.now.heap.slots))
            (λ fault. (has_slot self.now.heap mutator slot ≡ false) × (fault ≡ Fault.NoSuchActor)) }
    {
        if mutator.0 >= self.config.mutators || slot.0 as usize >= SLOTS {
            return Err(Fault::NoSuchActor);
        }
        Ok(SLOTS * mutator.0 as usize + slot.0 as usize)
    }

    // Whether there is this queue, if it is one.
    fn is_queue(&self, queue: Option<QueueNo>) -> bool
        ensures { result ≡ is_queue_or_none self.now.heap queue }
    {
        match queue {
            Some(queue) => queue.0 < self.config.queues,
            None => true,
        }
    }

    // The stamp of a reference that is made now.
    fn stamp_of_new(&self, strength: Strength) -> u64
        ensures { result ≡ (if is_soft strength then self.now.heap.clock else 0) }
    {
        match strength {
            Strength::Soft => self.clock,
            Strength::Weak | Strength::Phantom => 0,
        }
    }

    // Makes an object; the slot at this place holds it.
    fn make(
        &mut self,
        place: usize,
        fields: u32,
        reference: Option<NewReference>,
    ) -> Result<ObjNo, Fault>
        requires place { place < length self.old.heap.slots }
        requires from { IfSome reference (λ r. r.from < length self.old.heap.slots) }
        ensures refused { IsRefused (object_refusal self.old.heap self.old.next fields) result }
        ensures answer { IfOk result (λ no. no ≡ self.old.next) }
        ensures after { self.new ≡ if_done result
            (made_at self.old place fields (option_map (made_of self.old.heap.slots) reference)) self.old }
    {
        if fields as usize > MOST_FIELDS {
            return Err(Fault::BadField);
        }
        if self.next > u64::from(u32::MAX) {
            return Err(Fault::NumbersSpent);
        }
        if self.table.is_full() {
            return Err(Fault::NoCell);
        }
        // Gives the proof that no number is above the last.
        known(&self.table);
        let no = ObjNo(self.next as u32);
        // What isn't marked would be condemned.
        self.table
            .push(place, no, fields as usize, reference, self.condemning);
        self.next += 1;
        Ok(no)
    }

    // Makes a reference to what the slot at place `from` holds; the slot at place `place` holds it.
    fn make_reference(
        &mut self,
        place: usize,
        fields: u32,
        strength: Strength,
        from: usize,
        queue: Option<QueueNo>,
    ) -> Result<ObjNo, Fault>
        requires place { place < length self.old.heap.slots }
        requires from { from < length self.old.heap.slots }
        ensures refused { IsRefused (object_refusal self.old.heap self.old.next fields) result }
        ensures answer { IfOk result (λ no. no ≡ self.old.next) }
        ensures after { self.new ≡ if_done result
            (made_at self.old place fields
            (Some (reference_made self.old.heap strength (slice_index_or self.old.heap.slots from None) queue)))
            self.old }
    {
        let reference = NewReference {
            strength,
            from,
            stamp: self.stamp_of_new(strength),
            queue,
        };
        self.make(place, fields, Some(reference))
    }
}

// What holds of every table, for the proofs: it does nothing.
fn known<A: Allocator + Copy>(table: &Table<A>)
    ensures orderly { IsOrderlyTable table.now }
    ensures settled { table.now.ways.tuned ≡ true → left_of table.now ≡ [] }
    ensures laid { LieOnce table.now.occupants (λ n. is_some (tabled_at table.now.tabled n)) }
    ensures free { AreFree (map is_none table.now.occupants) table.now.ways.forwards table.now.ways.pages.uses }
{
    let _count = table.len();
}
