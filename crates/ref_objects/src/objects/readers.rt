//! What one reads of a heap's objects.

ghost use Rattle.std.specs.Prelude.{◌≡◌, ◌+◌, IfOk, length, nat_lt, is_some};
ghost use Rattle.std.specs.Option.{IfSome};
ghost use Rattle.ref_base.specs.Members.{has};
ghost use Rattle.ref_base.specs.Graphs.{object_at, is_there, numbers};
ghost use Rattle.ref_base.specs.Heaps.{slot_at, reference_at, registered_in};
ghost use Rattle.ref_base.specs.CollectorRows.{referent_of};
ghost use Rattle.ref_base.specs.Refusals.{drop_refusal, field_count};
ghost use Rattle.ref_space.specs.Tables.{fields_in};
ghost use Rattle.ref_objects.specs.Grounds.{IsRefused, kind_in, stamp_in, least_from, IsWellFormed};
ghost use Rattle.ref_objects.specs.Grounds.{cleared_in_at, link_at, linked_in};
ghost use Rattle.ref_objects.specs.Grounds.{IsSparedIfAny, IsWordIn, IsWordOfReferent};

use super::{Objects, known};
use crate::kind::Kind;
use ref_base::{Config, Fault, MutNo, ObjNo, QueueNo, SlotNo};
use ref_space::{Fields, Linked, Reference};
use std::alloc::Allocator;

impl<A: Allocator + Copy> Objects<A> {
    /// How large the heap is, as it was made. In constant time, as are the other readers that name no object.
    pub fn config(&self) -> Config
        ensures { result ≡ self.now.heap.config }
    {
        self.config
    }

    /// The number of the heap.
    pub fn heap_no(&self) -> u64
        ensures { result ≡ self.now.heap.no }
    {
        self.heap_no
    }

    /// The clock: 0 at first.
    pub fn clock(&self) -> u64
        ensures { result ≡ self.now.heap.clock }
    {
        self.clock
    }

    /// The number of the next object, or 2^32 where none is left.
    pub fn next_no(&self) -> u64
        ensures { result ≡ self.now.next }
    {
        self.next
    }

    /// How many objects there are. Its contract says too what holds of every heap: it is well formed.
    pub fn object_count(&self) -> usize
        ensures count { result ≡ length self.now.heap.objects }
        ensures well_formed { IsWellFormed self.now }
    {
        self.table.len()
    }

    /// How many holds are out.
    pub fn hold_count(&self) -> u64
        ensures { result ≡ length self.now.heap.holds }
    {
        self.holds
    }

    /// How many slots there are, of all mutators.
    pub fn slot_count(&self) -> usize
        ensures { result ≡ length self.now.heap.slots }
    {
        self.table.slot_count()
    }

    /// What a slot holds: an object that is there and isn't condemned, or null. The one error is `NoSuchActor`.
    pub fn slot_of(&self, mutator: MutNo, slot: SlotNo) -> Result<Option<ObjNo>, Fault>
        ensures refused { IsRefused (drop_refusal self.now.heap mutator slot) result }
        ensures answer { IfOk result (λ value. value ≡ slot_at self.now.heap mutator slot) }
        ensures spared { IfOk result (λ value. IsSparedIfAny self.now value) }
    {
        let place = self.place(mutator, slot)?;
        Ok(self.table.slot(place))
    }

    /// Whether there is an object of this number. In logarithmic time, as are the other readers of an object.
    pub fn has_object(&self, no: ObjNo) -> bool
        ensures { result ≡ is_there self.now.heap.objects no }
    {
        self.table.has(no)
    }

    /// Whether the object of this number is held.
    pub fn is_held(&self, no: ObjNo) -> bool
        ensures { result ≡ has self.now.heap.holds no }
    {
        // Gives the proof that the numbers rise.
        known(&self.table);
        self.table.is_held(no)
    }

    /// What the object of this number is, if there is one.
    pub fn kind_of(&self, no: ObjNo) -> Option<Kind>
        ensures { result ≡ kind_in (object_at self.now.heap.objects no) }
    {
        if !self.has_object(no) {
            return None;
        }
        match self.reference_of(no) {
            Some(reference) => Some(Kind::Reference(reference.strength)),
            None => Some(Kind::Plain),
        }
    }

    /// The fields of the object of this number: none where there is no such object.
    pub fn fields_of(&self, no: ObjNo) -> Fields
        ensures { result ≡ fields_in (object_at self.now.heap.objects no) }
    {
        self.table.fields(no)
    }

    /// The word that a field of the object of this number holds, 0 where it holds null: none where there is no such
    /// object or field. Its page and cell are those in which the field's object lies. It has the good colour where a
    /// cycle was the last to make a colour good, and has healed the object. Mutators never see it: it is for who
    /// inspects a heap.
    pub fn word_at(&self, no: ObjNo, field: u32) -> Option<u64>
        ensures there { is_some result ≡ nat_lt field (field_count (object_at self.now.heap.objects no)) }
        ensures word { IfSome result (IsWordIn self.now no field) }
    {
        // Gives the proof that the numbers rise.
        known(&self.table);
        self.table.word_at(no, field as usize)
    }

    /// The word that the reference of this number has as its referent, 0 where that is null: none where there is no
    /// such object, or it is plain. Its page and cell are those in which its referent lies, and it has the good colour
    /// where a cycle was the last to make a colour good, and has healed the reference. Mutators never see it: it is for
    /// who inspects a heap.
    pub fn word_of_referent(&self, no: ObjNo) -> Option<u64>
        ensures there { is_some result ≡ is_some (reference_at self.now.heap no) }
        ensures word { IfSome result (IsWordOfReferent self.now no) }
    {
        // Gives the proof that the numbers rise.
        known(&self.table);
        self.table.word_of_referent(no)
    }

    /// What the object of this number has as a reference: nothing where there is no such object, or it is plain.
    pub fn reference_of(&self, no: ObjNo) -> Option<Reference>
        ensures { result ≡ reference_at self.now.heap no }
    {
        self.linked_of(no).reference
    }

    /// The referent of the reference of this number: null where it is cleared, or there is no such reference.
    pub fn referent_of(&self, no: ObjNo) -> Option<ObjNo>
        ensures { result ≡ referent_of (reference_at self.now.heap no) }
    {
        self.reference_of(no)?.referent
    }

    /// The stamp of the reference of this number: 0 where there is no such reference.
    pub fn stamp_of(&self, no: ObjNo) -> u64
        ensures { result ≡ stamp_in (reference_at self.now.heap no) }
    {
        match self.reference_of(no) {
            Some(reference) => reference.stamp,
            None => 0,
        }
    }

    /// The queue of the reference of this number: none where it has none, or there is no such reference.
    pub fn queue_of(&self, no: ObjNo) -> Option<QueueNo>
        ensures { result ≡ registered_in (reference_at self.now.heap no) }
    {
        self.reference_of(no)?.queue
    }

    /// The cycle in which a worker cleared the object of this number last: 0 where none did, and where there is no such
    /// object.
    pub fn cleared_in(&self, no: ObjNo) -> u64
        ensures { result ≡ cleared_in_at self.now.tags no }
    {
        self.linked_of(no).cleared_in
    }

    /// The link of the object of this number: 0 where it was never written, and where there is no such object.
    pub fn link_of(&self, no: ObjNo) -> u32
        ensures { result ≡ link_at self.now.tags no }
    {
        self.linked_of(no).link
    }

    /// What a list has of the object of this number: no reference, link or cycle where there is no such object. By one
    /// search.
    #[inline(always)]
    pub fn linked_of(&self, no: ObjNo) -> Linked
        ensures { result ≡ linked_in self.now no }
    {
        self.table.linked(no)
    }

    /// The least number from this one on of an object that is there. In logarithmic time, and that of the gaps that
    /// freed objects left behind it.
    pub fn first_from(&self, no: ObjNo) -> Option<ObjNo>
        ensures { result ≡ least_from (numbers self.now.heap.objects) no }
    {
        self.table.first_from(no)
    }

    /// The least number from this one on of an object that is held. In logarithmic time, and that of the objects
    /// between.
    pub fn held_from(&self, no: ObjNo) -> Option<ObjNo>
        ensures { result ≡ least_from self.now.heap.holds no }
    {
        self.table.held_from(no)
    }

    /// The least number above this one of an object that is held. In logarithmic time, and that of the objects between.
    pub fn held_after(&self, no: ObjNo) -> Option<ObjNo>
        ensures { result ≡ least_from self.now.heap.holds (no + 1) }
    {
        // Gives the proof that no number is above the last.
        known(&self.table);
        match no.0.checked_add(1) {
            Some(next) => self.held_from(ObjNo(next)),
            None => None,
        }
    }
}
