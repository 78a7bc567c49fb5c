//! The slots of a table: what they hold, and the calls that name an object by its slot. They search nothing, but for
//! that which puts an object into a slot by its number.

ghost use Rattle.std.specs.Prelude.{◌≡◌, ◌<◌, if◌then◌else◌, true, None, Some, length, map, is_some};
ghost use Rattle.std.specs.Option.{option_map, IfSome};
ghost use Rattle.ref_base.specs.DoomedSets.{refers_into};
ghost use Rattle.ref_base.specs.Heaps.{with_field};
ghost use Rattle.ref_space.specs.Tables.{held_at, slotted, tabled_held, changed_held, tabled_at, field_in_cell};
ghost use Rattle.ref_space.specs.Tables.{field_held, has_field, on_object, change_of, tabled_reference};
ghost use Rattle.ref_space.specs.Tables.{is_unmarked_at, marked_if, anew_if, brought, left_of, without_if_any};
ghost use Rattle.ref_space.specs.Naming.{IsReferentRead};
ghost use Rattle.ref_space.specs.Tables.{with_none_read, with_read, word_name, read_if_good, referent_held, table_got};
ghost use Rattle.ref_space.specs.Worklists.{entry_number};

use super::Table;
use crate::cell::Change;
use crate::index::Entry;
use crate::reference::Reference;
use crate::word::Word;
use ref_base::ObjNo;
use std::alloc::Allocator;

impl<A: Allocator + Copy> Table<A> {
    /// How many slots there are.
    pub fn slot_count(&self) -> usize
        ensures { result ≡ length self.now.slots }
    {
        self.slots.len()
    }

    /// What the slot at this place holds.
    #[inline(always)]
    pub fn slot(&self, place: usize) -> Option<ObjNo>
        requires { place < length self.now.slots }
        ensures { result ≡ held_at self.now place }
    {
        self.name(self.slots[place])
    }

    /// Empties the slot at this place.
    pub fn empty_slot(&mut self, place: usize)
        requires { place < length self.old.slots }
        ensures { self.new ≡ slotted self.old place None }
    {
        self.slots[place] = Word::null();
    }

    /// The slot at this place holds the object of this number, or nothing where there is no such object.
    pub fn set_slot(&mut self, place: usize, no: ObjNo)
        requires { place < length self.old.slots }
        ensures { self.new ≡ slotted self.old place
            (if is_some (tabled_at self.old.tabled no) then Some no else None) }
    {
        let word = self.word_of(no);
        self.slots[place] = word;
    }

    /// The slot at place `into` holds what that at place `from` holds.
    #[inline(always)]
    pub fn copy_slot(&mut self, into: usize, from: usize)
        requires into { into < length self.old.slots }
        requires from { from < length self.old.slots }
        ensures { self.new ≡ slotted self.old into (held_at self.old from) }
    {
        self.slots[into] = self.slots[from];
    }

    /// Loads a field of the object in the slot at place `from` into that at place `into`, and answers what it holds. An
    /// object that is still to move moves first. The word of the field is the one that was read last then, so that it
    /// is null or has the good colour. None where there is no such object or field: then nothing changes.
    #[inline(always)]
    pub fn load(&mut self, into: usize, from: usize, field: usize) -> Option<Option<ObjNo>>
        requires into { into < length self.old.slots }
        requires from { from < length self.old.slots }
        ensures answer { result ≡ field_in_cell (tabled_held self.old from) field }
        ensures after { self.new ≡ (if has_field (tabled_held self.old from) field
            then slotted (brought (with_read self.old (word_name (held_at self.old from) (Some field)))
            (field_held (tabled_held self.old from) field)) into
            (field_held (tabled_held self.old from) field) else self.old) }
        ensures left { left_of self.new
            ≡ without_if_any (left_of self.old) (field_held (tabled_held self.old from) field) }
    {
        let object = self.slots[from];
        let value = self.load_field(object, field)?;
        self.slots[into] = value;
        Some(self.name(value))
    }

    /// Writes what the slot at place `from` holds into a field of the object in that at place `into`. False where there
    /// is no such object or field: then no object changes. None is the word that was read last then, since the one that
    /// is written may have a colour from before.
    #[inline(always)]
    pub fn store(&mut self, into: usize, field: usize, from: usize) -> bool
        requires into { into < length self.old.slots }
        requires from { from < length self.old.slots }
        ensures there { result ≡ has_field (tabled_held self.old into) field }
        ensures after { self.new ≡ changed_held (with_none_read self.old) into
            (on_object (with_field field (held_at self.old from))) }
    {
        let (object, value) = (self.slots[into], self.slots[from]);
        self.set_field(object, field, value)
    }

    /// What the object in the slot at this place has as a reference: nothing where there is none, or it is plain.
    #[inline(always)]
    pub fn reference_in(&self, place: usize) -> Option<Reference>
        requires { place < length self.now.slots }
        ensures { result ≡ tabled_reference (tabled_held self.now place) }
    {
        self.reference(self.kept(self.slots[place]))
    }

    /// Whether the slot at this place holds a reference to an object that isn't marked.
    #[inline(always)]
    pub fn refers_to_unmarked_in(&self, place: usize) -> bool
        requires { place < length self.now.slots }
        ensures { result ≡ refers_into (is_unmarked_at self.now.round.number self.now.tabled)
            (tabled_reference (tabled_held self.now place)) }
    {
        self.refers_to_unmarked(self.kept(self.slots[place]))
    }

    /// What `reference_in` answers, with the word of the referent. That is the one that was read last then, where it is
    /// null or has the good colour.
    #[inline(always)]
    pub fn read_reference(&mut self, place: usize) -> Option<(Reference, Word)>
        requires { place < length self.old.slots }
        ensures answer { option_map (λ read. read.0) result ≡ tabled_reference (tabled_held self.old place) }
        ensures word { IfSome result (λ read. IsReferentRead self.new place read.1) }
        ensures after { self.new ≡ with_read self.old
            (read_if_good self.old.round (word_name (held_at self.old place) None)
            (option_map (λ read. read.1) result)) }
    {
        let object = self.slots[place];
        let kept = self.read_kept(object)?;
        Some((self.reference_by_number(kept), kept.referent))
    }

    /// The slot at place `into` holds the referent of the reference in that at place `from`, by the word that was read
    /// there: nothing where that is null. An object that is still to move moves first. The word of the referent is the
    /// one that was read last then, so that it is null or has the good colour.
    #[inline(always)]
    pub fn get_referent(&mut self, into: usize, from: usize, word: Word)
        requires into { into < length self.old.slots }
        requires from { from < length self.old.slots }
        requires word { IsReferentRead self.old from word }
        ensures after { self.new ≡ table_got self.old into from }
        ensures left { left_of self.new ≡ without_if_any (left_of self.old) (referent_held self.old from) }
    {
        let object = self.slots[from];
        let referent = self.load_referent(object, word);
        self.slots[into] = referent;
    }

    /// Writes this change into the object in the slot at this place. Nothing changes where there is none.
    #[inline(always)]
    pub fn change_in(&mut self, place: usize, change: Change)
        requires { place < length self.old.slots }
        ensures { self.new ≡ changed_held self.old place (change_of change) }
    {
        let object = self.slots[place];
        self.change_by(object, change);
    }

    /// Marks the object in the slot at this place, and answers it where it wasn't marked.
    #[inline(always)]
    pub fn mark_in(&mut self, place: usize) -> Option<Entry>
        requires { place < length self.old.slots }
        ensures answer { entry_number result ≡ anew_if self.old (held_at self.old place) }
        ensures after { self.new ≡ marked_if self.old (held_at self.old place) }
    {
        let value = self.slots[place];
        self.mark_by(value)
    }
}
