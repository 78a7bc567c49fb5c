//! What a table's calls do by the number of an object: they search it in the index.

ghost use Rattle.std.specs.Prelude.{◌≡◌, ◌-◌, ◌^◌, ◌<◌, nat_lt, true, length, is_some, slice_index_or, if◌then◌else◌};
ghost use Rattle.std.specs.Prelude.{None, Some};
ghost use Rattle.std.specs.Option.{option_map, IfSome};
ghost use Rattle.ref_space.specs.Tables.{tabled_at, tabled_fields, holds_in, holds_of, first_from, held_from};
ghost use Rattle.ref_space.specs.Tables.{may_hold, more_held_if, less_held, changed, is_marked_in, is_unmarked_in};
ghost use Rattle.ref_space.specs.Tables.{with_marked, change_of, has_field, field_held, is_healed_in, tabled_linked};
ghost use Rattle.ref_space.specs.Tables.{is_unmarked_at, table_look, table_looked_at, tabled_reference};
ghost use Rattle.ref_base.specs.CollectorRows.{referent_of};
ghost use Rattle.ref_base.specs.DoomedSets.{refers_into};
ghost use Rattle.ref_space.specs.Naming.{target_of, HasTarget, IsHealed, IsWordHeld, by_number, reference_by_number};
ghost use Rattle.ref_space.specs.Naming.{bits_told};
ghost use Rattle.ref_space.specs.ColouredWords.{are_in_colour};
ghost use Rattle.ref_space.specs.Tables.{IfRead};

use super::Table;
use crate::cell::{Cell, Change};
use crate::fields::Fields;
use crate::index::{Entry, cell_of, first_from, held_from, place_of};
use crate::kept::Kept;
use crate::linked::{Linked, Look};
use crate::reference::Reference;
use crate::word::Word;
use ref_base::ObjNo;
use std::alloc::Allocator;

impl<A: Allocator + Copy> Table<A> {
    /// Whether there is an object of this number.
    pub fn has(&self, no: ObjNo) -> bool
        ensures { result ≡ is_some (tabled_at self.now.tabled no) }
    {
        place_of(&self.cells, &self.index, no).is_some()
    }

    /// The fields of the object of this number: none where there is no such object.
    pub fn fields(&self, no: ObjNo) -> Fields
        ensures { result ≡ tabled_fields (tabled_at self.now.tabled no) }
    {
        let words = self.words_by(self.word_of(no));
        let mut fields = Fields::nulls(0);
        for field in 0..words.len() {
            fields.push(self.name(words.get(field)));
        }
        fields
    }

    /// The bits of the word that a field of the object of this number holds, 0 where it holds null: none where there is
    /// no such object or field. The word is one of the cell in which the field's object lies. It is null or has the
    /// good colour where it is the one that a load read last.
    pub fn word_at(&self, no: ObjNo, field: usize) -> Option<u64>
        ensures there { is_some result ≡ has_field (tabled_at self.now.tabled no) field }
        ensures word { IfSome result (IsWordHeld self.now.round.good self.now.ways self.now.occupants
            (is_healed_in self.now.round.number (tabled_at self.now.tabled no))
            (field_held (tabled_at self.now.tabled no) field)) }
        ensures read { IfSome result (λ bits. IfRead self.now.round no (Some field)
            (are_in_colour self.now.round.good bits)) }
    {
        match cell_of(&self.cells, &self.index, no) {
            Some(cell) => match cell.field(field) {
                Some(value) => Some(self.told_bits(value)),
                None => None,
            },
            None => None,
        }
    }

    /// The bits of the word that the reference of this number has as its referent, 0 where that is null: none where
    /// there is no such object, or it is plain. The word is one of the cell in which its referent lies. It is null or
    /// has the good colour where it is the one that a get read last.
    pub fn word_of_referent(&self, no: ObjNo) -> Option<u64>
        ensures there { is_some result ≡ is_some (tabled_reference (tabled_at self.now.tabled no)) }
        ensures word { IfSome result (IsWordHeld self.now.round.good self.now.ways self.now.occupants
            (is_healed_in self.now.round.number (tabled_at self.now.tabled no))
            (referent_of (tabled_reference (tabled_at self.now.tabled no)))) }
        ensures read { IfSome result (λ bits. IfRead self.now.round no None
            (are_in_colour self.now.round.good bits)) }
    {
        match cell_of(&self.cells, &self.index, no) {
            Some(cell) => match cell.kept() {
                Some(kept) => Some(self.told_bits(kept.referent)),
                None => None,
            },
            None => None,
        }
    }

    // The bits of a word with the address of its page in the place of the frame: 0 for null.
    fn told_bits(&self, value: Word) -> u64
        requires { HasTarget self.now value }
        ensures { result ≡ bits_told self.now.ways.pages.uses value }
    {
        match value.place() {
            Some(place) => value.bits_at(self.pages.address(place as usize / 64)),
            None => 0,
        }
    }

    /// The word of the object of this number: null where there is no such object.
    pub(super) fn word_of(&self, no: ObjNo) -> Word
        ensures named { target_of self.now result ≡
            (if is_some (tabled_at self.now.tabled no) then Some no else None) }
        ensures healed { IsHealed self.now result }
    {
        match place_of(&self.cells, &self.index, no) {
            Some(place) => self.word_to(place),
            None => Word::null(),
        }
    }

    // The word of the object at this place: in the good colour, but in that from before where it is still to move.
    fn word_to(&self, place: usize) -> Word
        requires { is_some (slice_index_or self.now.occupants place None) ≡ true }
        ensures named { target_of self.now result ≡ slice_index_or self.now.occupants place None }
        ensures healed { IsHealed self.now result }
    {
        let colour = if self.pages.is_chosen(place / 64) {
            self.last_good
        } else {
            self.round.good
        };
        Word::of_place(colour, place as u32)
    }

    /// Whether the object of this number is held.
    pub fn is_held(&self, no: ObjNo) -> bool
        ensures { result ≡ nat_lt 0 (holds_in (tabled_at self.now.tabled no)) }
    {
        match cell_of(&self.cells, &self.index, no) {
            Some(cell) => cell.is_held(),
            None => false,
        }
    }

    /// The first number from this one on.
    pub fn first_from(&self, no: ObjNo) -> Option<ObjNo>
        ensures { result ≡ first_from self.now.tabled no }
    {
        first_from(&self.cells, &self.index, no)
    }

    /// The first number from this one on of an object that is held.
    pub fn held_from(&self, no: ObjNo) -> Option<ObjNo>
        ensures { result ≡ held_from self.now.tabled no }
    {
        held_from(&self.cells, &self.index, no)
    }

    /// Whether there is an object of this number, and it is marked.
    pub fn is_marked(&self, no: ObjNo) -> bool
        ensures { result ≡ is_marked_in self.now.round.number (tabled_at self.now.tabled no) }
    {
        match cell_of(&self.cells, &self.index, no) {
            Some(cell) => cell.is_marked(self.round.number),
            None => false,
        }
    }

    /// Whether there is an object of this number, and it isn't marked.
    pub fn is_unmarked(&self, no: ObjNo) -> bool
        ensures { result ≡ is_unmarked_in self.now.round.number (tabled_at self.now.tabled no) }
    {
        match cell_of(&self.cells, &self.index, no) {
            Some(cell) => cell.is_unmarked(self.round.number),
            None => false,
        }
    }

    /// Writes this change into the object of this number. Nothing changes where there is none.
    #[inline(always)]
    pub fn change(&mut self, no: ObjNo, change: Change)
        ensures { self.new ≡ changed self.old no (change_of change) }
    {
        if let Some(place) = place_of(&self.cells, &self.index, no) {
            self.cells[place].change(change);
        }
    }

    /// Writes this change into the object of this entry, if there is one. In constant time where the object lies at the
    /// entry's place.
    #[inline(always)]
    pub fn change_near(&mut self, entry: Entry, change: Change)
        ensures { self.new ≡ changed self.old entry.no (change_of change) }
    {
        if let Some(place) = self.place_near(entry) {
            self.cells[place].change(change);
        }
    }

    /// What a list has of the object of this number: no reference, link or cycle where there is none.
    #[inline(always)]
    pub fn linked(&self, no: ObjNo) -> Linked
        ensures { result ≡ tabled_linked no (tabled_at self.now.tabled no) }
    {
        match cell_of(&self.cells, &self.index, no) {
            Some(cell) => self.told(no, cell),
            None => Linked::missing(no),
        }
    }

    /// What a list has of the object of this number, as `linked` returns it. A reference to an object that isn't marked
    /// is cleared, in this cycle.
    #[inline(always)]
    pub fn look_at(&mut self, no: ObjNo, cycle: u64) -> Look
        ensures answer { result ≡ table_look self.old no }
        ensures after { self.new ≡ table_looked_at self.old no cycle }
    {
        let Some(place) = place_of(&self.cells, &self.index, no) else {
            return Look {
                was: Linked::missing(no),
                is_cleared: false,
            };
        };
        let was = self.told(no, &self.cells[place]);
        let is_cleared = self.refers_to_unmarked(self.cells[place].kept());
        if is_cleared {
            self.cells[place].change(Change::ClearIn(cycle));
        }
        Look { was, is_cleared }
    }

    // What a list has of the object in this cell.
    #[inline(always)]
    fn told(&self, no: ObjNo, cell: &Cell) -> Linked
        ensures { result ≡ tabled_linked no (option_map (by_number (target_of self.now)) cell.now) }
    {
        Linked {
            no,
            reference: self.reference(cell.kept()),
            link: cell.link(),
            cleared_in: cell.cleared_in(),
        }
    }

    /// What an object has as a reference, with its referent's number.
    #[inline(always)]
    pub(super) fn reference(&self, kept: Option<Kept>) -> Option<Reference>
        ensures { result ≡ option_map (reference_by_number (target_of self.now)) kept }
    {
        match kept {
            Some(kept) => Some(self.reference_by_number(kept)),
            None => None,
        }
    }

    /// A reference with its referent's number.
    #[inline(always)]
    pub(super) fn reference_by_number(&self, kept: Kept) -> Reference
        ensures { result ≡ reference_by_number (target_of self.now) kept }
    {
        Reference {
            strength: kept.strength,
            referent: self.name(kept.referent),
            stamp: kept.stamp,
            queue: kept.queue,
        }
    }

    /// Whether this is a reference to an object that isn't marked.
    #[inline(always)]
    pub(super) fn refers_to_unmarked(&self, kept: Option<Kept>) -> bool
        ensures { result ≡ refers_into (is_unmarked_at self.now.round.number self.now.tabled)
            (option_map (reference_by_number (target_of self.now)) kept) }
    {
        match kept {
            Some(kept) => self.is_unmarked_by(kept.referent),
            None => false,
        }
    }

    /// Counts one more hold of the object of this number, which has to be marked where that is told. False where there
    /// is no such object: then nothing changes.
    #[inline(always)]
    pub fn add_hold(&mut self, no: ObjNo, if_marked: bool) -> bool
        requires { length (holds_of self.old.tabled) < 2 ^ 64 - 1 }
        ensures there { result ≡ may_hold self.old.round.number if_marked (tabled_at self.old.tabled no) }
        ensures after { self.new ≡ changed self.old no (more_held_if self.old.round.number if_marked) }
    {
        match place_of(&self.cells, &self.index, no) {
            Some(place) => self.cells[place].add_hold(if_marked, self.round.number),
            None => false,
        }
    }

    /// Counts one hold of the object of this number fewer. False where nobody holds it: then nothing changes.
    pub fn drop_hold(&mut self, no: ObjNo) -> bool
        ensures held { result ≡ nat_lt 0 (holds_in (tabled_at self.old.tabled no)) }
        ensures after { self.new ≡ changed self.old no less_held }
    {
        match place_of(&self.cells, &self.index, no) {
            Some(place) => self.cells[place].drop_hold(),
            None => false,
        }
    }

    /// Marks the object of this number. True where there is one and it wasn't marked.
    pub fn mark(&mut self, no: ObjNo) -> bool
        ensures answer { result ≡ is_unmarked_in self.old.round.number (tabled_at self.old.tabled no) }
        ensures after { self.new ≡ changed self.old no (with_marked self.old.round.number) }
    {
        match place_of(&self.cells, &self.index, no) {
            Some(place) => {
                let is_new = self.cells[place].mark(self.round.number).is_some();
                self.marked += usize::from(is_new);
                is_new
            }
            None => false,
        }
    }
}
