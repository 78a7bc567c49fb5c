//! What a table's calls do by a word: they search nothing.

ghost use Rattle.std.specs.Prelude.{◌≡◌, ◌<◌, ◌≤◌, ◌^◌, true, length, map, if◌then◌else◌, None, Some};
ghost use Rattle.std.specs.Option.{option_map, IfSome};
ghost use Rattle.ref_base.specs.CollectorRows.{referent_of};
ghost use Rattle.ref_base.specs.Heaps.{with_field, with_reference};
ghost use Rattle.std.specs.Bool.{OnTrue};
ghost use Rattle.ref_space.specs.Tables.{has_field, field_in_cell, tabled_reference, is_unmarked_in, on_object};
ghost use Rattle.ref_space.specs.Tables.{marked_if, anew_if, change_of, tabled_fields, field_held};
ghost use Rattle.ref_space.specs.Tables.{brought, left_of, without_if_any};
ghost use Rattle.ref_space.specs.Tables.{with_none_read, with_read, word_name, read_if_good};
ghost use Rattle.ref_space.specs.Naming.{target_of, HasTarget, IsHealed, IsInColour, tabled_of, changed_of};
ghost use Rattle.ref_space.specs.Naming.{reference_by_number, with_referent};
ghost use Rattle.ref_space.specs.Worklists.{entry_number};
ghost use Rattle.ref_space.specs.Places.{lent, cell_of_word, place_of_word, with_fields_healed};
ghost use Rattle.ref_space.specs.Naming.{word_there};

use super::{Table, nothing_read};
use crate::cell::{Cell, Change};
use crate::colour::Colour;
use crate::field_words::Words;
use crate::index::Entry;
use crate::kept::Kept;
use crate::word::Word;
use crate::word_name::WordName;
use ref_base::ObjNo;
use std::alloc::Allocator;
use std::snapshot::Snapshot;

impl<A: Allocator + Copy> Table<A> {
    /// The number of the object that a word leads to: none of null.
    #[inline(always)]
    pub(super) fn name(&self, value: Word) -> Option<ObjNo>
        ensures { result ≡ target_of self.now value }
    {
        match cell_by(&self.cells, &self.forwards, value) {
            Some(cell) => cell.number(),
            None => None,
        }
    }

    /// What a field of the object that a word leads to holds, in the good colour: none where there is no such object or
    /// field. A word of another colour is healed, and its object moves first where it is still to move; one of the good
    /// colour is left as it is. It is the word that was read last then.
    #[inline(always)]
    pub(super) fn load_field(&mut self, object: Word, field: usize) -> Option<Word>
        requires { HasTarget self.old object }
        ensures held { option_map (target_of self.new) result ≡ field_in_cell (tabled_of self.old object) field }
        ensures healed { IfSome result (λ value. IsHealed self.new value) }
        ensures good { IfSome result (λ value. IsInColour self.new.round.good value) }
        ensures after { self.new ≡ (if has_field (tabled_of self.old object) field
            then brought (with_read self.old (word_name (target_of self.old object) (Some field)))
            (field_held (tabled_of self.old object) field) else self.old) }
        ensures left { left_of self.new
            ≡ without_if_any (left_of self.old) (field_held (tabled_of self.old object) field) }
    {
        let value = self.field(object, field)?;
        if self.is_good(value) {
            return Some(value);
        }
        let healed = self.bring(value);
        self.heal_field(object, field, healed);
        Some(healed)
    }

    /// The referent of the reference that a word leads to, in the good colour, by the word `value` that was read of it:
    /// null where that is. It is healed as the word of a field is, and its object moves first as that of a field does.
    #[inline(always)]
    pub(super) fn load_referent(&mut self, object: Word, value: Word) -> Word
        requires object { HasTarget self.old object }
        requires led { HasTarget self.old value }
        requires held { target_of self.old value ≡ referent_of (tabled_reference (tabled_of self.old object)) }
        requires read { self.old ≡ with_read self.old
            (read_if_good self.old.round (word_name (target_of self.old object) None) (Some value)) }
        ensures named { target_of self.new result ≡ referent_of (tabled_reference (tabled_of self.old object)) }
        ensures healed { IsHealed self.new result }
        ensures good { IsInColour self.new.round.good result }
        ensures after { self.new ≡ brought (with_read self.old (word_name (target_of self.old object) None))
            (referent_of (tabled_reference (tabled_of self.old object))) }
        ensures left { left_of self.new
            ≡ without_if_any (left_of self.old) (referent_of (tabled_reference (tabled_of self.old object))) }
    {
        if self.is_good(value) {
            return value;
        }
        let healed = self.bring(value);
        self.heal_referent(object, healed);
        healed
    }

    // Whether a word may be used as it is: it is null, or has the good colour, so that its object needn't move.
    #[inline(always)]
    fn is_good(&self, value: Word) -> bool
        requires { HasTarget self.now value }
        ensures healed { OnTrue result (IsHealed self.now value) }
        ensures good { OnTrue result (IsInColour self.now.round.good value) }
        ensures stays { OnTrue result (brought self.now (target_of self.now value) ≡ self.now) }
        ensures left { OnTrue result
            (without_if_any (left_of self.now) (target_of self.now value) ≡ left_of self.now) }
    {
        value.has_colour(self.round.good) || value.is_null()
    }

    // How a word of the object that a word leads to is named: that of a field, or that of its referent.
    #[inline(always)]
    fn word_name(&self, object: Word, field: Option<usize>) -> Option<WordName>
        ensures { result ≡ word_name (target_of self.now object) field }
    {
        match self.name(object) {
            Some(no) => Some(WordName { no, field }),
            None => None,
        }
    }

    // What a field of the object that a word leads to holds: none where there is no such object or field. It is the
    // word that was read last then, where it is null or has the good colour.
    #[inline(always)]
    fn field(&mut self, object: Word, field: usize) -> Option<Word>
        ensures held { option_map (target_of self.new) result ≡ field_in_cell (tabled_of self.new object) field }
        ensures led { IfSome result (λ value. HasTarget self.new value) }
        ensures after { self.new ≡ with_read self.old
            (read_if_good self.old.round (word_name (target_of self.old object) (Some field)) result) }
    {
        let name = self.word_name(object, Some(field));
        let cell = cell_by(&self.cells, &self.forwards, object)?;
        let value = cell.field(field)?;
        if !value.is_in_colour(self.round.good) {
            return Some(value);
        }
        self.read = Snapshot::of(&name);
        Some(value)
    }

    /// What the object that a word leads to has as a reference: nothing where there is none, or it is plain.
    #[inline(always)]
    pub(super) fn kept(&self, object: Word) -> Option<Kept>
        ensures held { option_map (reference_by_number (target_of self.now)) result
            ≡ tabled_reference (tabled_of self.now object) }
        ensures led { HasTarget self.now (referent_of result) }
    {
        match cell_by(&self.cells, &self.forwards, object) {
            Some(cell) => cell.kept(),
            None => None,
        }
    }

    /// What `kept` answers. The word of the referent is the one that was read last then, where it is null or has the
    /// good colour.
    #[inline(always)]
    pub(super) fn read_kept(&mut self, object: Word) -> Option<Kept>
        ensures held { option_map (reference_by_number (target_of self.new)) result
            ≡ tabled_reference (tabled_of self.new object) }
        ensures led { HasTarget self.new (referent_of result) }
        ensures after { self.new ≡ with_read self.old
            (read_if_good self.old.round (word_name (target_of self.old object) None)
            (option_map (λ r. r.referent) result)) }
    {
        let name = self.word_name(object, None);
        let cell = cell_by(&self.cells, &self.forwards, object)?;
        let kept = cell.kept()?;
        if !kept.referent.is_in_colour(self.round.good) {
            return Some(kept);
        }
        self.read = Snapshot::of(&name);
        Some(kept)
    }

    /// Whether a word leads to an object that isn't marked.
    #[inline(always)]
    pub(super) fn is_unmarked_by(&self, value: Word) -> bool
        ensures { result ≡ is_unmarked_in self.now.round.number (tabled_of self.now value) }
    {
        match cell_by(&self.cells, &self.forwards, value) {
            Some(cell) => cell.is_unmarked(self.round.number),
            None => false,
        }
    }

    /// Writes a field of the object that a word leads to. False where there is no such object or field: then no object
    /// changes. No word is the one that was read last then, since this one may have a colour from before.
    pub(super) fn set_field(&mut self, object: Word, field: usize, value: Word) -> bool
        requires { IsHealed self.old value }
        ensures there { result ≡ has_field (tabled_of self.old object) field }
        ensures after { self.new ≡ changed_of (with_none_read self.old) object
            (on_object (with_field field (target_of self.old value))) }
    {
        self.read = nothing_read();
        match place_by(&self.cells, &self.forwards, object) {
            Some(place) => self.cells[place].set_field(field, value),
            None => false,
        }
    }

    // Writes a word of the good colour, or null, into a field of the object that a word leads to: it is the word that
    // was read last then. Nothing else changes where there is no such object or field.
    fn heal_field(&mut self, object: Word, field: usize, value: Word)
        requires healed { IsHealed self.old value }
        requires good { IsInColour self.old.round.good value }
        ensures { self.new ≡ changed_of (with_read self.old (word_name (target_of self.old object) (Some field))) object
            (on_object (with_field field (target_of self.old value))) }
    {
        let name = self.word_name(object, Some(field));
        let Some(place) = place_by(&self.cells, &self.forwards, object) else {
            self.read = nothing_read();
            return;
        };
        self.cells[place].set_field(field, value);
        self.read = Snapshot::of(&name);
    }

    // Writes a word of the good colour, or null, as the referent of the object that a word leads to: it is the word
    // that was read last then. Nothing else changes where there is no such reference.
    fn heal_referent(&mut self, object: Word, referent: Word)
        requires healed { IsHealed self.old referent }
        requires good { IsInColour self.old.round.good referent }
        ensures { self.new ≡ changed_of (with_read self.old (word_name (target_of self.old object) None)) object
            (on_object (with_reference (with_referent (target_of self.old referent)))) }
    {
        let name = self.word_name(object, None);
        let Some(place) = place_by(&self.cells, &self.forwards, object) else {
            self.read = nothing_read();
            return;
        };
        self.cells[place].set_referent(referent);
        self.read = Snapshot::of(&name);
    }

    /// Writes this change into the object that a word leads to. Nothing changes where there is none.
    #[inline(always)]
    pub(super) fn change_by(&mut self, object: Word, change: Change)
        ensures { self.new ≡ changed_of self.old object (change_of change) }
    {
        if let Some(place) = place_by(&self.cells, &self.forwards, object) {
            self.cells[place].change(change);
        }
    }

    /// What the fields of the object that a word leads to hold: none where there is no such object.
    #[inline(always)]
    pub(super) fn words_by(&self, object: Word) -> Words
        ensures { map (target_of self.now) result ≡ tabled_fields (tabled_of self.now object) }
    {
        match cell_by(&self.cells, &self.forwards, object) {
            Some(cell) => cell.fields(),
            None => Words::nulls(0),
        }
    }

    /// Marks the object that a word leads to, and answers it where it wasn't marked.
    #[inline(always)]
    pub(super) fn mark_by(&mut self, value: Word) -> Option<Entry>
        ensures answer { entry_number result ≡ anew_if self.old (target_of self.old value) }
        ensures after { self.new ≡ marked_if self.old (target_of self.old value) }
    {
        match place_by(&self.cells, &self.forwards, value) {
            Some(place) => {
                let no = self.cells[place].mark(self.round.number);
                self.marked += usize::from(no.is_some());
                entry_at(no, place)
            }
            None => None,
        }
    }
}

// The entry of the object of this number at this place, if there is one.
#[inline(always)]
fn entry_at(no: Option<ObjNo>, place: usize) -> Option<Entry>
    requires { place < 2 ^ 32 }
    ensures { entry_number result ≡ no }
{
    match no {
        Some(no) => Some(Entry {
            no,
            place: place as u32,
        }),
        None => None,
    }
}

// The cell that a word leads to, if any.
#[inline(always)]
fn cell_by<'a>(cells: &'a [Cell], forwards: &[u32], value: Word) -> Option<&'a Cell>
    requires few { length cells.now ≤ 2 ^ 63 }
    requires each { length forwards.now ≡ length cells.now }
    ensures { lent result ≡ cell_of_word cells.entry.now forwards.now value }
{
    let place = value.index();
    let cell = cells.get(place)?;
    if cell.number().is_some() {
        return Some(cell);
    }
    cells.get(forwards[place] as usize)
}

// The place of that cell, if an object lies there.
#[inline(always)]
pub(super) fn place_by(cells: &[Cell], forwards: &[u32], value: Word) -> Option<usize>
    requires few { length cells.now ≤ 2 ^ 63 }
    requires each { length forwards.now ≡ length cells.now }
    ensures { result ≡ place_of_word cells.now forwards.now value }
{
    let place = value.index();
    if cells.get(place)?.number().is_some() {
        return Some(place);
    }
    let moved_to = forwards[place] as usize;
    match cells.get(moved_to) {
        Some(cell) if cell.number().is_some() => Some(moved_to),
        _ => None,
    }
}

// The word, in this colour, of the place where what a word leads to lies: null where nothing lies there.
#[inline(always)]
pub(super) fn healed_word(cells: &[Cell], forwards: &[u32], value: Word, colour: Colour) -> Word
    requires few { length cells.now ≤ 2 ^ 17 }
    requires each { length forwards.now ≡ length cells.now }
    ensures { result ≡ word_there colour (place_of_word cells.now forwards.now value) }
{
    match place_by(cells, forwards, value) {
        Some(place) => Word::of_place(colour, place as u32),
        None => Word::null(),
    }
}

// The fields of the object at this place get this colour, one after the other.
#[inline(always)]
pub(super) fn heal_fields(cells: &mut [Cell], forwards: &[u32], place: usize, colour: Colour)
    requires few { length cells.old ≤ 2 ^ 17 }
    requires each { length forwards.now ≡ length cells.old }
    requires within { place < length cells.old }
    ensures { cells.new ≡ with_fields_healed colour forwards.now cells.old place }
{
    for field in 0..cells[place].field_count() {
        let word = cells[place].word(field);
        let healed = healed_word(cells, forwards, word, colour);
        cells[place].set_field(field, healed);
    }
}
