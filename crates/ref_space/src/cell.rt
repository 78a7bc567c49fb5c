//! A place for one object.

ghost use Rattle.std.specs.Prelude.{◌≡◌, ◌-◌, ◌^◌, ◌<◌, ◌≤◌, nat_lt, true, length};
ghost use Rattle.std.specs.Option.{option_map, is_none};
ghost use Rattle.ref_base.specs.Heaps.{with_field, with_reference, with_stamp, cleared};
ghost use Rattle.ref_space.specs.Places.{is_of, is_held_as, is_unmarked_as, begun_cell, condemned_cell};
ghost use Rattle.ref_space.specs.ColouredWords.{recoloured};
ghost use Rattle.ref_space.specs.Naming.{by_number, with_referent, with_referent_healed};
ghost use Rattle.ref_space.specs.Tables.{made_entry, tabled_fields, has_field, holds_in};
ghost use Rattle.ref_space.specs.Tables.{on_object, may_hold, more_held_if, less_held};
ghost use Rattle.ref_space.specs.Tables.{is_marked_in, is_unmarked_in, with_marked};
ghost use Rattle.ref_base.specs.CollectorRows.{referent_of};
ghost use Rattle.ref_space.specs.Tables.{tabled_reference, tabled_link, tabled_cleared_in, change_of};
ghost use Rattle.ref_space.specs.Naming.{occupant_in};
ghost use Rattle.ref_space.specs.Tables.{field_in_cell, field_held, anew_in, with_healed};

use crate::field_words::Words;
use crate::kept::Kept;
use crate::kind::Kind;
use crate::round::Round;
use crate::word::Word;
use ref_base::{ObjNo, QueueNo};
use std::marker::Model;
use std::mem::size_of;

/// What is written of an object.
#[derive(Clone, Copy)]
pub enum Change {
    /// Its reference is cleared, if it is one.
    Cut,
    /// Its reference gets this stamp, if it is one.
    Stamp(u64),
    /// A worker cleared it in this cycle.
    ClearedIn(u64),
    /// Its reference is cleared, in this cycle.
    ClearIn(u64),
    /// Its link leads to the object of this number, or, where that is 0, to none.
    Link(u32),
}

/// A place for one object, in 80 bytes: a heap's time is mostly that of the memory which its cells fill. In a clause it
/// is the object with its holds, or nothing where it is free.
#[derive(Drop)]
pub(crate) struct Cell {
    // What most calls read stands in front.
    fields: Words,
    no: ObjNo,
    // The word of the referent of a reference, or null once it is cleared.
    referent: Word,
    // The queue of a reference that has one.
    queue: QueueNo,
    // The number of the object behind it in the list that it stands in, or 0.
    link: u32,
    // Where it is free the rest says nothing; and where it is plain, what a reference has.
    kind: Kind,
    has_queue: bool,
    // The round in which it was marked last, or 0.
    marked_in: u8,
    // The round in which each word here had the good colour last, or 0.
    healed_in: u8,
    // The clock at which a soft reference was made or last got.
    stamp: u64,
    holds: u64,
    // The cycle in which a worker cleared it last, or 0.
    cleared_in: u64,
}

const _: () = prove!(size_of::<Cell>() == 80);

impl Model for Cell {
    ghost use Rattle.std.specs.Prelude.{Option};
    ghost use Rattle.ref_space.specs.Tables.{Tabled};

    ghost Value = { Option Tabled };

    ghost use Rattle.ref_space.specs.Cells.{tabled_in, number_by_kind, strength_of, reference_by, queue_if};

    ghost view = { λ c. tabled_in (number_by_kind c.kind c.no) c.fields
        (reference_by (strength_of c.kind) c.referent c.stamp (queue_if c.has_queue c.queue))
        c.holds c.marked_in c.healed_in c.link c.cleared_in };
}

impl Cell {
    /// A cell that has no object.
    #[inline(always)]
    pub(crate) fn vacant() -> Self
        ensures { result ≡ None }
    {
        Cell {
            fields: Words::nulls(0),
            no: ObjNo(0),
            referent: Word::null(),
            queue: QueueNo(0),
            link: 0,
            kind: Kind::Free,
            has_queue: false,
            marked_in: 0,
            healed_in: 0,
            stamp: 0,
            holds: 0,
            cleared_in: 0,
        }
    }

    /// The cell gets a new object that nobody holds, without a link, never cleared, with so many null fields.
    pub(crate) fn occupy(
        &mut self,
        no: ObjNo,
        count: usize,
        reference: Option<Kept>,
        marked: bool,
        round: u8,
    )
        requires { count ≤ 8 }
        ensures { self.new ≡ Some (made_entry round no count reference marked) }
    {
        *self = Cell {
            fields: Words::nulls(count),
            no,
            referent: Word::null(),
            queue: QueueNo(0),
            link: 0,
            kind: Kind::Plain,
            has_queue: false,
            marked_in: if marked { round } else { 0 },
            healed_in: round,
            stamp: 0,
            holds: 0,
            cleared_in: 0,
        };
        if let Some(kept) = reference {
            self.kind = Kind::of(Some(kept.strength));
            self.referent = kept.referent;
            self.stamp = kept.stamp;
            if let Some(queue) = kept.queue {
                self.has_queue = true;
                self.queue = queue;
            }
        }
    }

    /// Whether there is no object.
    #[inline(always)]
    fn is_free(&self) -> bool
        ensures { result ≡ is_none self.now }
    {
        matches!(self.kind, Kind::Free)
    }

    /// Whether this is the cell of the object of this number.
    #[inline(always)]
    pub(crate) fn is_of(&self, no: ObjNo) -> bool
        ensures { result ≡ is_of self.now no }
    {
        !self.is_free() && self.no == no
    }

    /// Whether this is the cell of the object of this number, and that is held.
    pub(crate) fn is_held_as(&self, no: ObjNo) -> bool
        ensures { result ≡ is_held_as self.now no }
    {
        self.is_of(no) && self.holds > 0
    }

    /// The fields of the object: none where the cell is free.
    #[inline(always)]
    pub(crate) fn fields(&self) -> Words
        ensures { result ≡ tabled_fields self.now }
    {
        if self.is_free() {
            return Words::nulls(0);
        }
        self.fields.copied()
    }

    /// How many fields the object has: none where the cell is free.
    #[inline(always)]
    pub(crate) fn field_count(&self) -> usize
        ensures { result ≡ length (tabled_fields self.now) }
    {
        if self.is_free() {
            return 0;
        }
        self.fields.len()
    }

    /// What a field of the object holds: null also where there is no such field.
    #[inline(always)]
    pub(crate) fn word(&self, field: usize) -> Word
        ensures { result ≡ field_held self.now field }
    {
        if self.is_free() {
            return Word::null();
        }
        self.fields.get(field)
    }

    /// Whether the object is held.
    #[inline(always)]
    pub(crate) fn is_held(&self) -> bool
        ensures { result ≡ nat_lt 0 (holds_in self.now) }
    {
        !self.is_free() && self.holds > 0
    }

    /// Writes a field of the object. False where there is no such field: then nothing changes.
    #[inline(always)]
    pub(crate) fn set_field(&mut self, field: usize, value: Word) -> bool
        ensures there { result ≡ has_field self.old field }
        ensures after { self.new ≡ option_map (on_object (with_field field value)) self.old }
    {
        if self.is_free() {
            return false;
        }
        self.fields.set(field, value)
    }

    /// Clears the reference, where the object is one.
    fn cut(&mut self)
        ensures { self.new ≡ option_map (on_object (with_reference cleared)) self.old }
    {
        self.referent = Word::null();
    }

    /// Writes the stamp, where the object is a reference.
    fn set_stamp(&mut self, stamp: u64)
        ensures { self.new ≡ option_map (on_object (with_reference (with_stamp stamp))) self.old }
    {
        self.stamp = stamp;
    }

    /// Writes this change into the object, if there is one.
    #[inline(always)]
    pub(crate) fn change(&mut self, change: Change)
        ensures { self.new ≡ option_map (change_of change) self.old }
    {
        match change {
            Change::Cut => self.cut(),
            Change::Stamp(stamp) => self.set_stamp(stamp),
            Change::ClearedIn(cycle) => self.cleared_in = cycle,
            Change::ClearIn(cycle) => {
                self.cut();
                self.cleared_in = cycle;
            }
            Change::Link(to) => self.link = to,
        }
    }

    /// Counts one more hold of the object, which has to be marked where that is told. False where there is no such
    /// object: then nothing changes.
    #[inline(always)]
    pub(crate) fn add_hold(&mut self, if_marked: bool, round: u8) -> bool
        requires { holds_in self.old < 2 ^ 64 - 1 }
        ensures there { result ≡ may_hold round if_marked self.old }
        ensures after { self.new ≡ option_map (more_held_if round if_marked) self.old }
    {
        let may_hold = !self.is_free() && (self.marked_in == round || !if_marked);
        if may_hold {
            self.holds += 1;
        }
        may_hold
    }

    /// Counts one hold of the object fewer. False where nobody holds it: then nothing changes.
    pub(crate) fn drop_hold(&mut self) -> bool
        ensures held { result ≡ nat_lt 0 (holds_in self.old) }
        ensures after { self.new ≡ option_map less_held self.old }
    {
        let is_held = self.is_held();
        if is_held {
            self.holds -= 1;
        }
        is_held
    }

    /// The number of the object, if there is one.
    #[inline(always)]
    pub(crate) fn number(&self) -> Option<ObjNo>
        ensures { result ≡ occupant_in self.now }
    {
        if self.is_free() { None } else { Some(self.no) }
    }

    /// What a field of the object holds: none where there is no such field.
    #[inline(always)]
    pub(crate) fn field(&self, field: usize) -> Option<Word>
        ensures { result ≡ field_in_cell self.now field }
    {
        if !self.is_free() && field < self.fields.len() {
            Some(self.fields.get(field))
        } else {
            None
        }
    }

    /// What the object has as a reference, if there is one and it is a reference.
    #[inline(always)]
    pub(crate) fn kept(&self) -> Option<Kept>
        ensures { result ≡ tabled_reference self.now }
    {
        let strength = self.kind.strength()?;
        Some(Kept {
            strength,
            referent: self.referent,
            stamp: self.stamp,
            queue: if self.has_queue {
                Some(self.queue)
            } else {
                None
            },
        })
    }

    /// The referent of the object: null also where it is plain, or there is none.
    #[inline(always)]
    pub(crate) fn referent(&self) -> Word
        ensures { result ≡ referent_of (tabled_reference self.now) }
    {
        match self.kept() {
            Some(kept) => kept.referent,
            None => Word::null(),
        }
    }

    /// The object's link: 0 where there is none.
    #[inline(always)]
    pub(crate) fn link(&self) -> u32
        ensures { result ≡ tabled_link self.now }
    {
        if self.is_free() { 0 } else { self.link }
    }

    /// The cycle in which the object was cleared last: 0 where there is none.
    #[inline(always)]
    pub(crate) fn cleared_in(&self) -> u64
        ensures { result ≡ tabled_cleared_in self.now }
    {
        if self.is_free() { 0 } else { self.cleared_in }
    }

    /// The cell has no object any more.
    pub(crate) fn vacate(&mut self)
        ensures { self.new ≡ None }
    {
        self.kind = Kind::Free;
    }

    /// Whether there is an object, and it is marked.
    #[inline(always)]
    pub(crate) fn is_marked(&self, round: u8) -> bool
        ensures { result ≡ is_marked_in round self.now }
    {
        !self.is_free() && self.marked_in == round
    }

    /// Whether there is an object, and it isn't marked.
    #[inline(always)]
    pub(crate) fn is_unmarked(&self, round: u8) -> bool
        ensures { result ≡ is_unmarked_in round self.now }
    {
        !self.is_free() && self.marked_in != round
    }

    /// Whether this is the cell of the object of this number, and that isn't marked.
    pub(crate) fn is_unmarked_as(&self, no: ObjNo, round: u8) -> bool
        ensures { result ≡ is_unmarked_as round self.now no }
    {
        self.is_of(no) && self.marked_in != round
    }

    /// Marks the object, and answers its number where it wasn't marked.
    #[inline(always)]
    pub(crate) fn mark(&mut self, round: u8) -> Option<ObjNo>
        ensures answer { result ≡ anew_in round self.old }
        ensures after { self.new ≡ option_map (with_marked round) self.old }
    {
        let is_new = self.marked_in != round;
        self.marked_in = round;
        if is_new { self.number() } else { None }
    }

    /// The object of this number refers to nothing from now on. True where it lies here and isn't marked; else nothing
    /// changes.
    #[inline(always)]
    pub(crate) fn condemn(&mut self, no: ObjNo, round: u8) -> bool
        ensures answer { result ≡ is_unmarked_as round self.old no }
        ensures after { self.new ≡ condemned_cell round no self.old }
    {
        let is_condemned = self.is_unmarked_as(no, round);
        if is_condemned {
            self.fields = Words::nulls(self.fields.len());
            self.cut();
        }
        is_condemned
    }

    /// Each word of the object gets the good colour: it is healed in this round.
    #[inline(always)]
    pub(crate) fn recolour(&mut self, round: Round)
        ensures { self.new ≡
            option_map (λ k. with_healed round.number (by_number (recoloured round.good) k)) self.old }
    {
        self.fields.recolour(round.good);
        self.referent = self.referent.in_colour(round.good);
        self.healed_in = round.number;
    }

    /// The object has this referent, where it is a reference: it is healed in this round.
    #[inline(always)]
    pub(crate) fn put_healed(&mut self, referent: Word, round: u8)
        ensures { self.new ≡ option_map (with_referent_healed referent round) self.old }
    {
        self.set_referent(referent);
        self.healed_in = round;
    }

    /// Writes the referent of the object, where it is a reference.
    #[inline(always)]
    pub(crate) fn set_referent(&mut self, referent: Word)
        ensures { self.new ≡ option_map (on_object (with_reference (with_referent referent))) self.old }
    {
        self.referent = referent;
    }

    /// The object is as if it had never been marked or healed.
    pub(crate) fn forget_rounds(&mut self)
        ensures { self.new ≡ begun_cell self.old }
    {
        self.marked_in = 0;
        self.healed_in = 0;
    }
}
