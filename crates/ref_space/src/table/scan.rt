//! A scan: what the cell of an object holds is read there, and not once more by a word.

ghost use Rattle.std.specs.Prelude.{◌≡◌, is_some, length, true, false};
ghost use Rattle.std.specs.Option.{option_map, IfSome};
ghost use Rattle.ref_base.specs.KeptPaths.{is_kept};
ghost use Rattle.ref_base.specs.DoomedSets.{refers_into};
ghost use Rattle.ref_space.specs.Worklists.{with_more};
ghost use Rattle.ref_space.specs.Tables.{LiesAt, MayList, marked_each, anew_each, kept_value, field_held, table_healed};
ghost use Rattle.ref_space.specs.Tables.{table_scanned, scanned_values, object_in};
ghost use Rattle.ref_space.specs.Tables.{tabled_at, tabled_fields, tabled_reference, is_unmarked_at};
ghost use Rattle.ref_space.specs.Naming.{target_of, reference_by_number};
ghost use Rattle.ref_space.specs.Pages.{has_chosen};

use super::Table;
use super::by_word::{heal_fields, healed_word};
use crate::index::{Entry, place_near};
use crate::kept::Kept;
use crate::policy::keeps;
use crate::word::Word;
use crate::worklist::Worklist;
use ref_base::{ObjNo, Policy, Strength, Urgency};
use std::alloc::Allocator;

impl<A: Allocator + Copy> Table<A> {
    /// Scans the object of this entry: marks what its fields hold, and its referent where the policy keeps that, lists
    /// what wasn't marked before, and heals it. Answers whether it is a reference to an object that isn't marked even
    /// then. Nothing changes where there is no such object. In constant time where the object lies at the entry's
    /// place, and else by one search.
    #[inline(always)]
    pub fn scan(&mut self, entry: Entry, policy: Policy, grey: &mut Worklist<A>) -> bool
        requires tuned { self.old.ways.tuned ≡ true }
        requires room { MayList self.old grey.old }
        ensures finds { result ≡ refers_into (is_unmarked_at self.old.round.number self.new.tabled)
            (tabled_reference (tabled_at self.old.tabled entry.no)) }
        ensures listed { grey.new ≡ with_more grey.old
            (anew_each self.old (scanned_values (is_kept policy) (object_in (tabled_at self.old.tabled entry.no)))) }
        ensures after { self.new ≡ table_scanned (is_kept policy) self.old entry.no }
    {
        let no = entry.no;
        let Some(place) = self.place_near(entry) else {
            return false;
        };
        self.grey_fields(no, place, grey);
        let finds = self.grey_referent(no, place, policy, grey);
        self.heal(no, place);
        finds
    }

    /// The place of the object of this entry, if it is there.
    #[inline(always)]
    pub(super) fn place_near(&self, entry: Entry) -> Option<usize>
        ensures there { is_some result ≡ is_some (tabled_at self.now.tabled entry.no) }
        ensures lies { IfSome result (LiesAt self.now entry.no) }
    {
        place_near(&self.cells, &self.index, entry.no, entry.place as usize)
    }

    /// What its fields hold becomes grey: it is marked, and listed where it wasn't marked before.
    #[inline(always)]
    pub(super) fn grey_fields(&mut self, no: ObjNo, place: usize, grey: &mut Worklist<A>)
        requires lies { LiesAt self.old no place }
        requires room { MayList self.old grey.old }
        ensures listed { grey.new ≡ with_more grey.old
            (anew_each self.old (tabled_fields (tabled_at self.old.tabled no))) }
        ensures after { self.new ≡ marked_each self.old (tabled_fields (tabled_at self.old.tabled no)) }
    {
        for field in 0..self.field_count(no, place) {
            let value = self.word_in(no, place, field);
            if let Some(anew) = self.mark_by(value) {
                grey.push(anew);
            }
        }
    }

    /// The object's referent becomes grey, if the policy keeps it: it is marked, and listed where it wasn't marked
    /// before. Returns whether the object is a reference whose referent isn't marked even then.
    #[inline(always)]
    pub(super) fn grey_referent(
        &mut self,
        no: ObjNo,
        place: usize,
        policy: Policy,
        grey: &mut Worklist<A>,
    ) -> bool
        requires lies { LiesAt self.old no place }
        requires room { MayList self.old grey.old }
        ensures finds { result ≡ refers_into (is_unmarked_at self.old.round.number self.new.tabled)
            (tabled_reference (tabled_at self.old.tabled no)) }
        ensures listed { grey.new ≡ with_more grey.old (anew_each self.old
            (kept_value (is_kept policy) (tabled_reference (tabled_at self.old.tabled no)))) }
        ensures after { self.new ≡ marked_each self.old
            (kept_value (is_kept policy) (tabled_reference (tabled_at self.old.tabled no))) }
    {
        let Some(kept) = self.kept_in(no, place) else {
            return false;
        };
        if !is_kept(policy, kept) {
            return self.is_unmarked_by(kept.referent);
        }
        if let Some(anew) = self.mark_by(kept.referent) {
            grey.push(anew);
        }
        false
    }

    /// Each of its words gets the good colour, and leads to where its object lies.
    #[inline(always)]
    pub(super) fn heal(&mut self, no: ObjNo, place: usize)
        requires tuned { self.old.ways.tuned ≡ true }
        requires lies { LiesAt self.old no place }
        ensures { self.new ≡ table_healed self.old no }
    {
        if self.pages.has_chosen() {
            self.heal_each(no, place);
        } else {
            self.recolour(no, place);
        }
    }

    // Heals each word of the object by looking it up, since it may lead to what has moved.
    fn heal_each(&mut self, no: ObjNo, place: usize)
        requires tuned { self.old.ways.tuned ≡ true }
        requires lies { LiesAt self.old no place }
        ensures { self.new ≡ table_healed self.old no }
    {
        let good = self.round.good;
        heal_fields(&mut self.cells, &self.forwards, place, good);
        let held = self.cells[place].referent();
        let referent = healed_word(&self.cells, &self.forwards, held, good);
        self.cells[place].put_healed(referent, self.round.number);
    }

    // Heals each word of the object where no pages are chosen: the word names the cell in which its object lies, and
    // only its colour changes.
    #[inline(always)]
    fn recolour(&mut self, no: ObjNo, place: usize)
        requires settled { has_chosen self.old.ways.pages.uses ≡ false }
        requires lies { LiesAt self.old no place }
        ensures { self.new ≡ table_healed self.old no }
    {
        self.cells[place].recolour(self.round);
    }

    // How many fields it has.
    #[inline(always)]
    fn field_count(&self, no: ObjNo, place: usize) -> usize
        requires { LiesAt self.now no place }
        ensures { result ≡ length (tabled_fields (tabled_at self.now.tabled no)) }
    {
        self.cells[place].field_count()
    }

    // What one of its fields holds: null also where there is no such field.
    #[inline(always)]
    fn word_in(&self, no: ObjNo, place: usize, field: usize) -> Word
        requires { LiesAt self.now no place }
        ensures { target_of self.now result ≡ field_held (tabled_at self.now.tabled no) field }
    {
        self.cells[place].word(field)
    }

    // What it has as a reference, if it is one.
    #[inline(always)]
    fn kept_in(&self, no: ObjNo, place: usize) -> Option<Kept>
        requires { LiesAt self.now no place }
        ensures { option_map (reference_by_number (target_of self.now)) result
            ≡ tabled_reference (tabled_at self.now.tabled no) }
    {
        self.cells[place].kept()
    }
}

// Whether a cycle of this policy keeps the referent of this reference.
#[inline(always)]
fn is_kept(policy: Policy, kept: Kept) -> bool
    ensures { result ≡ is_kept policy kept }
{
    let Policy {
        clock,
        urgency,
        span,
    } = policy;
    match (kept.strength, urgency) {
        // No stamp is after the clock.
        (Strength::Soft, Urgency::Normal) => keeps(clock, kept.stamp.min(clock), span),
        _ => false,
    }
}
