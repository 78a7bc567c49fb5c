//! Moves: which objects are to move, how they do, and how the pages that they left are used again.

ghost use Rattle.std.specs.Prelude.{◌≡◌, ◌<◌, ◌≤◌, [], true, false, IfOk, None, Some, ℕ, Option, length, is_some};
ghost use Rattle.std.specs.Prelude.{slice_index_or};
ghost use Rattle.ref_space.specs.Worklists.{first_in};
ghost use Rattle.std.specs.Option.{IfSome};
ghost use Rattle.ref_space.specs.Pages.{is_chosen_place, has_chosen, choice, choosing, left_in};
ghost use Rattle.ref_space.specs.Naming.{target_of, HasTarget, IsHealed, IsInColour};
ghost use Rattle.ref_space.specs.Tables.{LiesAt, numbers_at, tabled_at, brought, left_of, moved_from, unhealed_of};
ghost use Rattle.ref_space.specs.Tables.{without_if_any, without_number};
ghost use Rattle.ref_space.specs.Tables.{table_selected, table_renumbered};

use super::by_word::place_by;
use super::{Table, nothing_read};
use crate::cell::Cell;
use crate::colour::Colour;
use crate::index::set_place;
use crate::word::Word;
use ref_base::{Fault, ObjNo};
use std::alloc::Allocator;
use std::mem::replace;

impl<A: Allocator + Copy> Table<A> {
    /// Chooses each page with 1 to 32 objects: these are to move, one after another in order of page and cell, each to
    /// the next free cell of another page. Answers how many they are. The colour of moves is good then, and the words
    /// of these objects have the colour that was. Refused as `Pages::choose` is, and nothing changes then: with
    /// `NoRoom`, else with `AddressesSpent`. In time of the pages and of what is to move.
    pub fn select(&mut self) -> Result<u64, Fault>
        requires tuned { self.old.ways.tuned ≡ true }
        requires begun { self.old.round.good ≡ Colour.R → ⊥ }
        requires none { has_chosen self.old.ways.pages.uses ≡ false }
        requires healed { unhealed_of self.old.round.number self.old.tabled ≡ [] }
        ensures answer { result ≡ choice self.old.ways.pages }
        ensures after { self.new ≡ table_selected self.old }
        ensures count { IfOk result (λ count. count ≡ length (left_of self.new)) }
        ensures few { IfOk result (λ count. count ≤ length self.old.tabled) }
        ensures left { IfOk result (λ count. left_of self.new
            ≡ numbers_at self.old.occupants (left_in (choosing self.old.ways.pages.uses))) }
    {
        let cells = self.pages.choose()?;
        self.pages.reserve(&mut self.forwards);
        self.last_good = self.round.good;
        self.round.good = Colour::R;
        self.read = nothing_read();
        self.is_tuned = false;
        Ok(cells)
    }

    /// Ends what a choice began, once all has moved and each word has the good colour: the chosen pages are empty, and
    /// get new addresses. In time of the pages.
    pub fn renumber(&mut self)
        requires tuned { self.old.ways.tuned ≡ true }
        requires healed { unhealed_of self.old.round.number self.old.tabled ≡ [] }
        ensures { self.new ≡ table_renumbered self.old }
    {
        self.pages.renumber();
    }

    /// Moves the next object that is to move, and answers its number: none where none is left. In time of a search of
    /// its number, and of the chosen pages that were left since the call before.
    #[inline(always)]
    pub fn move_next(&mut self) -> Option<ObjNo>
        ensures answer { result ≡ first_in (left_of self.old) }
        ensures after { self.new ≡ brought self.old result }
        ensures left { left_of self.new ≡ without_if_any (left_of self.old) result }
        ensures there { IfSome result (λ no. is_some (tabled_at self.old.tabled no) ≡ true) }
    {
        let place = self.pages.first_left()?;
        let no = self.cells[place].number()?;
        self.move_at(no, place);
        Some(no)
    }

    /// Whether an object is still to move. In constant time, but for the chosen pages that were left since the last
    /// call of `move_next`.
    #[inline(always)]
    pub fn has_left(&self) -> bool
        ensures { result ≡ is_some (first_in (left_of self.now)) }
    {
        self.pages.has_left()
    }

    /// What a word leads to moves where it was to go, if it is still to move. Answers the word of it in the good
    /// colour: null of null. In constant time where no page is chosen; else in time of a search of its number where it
    /// moves, and else in constant time.
    #[inline(always)]
    pub(super) fn bring(&mut self, value: Word) -> Word
        requires { HasTarget self.old value }
        ensures named { target_of self.new result ≡ target_of self.new value }
        ensures healed { IsHealed self.new result }
        ensures good { IsInColour self.new.round.good result }
        ensures after { self.new ≡ brought self.old (target_of self.old value) }
        ensures left { left_of self.new ≡ without_if_any (left_of self.old) (target_of self.old value) }
        ensures kept { (v : Option ℕ) → HasTarget self.old v
            → (target_of self.new v ≡ target_of self.old v) × HasTarget self.new v }
    {
        if self.pages.has_chosen() {
            return self.bring_chosen(value);
        }
        value.in_colour(self.round.good)
    }

    // What `bring` does where pages are chosen. Few loads are made then, so this code stands apart, and that of each
    // other load stays short.
    #[cold]
    fn bring_chosen(&mut self, value: Word) -> Word
        requires { HasTarget self.old value }
        ensures named { target_of self.new result ≡ target_of self.new value }
        ensures healed { IsHealed self.new result }
        ensures good { IsInColour self.new.round.good result }
        ensures after { self.new ≡ brought self.old (target_of self.old value) }
        ensures left { left_of self.new ≡ without_if_any (left_of self.old) (target_of self.old value) }
        ensures kept { (v : Option ℕ) → HasTarget self.old v
            → (target_of self.new v ≡ target_of self.old v) × HasTarget self.new v }
    {
        match place_by(&self.cells, &self.forwards, value) {
            Some(place) => {
                let place = self.leave(place);
                Word::of_place(self.round.good, place as u32)
            }
            None => Word::null(),
        }
    }

    // What lies at this place moves where it was to go, if it is still to move. Answers where it lies.
    #[inline(always)]
    fn leave(&mut self, place: usize) -> usize
        requires { is_some (slice_index_or self.old.occupants place None) ≡ true }
        ensures lies { slice_index_or self.new.occupants result None ≡ slice_index_or self.old.occupants place None }
        ensures stays { is_chosen_place self.new.ways.pages.uses result ≡ false }
        ensures after { self.new ≡ brought self.old (slice_index_or self.old.occupants place None) }
        ensures left { left_of self.new
            ≡ without_if_any (left_of self.old) (slice_index_or self.old.occupants place None) }
        ensures kept { (v : Option ℕ) → HasTarget self.old v
            → (target_of self.new v ≡ target_of self.old v) × HasTarget self.new v }
    {
        match self.cells[place].number() {
            Some(no) if self.pages.is_chosen(place / 64) => self.move_at(no, place),
            _ => place,
        }
    }

    // What lies at this place of a chosen page moves to where it was to go. Answers where. In time of a search of its
    // number.
    #[inline(always)]
    fn move_at(&mut self, no: ObjNo, from: usize) -> usize
        requires lies { LiesAt self.old no from }
        requires leaves { is_chosen_place self.old.ways.pages.uses from ≡ true }
        ensures lies { slice_index_or self.new.occupants result None ≡ Some no }
        ensures stays { is_chosen_place self.new.ways.pages.uses result ≡ false }
        ensures after { self.new ≡ moved_from self.old from }
        ensures brought { self.new ≡ brought self.old (Some no) }
        ensures left { left_of self.new ≡ without_number (left_of self.old) no }
        ensures kept { (v : Option ℕ) → HasTarget self.old v
            → (target_of self.new v ≡ target_of self.old v) × HasTarget self.new v }
    {
        let to = self.forwards[from];
        let cell = replace(&mut self.cells[from], Cell::vacant());
        self.cells[to as usize] = cell;
        set_place(&mut self.index, no, to);
        self.pages.give(from / 64, (from % 64) as u32);
        to as usize
    }
}
