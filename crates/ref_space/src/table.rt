//! The table of a heap's objects, and of the slots that hold them: how they lie, and how they come and go.

ghost use Rattle.std.specs.Prelude.{◌≡◌, ◌+◌, ◌*◌, ◌/◌, ◌^◌, ◌==◌, ◌≤◌, ◌<◌, IfOk, OnErr, true, [], length, map};
ghost use Rattle.std.specs.Prelude.{replicate, None, is_some};
ghost use Rattle.std.specs.Option.{option_map, is_none, IfSome};
ghost use Rattle.std.specs.Bool.{OnFalse};
ghost use Rattle.ref_space.specs.Places.{begun_cell, place_of_word};
ghost use Rattle.ref_space.specs.Naming.{word_there, target_of, IsHealed, reference_by_number};
ghost use Rattle.ref_space.specs.Tables.{IsOrderlyTable, empty_table, tabled_at, table_freed, made_entry};
ghost use Rattle.ref_space.specs.Tables.{with_tabled, is_unmarked_in, marked_of, unmarked_of, table_begun};
ghost use Rattle.ref_space.specs.Tables.{table_blanked, made_of, IsUnnamed, left_of, LieOnce, with_none_read};
ghost use Rattle.ref_space.specs.Moves.{AreFree};
ghost use Rattle.ref_base.specs.CollectorRows.{referent_of};
ghost use Rattle.ref_space.specs.Worklists.{emptied_list, with_more};
ghost use Rattle.ref_space.specs.Pages.{has_chosen};

mod by_number;
mod by_word;
mod moves;
mod scan;
mod slots;

use crate::cell::Cell;
use crate::colour::Colour;
use crate::index::{Entry, close_gaps, condemn, make_room, place_near};
use crate::kept::{Kept, NewReference};
use crate::pages::Pages;
use crate::round::Round;
use crate::word::Word;
use crate::word_name::WordName;
use crate::worklist::Worklist;
use by_word::healed_word;
use ref_base::{Fault, ObjNo};
use std::alloc::{AllocError, Allocator, Global};
use std::marker::Model;
use std::snapshot::Snapshot;

/// The objects of a heap, each with a count of holds and a mark. All memory is taken by `new`: for each cell 80 bytes
/// of its own, 8 of the index and 4 for where what lay there moved, and 32 for each page of 64 cells. Twice as many
/// pages are there as the objects fill that there may be, so that there is room for what moves.
pub struct Table<A: Allocator = Global> {
    // Cell c of frame f stands at place 64 * f + c.
    cells: Vec<Cell, A>,
    // In order of number. It has room for as many entries as there are cells, two for each object that there may be, so
    // gaps are closed at most once in as many new objects as there may be.
    index: Vec<Entry, A>,
    // Which cells are free. A new object gets the lowest of the first page that has one.
    pages: Pages<A>,
    // Of each place, where what lay there moved.
    forwards: Vec<u32, A>,
    // The colour of the words from before the last choice.
    last_good: Colour,
    // Whether nothing was chosen since the round began.
    is_tuned: bool,
    // The round that goes on.
    round: Round,
    // What the slots hold.
    slots: Vec<Word, A>,
    // How many objects there may be: the pages are as many as these fill.
    room: usize,
    // How many there are.
    count: usize,
    // The greatest number that was ever given, or 0.
    last: ObjNo,
    // How many of the objects are marked.
    marked: usize,
    // The word that a load or a get read last: where it stands it is null or has the good colour. None once a colour
    // was made good, or a word was written that may have another. It takes no memory, since only clauses read it.
    read: Snapshot<Option<WordName>>,
}

// Written out, so that crates above prove nothing of what a table is made of where they drop one.
impl<A: Allocator> Drop for Table<A> {
    fn drop(self) {
        let Table {
            cells: _,
            index: _,
            pages: _,
            forwards: _,
            last_good: _,
            is_tuned: _,
            round: _,
            slots: _,
            room: _,
            count: _,
            last: _,
            marked: _,
            read: _,
        } = self;
    }
}

impl<A: Allocator> Model for Table<A> {
    ghost use Rattle.std.specs.Vec.{vec_capacity};
    ghost use Rattle.ref_space.specs.Tables.{Table as Data, round_of};

    ghost Value = { Data };

    ghost use Rattle.ref_space.specs.Moves.{ways_of};
    ghost use Rattle.ref_space.specs.Places.{IsSoundTable, IsSoundNaming, seen_table};

    ghost view = { λ t. seen_table (round_of t.round t.read.value)
        (ways_of t.pages t.forwards.items t.last_good t.is_tuned)
        t.cells.items t.index.items t.slots.items t.last t.room };

    ghost invariant = { λ t.
        IsSoundTable (round_of t.round t.read.value) t.cells.items t.index.items
        (ways_of t.pages t.forwards.items t.last_good t.is_tuned) t.last t.room t.count
        (vec_capacity t.index) t.marked
        × IsSoundNaming (round_of t.round t.read.value)
        (ways_of t.pages t.forwards.items t.last_good t.is_tuned)
        t.cells.items t.index.items t.slots.items };
}

impl<A: Allocator + Copy> Table<A> {
    /// A table of no objects, with room for so many, in pages at this address and those that follow it, and with so
    /// many slots, each empty. The one error is `NoMemory`.
    pub fn new(alloc: A, room: usize, slots: usize, first_page: u32) -> Result<Self, Fault>
        requires small { room ≤ 2 ^ 16 }
        requires begins { 1 ≤ first_page }
        requires addresses { first_page + 2 * ((room + 63) / 64) ≤ 2 ^ 32 }
        ensures ok { IfOk result (λ t. t ≡ empty_table room slots first_page) }
        ensures err { OnErr result (result ≡ Err Fault.NoMemory) }
    {
        Self::with_room(alloc, room, slots, first_page).map_err(|_| Fault::NoMemory)
    }

    // A table of no objects, as `new` returns it, or the allocator's error.
    fn with_room(alloc: A, room: usize, slots: usize, first_page: u32) -> Result<Self, AllocError>
        requires small { room ≤ 2 ^ 16 }
        requires begins { 1 ≤ first_page }
        requires addresses { first_page + 2 * ((room + 63) / 64) ≤ 2 ^ 32 }
        ensures { IfOk result (λ t. t ≡ empty_table room slots first_page) }
    {
        let page_count = 2 * room.div_ceil(64);
        let pages = Pages::new(alloc, page_count, first_page)?;
        let index = Vec::with_capacity(alloc, 64 * page_count)?;
        let slots = empty_slots(alloc, slots)?;
        let cells = free_cells(alloc, 64 * page_count)?;
        let forwards = no_moves(alloc, 64 * page_count)?;
        Ok(Table {
            cells,
            index,
            pages,
            forwards,
            last_good: Colour::A,
            is_tuned: true,
            round: Round::FIRST,
            slots,
            room,
            count: 0,
            last: ObjNo(0),
            marked: 0,
            read: nothing_read(),
        })
    }

    /// How many objects there are.
    pub fn len(&self) -> usize
        ensures count { result ≡ length self.now.tabled }
        ensures orderly { IsOrderlyTable self.now }
        ensures settled { self.now.ways.tuned ≡ true → left_of self.now ≡ [] }

        // Where they lie: a cell is taken exactly where an object lies in it, or is to move to.
        ensures laid { LieOnce self.now.occupants (λ n. is_some (tabled_at self.now.tabled n)) }
        ensures free { AreFree (map is_none self.now.occupants) self.now.ways.forwards self.now.ways.pages.uses }
    {
        self.count
    }

    /// Whether there is no room for one more object.
    pub fn is_full(&self) -> bool
        ensures full { result ≡ (length self.now.tabled == self.now.room) }
        ensures spare { OnFalse result (length self.now.tabled < self.now.room) }
    {
        self.count == self.room
    }

    /// The greatest number that was ever given, or 0.
    pub fn last(&self) -> ObjNo
        ensures { result ≡ self.now.last }
    {
        self.last
    }

    /// A new object that nobody holds, with so many null fields, in the first free cell; the slot at place `into` holds
    /// it. No word is the one that was read last then, since that of its referent may have a colour from before.
    pub fn push(
        &mut self,
        into: usize,
        no: ObjNo,
        count: usize,
        reference: Option<NewReference>,
        marked: bool,
    )
        requires into { into < length self.old.slots }
        requires fields { count ≤ 8 }
        requires rises { self.old.last < no }
        requires room { length self.old.tabled < self.old.room }
        requires from { IfSome reference (λ r. r.from < length self.old.slots) }
        ensures after { self.new ≡ with_tabled (with_none_read self.old) into
            (made_entry self.old.round.number no count (option_map (made_of self.old.slots) reference) marked) }
        ensures left { left_of self.new ≡ left_of self.old }
    {
        let kept = self.kept_of_new(reference);
        make_room(&mut self.index, &self.cells, self.cells.len());
        let (page, cell) = self.pages.place().unwrap();
        let place = 64 * page + cell as usize;
        self.cells[place].occupy(no, count, kept, marked, self.round.number);
        self.index.push_reserved(Entry {
            no,
            place: place as u32,
        });
        self.last = no;
        self.count += 1;
        self.marked += usize::from(marked);
        self.slots[into] = Word::of_place(self.round.good, place as u32);
        self.read = nothing_read();
    }

    // What the cell of a new reference has of it.
    fn kept_of_new(&self, reference: Option<NewReference>) -> Option<Kept>
        requires { IfSome reference (λ r. r.from < length self.now.slots) }
        ensures named { option_map (reference_by_number (target_of self.now)) result
            ≡ option_map (made_of self.now.slots) reference }
        ensures healed { IsHealed self.now (referent_of result) }
    {
        match reference {
            Some(reference) => Some(Kept {
                strength: reference.strength,
                referent: self.slots[reference.from],
                stamp: reference.stamp,
                queue: reference.queue,
            }),
            None => None,
        }
    }

    /// Frees the object of this entry. False where there is none, or it is marked: then nothing changes. Nothing names
    /// one that goes. In constant time where the object lies at the entry's place, and else by one search.
    pub fn free(&mut self, entry: Entry) -> bool
        requires tuned { self.old.ways.tuned ≡ true }
        requires unnamed { is_unmarked_in self.old.round.number (tabled_at self.old.tabled entry.no) ≡ true
            → IsUnnamed self.old entry.no }
        ensures answer { result ≡ is_unmarked_in self.old.round.number (tabled_at self.old.tabled entry.no) }
        ensures after { self.new ≡ table_freed self.old entry.no }
        ensures left { left_of self.new ≡ left_of self.old }
    {
        let Some(place) = place_near(&self.cells, &self.index, entry.no, entry.place as usize)
        else {
            return false;
        };
        let goes = self.cells[place].is_unmarked(self.round.number);
        if goes {
            self.cells[place].vacate();
            self.pages.give(place / 64, (place % 64) as u32);
            self.count -= 1;
        }
        goes
    }

    /// Takes the gaps out of the index where they are more than the objects, so that no more are left to pass over.
    /// While they stay, each object that was made since they were taken out last is found at once. In constant time, or
    /// in that of the entries.
    pub fn close_gaps(&mut self)
        ensures { self.new ≡ self.old }
    {
        if self.index.len() / 2 > self.len() {
            close_gaps(&mut self.index, &self.cells);
        }
    }

    /// How many of the objects are marked.
    pub fn marked_count(&self) -> usize
        ensures { result ≡ length (marked_of self.now.round.number self.now.tabled) }
    {
        self.marked
    }

    /// What isn't marked refers to nothing from now on, and just it stands in the list, in order of number. In time of
    /// the objects, and of those that were freed since gaps were closed last.
    pub fn condemn(&mut self, condemned: &mut Worklist<A>)
        requires { length self.old.tabled ≤ condemned.old.room }
        ensures after { self.new ≡ table_blanked self.old }
        ensures list { condemned.new ≡
            with_more (emptied_list condemned.old) (unmarked_of self.old.round.number self.old.tabled) }
    {
        condemned.clear();
        condemn(&mut self.cells, &self.index, self.round.number, condemned);
    }

    /// A round begins, in which this colour is good: the slots are healed, and no object is marked or healed. In time
    /// of the slots; and, once in 255 rounds, of the cells.
    pub fn begin(&mut self, good: Colour)
        requires settled { left_of self.old ≡ [] }
        requires apart { has_chosen self.old.ways.pages.uses ≡ true → self.old.ways.last ≡ good → ⊥ }
        ensures { self.new ≡ table_begun self.old good }
    {
        heal_slots(&mut self.slots, &self.cells, &self.forwards, good);
        self.marked = 0;
        self.is_tuned = true;
        self.read = nothing_read();
        if self.round.number < u8::MAX {
            let number = self.round.number + 1;
            self.round = Round { number, good };
            return;
        }
        // The numbers of rounds begin anew.
        forget_rounds(&mut self.cells);
        self.round = Round { number: 1, good };
    }
}

// That no word was read.
#[inline(always)]
fn nothing_read() -> Snapshot<Option<WordName>>
    ensures { result.value ≡ None }
{
    let nothing: Option<WordName> = None;
    Snapshot::of(&nothing)
}

// The objects of these cells are as if they had never been marked or healed.
fn forget_rounds(cells: &mut [Cell])
    ensures { cells.new ≡ map begun_cell cells.old }
{
    for cell in cells.iter_mut() {
        cell.forget_rounds();
    }
}

// These words are healed.
fn heal_slots(slots: &mut [Word], cells: &[Cell], forwards: &[u32], good: Colour)
    requires few { length cells.now ≤ 2 ^ 17 }
    requires each { length forwards.now ≡ length cells.now }
    ensures { slots.new ≡ map (λ v. word_there good (place_of_word cells.now forwards.now v)) slots.old }
{
    for word in slots.iter_mut() {
        *word = healed_word(cells, forwards, *word, good);
    }
}

// As many free cells as `room` says.
fn free_cells<A: Allocator>(alloc: A, room: usize) -> Result<Vec<Cell, A>, AllocError>
    ensures { IfOk result (λ v. v.items ≡ replicate room None) }
{
    let mut cells = Vec::with_capacity(alloc, room)?;
    for _place in 0..room {
        cells.push_reserved(Cell::vacant());
    }
    Ok(cells)
}

// Of so many places, that nothing moved.
fn no_moves<A: Allocator>(alloc: A, count: usize) -> Result<Vec<u32, A>, AllocError>
    ensures { IfOk result (λ v. v.items ≡ replicate count 0) }
{
    let mut forwards = Vec::with_capacity(alloc, count)?;
    for _place in 0..count {
        forwards.push_reserved(0);
    }
    Ok(forwards)
}

// As many empty slots as `count` says.
fn empty_slots<A: Allocator>(alloc: A, count: usize) -> Result<Vec<Word, A>, AllocError>
    ensures { IfOk result (λ v. v.items ≡ replicate count None) }
{
    let mut slots = Vec::with_capacity(alloc, count)?;
    for _place in 0..count {
        slots.push_reserved(Word::null());
    }
    Ok(slots)
}
