//! The index of the table: where the object of each number lies. Its entries stand in order of number. As an object
//! goes, its entry stays, and is a gap: the cell that it names no longer holds its object.

ghost use Rattle.std.specs.Prelude.{◌≡◌, ◌+◌, ◌≤◌, length, map};
ghost use Rattle.std.specs.List.{filter};
ghost use Rattle.std.specs.Vec.{vec_capacity};
ghost use Rattle.ref_space.specs.Places.{is_live, is_held, tabled_by, place_in, place_if_live, lent};
ghost use Rattle.ref_space.specs.Places.{with_place_of, count_below, first_entry, with_room, Rises};
ghost use Rattle.ref_space.specs.Places.{AreIndexed, blanked_cell, condemns, condemned_at};
ghost use Rattle.ref_space.specs.Worklists.{with_more};
ghost use Rattle.ref_space.specs.Tables.{first_from, held_from, unmarked_of, tabled_at};

use crate::cell::Cell;
use crate::worklist::Worklist;
use ref_base::ObjNo;
use std::alloc::Allocator;

/// Where the object of a number was put.
#[derive(Clone, Copy, Debug)]
pub struct Entry {
    /// The number.
    pub no: ObjNo,
    /// The place of the cell: cell c of page p stands at 64 * p + c.
    pub place: u32,
}

impl Entry {
    /// Of an object of which only the number is known.
    pub fn of(no: ObjNo) -> Self
        ensures { result.no ≡ no }
    {
        Entry { no, place: 0 }
    }
}

// Whether the entry's object is still there.
#[inline(always)]
fn is_live(cells: &[Cell], entry: Entry) -> bool
    ensures { result ≡ is_live cells.now entry }
{
    match cells.get(entry.place as usize) {
        Some(cell) => cell.is_of(entry.no),
        None => false,
    }
}

// Whether the entry's object is still there, and is held.
fn is_held(cells: &[Cell], entry: Entry) -> bool
    ensures { result ≡ is_held cells.now entry }
{
    match cells.get(entry.place as usize) {
        Some(cell) => cell.is_held_as(entry.no),
        None => false,
    }
}

// Where the entry of this number stands if each number from it on has one. So it is of every
// object that was made since gaps were closed last, and where no gap behind it was closed.
#[inline(always)]
fn likely_place(index: &[Entry], no: ObjNo) -> usize {
    match index.last() {
        Some(last) => {
            let behind = last.no.0.saturating_sub(no.0) as usize;
            index.len().saturating_sub(1 + behind)
        }
        None => 0,
    }
}

// How many entries are of numbers below this. In constant time where its entry stands in its likely place, and else in
// logarithmic time.
fn count_below(index: &[Entry], no: ObjNo) -> usize
    requires { Rises index.now }
    ensures count { result ≡ count_below index.now no }
    ensures within { result ≤ length index.now }
{
    let likely = likely_place(index, no);
    match index.get(likely) {
        Some(entry) if entry.no == no => likely,
        _ => index.partition_point(|entry| entry.no < no),
    }
}

/// The place of the object of this number. In time as for `count_below`.
pub(crate) fn place_of(cells: &[Cell], index: &[Entry], no: ObjNo) -> Option<usize>
    requires { Rises index.now }
    ensures { result ≡ place_if_live cells.now (place_in index.now no) no }
{
    match index.get(count_below(index, no)) {
        Some(entry) if entry.no == no && is_live(cells, *entry) => Some(entry.place as usize),
        _ => None,
    }
}

/// The place of the object of this number. In constant time where the object lies at `place`, and else in time as for
/// `count_below`.
#[inline(always)]
pub(crate) fn place_near(cells: &[Cell], index: &[Entry], no: ObjNo, place: usize) -> Option<usize>
    requires rises { Rises index.now }
    requires listed { AreIndexed cells.now index.now }
    ensures { result ≡ place_if_live cells.now (place_in index.now no) no }
{
    match cells.get(place) {
        Some(cell) if cell.is_of(no) => Some(place),
        _ => place_searched(cells, index, no),
    }
}

// The place of the object of this number, by a search. Never compiled into its caller, so that the code for an object
// that hasn't moved stays short.
#[inline(never)]
fn place_searched(cells: &[Cell], index: &[Entry], no: ObjNo) -> Option<usize>
    requires { Rises index.now }
    ensures { result ≡ place_if_live cells.now (place_in index.now no) no }
{
    place_of(cells, index, no)
}

/// The object of this number lies at this place now, if there is one. In time as for `count_below`.
#[inline(always)]
pub(crate) fn set_place(index: &mut [Entry], no: ObjNo, place: u32)
    requires { Rises index.old }
    ensures { index.new ≡ with_place_of index.old no place }
{
    let at = count_below(index, no);
    if at < index.len() && index[at].no == no {
        index[at] = Entry { no, place };
    }
}

/// The cell of the object of this number. In time as for `count_below`.
pub(crate) fn cell_of<'a>(cells: &'a [Cell], index: &[Entry], no: ObjNo) -> Option<&'a Cell>
    requires { Rises index.now }
    ensures { lent result ≡ tabled_at (tabled_by cells.entry.now index.now) no }
{
    match place_of(cells, index, no) {
        Some(place) => Some(&cells[place]),
        None => None,
    }
}

// The number of the first of these entries that is no gap.
fn first_live(cells: &[Cell], entries: &[Entry]) -> Option<ObjNo>
    ensures { result ≡ first_entry (is_live cells.now) entries.now }
{
    for entry in entries {
        if is_live(cells, *entry) {
            return Some(entry.no);
        }
    }
    None
}

// The number of the first of these entries whose object is held.
fn first_held(cells: &[Cell], entries: &[Entry]) -> Option<ObjNo>
    ensures { result ≡ first_entry (is_held cells.now) entries.now }
{
    for entry in entries {
        if is_held(cells, *entry) {
            return Some(entry.no);
        }
    }
    None
}

/// The first number from this one on. In logarithmic time, and that of the gaps there.
pub(crate) fn first_from(cells: &[Cell], index: &[Entry], no: ObjNo) -> Option<ObjNo>
    requires { Rises index.now }
    ensures { result ≡ first_from (tabled_by cells.now index.now) no }
{
    first_live(cells, &index[count_below(index, no)..])
}

/// The first number from this one on of an object that is held. In time of the entries up to there.
pub(crate) fn held_from(cells: &[Cell], index: &[Entry], no: ObjNo) -> Option<ObjNo>
    requires { Rises index.now }
    ensures { result ≡ held_from (tabled_by cells.now index.now) no }
{
    first_held(cells, &index[count_below(index, no)..])
}

/// Takes the gaps out. In time of the entries.
pub(crate) fn close_gaps<A: Allocator>(index: &mut Vec<Entry, A>, cells: &[Cell])
    ensures entries { index.new.items ≡ filter (is_live cells.now) index.old.items }
    ensures capacity { vec_capacity index.new ≡ vec_capacity index.old }
{
    index.retain(|entry| is_live(cells, *entry));
}

/// Takes the gaps out where this many entries are there.
pub(crate) fn make_room<A: Allocator>(index: &mut Vec<Entry, A>, cells: &[Cell], most: usize)
    ensures entries { index.new.items ≡ with_room most cells.now index.old.items }
    ensures capacity { vec_capacity index.new ≡ vec_capacity index.old }
{
    if index.len() == most {
        close_gaps(index, cells);
    }
}

// The entry's object refers to nothing from now on. True where it is still there, and isn't marked in this round; else
// nothing changes.
#[inline(always)]
fn condemn_one(cells: &mut [Cell], entry: Entry, round: u8) -> bool
    ensures answer { result ≡ condemns round entry cells.old }
    ensures after { cells.new ≡ condemned_at round entry cells.old }
{
    let Entry { no, place } = entry;
    let place = place as usize;
    place < cells.len() && cells[place].condemn(no, round)
}

/// What isn't marked in this round refers to nothing from now on, and stands last in the list. In time of the entries.
pub(crate) fn condemn<A: Allocator>(
    cells: &mut [Cell],
    index: &[Entry],
    round: u8,
    condemned: &mut Worklist<A>,
)
    requires listed { AreIndexed cells.old index.now }
    requires room { length condemned.old.stands + length (unmarked_of round (tabled_by cells.old index.now))
        ≤ condemned.old.room }
    ensures cells { cells.new ≡ map (blanked_cell round) cells.old }
    ensures list { condemned.new ≡
        with_more condemned.old (unmarked_of round (tabled_by cells.old index.now)) }
{
    for entry in index {
        if condemn_one(cells, *entry, round) {
            condemned.push(*entry);
        }
    }
}
