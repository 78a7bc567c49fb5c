//! The pages of a heap.

ghost use Rattle.std.specs.Prelude.{◌≡◌, ◌+◌, ◌*◌, ◌^◌, ◌<◌, ◌≤◌, ◌++◌, [], true, false, take, length, slice_index_or};
ghost use Rattle.std.specs.Prelude.{is_some, IfOk};
ghost use Rattle.std.specs.Vec.{vec_capacity};
ghost use Rattle.std.specs.Option.{IfSome};
ghost use Rattle.ref_space.specs.Bits.{bits_of};
ghost use Rattle.ref_space.specs.Pages.{fresh_pages, new_pages, NoneHasRoom, use_at, place_of, has_open_cell};
ghost use Rattle.ref_space.specs.Pages.{sparse_count, sparse_cells, choosing, chosen_frames, empty_pages, AreFramed};
ghost use Rattle.ref_space.specs.Pages.{opened};
ghost use Rattle.ref_space.specs.Pages.{left_in, taken_places, taken_cells, use_of, reserved, reserving};
ghost use Rattle.ref_space.specs.PageViews.{AreMapped, NoneTaken};
ghost use Rattle.ref_space.specs.Worklists.{first_in};

use crate::page::{Page, is_set};
use ref_base::Fault;
use std::alloc::{AllocError, Allocator, Global};
use std::marker::Model;

/// The pages of a heap, in order of address, each with 64 cells. Callers name a page by its frame, which it keeps while
/// its address changes. All memory is taken by `new`: 32 bytes a page.
#[derive(Drop)]
pub struct Pages<A: Allocator = Global> {
    // In order of address.
    pages: Vec<Page, A>,
    // Where the page of each frame stands in that order.
    places: Vec<u32, A>,
    // The frames of the chosen pages, in that order.
    chosen: Vec<u32, A>,
    // The next address that no page ever had: at most 2^32.
    next_address: u64,
    // No page in front of this place is open and has a free cell.
    first_open: usize,
    // No cell is taken of the chosen pages in front of this place in their list.
    first_left: usize,
}

impl<A: Allocator> Model for Pages<A> {
    ghost use Rattle.std.specs.Vec.{vec_capacity};
    ghost use Rattle.ref_space.specs.Pages.{Pages as Data};
    ghost use Rattle.ref_space.specs.PageViews.{ArePages};

    ghost Value = { Data };

    ghost view = { λ p. record { uses = p.pages.items; next = p.next_address } };

    ghost invariant = { λ p. ArePages p.pages.items p.places.items p.chosen.items p.next_address p.first_open
        p.first_left (vec_capacity p.pages) (vec_capacity p.chosen) };
}

impl<A: Allocator + Copy> Pages<A> {
    /// As many pages as `count` says, with all cells free, of the frames from 0 on. Their addresses begin at
    /// `first_address`, follow one another, and are all below 2^32. The one error is that memory is refused. In time of
    /// their count.
    pub fn new(alloc: A, count: usize, first_address: u32) -> Result<Self, AllocError>
        requires { first_address + count ≤ 2 ^ 32 }
        ensures { IfOk result (λ ps. ps ≡ new_pages first_address count) }
    {
        let pages = free_pages(alloc, count, first_address)?;
        let mut places = vec![in alloc; 0u32; count]?;
        let chosen = Vec::with_capacity(alloc, count)?;
        set_places(&mut places, &pages);
        Ok(Pages {
            pages,
            places,
            chosen,
            next_address: first_address as u64 + count as u64,
            first_open: 0,
            first_left: 0,
        })
    }
}

impl<A: Allocator> Pages<A> {
    ghost use Rattle.ref_space.specs.Pages.{AreWhole, AreBetween, next_cell, with_placed, with_given};
    ghost use Rattle.ref_space.specs.Pages.{place_in_frame, is_free_at, has_chosen, choice, after_choice, renumbered};

    /// How many pages there are. Takes no memory, in constant time.
    pub fn len(&self) -> usize
        ensures count { result ≡ length self.now.uses }
        ensures whole { AreWhole self.now.uses }
        ensures framed { AreFramed self.now.uses }
        ensures rising { AreBetween 0 self.now.uses self.now.next }
    {
        self.pages.len()
    }

    // Where the page of this frame stands in the order.
    #[inline(always)]
    fn place_of(&self, frame: usize) -> usize
        requires { frame < length self.now.uses }
        ensures place { result ≡ place_of self.now.uses frame }
        ensures within { result < length self.now.uses }
    {
        self.places[frame] as usize
    }

    /// The address of the page of this frame. Takes no memory, in constant time.
    #[inline(always)]
    pub fn address(&self, frame: usize) -> u32
        requires { frame < length self.now.uses }
        ensures { result ≡ (use_of self.now.uses frame).address }
    {
        self.pages[self.place_of(frame)].address()
    }

    /// Takes the lowest free cell of the first open page that has one: that page's frame, and the cell. None where no
    /// open page has a free cell: then nothing changes. Takes no memory. In constant time, but for the pages without
    /// room that it passes over: each once, and again once a cell in front of it was given back or addresses changed.
    #[inline(always)]
    pub fn place(&mut self) -> Option<(usize, u32)>
        ensures answer { result ≡ next_cell self.old.uses }
        ensures within { IfSome result (λ at. place_in_frame at < 64 * length self.old.uses) }
        ensures after { self.new ≡ with_placed self.old }
    {
        let page = first_with_room(&self.pages, self.first_open);
        self.first_open = page;
        if page == self.pages.len() {
            return None;
        }
        let frame = self.pages[page].frame();
        let cell = self.pages[page].lowest_free();
        self.pages[page].take(cell);
        Some((frame as usize, cell))
    }

    /// Gives a cell of this frame back: it is free then. Takes no memory, in constant time.
    #[inline(always)]
    pub fn give(&mut self, frame: usize, cell: u32)
        requires frame { frame < length self.old.uses }
        requires cell { cell < 64 }
        ensures { self.new ≡ with_given self.old frame cell }
    {
        let page = self.place_of(frame);
        self.first_open = self.first_open.min(page);
        self.pages[page].give(cell);
    }

    /// Whether a cell of this frame is free. Takes no memory, in constant time.
    #[inline(always)]
    pub fn is_free(&self, frame: usize, cell: u32) -> bool
        requires frame { frame < length self.now.uses }
        requires cell { cell < 64 }
        ensures { result ≡ is_free_at self.now.uses (place_of self.now.uses frame) cell }
    {
        self.pages[self.place_of(frame)].is_free(cell)
    }

    /// How many cells of this frame are taken, 0 to 64. Takes no memory, in constant time.
    #[inline(always)]
    pub fn taken(&self, frame: usize) -> u32
        requires { frame < length self.now.uses }
        ensures { result ≡ taken_cells (use_of self.now.uses frame) }
    {
        self.pages[self.place_of(frame)].taken()
    }

    /// Whether the page of this frame is chosen. Takes no memory, in constant time.
    #[inline(always)]
    pub fn is_chosen(&self, frame: usize) -> bool
        requires { frame < length self.now.uses }
        ensures { result ≡ (use_of self.now.uses frame).chosen }
    {
        self.pages[self.place_of(frame)].is_chosen()
    }

    /// Whether pages are chosen. Takes no memory, in constant time.
    #[inline(always)]
    pub fn has_chosen(&self) -> bool
        ensures { result ≡ has_chosen self.now.uses }
    {
        !self.chosen.is_empty()
    }

    /// Chooses each page with 1 to 32 taken cells: until they are renumbered, nothing is placed there. Answers how many
    /// cells these have taken. Refused, and nothing changes: with `NoRoom` where fewer than two pages are such, else
    /// with `AddressesSpent` where there aren't as many addresses below 2^32 that none ever had. Takes no memory, in
    /// time of the pages.
    pub fn choose(&mut self) -> Result<u64, Fault>
        requires { has_chosen self.old.uses ≡ false }
        ensures answer { result ≡ choice self.old }
        ensures after { self.new ≡ after_choice self.old }
    {
        let count = sparse_count(&self.pages);
        if count < 2 {
            return Err(Fault::NoRoom);
        }
        if self.next_address + count > 1 << 32 {
            return Err(Fault::AddressesSpent);
        }
        let cells = sparse_cells(&self.pages);
        choose_sparse(&mut self.pages, &mut self.chosen);
        self.first_left = 0;
        Ok(cells)
    }

    /// The first taken cell of the chosen pages, by place: cell c of frame f is place 64 * f + c. None where nothing is
    /// left there. Takes no memory. In constant time, but for the chosen pages without a taken cell that it passes
    /// over, each once.
    #[inline(always)]
    pub fn first_left(&mut self) -> Option<usize>
        ensures answer { result ≡ first_in (left_in self.old.uses) }
        ensures after { self.new ≡ self.old }
    {
        let at = self.first_with_left();
        self.first_left = at;
        if at == self.chosen_count() {
            return None;
        }
        let frame = self.chosen_frame(at);
        let page = self.place_of(frame);
        Some(64 * frame + self.pages[page].lowest_taken() as usize)
    }

    /// Whether something is left there. Takes no memory, in time as for `first_left`, but that the pages it passes over
    /// are passed over again by the next call.
    #[inline(always)]
    pub fn has_left(&self) -> bool
        ensures { result ≡ is_some (first_in (left_in self.now.uses)) }
    {
        self.first_with_left() < self.chosen_count()
    }

    // Where the first chosen page that has a taken cell stands in their list, or how many they are.
    #[inline(always)]
    fn first_with_left(&self) -> usize
        ensures within { result ≤ length (chosen_frames self.now.uses) }
        ensures none { NoneTaken self.now.uses (chosen_frames self.now.uses) result }
        ensures there { result < length (chosen_frames self.now.uses)
            → 0 < taken_cells (use_of self.now.uses (slice_index_or (chosen_frames self.now.uses) result 0)) }
    {
        for at in self.first_left..self.chosen_count() {
            if self.taken(self.chosen_frame(at)) > 0 {
                return at;
            }
        }
        self.chosen_count()
    }

    // How many pages are chosen.
    #[inline(always)]
    fn chosen_count(&self) -> usize
        ensures { result ≡ length (chosen_frames self.now.uses) }
    {
        self.chosen.len()
    }

    // The frame of the chosen page at this place in their list.
    #[inline(always)]
    fn chosen_frame(&self, at: usize) -> usize
        requires { at < length (chosen_frames self.now.uses) }
        ensures frame { result ≡ slice_index_or (chosen_frames self.now.uses) at 0 }
        ensures within { result < length self.now.uses }
        ensures chosen { (use_of self.now.uses result).chosen ≡ true }
        ensures whole { AreWhole self.now.uses }
    {
        self.chosen[at] as usize
    }

    /// Takes the next free cell of an open page, while there is one, for each taken cell of the chosen pages, in order.
    /// Writes the place of each cell that it takes into the list, which has an entry for each place. Takes no memory,
    /// in time of the chosen pages, and as for so many calls of `place`.
    pub fn reserve(&mut self, forwards: &mut [u32])
        requires each { length forwards.old ≡ 64 * length self.old.uses }
        requires small { length forwards.old ≤ 2 ^ 32 }
        ensures { (self.new, forwards.new) ≡ reserving (self.old, forwards.old) (left_in self.old.uses) }
    {
        for at in 0..self.chosen_count() {
            let frame = self.chosen_frame(at);
            self.reserve_frame(frame, forwards);
        }
    }

    // Takes the next free cell of an open page, while there is one, for each taken cell of this frame, whose page is
    // chosen.
    #[inline(always)]
    fn reserve_frame(&mut self, frame: usize, forwards: &mut [u32])
        requires frame { frame < length self.old.uses }
        requires chosen { (use_of self.old.uses frame).chosen ≡ true }
        requires whole { AreWhole self.old.uses }
        requires each { length forwards.old ≡ 64 * length self.old.uses }
        requires small { length forwards.old ≤ 2 ^ 32 }
        ensures { (self.new, forwards.new) ≡ reserving (self.old, forwards.old)
            (taken_places (64 * frame) (use_of self.old.uses frame).free) }
    {
        // Nothing is placed in a chosen page, so these stay the free ones.
        let free = self.free_cells(frame);
        for cell in 0..64 {
            if !is_set(free, cell) {
                self.reserve_place(64 * frame + cell as usize, forwards);
            }
        }
    }

    // Which cells of this frame are free: bit n is set where cell n is.
    #[inline(always)]
    fn free_cells(&self, frame: usize) -> u64
        requires { frame < length self.now.uses }
        ensures { bits_of result ≡ (use_of self.now.uses frame).free }
    {
        self.pages[self.place_of(frame)].free_cells()
    }

    // Takes the next free cell of an open page, if there is one, for what lies at place `from`, and writes its place
    // into the list.
    #[inline(always)]
    fn reserve_place(&mut self, from: usize, forwards: &mut [u32])
        requires from { from < length forwards.old }
        requires each { length forwards.old ≡ 64 * length self.old.uses }
        requires small { length forwards.old ≤ 2 ^ 32 }
        ensures { (self.new, forwards.new) ≡ reserved (self.old, forwards.old) from }
    {
        if let Some((frame, cell)) = self.place() {
            forwards[from] = (64 * frame + cell as usize) as u32;
        }
    }

    /// Ends what a choice began: each chosen page is open again with all its cells free, and gets, in order, the next
    /// address that none ever had. So it comes behind all others. Takes no memory, in time of the pages.
    pub fn renumber(&mut self)
        ensures after { self.new ≡ renumbered self.old }
        ensures addresses { self.new.next ≤ 2 ^ 32 }
    {
        drop_chosen(&mut self.pages);
        push_emptied(&mut self.pages, &self.chosen, self.next_address);
        self.next_address += self.chosen.len() as u64;
        self.chosen.clear();
        set_places(&mut self.places, &self.pages);
        self.first_open = 0;
        self.first_left = 0;
    }
}

// As many pages as `count` says, with all cells free, of the frames from 0 on. Their addresses follow one another.
fn free_pages<A: Allocator>(
    alloc: A,
    count: usize,
    first_address: u32,
) -> Result<Vec<Page, A>, AllocError>
    requires { first_address + count ≤ 2 ^ 32 }
    ensures { IfOk result (λ v. (v.items ≡ fresh_pages first_address 0 count) × (vec_capacity v ≡ count)) }
{
    let mut pages = Vec::with_capacity(alloc, count)?;
    for place in 0..count {
        pages.push_reserved(Page::fresh(first_address + place as u32, place as u32));
    }
    Ok(pages)
}

// The chosen pages go.
fn drop_chosen<A: Allocator>(pages: &mut Vec<Page, A>)
    ensures pages { pages.new.items ≡ opened pages.old.items }
    ensures capacity { vec_capacity pages.new ≡ vec_capacity pages.old }
{
    pages.retain(|page| !page.is_chosen());
}

// Empty pages of these frames are put behind, at this address and those that follow it.
fn push_emptied<A: Allocator>(pages: &mut Vec<Page, A>, frames: &[u32], first_address: u64)
    requires addresses { first_address + length frames.now ≤ 2 ^ 32 }
    requires fit { length pages.old.items + length frames.now ≤ vec_capacity pages.old }
    ensures pages { pages.new.items ≡ pages.old.items ++ empty_pages first_address frames.now }
    ensures capacity { vec_capacity pages.new ≡ vec_capacity pages.old }
{
    for place in 0..frames.len() {
        let address = (first_address + place as u64) as u32;
        pages.push_reserved(Page::fresh(address, frames[place]));
    }
}

// The list has of each frame where its page stands among these.
fn set_places(places: &mut [u32], pages: &[Page])
    requires framed { AreFramed pages.now }
    requires sized { length places.old ≡ length pages.now }
    requires small { length pages.now ≤ 2 ^ 32 }
    ensures sized { length places.new ≡ length pages.now }
    ensures mapped { AreMapped (length pages.now) pages.now places.new }
{
    for page in 0..pages.len() {
        places[pages[page].frame() as usize] = page as u32;
    }
}

// The first page from this place on that has room, or how many there are.
fn first_with_room(pages: &[Page], from: usize) -> usize
    requires within { from ≤ length pages.now }
    requires none { NoneHasRoom (take from pages.now) }
    ensures within { result ≤ length pages.now }
    ensures none { NoneHasRoom (take result pages.now) }
    ensures all { result ≡ length pages.now → NoneHasRoom pages.now }
    ensures there { result < length pages.now → has_open_cell (use_at pages.now result) ≡ true }
{
    for page in from..pages.len() {
        if pages[page].has_room() {
            return page;
        }
    }
    pages.len()
}

// How many pages have 1 to 32 taken cells.
fn sparse_count(pages: &[Page]) -> u64
    ensures { result ≡ sparse_count pages.now }
{
    let mut count = 0;
    for page in pages {
        count += u64::from(page.is_sparse());
    }
    count
}

// How many cells these have taken.
fn sparse_cells(pages: &[Page]) -> u64
    requires { length pages.now ≤ 2 ^ 32 }
    ensures { result ≡ sparse_cells pages.now }
{
    let mut cells = 0;
    for page in pages {
        if page.is_sparse() {
            cells += page.taken() as u64;
        }
    }
    cells
}

// Chooses these pages, and lists their frames.
fn choose_sparse<A: Allocator>(pages: &mut [Page], chosen: &mut Vec<u32, A>)
    requires none { chosen_frames pages.old ≡ [] }
    requires empty { chosen.old.items ≡ [] }
    requires fit { length pages.old ≤ vec_capacity chosen.old }
    ensures pages { pages.new ≡ choosing pages.old }
    ensures listed { chosen.new.items ≡ chosen_frames (choosing pages.old) }
    ensures capacity { vec_capacity chosen.new ≡ vec_capacity chosen.old }
{
    for page in pages.iter_mut() {
        if page.choose_if_sparse() {
            chosen.push_reserved(page.frame());
        }
    }
}
