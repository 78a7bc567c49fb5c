//! Where objects are placed, call by call.

mod memory;
mod moves;
mod stories;

use ref_base::Fault;
use ref_space::Pages;
use std::alloc::Allocator;
use std::process::Abort;

/// A call of some pages, with its answer. A frame and a cell are told by their numbers.
#[derive(Clone, Copy)]
enum Call {
    /// Places at these, in turn.
    Place(&'static [(usize, u32)]),
    /// A place that finds no free cell.
    Full,
    /// As many places as this frame has cells from the first number on and below the second.
    Fill(usize, u32, u32),
    /// Gives a cell of a frame.
    Give(usize, u32),
    /// Gives these cells of a frame.
    Empty(usize, u32, u32),
    /// Whether a cell is free.
    IsFree(usize, u32, bool),
    /// How many cells of each frame are taken.
    Taken(&'static [(usize, u32)]),
    /// The address of each frame.
    Address(&'static [(usize, u32)]),
    Choose(Result<u64, Fault>),
    HasChosen(bool),
    IsChosen(usize, bool),
    /// The first taken cell of the chosen pages.
    FirstLeft(Option<(usize, u32)>),
    HasLeft(bool),
    Renumber,
}

fn are_placed<A: Allocator>(pages: &mut Pages<A>, places: &[(usize, u32)]) -> bool {
    for &place in places {
        if pages.place() != Some(place) {
            return false;
        }
    }
    true
}

fn is_filled<A: Allocator>(pages: &mut Pages<A>, frame: usize, from: u32, below: u32) -> bool {
    for cell in from..below {
        if pages.place() != Some((frame, cell)) {
            return false;
        }
    }
    true
}

fn is_given<A: Allocator>(pages: &mut Pages<A>, frame: usize, cell: u32) -> bool {
    if frame >= pages.len() || cell >= 64 {
        return false;
    }
    pages.give(frame, cell);
    true
}

fn is_emptied<A: Allocator>(pages: &mut Pages<A>, frame: usize, from: u32, below: u32) -> bool {
    for cell in from..below {
        if !is_given(pages, frame, cell) {
            return false;
        }
    }
    true
}

fn are_taken<A: Allocator>(pages: &Pages<A>, counts: &[(usize, u32)]) -> bool {
    for &(frame, count) in counts {
        if frame >= pages.len() || pages.taken(frame) != count {
            return false;
        }
    }
    true
}

fn have_addresses<A: Allocator>(pages: &Pages<A>, addresses: &[(usize, u32)]) -> bool {
    for &(frame, address) in addresses {
        if frame >= pages.len() || pages.address(frame) != address {
            return false;
        }
    }
    true
}

fn is_first_left<A: Allocator>(pages: &mut Pages<A>, want: Option<(usize, u32)>) -> bool {
    match pages.first_left() {
        Some(place) => want == Some((place / 64, (place % 64) as u32)),
        None => want.is_none(),
    }
}

/// Makes a call: whether it is answered so.
fn is_answered<A: Allocator>(pages: &mut Pages<A>, call: Call) -> bool {
    match call {
        Call::Place(places) => are_placed(pages, places),
        Call::Full => pages.place() == None,
        Call::Fill(frame, from, below) => is_filled(pages, frame, from, below),
        Call::Give(frame, cell) => is_given(pages, frame, cell),
        Call::Empty(frame, from, below) => is_emptied(pages, frame, from, below),
        Call::IsFree(frame, cell, want) => {
            frame < pages.len() && cell < 64 && pages.is_free(frame, cell) == want
        }
        Call::Taken(counts) => are_taken(pages, counts),
        Call::Address(addresses) => have_addresses(pages, addresses),
        Call::Choose(want) => !pages.has_chosen() && pages.choose() == want,
        Call::HasChosen(want) => pages.has_chosen() == want,
        Call::IsChosen(frame, want) => frame < pages.len() && pages.is_chosen(frame) == want,
        Call::FirstLeft(want) => is_first_left(pages, want),
        Call::HasLeft(want) => pages.has_left() == want,
        Call::Renumber => {
            pages.renumber();
            true
        }
    }
}

/// Makes the calls of this story in turn, each of which has its answer.
fn agree<A: Allocator>(rt: &impl Abort, name: &str, pages: &mut Pages<A>, story: &[Call]) {
    for (row, &call) in story.iter().enumerate() {
        assert!(rt; is_answered(pages, call), "{name}: row {row}");
    }
}
