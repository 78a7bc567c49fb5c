//! Which pages are chosen, where objects are placed then, and the addresses after it.

use super::Call::{
    self, Address, Choose, Empty, Fill, FirstLeft, Full, Give, HasChosen, HasLeft, IsChosen, Place,
    Renumber, Taken,
};
use super::agree;
use ref_base::Fault;
use ref_space::Pages;
use std::test::Fail;

const ONE_SPARSE: &[Call] = &[
    Choose(Err(Fault::NoRoom)),
    Place(&[(0, 0)]),
    Choose(Err(Fault::NoRoom)),
    HasChosen(false),
    Place(&[(0, 1)]),
    Address(&[(0, 7)]),
];

const SPARSE_AT_32: &[Call] = &[
    Fill(0, 0, 64),
    Fill(1, 0, 64),
    Fill(2, 0, 64),
    Empty(0, 33, 64),
    Choose(Err(Fault::NoRoom)),
    Empty(1, 32, 64),
    Choose(Err(Fault::NoRoom)),
    Empty(2, 1, 64),
    Choose(Ok(33)),
    HasChosen(true),
    Fill(0, 33, 64),
    Fill(3, 0, 64),
    Full,
    Taken(&[(1, 32), (2, 1)]),
];

const CHOSEN_LAST: &[Call] = &[
    Fill(0, 0, 64),
    Fill(1, 0, 64),
    Fill(2, 0, 40),
    Empty(0, 1, 64),
    Empty(1, 0, 62),
    Choose(Ok(3)),
    Place(&[(2, 40), (2, 41), (2, 42)]),
    Empty(0, 0, 1),
    Empty(1, 62, 64),
    Place(&[(2, 43)]),
    Renumber,
    HasChosen(false),
    Address(&[(0, 11), (1, 12), (2, 9), (3, 10)]),
    Taken(&[(2, 44)]),
    Fill(2, 44, 64),
    Fill(3, 0, 64),
    Fill(0, 0, 64),
    Fill(1, 0, 64),
    Full,
    Empty(0, 9, 10),
    Empty(3, 5, 6),
    Place(&[(3, 5), (0, 9)]),
    Full,
];

const SECOND_MOVE: &[Call] = &[
    Fill(0, 0, 64),
    Place(&[(1, 0)]),
    Empty(0, 1, 64),
    Choose(Ok(2)),
    Place(&[(2, 0), (2, 1)]),
    Empty(0, 0, 1),
    Empty(1, 0, 1),
    Renumber,
    Fill(2, 2, 64),
    Place(&[(3, 0)]),
    Empty(2, 0, 63),
    Choose(Ok(2)),
    Place(&[(0, 0), (0, 1)]),
    Empty(2, 63, 64),
    Empty(3, 0, 1),
    Renumber,
    Address(&[(0, 11), (1, 12), (2, 13), (3, 14)]),
    Place(&[(0, 2)]),
];

const NO_CHOICE: &[Call] = &[
    Fill(0, 0, 64),
    Place(&[(1, 0)]),
    Renumber,
    Address(&[(0, 7), (3, 10)]),
    Taken(&[(0, 64)]),
    Place(&[(1, 1)]),
];

const SPENT: &[Call] = &[
    Place(&[(0, 0)]),
    Choose(Err(Fault::NoRoom)),
    Fill(0, 1, 64),
    Place(&[(1, 0)]),
    Empty(0, 1, 64),
    Choose(Err(Fault::AddressesSpent)),
    HasChosen(false),
    Place(&[(0, 1)]),
    Address(&[(3, 4_294_967_295)]),
];

const LAST_GIVEN: &[Call] = &[
    Fill(0, 0, 64),
    Place(&[(1, 0)]),
    Empty(0, 1, 64),
    Choose(Ok(2)),
    Empty(0, 0, 1),
    Empty(1, 0, 1),
    Renumber,
    Address(&[(0, 4_294_967_294), (1, 4_294_967_295)]),
    Fill(2, 0, 64),
    Place(&[(3, 0)]),
    Empty(2, 1, 64),
    Choose(Err(Fault::AddressesSpent)),
];

/// Stories of four new pages: their names, and the address that the first page has.
const STORIES: [(&str, u32, &[Call]); 7] = [
    ("one sparse page is too few", 7, ONE_SPARSE),
    (
        "a page with 32 taken cells is chosen and one with 33 is not",
        7,
        SPARSE_AT_32,
    ),
    ("chosen pages come last at new addresses", 7, CHOSEN_LAST),
    (
        "a second move goes on from the next address",
        7,
        SECOND_MOVE,
    ),
    (
        "without a choice a renumbering changes nothing",
        7,
        NO_CHOICE,
    ),
    (
        "no choice is made where addresses are spent",
        4_294_967_292,
        SPENT,
    ),
    ("the last addresses are given", 4_294_967_290, LAST_GIVEN),
];

#[test]
fn each_story_of_moves_is_told(rt: HostRuntime) -> Result<(), Fail> {
    for (name, address, story) in STORIES {
        // Which `Pages::new` asks of its callers.
        assert!(rt; address <= 4_294_967_292, "four addresses are below 2^32");
        let mut pages = Pages::new(rt.alloc(), 4, address)?;
        agree(&rt, name, &mut pages, story);
    }
    Ok(())
}

#[test]
fn what_is_to_move_has_the_next_free_cells_in_order(rt: HostRuntime) -> Result<(), Fail> {
    let mut pages = Pages::new(rt.alloc(), 4, 7)?;
    let chosen = [
        Fill(0, 0, 64),
        Fill(1, 0, 64),
        Fill(2, 0, 40),
        Empty(0, 1, 63),
        Empty(1, 0, 62),
        HasLeft(false),
        Choose(Ok(4)),
        IsChosen(0, true),
        IsChosen(1, true),
        IsChosen(2, false),
    ];
    agree(&rt, "chosen", &mut pages, &chosen);
    let mut forwards = [0u32; 256];
    // Which `reserve` asks of its callers.
    assert!(rt; pages.len() == 4);
    pages.reserve(&mut forwards);
    // Where something lies, and where it is to go: cell c of frame f is place 64 * f + c.
    let table = [(0, 168), (63, 169), (126, 170), (127, 171), (128, 0)];
    for (row, &(from, to)) in table.iter().enumerate() {
        assert!(rt; forwards.get(from).copied() == Some(to), "row {row}");
    }
    let moved = [
        FirstLeft(Some((0, 0))),
        HasLeft(true),
        Give(0, 0),
        FirstLeft(Some((0, 63))),
        // One that isn't the first may move before it.
        Give(1, 62),
        FirstLeft(Some((0, 63))),
        Give(0, 63),
        FirstLeft(Some((1, 63))),
        Give(1, 63),
        HasLeft(false),
        FirstLeft(None),
        Place(&[(2, 44)]),
        Renumber,
        Address(&[(0, 11), (1, 12)]),
        HasLeft(false),
    ];
    agree(&rt, "moved", &mut pages, &moved);
    Ok(())
}
