//! What is placed where, as the rule has it: in the first page that has a free cell, in its lowest.

use super::Call::{Address, Fill, Full, Give, IsFree, Place, Taken};
use super::{Call, agree};
use ref_space::Pages;
use std::test::Fail;

const LOWEST: &[Call] = &[
    Place(&[(0, 0), (0, 1), (0, 2)]),
    Taken(&[(0, 3)]),
    IsFree(0, 2, false),
    IsFree(0, 3, true),
    Give(0, 1),
    Taken(&[(0, 2)]),
    IsFree(0, 0, false),
    IsFree(0, 1, true),
    Place(&[(0, 1), (0, 3)]),
    Give(0, 2),
    Give(0, 0),
    Place(&[(0, 0), (0, 2), (0, 4)]),
    Taken(&[(0, 5), (1, 0)]),
    Address(&[(0, 7)]),
];

const PASSED_OVER: &[Call] = &[
    Fill(0, 0, 64),
    Taken(&[(0, 64)]),
    Place(&[(1, 0), (1, 1)]),
    Give(0, 63),
    Give(0, 5),
    Place(&[(0, 5), (0, 63), (1, 2)]),
    Taken(&[(0, 64), (1, 3)]),
];

const NONE_FREE: &[Call] = &[
    Fill(0, 0, 64),
    Fill(1, 0, 64),
    Full,
    Full,
    Taken(&[(0, 64), (1, 64)]),
    Give(1, 63),
    Place(&[(1, 63)]),
    Full,
    Give(1, 0),
    Give(0, 31),
    Place(&[(0, 31), (1, 0)]),
    Full,
];

const STAYS_FREE: &[Call] = &[
    Place(&[(0, 0)]),
    Give(0, 9),
    Give(1, 9),
    IsFree(0, 9, true),
    Taken(&[(0, 1)]),
    Place(&[(0, 1)]),
];

/// Stories of two new pages, by their names.
const STORIES: [(&str, &[Call]); 4] = [
    ("the lowest free cell is taken", LOWEST),
    (
        "a full page is passed over until a cell is given back",
        PASSED_OVER,
    ),
    ("none is placed where no cell is free", NONE_FREE),
    (
        "a cell that is free stays free if it is given back",
        STAYS_FREE,
    ),
];

#[test]
fn each_story_of_places_is_told(rt: HostRuntime) -> Result<(), Fail> {
    for (name, story) in STORIES {
        let mut pages = Pages::new(rt.alloc(), 2, 7)?;
        agree(&rt, name, &mut pages, story);
    }
    Ok(())
}

#[test]
fn new_pages_are_empty(rt: HostRuntime) -> Result<(), Fail> {
    let mut pages = Pages::new(rt.alloc(), 2, 7)?;
    assert!(rt; pages.len() == 2);
    let story = [
        Address(&[(0, 7), (1, 8)]),
        Taken(&[(0, 0), (1, 0)]),
        IsFree(0, 0, true),
        IsFree(1, 63, true),
    ];
    agree(&rt, "new pages are empty", &mut pages, &story);
    Ok(())
}

#[test]
fn no_pages_have_no_place_and_the_last_address_is_below_2_to_the_32(
    rt: HostRuntime,
) -> Result<(), Fail> {
    let mut none = Pages::new(rt.alloc(), 0, 7)?;
    assert!(rt; none.len() == 0);
    agree(&rt, "no pages", &mut none, &[Full]);
    let mut last = Pages::new(rt.alloc(), 2, u32::MAX - 1)?;
    let addresses = [Address(&[(0, 4_294_967_294), (1, 4_294_967_295)])];
    agree(&rt, "the last addresses", &mut last, &addresses);
    Ok(())
}
