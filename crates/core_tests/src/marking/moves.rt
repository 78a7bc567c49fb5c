//! Moves between cycles, by the words that fields hold. The word of cell c of the page at address p is 64 * p + c and
//! 2^62 times the number of its colour. Colour 1 is A, that of the first cycle, and 3 is R, that of moves.

use super::Bench;
use crate::steps::{agree, make_in};
use ref_objects::Start;
use std::alloc::Global;
use std::process::Abort;

/// A story of a heap whose first page has this address. Object 1 is in slot 0, object 65, the first of the second page,
/// in slot 1, and object 2 in slot 2. A cycle has freed all others, so that both pages are sparse. Object 1 names 65 in
/// its field 0, and itself in its field 1.
fn tell(rt: &impl Abort, alloc: Global, page: u32, story: &str) {
    let start = Start {
        page,
        ..Start::FIRST
    };
    let mut bench = Bench::starting(rt, alloc, 128, start);
    let made = "select : refused 18 NoRoom; m0 new s0 5 : object 1; m0 new s2 0 : object 2";
    agree(rt, &mut bench, made);
    make_in(rt, &mut bench, 1, 3..66);
    let freed = "
        m0 store s0 0 s1 : ok; m0 store s0 1 s0 : ok; begin 0 normal : cycle 1; w0 scan : scanned 1
        w0 scan : scanned 65; w0 scan : scanned 2; endmark : doomed 62; to_sweeping : yes; free_all : 62
        to_idle : yes";
    agree(rt, &mut bench, freed);
    agree(rt, &mut bench, story);
    bench.end();
}

#[test]
fn a_load_moves_what_it_loads_and_heals_the_field(rt: HostRuntime) {
    let story = "
        # Colour A, page 2, cell 0.
        word 1 0 : 4611686018427388032; select : selected 3; phase : moving
        word 1 0 : 4611686018427388032; m0 load s3 s0 0 : object 65
        # Colour R, page 3, cell 2: its new cell is that behind those of objects 1 and 2, which are still to move.
        word 1 0 : 13835058055282163906; endmove : refused 17 MovesLeft; w0 move : moved 1; w0 move : moved 2
        w0 move : none; word 1 0 : 13835058055282163906; endmove : ok; phase : idle
        # Once between two cycles.
        select : refused 12 WrongPhase; word 1 0 : 13835058055282163906";
    tell(&rt, rt.alloc(), 1, story);
}

#[test]
fn what_a_slot_gets_of_an_unmoved_object_has_the_colour_from_before(rt: HostRuntime) {
    let story = "
        select : selected 3; m0 store s0 2 s2 : ok; m0 copy s4 s2 : object 2; m0 store s0 3 s4 : ok
        hold 2 : object 2; hand : 2 of 1; adopt 5 : object 2; m0 store s0 4 s5 : ok
        # By a store, a copy and an adopt: colour A, page 1, cell 1.
        word 1 2 : 4611686018427387969; word 1 3 : 4611686018427387969; word 1 4 : 4611686018427387969
        # The first load moves it, and each heals its field.
        m0 load s6 s0 2 : object 2; m0 load s6 s0 3 : object 2; m0 load s6 s0 4 : object 2
        # Colour R, page 3, cell 1.
        word 1 2 : 13835058055282163905; word 1 3 : 13835058055282163905; word 1 4 : 13835058055282163905
        w0 move : moved 1; w0 move : moved 65; w0 move : none; endmove : ok";
    tell(&rt, rt.alloc(), 1, story);
}

#[test]
fn a_field_that_names_its_own_object_is_healed_where_that_lies_now(rt: HostRuntime) {
    let story = "
        # Colour A, page 1, cell 0.
        select : selected 3; word 1 1 : 4611686018427387968; m0 load s3 s0 1 : object 1
        # Colour R, page 3, cell 0.
        word 1 1 : 13835058055282163904; w0 move : moved 2; w0 move : moved 65; w0 move : none";
    tell(&rt, rt.alloc(), 1, story);
}

#[test]
fn a_get_moves_the_referent(rt: HostRuntime) {
    let story = "
        # It lies behind object 2, in the first cell that is free.
        m0 weak s5 s2 - 0 : object 66
        # Colour A, page 1, cell 1.
        word_of_referent 66 : 4611686018427387969; select : selected 4; m0 get s6 s5 : object 2
        # Colour R, page 3, cell 1, behind the one for object 1. The reference lies where it lay.
        word_of_referent 66 : 13835058055282163905; word_of_referent 2 : none
        w0 move : moved 1; w0 move : moved 66; w0 move : moved 65; w0 move : none";
    tell(&rt, rt.alloc(), 1, story);
}

#[test]
fn no_object_is_chosen_where_addresses_are_spent(rt: HostRuntime) {
    let story = "
        # Colour A, page 4,294,967,293, cell 0.
        word 1 0 : 4611686293305294656; select : refused 19 AddressesSpent; phase : idle
        word 1 0 : 4611686293305294656; slot 0 : object 1; slot 1 : object 65; slot 2 : object 2
        w0 move : refused 12 WrongPhase; endmove : refused 12 WrongPhase; select : refused 19 AddressesSpent
        m0 new s3 0 : object 66; m0 store s0 2 s3 : ok
        # It lies in the first cell that is free, cell 2 of page 4,294,967,292: that page isn't chosen.
        word 1 2 : 4611686293305294594; begin 0 normal : cycle 2";
    tell(&rt, rt.alloc(), 4_294_967_292, story);
}

#[test]
fn the_last_addresses_are_given(rt: HostRuntime) {
    let story = "
        select : selected 3; m0 load s3 s0 0 : object 65
        # Colour R, page 4,294,967,292, cell 2. The two pages that are left get 4,294,967,294 and the next.
        word 1 0 : 13835058330160070402";
    tell(&rt, rt.alloc(), 4_294_967_290, story);
}
