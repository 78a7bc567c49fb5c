//! What the calls of a heap answer.

use super::{Bench, config};
use crate::hand::{foreign, keep};
use crate::steps::agree;
use ref_base::{Fault, MutNo, ObjNo, SlotNo};
use ref_objects::{Objects, Start};
use std::alloc::Global;
use std::process::Abort;

/// A story of a heap of 8 cells.
fn tell(rt: &impl Abort, alloc: Global, story: &str) {
    let mut bench = Bench::new(rt, alloc, 8);
    agree(rt, &mut bench, story);
    bench.end();
}

/// A start at this object and this page.
const fn start(obj: u32, page: u32) -> Start {
    Start {
        obj,
        cycle: 0,
        page,
    }
}

#[test]
fn the_last_number_is_given_once(rt: HostRuntime) {
    let made = Objects::starting(rt.alloc(), config(8), 1, start(u32::MAX, 1));
    let Ok(mut heap) = made else {
        panic!(rt; "there is no heap");
    };
    assert!(rt; heap.next_no() == 4_294_967_295);
    let story = "m0 new s0 0 : object 4294967295; m0 new s1 0 : refused 5 NumbersSpent";
    agree(&rt, &mut heap, story);
}

#[test]
fn numbers_begin_at_one_and_pages_end_below_two_to_the_32nd(rt: HostRuntime) {
    // The cells, where it starts, and what it is refused. Cells 1 to 64 fill one page, and twice as many pages are
    // there.
    let table = [
        (64, start(0, 1), Some(Fault::BadConfig)),
        (64, start(1, 0), Some(Fault::BadConfig)),
        (64, start(1, u32::MAX - 1), None),
        (64, start(1, u32::MAX), Some(Fault::BadConfig)),
        (65, start(1, u32::MAX - 1), Some(Fault::BadConfig)),
        (0, Start::FIRST, Some(Fault::BadConfig)),
    ];
    for (row, &(cells, start, want)) in table.iter().enumerate() {
        let made = Objects::starting(rt.alloc(), config(cells), 1, start);
        assert!(rt; made.err() == want, "row {row}");
    }
}

#[test]
fn references_and_slots_are_as_they_are_told(rt: HostRuntime) {
    let story = "
        set_clock 7 : ok; m0 soft s1 s0 q0 0 : refused 6 EmptySlot; m0 new s0 0 : object 1
        m0 soft s1 s0 q1 0 : refused 10 BadQueue; m0 soft s1 s0 q0 1 : object 2
        kind 2 : soft; referent 2 : object 1; stamp 2 : 7; queue 2 : 0
        fields 2 : 1; field 2 0 : null; field 2 1 : null";
    tell(&rt, rt.alloc(), story);
    // Slots are set and read.
    let story = "
        m0 new s0 0 : object 1; m0 copy s1 s0 : object 1; m0 drop s0 : ok; slot 0 : null
        set_slot 2 1 : ok; slot 1 : object 1; slot 2 : object 1; slot 3 : null
        slot 16 : refused 9 NoSuchActor; slots : 16";
    tell(&rt, rt.alloc(), story);
    let bench = Bench::new(&rt, rt.alloc(), 8);
    assert!(rt; bench.heap.slot_of(MutNo(1), SlotNo(0)) == Err(Fault::NoSuchActor));
    bench.end();
}

#[test]
fn what_isnt_marked_reads_as_null_where_it_is_hidden(rt: HostRuntime) {
    let story = "
        m0 new s0 0 : object 1; m0 soft s1 s0 q0 0 : object 2; m0 phantom s2 s0 - 0 : object 3
        reference_in 1 : object 2; referent_in 1 : object 1; hidden_in 1 : null; referent_in 2 : object 1
        # A get that hides changes no stamp.
        set_clock 7 : ok; get_hidden 1 : null; stamp 2 : 0; m0 get s3 s1 : object 1; stamp 2 : 7
        slot 3 : object 1
        # A phantom reference gives nothing.
        m0 get s3 s2 : null; slot 3 : null; cut_hidden 1 : ok; referent_in 1 : object 1; hidden_in 1 : null
        mark_slot 0 : object 1; get_hidden 1 : object 1; cut_hidden 1 : ok
        referent_in 1 : null; hidden_in 1 : null; m0 clear s2 : ok; referent 3 : null";
    tell(&rt, rt.alloc(), story);
}

#[test]
fn only_a_reference_is_got_and_cut(rt: HostRuntime) {
    let story = "
        m0 new s0 0 : object 1; m0 weak s1 s0 - 0 : object 2; m0 get s16 s1 : refused 9 NoSuchActor
        m0 get s3 s16 : refused 9 NoSuchActor; m0 clear s16 : refused 9 NoSuchActor
        reference_in 16 : refused 9 NoSuchActor; hidden_in 16 : refused 9 NoSuchActor
        m0 get s3 s4 : refused 6 EmptySlot; m0 clear s4 : refused 6 EmptySlot
        reference_in 4 : refused 6 EmptySlot; hidden_in 4 : refused 6 EmptySlot
        m0 get s3 s0 : refused 8 NotAReference; m0 clear s0 : refused 8 NotAReference
        reference_in 0 : refused 8 NotAReference; hidden_in 0 : refused 8 NotAReference
        referent_in 1 : object 1";
    tell(&rt, rt.alloc(), story);
}

#[test]
fn what_slots_hold_and_what_is_reached_is_marked_once(rt: HostRuntime) {
    let story = "
        m0 new s0 0 : object 1; m0 copy s15 s0 : object 1; m0 new s1 0 : object 2
        mark_slot 0 : object 1; mark_slot 15 : null; mark_slot 2 : null; mark_slot 16 : refused 9 NoSuchActor
        mark_slot_at 1 : object 2; mark_slot_at 1 : null; mark_slot_at 16 : null
        is_marked 1 : yes; is_marked 2 : yes";
    tell(&rt, rt.alloc(), story);
    // At last one that is marked already, and one that isn't there. The rest is white.
    let story = "
        m0 new s0 0 : object 1; m0 new s1 0 : object 2; m0 new s2 0 : object 3; unmarked : 3
        mark 1 : yes; mark 2 : yes; mark 2 : no; mark 4 : no
        is_marked 2 : yes; is_marked 3 : no; is_marked 4 : no
        is_unmarked 2 : no; is_unmarked 3 : yes; is_unmarked 4 : no; unmarked : 1";
    tell(&rt, rt.alloc(), story);
}

#[test]
fn a_new_cycle_begins_with_no_mark(rt: HostRuntime) {
    let story = "
        m0 new s0 0 : object 1; m0 new s1 0 : object 2; mint 2 : object 2; mark 1 : yes; mark 2 : yes; unmarked : 0
        # Only marks are taken away.
        begin_marks : ok; unmarked : 2; is_held 2 : yes; mark 2 : yes";
    tell(&rt, rt.alloc(), story);
}

#[test]
fn a_heap_tells_what_it_is(rt: HostRuntime) {
    let mut bench = Bench::new(&rt, rt.alloc(), 4);
    let story = "
        m0 new s0 0 : object 1; set_clock 3 : ok; heap_no : 1; clock : 3; has 1 : yes; is_held 1 : no
        first_from 1 : object 1; first_from 2 : null";
    agree(&rt, &mut bench, story);
    assert!(rt; bench.heap.config() == config(4) && bench.heap.reference_of(ObjNo(1)) == None);
    bench.end();
}

#[test]
fn a_hold_goes_back_to_its_own_heap(rt: HostRuntime) {
    let mut bench = Bench::new(&rt, rt.alloc(), 8);
    keep(&mut bench.hand, foreign(&rt, rt.alloc()));
    let story = "
        m0 new s0 0 : object 1; hand : 1 of 2; release : refused 11 ForeignHold; hand : 1 of 2
        adopt 1 : refused 11 ForeignHold; hand : 1 of 2; slot 1 : null
        hold 0 : object 1; hand : 1 of 1; adopt 1 : object 1; hand : none; slot 1 : object 1; holds : 0";
    agree(&rt, &mut bench, story);
    bench.end();
}

#[test]
fn each_hold_is_counted_and_what_is_held_is_walked_in_order(rt: HostRuntime) {
    let story = "
        m0 new s0 0 : object 1; m0 new s1 0 : object 2
        hold 2 : refused 6 EmptySlot; mint 3 : refused 2 NoSuchObject; mint 2 : object 2; hand : 2 of 1
        # It is held.
        holds : 1; held_from 1 : object 2; m0 drop s1 : ok; sweep 2 : no
        release : ok; held_from 1 : null; sweep 2 : yes";
    tell(&rt, rt.alloc(), story);
    let story = "
        m0 new s0 0 : object 1; m0 new s0 0 : object 2; m0 new s0 0 : object 3; m0 new s0 0 : object 4
        m0 new s0 0 : object 5; m0 new s0 0 : object 6; m0 new s0 0 : object 7; m0 new s0 0 : object 8
        # A hold that is given up is counted on.
        mint 2 : object 2; mint 6 : object 6; mint 6 : object 6; holds : 3
        held_from 0 : object 2; held_from 2 : object 2; held_from 3 : object 6; held_from 7 : null
        held_after 1 : object 2; held_after 2 : object 6; held_after 6 : null; held_after 4294967295 : null";
    tell(&rt, rt.alloc(), story);
}

#[test]
fn nothing_is_condemned_that_something_else_refers_to(rt: HostRuntime) {
    let story = "
        # Slot 1 holds object 2.
        begin_marks : ok; m0 new s0 1 : object 1; m0 new s1 1 : object 2; mark 1 : yes; condemn : no
        # It is held.
        hold 1 : object 2; m0 drop s1 : ok; condemn : no; adopt 1 : object 2
        # A field holds it.
        m0 store s0 0 s1 : ok; m0 drop s1 : ok; condemn : no
        # It is a referent.
        m0 load s1 s0 0 : object 2; m0 store s0 0 s2 : ok; m0 phantom s2 s1 - 0 : object 3; m0 drop s1 : ok
        mark 3 : yes; condemn : no; cut 3 : ok; condemn : yes; is_condemned 2 : yes";
    tell(&rt, rt.alloc(), story);
}

#[test]
fn the_condemned_refer_to_nothing_and_nothing_comes_to_name_them(rt: HostRuntime) {
    let story = "
        # Objects 2 and 3 refer to object 1, and are condemned.
        begin_marks : ok; m0 new s0 1 : object 1; m0 new s1 1 : object 2; m0 store s1 0 s0 : ok
        m0 weak s2 s0 q0 0 : object 3; m0 drop s1 : ok; m0 drop s2 : ok; mark 1 : yes
        field 2 0 : object 1; referent 3 : object 1; condemn : yes
        field 2 0 : null; fields 2 : 1; referent 3 : null; queue 3 : 0; has 2 : yes
        mint 2 : refused 2 NoSuchObject
        # Nor what isn't there, but what is marked.
        set_slot 3 2 : ok; slot 3 : null; set_slot 3 4 : ok; slot 3 : null; set_slot 3 1 : ok; slot 3 : object 1
        # What isn't freed refers to nothing afterwards, too.
        free 3 : yes; end_cycle : ok; is_condemned 2 : no; field 2 0 : null; mint 2 : object 2; hand : 2 of 1";
    tell(&rt, rt.alloc(), story);
}
