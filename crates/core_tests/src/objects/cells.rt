//! What lies in the cells of a heap: objects found by number, their fields and references, gaps, cells used again. A
//! word of colour R, page 1 and cell 0 is c000000000000040 in hexadecimal, one of colour A 4000000000000040.

use super::{Bench, config};
use crate::steps::agree;
use ref_base::{Config, ObjNo, QueueNo, Strength};
use ref_objects::{Objects, Reference};
use std::alloc::Global;
use std::process::Abort;

/// A story of a heap of so many cells.
fn tell(rt: &impl Abort, alloc: Global, cells: u32, story: &str) {
    let mut bench = Bench::new(rt, alloc, cells);
    agree(rt, &mut bench, story);
    bench.end();
}

#[test]
fn what_is_made_is_found_by_its_number(rt: HostRuntime) {
    let story = "
        m0 new s0 2 : object 1; m0 new s1 2 : object 2; m0 new s1 2 : object 3; sweep 2 : yes
        # A slot holds it.
        sweep 3 : no; m0 drop s1 : ok; sweep 3 : yes; m0 new s1 2 : object 4
        has 1 : yes; has 2 : no; has 4 : yes; objects : 2; next_no : 5";
    tell(&rt, rt.alloc(), 3, story);
}

#[test]
fn words_are_of_their_objects_cells(rt: HostRuntime) {
    // Of fields.
    let story = "
        m0 new s0 2 : object 1; m0 new s1 0 : object 2; m0 new s2 0 : object 3; word 1 0 : 0
        # Colour R, page 1, cell 2.
        m0 store s0 0 s2 : ok; word 1 0 : 13835058055282163778; word 1 2 : none; word 4 0 : none
        # Colour A is good now: a slot has it, and a field as soon as it is loaded.
        begin_marks : ok; m0 store s0 1 s1 : ok; word 1 0 : 13835058055282163778
        word 1 1 : 4611686018427387969; m0 load s3 s0 0 : object 3; word 1 0 : 4611686018427387970";
    tell(&rt, rt.alloc(), 4, story);
    // Of referents: a get heals one.
    let story = "
        m0 new s0 0 : object 1; m0 weak s1 s0 - 0 : object 2; m0 weak s2 s0 - 0 : object 3
        # Colour R, page 1, cell 0.
        word_of_referent 2 : 13835058055282163776; word_of_referent 1 : none; word_of_referent 4 : none
        # Colour A is good now: a referent has it as soon as it is got.
        begin_marks : ok; word_of_referent 2 : 13835058055282163776; m0 get s3 s1 : object 1
        word_of_referent 2 : 4611686018427387968; word_of_referent 3 : 13835058055282163776
        m0 clear s1 : ok; word_of_referent 2 : 0";
    tell(&rt, rt.alloc(), 4, story);
    // A new object lies in the first cell that is free.
    let story = "
        m0 new s0 1 : object 1; m0 new s1 0 : object 2; m0 new s2 0 : object 3; m0 drop s1 : ok
        # Marks begin twice, before it is freed and after that: the second time makes colour B good.
        sweep 2 : yes; m0 new s1 0 : object 4; m0 store s0 0 s1 : ok
        # Where object 2 lay: colour B, page 1, cell 1, in hexadecimal 8000000000000041.
        word 1 0 : 9223372036854775873; m0 new s3 0 : object 5; m0 store s0 0 s3 : ok
        # Behind object 3: cell 3.
        word 1 0 : 9223372036854775875";
    tell(&rt, rt.alloc(), 4, story);
}

#[test]
fn referent_and_stamp_are_those_of_a_reference(rt: HostRuntime) {
    let four_queues = Config {
        queues: 4,
        ..config(2)
    };
    let soft = Reference {
        strength: Strength::Soft,
        referent: Some(ObjNo(1)),
        stamp: 7,
        queue: Some(QueueNo(3)),
    };
    let stamped = Reference { stamp: 9, ..soft };
    let cut = Reference {
        referent: None,
        ..stamped
    };
    let Ok(mut heap) = Objects::new(rt.alloc(), four_queues, 1) else {
        panic!(rt; "there is no heap");
    };
    agree(&rt, &mut heap, "m0 new s0 2 : object 1");
    heap.set_clock(7);
    agree(&rt, &mut heap, "m0 soft s1 s0 q3 2 : object 2");
    assert!(rt; heap.reference_of(ObjNo(2)) == Some(soft));
    heap.set_stamp(ObjNo(1), 8);
    heap.set_stamp(ObjNo(2), 9);
    assert!(rt; heap.reference_of(ObjNo(1)) == None);
    assert!(rt; heap.reference_of(ObjNo(2)) == Some(stamped));
    heap.cut(ObjNo(2));
    assert!(rt; heap.reference_of(ObjNo(2)) == Some(cut));
}

#[test]
fn the_condemned_are_listed_and_may_be_freed(rt: HostRuntime) {
    // In order of number.
    let story = "
        m0 new s0 2 : object 1; m0 new s0 2 : object 2; m0 new s0 2 : object 3; sweep 2 : yes
        # It has the cell of what was freed, and is listed by its number still.
        m0 new s1 2 : object 4; m0 new s0 2 : object 5; m0 drop s1 : ok; mark 5 : yes; condemn : yes
        free_next : object 1
        # It is freed by its number first, and then no more.
        free 3 : yes; free_next : skipped 3; free_next : object 4; free_next : none; unmarked : 0";
    tell(&rt, rt.alloc(), 5, story);
    // What isn't marked is condemned.
    let story = "
        begin_marks : ok; m0 new s0 2 : object 1; m0 new s1 2 : object 2; m0 drop s0 : ok
        # It isn't condemned.
        free 1 : no; mark 2 : yes; condemn : yes
        is_condemned 1 : yes; is_condemned 2 : no; is_condemned 3 : no
        free 2 : no; free 1 : yes; free 1 : no; is_condemned 1 : no; unmarked : 0
        # The cell is used again, by an object that is marked from the start.
        m0 new s0 2 : object 3; is_marked 3 : yes; is_condemned 3 : no; free 3 : no
        end_cycle : ok; begin_marks : ok; unmarked : 2; is_condemned 2 : no; free 3 : no";
    tell(&rt, rt.alloc(), 2, story);
}

#[test]
fn clears_and_links_are_told_till_the_object_goes(rt: HostRuntime) {
    let story = "
        # A new object was never cleared, and links to nothing.
        m0 new s0 0 : object 1; m0 new s1 0 : object 2; cleared_in 1 : 0; link 1 : 0
        set_link 1 2 : ok; cleared_in 1 : 0; link 1 : 2; cleared_in 2 : 0; link 2 : 0
        set_cleared_in 1 7 : ok; set_link 2 4294967295 : ok; cleared_in 1 : 7; link 1 : 2
        cleared_in 2 : 0; link 2 : 4294967295; set_cleared_in 1 8 : ok; cleared_in 1 : 8; link 1 : 2
        # There is no object 3.
        set_cleared_in 3 9 : ok; set_link 3 1 : ok; cleared_in 3 : 0; link 3 : 0
        m0 drop s0 : ok; sweep 1 : yes; cleared_in 1 : 0; link 1 : 0
        # It lies in the same cell.
        m0 new s0 0 : object 3; cleared_in 3 : 0; link 3 : 0";
    tell(&rt, rt.alloc(), 2, story);
    // A look clears what refers to the unmarked.
    let story = "
        m0 new s0 0 : object 1; m0 weak s1 s0 - 0 : object 2; set_link 2 1 : ok; mark 1 : yes
        look 2 7 : kept 2; referent 2 : object 1; cleared_in 2 : 0; link 2 : 1
        begin_marks : ok; look 2 7 : cleared 2; referent 2 : null; cleared_in 2 : 7; link 2 : 1
        # It has no referent any more, nor has a plain object, nor one that isn't there.
        look 2 8 : skipped 2; cleared_in 2 : 7; look 1 8 : skipped 1; cleared_in 1 : 0
        look 3 9 : skipped 3; cleared_in 3 : 0; kind 1 : plain";
    tell(&rt, rt.alloc(), 2, story);
}
