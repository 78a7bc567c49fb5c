//! Cycles from their begin to the mark's end.

use super::{Bench, tell};
use crate::steps::{agree, make_in};
use ref_objects::Start;

#[test]
fn death_is_told_after_a_cycle(rt: HostRuntime) {
    let story = "
        # Nothing but reference 2 holds object 1.
        m0 new s0 0 : object 1; m0 weak s1 s0 q0 0 : object 2; m0 drop s0 : ok; begin 5 normal : cycle 1
        w0 scan : scanned 2; w0 scan : none; is_doomed 1 : no
        # It reads as cleared at once, while the worker still has it to look at.
        endmark : doomed 1; m0 get s3 s1 : null; m0 refers s1 s0 : true; m0 clear s1 : ok
        is_doomed 1 : yes; is_doomed 2 : no; referent 2 : object 1; has_found : yes
        found 0 : cleared 2; referent 2 : null; has_found : no; found 0 : none
        to_sweeping : yes; is_doomed 1 : yes; free 2 : no; free_next : object 1; free_next : none
        is_doomed 1 : no; to_idle : yes; phase : idle; begin 4 normal : refused 13 ClockBack";
    tell(&rt, rt.alloc(), (8, Start::FIRST), story);
}

#[test]
fn what_is_held_or_told_as_a_root_is_kept(rt: HostRuntime) {
    let story = "
        m0 new s0 0 : object 1; m0 new s0 0 : object 2; m0 new s0 0 : object 3; m0 new s0 0 : object 4
        m0 copy s1 s0 : object 4; hold 1 : object 4; hand : 4 of 1; mint 2 : object 2; hand : 2 of 1
        m0 drop s0 : ok; m0 drop s1 : ok; begin 0 normal : cycle 1; root 1 : yes; root 4 : yes
        # What is made in the cycle is never scanned, and never doomed.
        m0 new s0 0 : object 5; w0 scan : scanned 2; w0 scan : scanned 4; w0 scan : scanned 1; w0 scan : none
        endmark : doomed 1; is_doomed 3 : yes";
    tell(&rt, rt.alloc(), (8, Start::FIRST), story);
}

#[test]
fn a_hold_is_taken_back(rt: HostRuntime) {
    let story = "
        m0 new s0 0 : object 1; hold 0 : object 1; hand : 1 of 1; adopt 2 : object 1; holds : 0
        hold 2 : object 1; hand : 1 of 1; release : ok; holds : 0";
    tell(&rt, rt.alloc(), (8, Start::FIRST), story);
}

#[test]
fn a_scan_heals_what_its_object_holds(rt: HostRuntime) {
    // Objects fill the first page, and one lies in the second.
    let mut bench = Bench::starting(&rt, rt.alloc(), 128, Start::FIRST);
    agree(
        &rt,
        &mut bench,
        "m0 new s0 1 : object 1; m0 new s2 0 : object 2",
    );
    make_in(&rt, &mut bench, 1, 3..66);
    let story = "
        # Colour R, page 2, cell 0.
        m0 store s0 0 s1 : ok; word 1 0 : 13835058055282163840; begin 0 normal : cycle 1
        word 1 0 : 13835058055282163840; w0 scan : scanned 1
        # Colour A.
        word 1 0 : 4611686018427388032";
    agree(&rt, &mut bench, story);
    bench.end();
}
