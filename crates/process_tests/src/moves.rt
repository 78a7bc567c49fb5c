//! Stories of objects that move.

use crate::bench::{Bench, agree, agree_scarcely};
use rationed::Rationed;

// Owners and referents, between cycles.
const MOVED: &str = "
    relocate : done
    add 1 weak 11 0 : r0 nothing; add 2 weak 12 0 : r1 nothing; add - weak 13 - : r2 nothing
    add 3 phantom 11 1 : r3 nothing; add 4 soft 14 1 : r4 nothing; add 5 weak 15 1 : r5 nothing
    dead r5 : done
    enqueue r1 : notice r1 q0 own
    # owners and referents, of the first place and the last (14 and 3 stay, and 13 comes to where 11 was)
    relocate 1>21 2>22 4>24 11>31 13>11 15>4 : done
    owner r0 : owner 21; owner r1 : owner 22; owner r2 : owner none; owner r3 : owner 3; owner r4 : owner 24
    get r0 : 31; get r1 : null; get r2 : 11; get r4 : 14; get r5 : NoSuchReference
    refers_to r3 31 : yes; refers_to r3 11 : no; refers_to r1 - : yes
    # its notice is out, and its owner a root where it is now
    roots : roots 22; spend : owner 22; roots : roots
    # they move again, and what nobody names stays
    relocate 21>100 31>101 11>31 : done; owner r0 : owner 100; get r0 : 101; get r2 : 31
    relocate 21>22 : done; owner r0 : owner 100; get r0 : 101
    # the places that are vacant stay so
    add 6 weak 16 - : r6 nothing; get r6 : 16; get r5 : NoSuchReference";

#[test]
fn references_follow_what_moves(rt: HostRuntime) {
    agree(&rt, &mut Bench::new(rt.alloc(), rt.alloc(), 10), MOVED);
}

#[test]
fn to_relocate_takes_no_memory(rt: HostRuntime) {
    let memory = Rationed::new(rt.alloc());
    let mut bench = Bench::new(rt.alloc(), &memory, 10);
    assert!(rt; agree_scarcely(&rt, &memory, &mut bench, "relocate", MOVED) == 0);
}

#[test]
fn the_next_cycle_asks_of_the_new_handles(rt: HostRuntime) {
    agree(
        &rt,
        &mut Bench::new(rt.alloc(), rt.alloc(), 10),
        "add 1 weak 11 0 : r0 nothing; add 2 weak 12 0 : r1 nothing
        begin 1 normal : cycle 1; found 0 r0 : listed; mark 12 : done; end_mark : done
        look 0 : cleared r0; end_clear : done
        # pending, with a root that has moved
        roots : roots 1; relocate 1>21 2>22 12>32 : done; roots : roots 21
        hand 0 : notice r0 q0 cycle 1 w0; roots : roots 21
        relocate 21>41 : done; spend : owner 41
        # what is marked by the old handle is not marked
        begin 2 normal : cycle 2; found 0 r1 : listed; mark 12 : done; end_mark : done
        get r1 : null; mark 32 : done; get r1 : 32; look 0 : kept r1; end_clear : done",
    );
}

#[test]
fn nothing_moves_in_a_cycle(rt: HostRuntime) {
    agree(
        &rt,
        &mut Bench::new(rt.alloc(), rt.alloc(), 10),
        "add 1 weak 11 0 : r0 nothing; begin 1 normal : cycle 1
        relocate 1>21 11>31 : WrongPhase; owner r0 : owner 1; get r0 : 11
        found 0 r0 : listed; mark 11 31 : done; end_mark : done
        relocate 1>21 11>31 : WrongPhase; owner r0 : owner 1; get r0 : 11
        look 0 : kept r0; relocate 11>31 : WrongPhase; end_clear : done; get r0 : 11
        relocate 11>31 : done; get r0 : 31; owner r0 : owner 1",
    );
}
