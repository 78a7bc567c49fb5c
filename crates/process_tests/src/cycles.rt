//! Stories of cycles.

use crate::bench::{Bench, agree};
use ref_base::{QueueNo, Strength};
use ref_process::{Handle, Processor};

// Each strength, found by two workers, and what was made in the mark.
pub const WHOLE_CYCLE: &str = "
    add 1 soft 21 0 : r0 nothing
    add 2 weak 22 0 : r1 nothing
    add 3 phantom 23 1 : r2 nothing
    add 4 weak 24 - : r3 nothing
    add - phantom 25 1 : r4 nothing
    begin 100 normal : cycle 1
    # its stamp is 0, further behind than the span of 10
    found 0 r0 : listed; found 0 r1 : listed
    found 1 r2 : listed; found 1 r3 : listed
    found 0 r4 : listed
    # twice is harmless
    found 1 r1 : listed; found 1 r2 : listed
    add 6 soft 26 1 : r5 keep 26
    add 7 weak 27 1 : r6 listed
    take_made 1 : done
    roots : roots
    mark 22 26 : done
    end_mark : done
    # what isn't marked reads as null, before any look
    get r0 : null; get r1 : 22; refers_to r2 23 : no; get r6 : null
    end_clear : ClearingLeft
    look 0 : cleared r0; look 0 : kept r1; look 0 : cleared r4; look 0 : nothing
    end_clear : ClearingLeft
    look 1 : cleared r2; look 1 : cleared r3; look 1 : kept r1; look 1 : skipped r2; look 1 : cleared r6
    look 1 : nothing
    end_clear : done
    # pending, in the order of places (r4 has no owner, r3 no queue)
    roots : roots 1 3 7
    dead r2 : StillOut
    hand 0 : notice r0 q0 cycle 1 w0
    hand 0 : notice r4 q1 cycle 1 w0
    hand 0 : nothing
    hand 1 : notice r2 q1 cycle 1 w1
    hand 1 : notice r6 q1 cycle 1 w1
    hand 1 : nothing
    # their notices are out
    roots : roots 1 3 7
    dead r0 : StillOut; dead r3 : done
    spend : owner 1; spend : owner none; spend : owner 3
    roots : roots 7
    spend : owner 7
    roots : roots
    dead r0 : done; get r0 : NoSuchReference; get r5 : 26";

#[test]
fn a_whole_cycle(rt: HostRuntime) {
    agree(
        &rt,
        &mut Bench::new(rt.alloc(), rt.alloc(), 10),
        WHOLE_CYCLE,
    );
}

#[test]
fn calls_of_a_reference_in_each_phase(rt: HostRuntime) {
    let mut bench = Bench::new(rt.alloc(), rt.alloc(), 10);
    agree(
        &rt,
        &mut bench,
        "add 1 weak 11 0 : r0 nothing; add 2 phantom 12 0 : r1 nothing; add 3 soft 13 - : r2 nothing
        # between cycles, nothing is asked of the marks
        get r0 : 11; get r1 : null; refers_to r1 12 : yes; refers_to r1 13 : no; refers_to r1 - : no
        clear r0 : done; get r0 : null; refers_to r0 - : yes; refers_to r0 11 : no
        enqueue r0 : notice r0 q0 own; enqueue r0 : nothing
        enqueue r2 : nothing; get r2 : null
        owner r0 : owner 1; spend : owner 1; enqueue r0 : nothing
        # nor in a mark
        begin 5 normal : cycle 1
        add 4 weak 14 1 : r3 listed; add 5 weak 15 1 : r4 listed; add 6 weak 16 1 : r5 listed
        add 7 phantom 17 2 : r6 listed
        get r3 : 14; refers_to r3 14 : yes; clear r4 : done; enqueue r5 : notice r5 q1 own
        found 1 r0 : nothing; found 1 r4 : nothing
        take_made 0 : done; end_mark : done",
    );
    agree(
        &rt,
        &mut bench,
        "# from the mark's end on, what isn't marked reads as null, and its worker reports it all the same
        get r3 : null; refers_to r3 14 : no; refers_to r3 - : yes; clear r3 : done
        look 0 : cleared r3; look 0 : skipped r4; look 0 : skipped r5
        enqueue r6 : notice r6 q2 own
        look 0 : cleared r6; look 0 : nothing
        hand 0 : notice r3 q1 cycle 1 w0; hand 0 : already r6; hand 0 : nothing
        end_clear : done
        # what is marked is cleared by its own calls
        mark 18 19 : done
        add 8 weak 18 3 : r7 nothing; add 9 weak 19 3 : r8 nothing
        begin 6 normal : cycle 2; found 0 r7 : listed; found 0 r8 : listed; end_mark : done
        get r7 : 18; clear r7 : done; get r7 : null; enqueue r8 : notice r8 q3 own
        look 0 : skipped r7; look 0 : skipped r8; end_clear : done",
    );
}

#[test]
fn soft_references_go_by_their_stamps(rt: HostRuntime) {
    agree(
        &rt,
        &mut Bench::new(rt.alloc(), rt.alloc(), 10),
        "add 1 soft 11 - : r0 nothing
        begin 10 normal : cycle 1; found 0 r0 : keep 11; end_mark : done; end_clear : done
        begin 11 normal : cycle 2; found 0 r0 : listed; mark 11 : done; end_mark : done
        look 0 : kept r0; refers_to r0 11 : yes; end_clear : done
        # to be compared renews no stamp, to be got does
        begin 12 normal : cycle 3; found 0 r0 : listed; end_mark : done; get r0 : 11
        look 0 : kept r0; end_clear : done
        begin 22 normal : cycle 4; found 0 r0 : keep 11; end_mark : done; end_clear : done
        # an urgent cycle keeps none
        begin 22 urgent : cycle 5; found 0 r0 : listed; add 2 soft 12 - : r1 listed; take_made 0 : done
        mark : done; end_mark : done; get r0 : null; look 0 : cleared r0; look 0 : cleared r1; end_clear : done",
    );
}

#[test]
fn a_pending_reference_may_be_enqueued_by_itself(rt: HostRuntime) {
    agree(
        &rt,
        &mut Bench::new(rt.alloc(), rt.alloc(), 0),
        "add 1 weak 11 0 : r0 nothing; begin 1 normal : cycle 1; found 0 r0 : listed; end_mark : done
        look 0 : cleared r0; enqueue r0 : notice r0 q0 own; roots : roots 1
        # it is pending all the same
        spend : owner 1; roots : roots 1; dead r0 : StillOut
        hand 0 : already r0; roots : roots; end_clear : done; dead r0 : done",
    );
}

#[test]
fn a_key_of_the_dead_is_refused(rt: HostRuntime) {
    agree(
        &rt,
        &mut Bench::new(rt.alloc(), rt.alloc(), 0),
        "add 1 weak 11 0 : r0 nothing; dead r0 : done; add 2 weak 12 0 : r1 nothing
        get r0 : NoSuchReference; refers_to r0 - : NoSuchReference; clear r0 : NoSuchReference
        enqueue r0 : NoSuchReference; dead r0 : NoSuchReference; owner r0 : NoSuchReference
        owner r1 : owner 2
        begin 1 normal : cycle 1; found 0 r0 : NoSuchReference; found 0 r1 : listed
        # its place has another reference by the time of the look
        dead r1 : done; add 3 weak 13 0 : r2 listed; take_made 0 : done; end_mark : done
        look 0 : skipped r1; look 0 : cleared r2; look 0 : nothing; hand 0 : notice r2 q0 cycle 1 w0",
    );
}

#[test]
fn steps_have_their_phases(rt: HostRuntime) {
    agree(
        &rt,
        &mut Bench::new(rt.alloc(), rt.alloc(), 0),
        "add 1 weak 11 0 : r0 nothing
        end_mark : WrongPhase; end_clear : WrongPhase; look 0 : WrongPhase; found 0 r0 : WrongPhase
        begin 5 normal : cycle 1
        begin 6 normal : WrongPhase; end_clear : WrongPhase; look 0 : WrongPhase
        # what was made is left, though no finder has it
        add 2 weak 12 0 : r1 listed; end_mark : done
        begin 6 normal : WrongPhase; end_mark : WrongPhase; found 0 r0 : WrongPhase; end_clear : ClearingLeft
        take_made 1 : done; look 0 : nothing; end_clear : ClearingLeft; look 1 : cleared r1; end_clear : done
        begin 4 normal : ClockBack; begin 5 normal : cycle 2",
    );
}

#[test]
fn another_processors_notice_comes_back(rt: HostRuntime) {
    let mut bench = Bench::new(rt.alloc(), rt.alloc(), 0);
    agree(&rt, &mut bench, "add 1 weak 11 0 : r0 nothing");
    let mut other = Processor::new(rt.alloc(), 0);
    let Ok(added) = other.add(None, Strength::Weak, Handle(11), Some(QueueNo(7))) else {
        panic!(rt; "no room");
    };
    let mut third = Processor::new(rt.alloc(), 0);
    let Ok(Some(notice)) = other.enqueue(added.key, &bench.marked()) else {
        panic!(rt; "no notice");
    };
    match third.spend(notice) {
        Ok(_) => panic!(rt; "spent"),
        Err(back) => assert!(rt; back.key() == added.key && back.queue() == QueueNo(7)),
    }
}
