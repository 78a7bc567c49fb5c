//! Stories of queues of notices.

use crate::bench::{Bench, agree};
use rationed::Rationed;
use ref_base::QueueNo;
use ref_process::NoticeQueue;

// Six references, of which five die: three of queue 0, found by two workers, and two of queue 1.
const FIVE_NOTICES: &str = "
    add 1 weak 21 0 : r0 nothing; add 2 weak 22 1 : r1 nothing; add 3 weak 23 0 : r2 nothing
    add 4 weak 24 0 : r3 nothing; add 5 weak 25 1 : r4 nothing; add 6 weak 26 0 : r5 nothing
    begin 1 normal : cycle 1
    found 0 r0 : listed; found 0 r1 : listed; found 1 r2 : listed; found 1 r3 : listed; found 1 r4 : listed
    found 0 r5 : listed
    mark 26 : done; end_mark : done
    look 0 : cleared r0; look 0 : cleared r1; look 0 : kept r5
    look 1 : cleared r2; look 1 : cleared r3; look 1 : cleared r4
    end_clear : done
    hand 0 : notice r0 q0 cycle 1 w0; hand 1 : notice r2 q0 cycle 1 w1; hand 1 : notice r3 q0 cycle 1 w1
    hand 0 : notice r1 q1 cycle 1 w0; hand 1 : notice r4 q1 cycle 1 w1
    hand 0 : nothing; hand 1 : nothing";

#[test]
fn notices_of_two_workers_in_two_queues(rt: HostRuntime) {
    let mut bench = Bench::new(rt.alloc(), rt.alloc(), 0);
    agree(&rt, &mut bench, FIVE_NOTICES);
    agree(
        &rt,
        &mut bench,
        "# each queue has its own positions
        put 0 : added 0; put 0 : added 1; put 0 : added 2; put 1 : added 0; put 1 : added 1; put 1 : nothing
        # what stands in a queue holds its reference's owner
        roots : roots 1 2 3 4 5; dead r0 : StillOut
        # first in, first out
        poll 1 : notice r1 q1 cycle 1 w0; spend : owner 2
        poll 0 : notice r0 q0 cycle 1 w0; spend : owner 1
        poll 0 : notice r2 q0 cycle 1 w1; spend : owner 3
        roots : roots 4 5
        # positions go on, whatever was taken
        enqueue r5 : notice r5 q0 own; put 0 : added 3
        poll 0 : notice r3 q0 cycle 1 w1; poll 0 : notice r5 q0 own; poll 0 : empty; poll 0 : empty
        poll 1 : notice r4 q1 cycle 1 w1; poll 1 : empty
        spend : owner 4; spend : owner 6; spend : owner 5; spend : nothing
        roots : roots; dead r0 : done; dead r5 : done",
    );
}

#[test]
fn a_notice_goes_into_its_own_queue_alone(rt: HostRuntime) {
    agree(
        &rt,
        &mut Bench::new(rt.alloc(), rt.alloc(), 0),
        "add 1 weak 11 1 : r0 nothing; enqueue r0 : notice r0 q1 own
        # it comes back, and the queue has nothing
        put 0 : WrongQueue; put 0 : WrongQueue; poll 0 : empty
        # so it does where the queue is closed
        close 0 : yes; put 0 : WrongQueue; poll 0 : closed
        put 1 : added 0; put 1 : nothing; poll 0 : closed; poll 1 : notice r0 q1 own; spend : owner 1",
    );
}

#[test]
fn a_closed_queue_adds_nothing_and_gives_what_stands(rt: HostRuntime) {
    let mut bench = Bench::new(rt.alloc(), rt.alloc(), 0);
    agree(&rt, &mut bench, FIVE_NOTICES);
    agree(
        &rt,
        &mut bench,
        "put 0 : added 0; put 0 : added 1; close 0 : yes; close 0 : no
        put 0 : closed; put 0 : closed
        # the other queue is open
        close 1 : yes; poll 1 : closed
        poll 0 : notice r0 q0 cycle 1 w0; poll 0 : notice r2 q0 cycle 1 w1; poll 0 : closed; poll 0 : closed
        close 0 : no; put 0 : closed
        # what came back stands in front: r3, and behind it r1 and r4, and what was taken
        spend : owner 4; put 1 : closed; spend : owner 2; spend : owner 5; spend : owner 1; spend : owner 3
        spend : nothing",
    );
}

#[test]
fn a_queue_that_ends_gives_what_stands(rt: HostRuntime) {
    let mut bench = Bench::new(rt.alloc(), rt.alloc(), 0);
    agree(&rt, &mut bench, FIVE_NOTICES);
    agree(
        &rt,
        &mut bench,
        "put 0 : added 0; put 0 : added 1; put 0 : added 2; poll 0 : notice r0 q0 cycle 1 w0
        # r1 and r4 are held, and r0
        end 0 : stood 2; end 1 : stood 0
        spend : owner 2; spend : owner 5; spend : owner 1
        # in order
        spend : owner 3; put 0 : added 0; poll 0 : notice r3 q0 cycle 1 w1; spend : owner 4; roots : roots",
    );
    assert!(rt; NoticeQueue::new(rt.alloc(), QueueNo(7)).queue() == QueueNo(7));
}

// A put makes one request at most. Where that is refused its notice comes back, and the queue is as it was.
#[test]
fn a_put_that_is_refused_memory_changes_nothing(rt: HostRuntime) {
    let memory = Rationed::new(rt.alloc());
    let mut bench = Bench::new(rt.alloc(), &memory, 0);
    agree(
        &rt,
        &mut bench,
        "add 1 weak 11 0 : r0 nothing; enqueue r0 : notice r0 q0 own
        add 2 weak 12 1 : r1 nothing; enqueue r1 : notice r1 q1 own",
    );
    memory.ration(0);
    agree(
        &rt,
        &mut bench,
        "put 0 : NoMemory; put 0 : NoMemory; poll 0 : empty; put 1 : WrongQueue",
    );
    assert!(rt; memory.lift(), "NoticeQueue::put");
    agree(&rt, &mut bench, "put 0 : added 0; close 1 : yes");
    // A closed queue wants no memory, and neither does a poll.
    memory.ration(0);
    agree(
        &rt,
        &mut bench,
        "put 1 : closed; poll 0 : notice r0 q0 own; poll 0 : empty",
    );
    assert!(rt; !memory.lift(), "a closed queue asked");
}
