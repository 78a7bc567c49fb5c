//! What a queue takes, and what it gives out.

use super::agree_in_new;

#[test]
fn the_first_put_is_the_first_taken(rt: HostRuntime) {
    let story = "
        poll : empty; put 7 : added 0; put 3 : added 1; poll : took 7; put 9 : added 2; poll : took 3
        poll : took 9; poll : empty";
    agree_in_new(&rt, rt.alloc(), story, &[]);
}

#[test]
fn nothing_is_put_in_twice_even_after_it_was_taken(rt: HostRuntime) {
    let story = "
        put 7 : added 0; put 3 : added 1; put 9 : added 2; put 3 : already; poll : took 7
        taken : 7; stands : 3 9; enqueued : 7 3 9
        put 7 : already; taken : 7; stands : 3 9; enqueued : 7 3 9";
    agree_in_new(&rt, rt.alloc(), story, &[3, 9]);
}

#[test]
fn a_closed_queue_gives_out_what_stands_and_takes_nothing(rt: HostRuntime) {
    let story = "
        put 7 : added 0; close : ok; close : closed; put 3 : closed
        # That 7 was put in is tried before the queue's end.
        put 7 : already; poll : took 7; poll : closed";
    agree_in_new(&rt, rt.alloc(), story, &[]);
}

#[test]
fn a_slip_for_another_queue_comes_back(rt: HostRuntime) {
    let story = "
        put 7 1 : refused 20 WrongQueue
        # It wasn't put in, so one of that number still may be.
        put 7 : added 0";
    agree_in_new(&rt, rt.alloc(), story, &[7]);
}
