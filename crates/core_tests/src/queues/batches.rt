//! Batches that a queue takes and gives.

use super::{Bench, agree_in_new};
use crate::scarce::MOST;
use crate::steps::{agree, agree_with};
use rationed::Rationed;
use ref_base::{Fault, Out, Outs};
use std::alloc::{Allocator, Global};
use std::process::Abort;

#[test]
fn items_go_in_one_by_one_and_come_out_in_order(rt: HostRuntime) {
    let story = "
        put 7 : added 0; add 7 : ok; add 3 : ok; add 9 : ok; add 3 : ok
        puts : already, added 1, added 2, already; before : 1; first : 7 of 0; first : 3 of 0; first : none
        polls 2 : took 7 3; first : 7 of 0; first : 3 of 0; first : none
        polls 32 : took 9; first : 9 of 0; first : none; polls 1 : empty; first : none
        # Nothing is told of an empty batch.
        puts :; before : 3; first : none";
    agree_in_new(&rt, rt.alloc(), story, &[]);
}

#[test]
fn polled_items_stand_behind_those_of_the_batch(rt: HostRuntime) {
    let story = "
        put 7 : added 0; put 3 : added 1; add 9 : ok; polls 1 : took 7; first : 9 of 0; first : 7 of 0; first : none";
    agree_in_new(&rt, rt.alloc(), story, &[3]);
}

#[test]
fn a_closed_queue_takes_no_batch_and_gives_what_stands(rt: HostRuntime) {
    let story = "
        put 7 : added 0; polls 1 : took 7; first : 7 of 0; first : none; polls 1 : empty; first : none; close : ok
        add 4 : ok; add 7 : ok; add 5 : ok; puts : closed, already, closed; before : 1
        first : 4 of 0; first : 7 of 0; first : 5 of 0; first : none; polls 1 : closed";
    agree_in_new(&rt, rt.alloc(), story, &[]);
}

#[test]
fn a_batch_with_an_item_for_another_queue_comes_back_whole(rt: HostRuntime) {
    let story = "
        add 3 : ok; add 8 1 : ok; add 9 : ok; puts : refused 20 WrongQueue
        first : 3 of 0; first : 8 of 1; first : 9 of 0; first : none; polls 32 : empty; first : none";
    agree_in_new(&rt, rt.alloc(), story, &[]);
}

/// How many items are put in for the first time: more than the room that a queue takes first.
const NEW: u32 = 24;

/// Puts the batch of a story in.
fn put_in<A: Allocator + Copy>(rt: &impl Abort, bench: &mut Bench<A>) -> Outs {
    match bench.queue.put_batch(&mut bench.batch) {
        Ok(outs) => outs,
        Err(fault) => panic!(rt; "{fault}"),
    }
}

/// The old item is told as such, and each that was added behind those of before, from this position on, but the last
/// where it was refused. How many were added.
fn added(rt: &impl Abort, outs: Outs, before: usize, is_refused: bool) -> usize {
    assert!(rt; outs.get(0) == Some(Out::Already));
    let count = outs.len().saturating_sub(1 + usize::from(is_refused));
    for place in 1..count.saturating_add(1) {
        let position = before.saturating_add(place).saturating_sub(1) as u64;
        assert!(rt;
            outs.get(place) == Some(Out::Added(position)),
            "item {place}"
        );
    }
    if is_refused {
        let last = outs.get(count.saturating_add(1));
        assert!(rt; last == Some(Out::Refused(Fault::NoMemory)));
    }
    count
}

/// Puts in an item that was put in before, and new ones behind it, with so many requests for memory met. What is left
/// is put in once more, with all met: what was refused and what wasn't tried goes in then, in order. Whether a request
/// was refused.
fn put_with(rt: &impl Abort, alloc: Global, met: u64) -> bool {
    let memory = Rationed::new(alloc);
    let mut bench = Bench::new(rt, &memory, alloc);
    agree(rt, &mut bench, "put 0 : added 0");
    for object in 0..NEW + 1 {
        agree_with(rt, &mut bench, "add $ : ok", &[object]);
    }
    memory.ration(met);
    let outs = put_in(rt, &mut bench);
    let was_refused = memory.lift();
    let first = added(rt, outs, 1, was_refused);
    let again = added(rt, put_in(rt, &mut bench), first.saturating_add(1), false);
    assert!(rt;
        first.saturating_add(again) == NEW as usize,
        "all are added"
    );
    agree(rt, &mut bench, "first : 0 of 0; first : none");
    for object in 0..NEW + 1 {
        let story = "polls 1 : took $; first : $ of 0; first : none";
        agree_with(rt, &mut bench, story, &[object, object]);
    }
    was_refused
}

#[test]
fn a_batch_ends_at_the_first_item_that_finds_no_memory(rt: HostRuntime) {
    for met in 0..MOST {
        if !put_with(&rt, rt.alloc(), met) {
            assert!(rt; 1 < met, "it asks for memory more than once");
            return;
        }
    }
    assert!(rt; false, "a request is refused each time");
}
