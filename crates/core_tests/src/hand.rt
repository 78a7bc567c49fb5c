//! The hand of a story, which has one hold at most, and what becomes of holds that are tried.

use crate::objects::config;
use crate::steps::{M, agree};
use ref_base::{Fault, ObjNo, SlotNo};
use ref_objects::{Hold, Objects};
use std::alloc::Global;
use std::process::Abort;

/// A hold of object 1 of a heap of number 2, where the heaps of stories have number 1.
pub fn foreign(rt: &impl Abort, alloc: Global) -> Hold {
    let Ok(mut heap) = Objects::new(alloc, config(1), 2) else {
        panic!(rt; "there is no heap");
    };
    agree(rt, &mut heap, "m0 new s0 0 : object 1");
    match heap.hold(M, SlotNo(0)) {
        Ok(hold) => hold,
        Err(fault) => panic!(rt; "{fault}"),
    }
}

/// Gives up what the hand had.
pub fn leak(hand: Option<Hold>) {
    match hand {
        Some(hold) => hold.leak(),
        None => {}
    }
}

/// Puts a hold into the hand; what it had before is given up.
pub fn keep(hand: &mut Option<Hold>, hold: Hold) {
    leak(hand.replace(hold));
}

/// What a heap answers that took a hold back into a slot: one that it refuses is given up.
pub fn adopted(answer: Result<ObjNo, (Fault, Hold)>) -> Result<ObjNo, Fault> {
    match answer {
        Ok(no) => Ok(no),
        Err((fault, back)) => {
            back.leak();
            Err(fault)
        }
    }
}

/// What a heap answers that took a hold back: one that it refuses is given up.
pub fn released(answer: Result<(), (Fault, Hold)>) -> Result<(), Fault> {
    match answer {
        Ok(()) => Ok(()),
        Err((fault, back)) => {
            back.leak();
            Err(fault)
        }
    }
}
