//! What the answers of shared heaps and queues print, and what callers do about faults.

use super::{CONFIG, M, Q};
use ref_base::{Fault, ObjNo, SlotNo, Strength};
use ref_clear::{Heap, Notice};
use ref_queue::Ran;
use ref_share::{Cleaned, Delivery, Polled, ShareFault};
use std::alloc::Global;
use std::fmt;
use std::process::Abort;

/// The value prints as this text.
fn prints(rt: &impl Abort, alloc: Global, value: &impl fmt::Display, want: &str) {
    let Ok(printed) = format!(in alloc; "{value}") else {
        panic!(rt; "no memory for a text");
    };
    assert!(rt; printed.as_str() == want);
}

/// The notice of reference 2.
fn notice(rt: &impl Abort, alloc: Global) -> Notice {
    let Ok(mut heap) = Heap::new(alloc, CONFIG, 0) else {
        panic!(rt; "there is no heap");
    };
    let _object = heap.alloc_obj(M, SlotNo(0), 0);
    let _reference = heap.alloc_ref(M, SlotNo(1), Strength::Weak, SlotNo(0), Some(Q), 0);
    match heap.unhook(M, SlotNo(1)) {
        Ok(Some(notice)) => notice,
        _ => panic!(rt; "there is no notice"),
    }
}

/// A fault prints so, and is this for its caller.
fn gives_up(
    rt: &impl Abort,
    alloc: Global,
    fault: ShareFault,
    text: &str,
    want: Result<(), Fault>,
) {
    prints(rt, alloc, &fault, text);
    assert!(rt; fault.give_up() == want);
}

#[test]
fn each_fault_prints_what_comes_back_and_is_given_up(rt: HostRuntime) {
    let alloc = rt.alloc();
    let spent = Fault::TurnsSpent;
    gives_up(&rt, alloc, ShareFault::Busy, "another turn is open", Ok(()));
    let no_cell = Err(Fault::NoCell);
    gives_up(&rt, alloc, Fault::NoCell.into(), "refused: NoCell", no_cell);
    let fault = ShareFault::Notice(notice(&rt, alloc), Fault::NoMemory);
    let text = "the notice of 2 comes back: NoMemory";
    gives_up(&rt, alloc, fault, text, Err(Fault::NoMemory));
    let fault = ShareFault::Held(notice(&rt, alloc).into_hold(), spent);
    let text = "the hold of 2 comes back: TurnsSpent";
    gives_up(&rt, alloc, fault, text, Err(spent));
}

/// What a poll answered prints so.
fn polled_prints(rt: &impl Abort, alloc: Global, polled: Polled, want: &str) {
    prints(rt, alloc, &polled, want);
    match polled {
        Polled::Took(notice) => notice.into_hold().leak(),
        Polled::Empty | Polled::Closed | Polled::TimedOut => {}
    }
}

/// What a clean did prints so.
fn cleaned_prints(rt: &impl Abort, alloc: Global, cleaned: Cleaned, want: &str) {
    prints(rt, alloc, &cleaned, want);
    match cleaned {
        Cleaned::Ran(_, Some(hold)) => hold.leak(),
        Cleaned::Ran(_, None) | Cleaned::Gone => {}
    }
}

#[test]
fn each_answer_prints_as_one_line(rt: HostRuntime) {
    let alloc = rt.alloc();
    prints(&rt, alloc, &Delivery::Nothing, "nothing");
    let added = Delivery::Added(ObjNo(2), Q, 7);
    prints(&rt, alloc, &added, "2 added to q0 at 7");
    prints(&rt, alloc, &Delivery::Dropped(ObjNo(2)), "2 dropped");
    let took = Polled::Took(notice(&rt, alloc));
    polled_prints(&rt, alloc, took, "took 2");
    polled_prints(&rt, alloc, Polled::Empty, "empty");
    polled_prints(&rt, alloc, Polled::Closed, "closed");
    polled_prints(&rt, alloc, Polled::TimedOut, "timed out");
    let ran = Ran {
        number: 3,
        answer: 1003,
    };
    let cleaned = Cleaned::Ran(ran, None);
    cleaned_prints(&rt, alloc, cleaned, "ran 3, which answered 1003");
    cleaned_prints(&rt, alloc, Cleaned::Gone, "gone");
}
