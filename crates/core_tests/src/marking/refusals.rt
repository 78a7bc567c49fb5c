//! What is refused, and where cycles and cells end.

use super::tell;
use crate::objects::config;
use ref_base::Fault;
use ref_mark::Marker;
use ref_objects::Start;

#[test]
fn what_was_found_is_looked_at_in_clearing_alone(rt: HostRuntime) {
    let story = "
        found 0 : refused 12 WrongPhase; begin 3 normal : cycle 1; found 1 : refused 9 NoSuchActor
        found 0 : refused 12 WrongPhase";
    tell(&rt, rt.alloc(), (8, Start::FIRST), story);
}

#[test]
fn cycles_are_spent_after_the_last(rt: HostRuntime) {
    let start = Start {
        cycle: u64::MAX - 1,
        ..Start::FIRST
    };
    let story = "
        cycle : 18446744073709551614; begin 0 urgent : cycle 18446744073709551615; endmark : doomed 0
        to_sweeping : yes; to_idle : yes; begin 0 normal : refused 5 NumbersSpent";
    tell(&rt, rt.alloc(), (8, start), story);
}

#[test]
fn a_heap_has_a_cell_at_least(rt: HostRuntime) {
    assert!(rt; Marker::new(rt.alloc(), config(0), 1).err() == Some(Fault::BadConfig));
}
