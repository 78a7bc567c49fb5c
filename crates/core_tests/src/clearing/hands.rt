//! The heap's own machine: the holds and notices that go with its replies.

use super::Bench;
use super::stories::bench_of;
use crate::steps::{M, agree, is_so};
use ref_base::{HeapStep, SlotNo};
use std::process::Abort;

/// A hold of what this slot holds is taken into the hand, which is answered so.
pub fn take(rt: &impl Abort, bench: &mut Bench, slot: u32, want: &str) {
    let (mutator, slot) = (M, SlotNo(slot));
    let told = bench.asked(HeapStep::Hold { mutator, slot });
    assert!(rt; is_so(told, want), "{slot} is held");
}

#[test]
fn holds_and_notices_are_given_and_taken_back(rt: HostRuntime) {
    let one = Some((1, 1));
    let mut bench = bench_of(&rt, rt.alloc());
    agree(&rt, &mut bench, "m0 new s0 0 : object 1");
    take(&rt, &mut bench, 0, "object 1");
    bench.has(&rt, one);
    agree(&rt, &mut bench, "m0 adopt s16 : refused 9 NoSuchActor");
    bench.has(&rt, one);
    let story = "m0 adopt s2 : object 1; m0 adopt s2 : refused 24 HandEmpty";
    agree(&rt, &mut bench, story);
    take(&rt, &mut bench, 3, "refused 6 EmptySlot");
    bench.has(&rt, None);
    take(&rt, &mut bench, 2, "object 1");
    bench.has(&rt, one);
    let story = "
        m0 release : ok; m0 drop s2 : ok; m0 weak s1 s0 q0 0 : object 2; m0 unhook s0 : refused 8 NotAReference";
    agree(&rt, &mut bench, story);
    bench.has(&rt, None);
    agree(&rt, &mut bench, "m0 unhook s1 : notice 2 q0 own");
    bench.has(&rt, Some((2, 1)));
    let story = "
        m0 release : ok; m0 weak s1 s0 q0 0 : object 3; m0 drop s0 : ok; begin 5 normal : cycle 1
        # Object 1 and reference 2.
        w0 scan : scanned 3; endmark : doomed 2; w0 hand : none; w0 clearnext : cleared 3";
    agree(&rt, &mut bench, story);
    bench.has(&rt, None);
    agree(&rt, &mut bench, "w0 hand : notice 3 q0 cycle 1 w0");
    bench.has(&rt, Some((3, 1)));
    agree(&rt, &mut bench, "m0 adopt s0 : object 3");
    bench.has(&rt, None);
    bench.end();
}

/// References 2, 3 and 4 to object 1, which the mark cleared, are handed on at once: the first two, then the last.
#[test]
fn notices_are_given_in_a_batch(rt: HostRuntime) {
    let mut bench = bench_of(&rt, rt.alloc());
    let story = "
        m0 new s0 0 : object 1; m0 weak s1 s0 q0 0 : object 2; m0 weak s2 s0 q0 0 : object 3
        m0 weak s3 s0 q0 0 : object 4; m0 drop s0 : ok; w0 hands 32 : none; begin 5 normal : cycle 1
        w0 scan : scanned 2; w0 scan : scanned 3; w0 scan : scanned 4; endmark : doomed 1
        w0 clearnext : cleared 2; w0 clearnext : cleared 3; w0 clearnext : cleared 4
        w0 hands 0 : refused 1 BadConfig; w0 hands 33 : refused 1 BadConfig
        w0 hands 2 : notices 2 3 q0 cycle 1 w0; w0 hands 32 : notices 4 q0 cycle 1 w0
        w0 hands 32 : none; w0 hand : none";
    agree(&rt, &mut bench, story);
    bench.has(&rt, None);
    bench.end();
}
