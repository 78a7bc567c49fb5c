//! Batches, lists of numbers, and what became of the items of a batch.

use ref_base::{Batch, Done, Fault, MOST_IN_BATCH, Nos, ObjNo, Out, Outs};
use std::process::Abort;
use std::test::Fail;

/// Puts these numbers in from 0 on, as far as there is room.
fn fill(batch: &mut Batch<u32>, count: u32) {
    for item in 0..count {
        if batch.len() < MOST_IN_BATCH {
            batch.push(item);
        }
    }
}

/// How many come out, from 0 on in order, until nothing is left.
fn come_out(batch: &mut Batch<u32>) -> u32 {
    for place in 0..MOST_IN_BATCH as u32 {
        if batch.is_empty() || batch.take_first() != Some(place) {
            return place;
        }
    }
    MOST_IN_BATCH as u32
}

/// Two are put in, one is taken, and one more is put in behind the other: the room goes round.
fn go_round(rt: &impl Abort, batch: &mut Batch<u32>) {
    fill(batch, 2);
    assert!(rt; batch.take_first() == Some(0));
    fill(batch, 1);
    assert!(rt; batch.take_first() == Some(1));
    assert!(rt; batch.take_first() == Some(0));
    assert!(rt; batch.take_first() == None);
}

#[test]
fn a_batch_has_room_for_32_and_gives_them_in_order(rt: HostRuntime) -> Result<(), Fail> {
    let mut batch = Batch::new(rt.alloc())?;
    fill(&mut batch, 40);
    assert!(rt; batch.len() == 32);
    assert!(rt; come_out(&mut batch) == 32);
    assert!(rt; batch.is_empty());
    go_round(&rt, &mut batch);
    Ok(())
}

#[test]
fn an_empty_batch_ends(rt: HostRuntime) -> Result<(), Fail> {
    let batch: Batch<u32> = Batch::new(rt.alloc())?;
    batch.end();
    Ok(())
}

/// Objects 1, 2 and so on, as far as there is room.
fn numbers(count: u32) -> Nos {
    let mut numbers = Nos::new();
    for no in 1..count.saturating_add(1) {
        if numbers.as_slice().len() < MOST_IN_BATCH {
            numbers.push(ObjNo(no));
        }
    }
    numbers
}

#[test]
fn numbers_stand_in_order(rt: HostRuntime) {
    assert!(rt; numbers(0).as_slice().is_empty());
    assert!(rt; numbers(2).as_slice() == [ObjNo(1), ObjNo(2)].as_slice());
    assert!(rt; numbers(40).as_slice().len() == 32);
    assert!(rt; numbers(40).as_slice().last() == Some(&ObjNo(32)));
    assert!(rt; numbers(2) == numbers(2));
    assert!(rt; numbers(2) != numbers(3), "one more is another list");
    assert!(rt; numbers(0) != numbers(1), "one is not none");
}

#[test]
fn what_was_added_has_positions_in_a_row(rt: HostRuntime) {
    assert!(rt; Outs::new(7).is_empty(), "nothing was tried");
    assert!(rt; Outs::new(7).get(0) == None);
    // Seven were put in before.
    let mut outs = Outs::new(7);
    outs.push(Done::Added);
    outs.push(Done::Already);
    outs.push(Done::Added);
    outs.push(Done::Refused(Fault::NoMemory));
    let told = [
        Out::Added(7),
        Out::Already,
        Out::Added(8),
        Out::Refused(Fault::NoMemory),
    ];
    assert!(rt; outs.len() == 4 && outs.get(4) == None);
    for (place, out) in told.iter().enumerate() {
        assert!(rt; outs.get(place) == Some(*out), "item {place}");
    }
    assert!(rt; outs != Outs::new(7), "what was tried is told");
    let mut closed = Outs::new(0);
    closed.push(Done::Closed);
    assert!(rt; closed.get(0) == Some(Out::Closed));
}
