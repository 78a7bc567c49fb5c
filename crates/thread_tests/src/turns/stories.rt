//! Turns in one thread.

use super::count_from;
use super::counter::Counter;
use ref_turn::TurnFault;
use std::test::Fail;

#[test]
fn one_thread_is_never_busy(rt: HostRuntime) -> Result<(), Fail> {
    let (turn, mut seat) = count_from(rt.alloc(), 0)?;
    assert!(rt; turn.try_call(&mut seat, 5) == Ok(0));
    assert!(rt; turn.call(&rt, &mut seat, 7) == Ok(5));
    assert!(rt; turn.try_call(&mut seat, 1) == Ok(12));
    assert!(rt; turn.served(&mut seat) == 3);
    assert!(rt; turn.finish(seat) == Ok(Counter { count: 13 }));
    Ok(())
}

#[test]
fn the_last_ticket_is_spent_once(rt: HostRuntime) -> Result<(), Fail> {
    let (turn, mut seat) = count_from(rt.alloc(), u64::MAX - 1)?;
    assert!(rt; turn.served(&mut seat) == u64::MAX - 1);
    assert!(rt; turn.call(&rt, &mut seat, 5) == Ok(0));
    assert!(rt; turn.call(&rt, &mut seat, 7) == Err(TurnFault::Spent(7)));
    assert!(rt; turn.try_call(&mut seat, 8) == Err(TurnFault::Spent(8)));
    assert!(rt; turn.served(&mut seat) == u64::MAX);
    assert!(rt; turn.finish(seat) == Ok(Counter { count: 5 }));
    Ok(())
}

#[test]
fn seats_of_one_thread_are_split_and_joined(rt: HostRuntime) -> Result<(), Fail> {
    let (turn, mut seat) = count_from(rt.alloc(), 10)?;
    let mut other = turn.split(&mut seat);
    assert!(rt; turn.try_call(&mut other, 2) == Ok(0));
    assert!(rt; turn.try_call(&mut seat, 3) == Ok(2));
    turn.join(&mut seat, other);
    assert!(rt; turn.try_call(&mut seat, 4) == Ok(5));
    assert!(rt; turn.served(&mut seat) == 13);
    assert!(rt; turn.finish(seat) == Ok(Counter { count: 9 }));
    Ok(())
}
