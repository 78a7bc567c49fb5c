//! What the callers of a turn can prove.

ghost use Rattle.std.specs.Prelude.{◌≡◌, ◌≢◌, ◌+◌, ◌-◌, ◌^◌, ◌<◌, ℕ, [], ◌∷◌, length, true, false, IsTrue, IsFalse};
ghost use Rattle.std.specs.Prelude.{IfOk};
ghost use Rattle.ref_turn.specs.History.{calls_by};
ghost use Rattle.ref_turn.specs.Seats.{entry};
ghost use Rattle.ref_turn.specs.Turns.{view, IsSeatOf};

use crate::turns::count_from;
use crate::turns::counter::Counter;
use ref_base::Fault;
use ref_turn::{Turn, TurnFault, TurnSeat};
use std::alloc::Global;
use std::sync::Wait;
use std::test::Fail;

// promise: Turn::starting, Turn::served: the count begins with the first ticket
/// A turn has served the tickets that it began with.
fn serves_what_it_began_with(alloc: Global, first: u64) -> Result<bool, Fault>
    ensures { IfOk result (λ is_served. is_served ≡ true) }
{
    let machine = Counter { count: 0 };
    let (turn, mut seat) = Turn::starting(alloc, machine, first).map_err(|(fault, _)| fault)?;
    Ok(first <= turn.served(&mut seat))
}

// promise: Turn::served: the seat has seen all turns that ended
/// And one more for each call that its seat has seen, and no other.
fn serves_what_was_seen(turn: &Turn<Counter>, seat: &mut TurnSeat<Counter>) -> u64
    requires { IsSeatOf turn.now seat.old }
    ensures seat { IsSeatOf turn.now seat.new }
    ensures count { result ≡ (view seat.new).first + length (view seat.new).seen }
{
    turn.served(seat)
}

// promise: Turn::try_call, Turn::served: a call that was made is counted
/// A call that was made is served.
fn serves_what_was_called(
    turn: &Turn<Counter>,
    seat: &mut TurnSeat<Counter>,
) -> Result<bool, TurnFault<u64>>
    requires { IsSeatOf turn.now seat.old }
    ensures seat { IsSeatOf turn.now seat.new }
    ensures more { IfOk result (λ is_more. is_more ≡ true) }
{
    let before = turn.served(seat);
    turn.try_call(seat, 1)?;
    Ok(before < turn.served(seat))
}

// promise: Turn::try_call, Turn::starting: none behind the last ticket
/// No call is made behind the last ticket.
fn makes_no_call_behind_the_last_ticket(alloc: Global) -> Result<bool, Fault>
    ensures { IfOk result (λ is_made. is_made ≡ false) }
{
    let machine = Counter { count: 0 };
    let (turn, mut seat) = Turn::starting(alloc, machine, u64::MAX).map_err(|(fault, _)| fault)?;
    let is_made = turn.try_call(&mut seat, 1).is_ok();
    turn.served(&mut seat);
    Ok(is_made)
}

// promise: Turn::call: refused only where the last ticket was drawn
/// A call that waits is made, or the last ticket was drawn.
fn calls_in_time<W: Wait>(rt: &W, turn: &Turn<Counter>, seat: &mut TurnSeat<Counter>) -> bool
    requires { IsSeatOf turn.now seat.old }
    ensures seat { IsSeatOf turn.now seat.new }
    ensures spent { IsFalse result → (view seat.new).drawn ≡ 2 ^ 64 - 1 }
{
    turn.call(rt, seat, 1).is_ok()
}

// promise: Turn::try_call: Spent only where the last ticket was drawn
/// A try for which no ticket was left knows that the last one was drawn.
fn tries_in_vain(turn: &Turn<Counter>, seat: &mut TurnSeat<Counter>) -> bool
    requires { IsSeatOf turn.now seat.old }
    ensures seat { IsSeatOf turn.now seat.new }
    ensures spent { IsTrue result → (view seat.new).drawn ≡ 2 ^ 64 - 1 }
{
    match turn.try_call(seat, 1) {
        Err(TurnFault::Spent(_)) => true,
        _ => false,
    }
}

// promise: Turn::try_call: not Busy where no ticket but the last is left
/// With one ticket left a try is not busy: no turn is open, or the last ticket was drawn.
fn is_busy_at_the_last_ticket(turn: &Turn<Counter>, seat: &mut TurnSeat<Counter>) -> bool
    requires seat { IsSeatOf turn.now seat.old }
    requires last { (view seat.old).first ≡ 2 ^ 64 - 2 }
    ensures seat { IsSeatOf turn.now seat.new × (view seat.new).first ≡ (view seat.old).first }
    ensures not { result ≡ false }
{
    match turn.try_call(seat, 1) {
        Err(TurnFault::Busy(_)) => true,
        _ => false,
    }
}

// promise: Turn::join: the seat that is taken in has another number
/// Two seats of one turn have two numbers.
fn joins_another_number(
    turn: &Turn<Counter>,
    seat: &mut TurnSeat<Counter>,
    other: TurnSeat<Counter>,
)
    requires { IsSeatOf turn.now seat.old × IsSeatOf turn.now other }
    ensures seat { IsSeatOf turn.now seat.new × (view seat.new).first ≡ (view seat.old).first }
    ensures two { (view seat.new).number ≢ (view other).number }
{
    turn.join(seat, other);
}

// promise: Turn::split, Turn::join: the other's one call stands under its own number
/// Who takes in a seat that made one call has that as the only one of the other, which has a number of its own.
fn takes_in_the_one_call(turn: &Turn<Counter>, seat: &mut TurnSeat<Counter>) -> bool
    requires { IsSeatOf turn.now seat.old }
    ensures seat { IsSeatOf turn.now seat.new }
    ensures one { IsTrue result → (n r : ℕ) × (view seat.new).number < n
        × calls_by n (view seat.new).seen ≡ entry n 5 r ∷ [] }
{
    let mut other = turn.split(seat);
    let is_made = turn.try_call(&mut other, 5).is_ok();
    turn.join(seat, other);
    is_made
}

#[test]
fn a_turn_counts_what_is_called(rt: HostRuntime) -> Result<(), Fail> {
    let alloc = rt.alloc();
    let (turn, mut seat) = count_from(alloc, 5)?;
    assert!(rt; serves_what_it_began_with(alloc, 5) == Ok(true));
    assert!(rt; serves_what_was_seen(&turn, &mut seat) == 5);
    assert!(rt; serves_what_was_called(&turn, &mut seat) == Ok(true));
    assert!(rt; calls_in_time(&rt, &turn, &mut seat));
    assert!(rt; takes_in_the_one_call(&turn, &mut seat));
    Ok(())
}

#[test]
fn a_turn_is_spent_behind_the_last_ticket(rt: HostRuntime) -> Result<(), Fail> {
    let alloc = rt.alloc();
    let (turn, mut seat) = count_from(alloc, u64::MAX - 1)?;
    let other = turn.split(&mut seat);
    joins_another_number(&turn, &mut seat, other);
    assert!(rt; !is_busy_at_the_last_ticket(&turn, &mut seat));
    // The last ticket is drawn now.
    assert!(rt; !is_busy_at_the_last_ticket(&turn, &mut seat));
    assert!(rt; tries_in_vain(&turn, &mut seat));
    assert!(rt; makes_no_call_behind_the_last_ticket(alloc) == Ok(false));
    Ok(())
}
