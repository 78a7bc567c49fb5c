//! Turns of two threads.

ghost use Rattle.std.specs.Prelude.{IfOk};
ghost use Rattle.ref_turn.specs.Turns.{IsSeatOf};

use super::count_from;
use super::counter::Counter;
use super::gated::{Gate, Gated};
use ref_base::Fault;
use ref_turn::{Turn, TurnFault, TurnSeat};
use std::alloc::Global;
use std::process::Abort;
use std::sync::{Arc, Wait};
use std::test::Fail;
use std::thread;
use std::thread::Threads;

/// Adds 1 so many times.
fn add_often<R: Wait + Abort>(
    rt: &R,
    turn: &Turn<Counter>,
    mut seat: TurnSeat<Counter>,
    times: u32,
) -> TurnSeat<Counter>
    requires { IsSeatOf turn.now seat }
    ensures { IsSeatOf turn.now result }
{
    for _ in 0..times {
        assert!(rt; turn.call(rt, &mut seat, 1).is_ok());
    }
    seat
}

#[test]
fn two_threads_add_each_once(rt: HostRuntime) -> Result<(), Fail> {
    let (made, mut left) = count_from(rt.alloc(), 0)?;
    let turn = &made;
    let right = turn.split(&mut left);
    let (mut seat, other) = thread::join(
        &rt,
        ||
            requires { IsSeatOf turn.now left }
            ensures { IsSeatOf turn.entry.now result }
        { add_often(&rt, turn, left, 10_000) },
        ||
            requires { IsSeatOf turn.now right }
            ensures { IsSeatOf turn.entry.now result }
        { add_often(&rt, turn, right, 10_000) },
    );
    turn.join(&mut seat, other);
    assert!(rt; turn.served(&mut seat) == 20_000);
    assert!(rt; made.finish(seat) == Ok(Counter { count: 20_000 }));
    Ok(())
}

/// A machine at the gate, behind a turn with this first ticket.
fn at_a_gate(
    alloc: Global,
    gate: Arc<Gate, Global>,
    first: u64,
) -> Result<(Turn<Gated>, TurnSeat<Gated>), Fault>
    ensures { IfOk result (λ t. IsSeatOf t.0 t.1) }
{
    Turn::starting(alloc, Gated { gate, steps: 0 }, first).map_err(|(fault, _)| fault)
}

/// A step that waits at the gate, and then the machine is free.
fn hold(turn: &Turn<Gated>, mut seat: TurnSeat<Gated>) -> Result<u64, TurnFault<u64>>
    requires { IsSeatOf turn.now seat }
{
    turn.try_call(&mut seat, 1_000_000)
}

/// Tries a step while another is at the gate, and then opens it.
fn knock(
    gate: &Gate,
    turn: &Turn<Gated>,
    mut seat: TurnSeat<Gated>,
) -> (bool, Result<u64, TurnFault<u64>>)
    requires { IsSeatOf turn.now seat }
{
    let is_reached = gate.is_reached();
    let tried = turn.try_call(&mut seat, 9);
    gate.open();
    (is_reached, tried)
}

/// What a try is told while another thread's step, for the first ticket, is at the gate.
fn tried_meanwhile<R: Threads + Wait + Abort + Sync>(
    rt: &R,
    alloc: Global,
    first: u64,
) -> Result<Result<u64, TurnFault<u64>>, Fail> {
    let gate = Arc::new(alloc, Gate::new())?;
    let (made, mut left) = at_a_gate(alloc, Arc::try_clone(&gate)?, first)?;
    let turn = &made;
    let right = turn.split(&mut left);
    let (held, (is_reached, tried)) = thread::join(
        rt,
        ||
            requires { IsSeatOf turn.now left }
        { hold(turn, left) },
        ||
            requires { IsSeatOf turn.now right }
        { knock(&gate, turn, right) },
    );
    assert!(rt; held == Ok(0));
    assert!(rt; is_reached, "the step was at the gate");
    Ok(tried)
}

#[test]
fn a_try_is_busy_or_spent_while_another_step_is_at_the_gate(rt: HostRuntime) -> Result<(), Fail> {
    assert!(rt; tried_meanwhile(&rt, rt.alloc(), 0)? == Err(TurnFault::Busy(9)));
    assert!(rt; tried_meanwhile(&rt, rt.alloc(), u64::MAX - 1)? == Err(TurnFault::Spent(9)));
    Ok(())
}

/// A step that is long at the gate, which nobody opens.
fn hold_long<R: Wait>(
    rt: &R,
    turn: &Turn<Gated>,
    mut seat: TurnSeat<Gated>,
) -> Result<u64, TurnFault<u64>>
    requires { IsSeatOf turn.now seat }
{
    turn.call(rt, &mut seat, 100_000)
}

/// Waits behind a step at the gate.
fn queue_up<R: Wait>(
    rt: &R,
    gate: &Gate,
    turn: &Turn<Gated>,
    mut seat: TurnSeat<Gated>,
) -> (bool, Result<u64, TurnFault<u64>>)
    requires { IsSeatOf turn.now seat }
{
    let is_reached = gate.is_reached();
    (is_reached, turn.call(rt, &mut seat, 0))
}

#[test]
fn a_call_sleeps_behind_a_long_turn_and_wakes(rt: HostRuntime) -> Result<(), Fail> {
    let gate = Arc::new(rt.alloc(), Gate::new())?;
    let (made, mut left) = at_a_gate(rt.alloc(), Arc::try_clone(&gate)?, 0)?;
    let turn = &made;
    let right = turn.split(&mut left);
    let (held, next) = thread::join(
        &rt,
        ||
            requires { IsSeatOf turn.now left }
        { hold_long(&rt, turn, left) },
        ||
            requires { IsSeatOf turn.now right }
        { queue_up(&rt, &gate, turn, right) },
    );
    assert!(rt; held == Ok(0));
    assert!(rt; next == (true, Ok(1)));
    Ok(())
}
