//! Turns over two small machines.

ghost use Rattle.std.specs.Prelude.{◌≡◌, IfOk};
ghost use Rattle.ref_turn.specs.Turns.{view, IsSeatOf};

use counter::Counter;
use ref_base::Fault;
use ref_turn::{Turn, TurnSeat};
use std::alloc::Global;

pub mod counter;
pub mod gated;
mod memory;
mod stories;
mod threads;

/// The turn of a counter at 0, with this first ticket.
pub fn count_from(alloc: Global, first: u64) -> Result<(Turn<Counter>, TurnSeat<Counter>), Fault>
    ensures { IfOk result (λ t. IsSeatOf t.0 t.1 × (view t.1).first ≡ first) }
{
    Turn::starting(alloc, Counter { count: 0 }, first).map_err(|(fault, _)| fault)
}
