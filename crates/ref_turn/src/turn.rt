//! The turn and its seats.

ghost use Rattle.std.specs.Prelude.{◌≡◌, []};
ghost use Rattle.ref_turn.specs.declared.history.Stage.TheVariants.{Idle};

use crate::history::{Origin, View};
use crate::machine::Machine;
use crate::turn::waiting::Sleepers;
use atomic_table::{Seat, Table, TableRule};
use std::alloc::{Allocator, Global};
use std::marker::PhantomData;

mod calls;
mod plays;
mod steps;
mod waiting;

// Indexes of the table's words. The first counts the turns that have ended, the second the tickets that were drawn.
const SERVED: usize = 0;

const TICKETS: usize = 1;

// Index of the table's slot, which has the machine.
const MACHINE: usize = 0;

/// The rule of a turn's table: its words, its machine and its seats fit one history.
pub struct Law<M> {
    machine: PhantomData<M>,
}

impl<M: Machine> TableRule<Option<M>, View<M, M::Step, M::Reply>, Origin<M>> for Law<M> {
    ghost use Rattle.ref_turn.specs.Rule.{Turned, first_view};

    ghost holds = { Turned M.stands_for M.steps_to };

    ghost first = { first_view };
}

/// A machine that threads share, one turn at a time.
#[derive(Drop)]
pub struct Turn<M: Machine, A: Allocator = Global> {
    table: Table<Option<M>, View<M, M::Step, M::Reply>, Origin<M>, Law<M>, A>,
    sleepers: Sleepers,
    ghost sized: { (table.shared.table_id.words ≡ 2) × (table.shared.table_id.slots ≡ 1) },
}

type Place<M> = Seat<Option<M>, View<M, <M as Machine>::Step, <M as Machine>::Reply>>;

/// What one thread uses a turn with. It has no bytes, and holds no turn between two calls.
pub struct SeatOf<M, S, R> {
    place: Seat<Option<M>, View<M, S, R>>,
    ghost between: { (place.me.0.stage ≡ Idle) × (place.me.1 ≡ []) },
}

/// The seat of a turn over this machine.
pub type TurnSeat<M> = SeatOf<M, <M as Machine>::Step, <M as Machine>::Reply>;

/// Why a call made no turn. The step comes back.
#[derive(Debug, Drop, PartialEq, Eq)]
pub enum TurnFault<S> {
    /// Another turn was open.
    Busy(S),
    /// No ticket is left.
    Spent(S),
}

impl<M, S, R> SeatOf<M, S, R> {
    fn into_place(self) -> Seat<Option<M>, View<M, S, R>>
        ensures { result ≡ self.place }
    {
        let SeatOf { place } = self;
        place
    }
}

impl<M, S, R> Drop for SeatOf<M, S, R> {
    fn drop(self) {
        let SeatOf { place } = self;
        drop(place);
    }
}
