//! What threads share: a machine in turns, which began in a known state.

ghost use Rattle.std.specs.Prelude.{◌≡◌, ◌+◌, length, IfOk, IfErr};
ghost use Rattle.ref_turn.specs.Seats.{Longer, Begins, IsLeftOpen};
ghost use Rattle.ref_turn.specs.Turns.{view};
ghost use Rattle.ref_turn.specs.declared.turn.TurnFault.TheVariants.{Spent};
ghost use Rattle.ref_share.specs.SeatCalls.{Called, RanOut, IsTryFault, TookIn};
ghost use Rattle.ref_share.specs.SharedSeats.{IsSeatIn};
ghost use Rattle.ref_share.specs.StartedSeats.{IsLeftFrom};

use ref_turn::{Machine, Turn, TurnFault, TurnSeat};
use std::alloc::{Allocator, Global};
use std::sync::Wait;

/// A machine that threads share: each call is one turn, one step of the machine.
#[derive(Drop)]
pub struct Shared<M: Machine, A: Allocator + Copy = Global> {
    pub(crate) turn: Turn<M, A>,
    pub(crate) frame: M::Frame,
}

/// What one thread uses it with: a few bytes, with the number of the heap or the queue.
#[derive(Drop)]
pub struct SeatFor<M: Machine> {
    pub(crate) seat: TurnSeat<M>,
    pub(crate) number: u64,
}

impl<M: Machine, A: Allocator + Copy> Shared<M, A> {
    // Does one step, once the turn is free.
    #[inline(always)]
    pub(crate) fn step<R: Wait>(
        &self,
        rt: &R,
        seat: &mut SeatFor<M>,
        step: M::Step,
    ) -> Result<M::Reply, TurnFault<M::Step>>
        requires { IsSeatIn M.stands_for M.steps_to M.first_state self.now seat.old }
        ensures seat { IsSeatIn M.stands_for M.steps_to M.first_state self.now seat.new }
        ensures ok { IfOk result (λ reply. Called (view seat.old.seat) step reply (view seat.new.seat)) }
        ensures acted { IfOk result (λ reply. (m n : M) × M.acts m step reply n) }
        ensures err { IfErr result (λ fault. (fault ≡ Spent step)
            × RanOut (view seat.old.seat) (view seat.new.seat)) }
    {
        self.turn.call(rt, &mut seat.seat, step)
    }

    // Does one step if the turn is free, and else nothing. Never waits.
    pub(crate) fn try_step(
        &self,
        seat: &mut SeatFor<M>,
        step: M::Step,
    ) -> Result<M::Reply, TurnFault<M::Step>>
        requires { IsSeatIn M.stands_for M.steps_to M.first_state self.now seat.old }
        ensures seat { IsSeatIn M.stands_for M.steps_to M.first_state self.now seat.new }
        ensures ok { IfOk result (λ reply. Called (view seat.old.seat) step reply (view seat.new.seat)) }
        ensures acted { IfOk result (λ reply. (m n : M) × M.acts m step reply n) }
        ensures err { IfErr result (λ fault. IsTryFault (view seat.old.seat) step fault (view seat.new.seat)) }
    {
        self.turn.try_call(&mut seat.seat, step)
    }

    /// How many turns have ended, and the first ticket with them.
    pub fn served(&self, seat: &mut SeatFor<M>) -> u64
        requires { IsSeatIn M.stands_for M.steps_to M.first_state self.now seat.old }
        ensures seat { IsSeatIn M.stands_for M.steps_to M.first_state self.now seat.new }
        ensures longer { Longer (view seat.old.seat) (view seat.new.seat) }
        ensures count { result ≡ (view seat.new.seat).first + length (view seat.new.seat).seen }
    {
        self.turn.served(&mut seat.seat)
    }

    /// A seat for one thread more. It has seen what this one has.
    pub fn split(&self, seat: &mut SeatFor<M>) -> SeatFor<M>
        requires { IsSeatIn M.stands_for M.steps_to M.first_state self.now seat.old }
        ensures seat { IsSeatIn M.stands_for M.steps_to M.first_state self.now seat.new
            × IsSeatIn M.stands_for M.steps_to M.first_state self.now result }
        ensures same { view seat.new.seat ≡ view seat.old.seat }
        ensures begins { Begins (view seat.old.seat) (view result.seat) }
    {
        SeatFor {
            seat: self.turn.split(&mut seat.seat),
            number: seat.number,
        }
    }

    /// Takes a seat in: this one has then seen what either had.
    pub fn join(&self, seat: &mut SeatFor<M>, other: SeatFor<M>)
        requires { IsSeatIn M.stands_for M.steps_to M.first_state self.now seat.old
            × IsSeatIn M.stands_for M.steps_to M.first_state self.now other }
        ensures seat { IsSeatIn M.stands_for M.steps_to M.first_state self.now seat.new }
        ensures joined { TookIn (view seat.old.seat) (view other.seat) (view seat.new.seat) }
    {
        self.turn.join(&mut seat.seat, other.into_seat())
    }

    // Ends it, and gives the machine back. Where a turn is open, what its slot held comes back.
    pub(crate) fn end(self, seat: SeatFor<M>) -> Result<M, Option<M>>
        requires { IsSeatIn M.stands_for M.steps_to M.first_state self seat }
        ensures ok { IfOk result (λ machine.
            IsLeftFrom M.stands_for M.steps_to (M.first_state self.frame) (view seat.seat) machine) }
        ensures err { IfErr result (λ _. IsLeftOpen M.stands_for M.steps_to (view seat.seat)) }
    {
        let Shared { turn, frame: _ } = self;
        turn.finish(seat.into_seat())
    }
}

impl<M: Machine> SeatFor<M> {
    fn into_seat(self) -> TurnSeat<M>
        ensures { result ≡ self.seat }
    {
        let SeatFor { seat, number: _ } = self;
        seat
    }
}
