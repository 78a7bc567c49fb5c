//! The public calls of a turn.

ghost use Rattle.std.specs.Prelude.{◌≡◌, ◌≢◌, ◌⊎◌, ◌+◌, ◌-◌, ◌^◌, length, IfOk, IfErr};
ghost use Rattle.ref_base.specs.declared.fault.Fault.TheVariants.{NoMemory};
ghost use Rattle.ref_turn.specs.declared.turn.TurnFault.TheVariants.{Busy, Spent};
ghost use Rattle.ref_turn.specs.History.{calls_by, StartsWith};
ghost use Rattle.ref_turn.specs.Seats.{entry, Longer, Extends, IsHistory, SawBusy, Begins, IsFirst, EndsAs};
ghost use Rattle.ref_turn.specs.Seats.{IsLeftOpen};
ghost use Rattle.ref_turn.specs.Turns.{view, IsBeside, IsSeatOf};

use super::plays::{Cut, Look, Name, TakeIn};
use super::waiting::Sleepers;
use super::{MACHINE, SERVED, SeatOf, TICKETS, Turn, TurnFault, TurnSeat};
use crate::history::Origin;
use crate::machine::Machine;
use atomic_table::{Refused, Table};
use ref_base::Fault;
use std::alloc::{AllocFailed, Allocator};
use std::snapshot::Snapshot;
use std::sync::Wait;

impl<M: Machine, A: Allocator + Copy> Turn<M, A> {
    /// A turn over the machine, and its first seat. The first ticket is 0.
    ///
    /// `NoMemory` where a growth is refused: then the machine comes back.
    pub fn new(alloc: A, machine: M) -> Result<(Turn<M, A>, TurnSeat<M>), (Fault, M)>
        ensures ok { IfOk result (λ t. IsSeatOf t.0 t.1 × IsFirst 0 machine (view t.1)) }
        ensures err { IfErr result (λ e. e ≡ (NoMemory, machine)) }
    {
        Turn::starting(alloc, machine, 0)
    }

    /// A turn over the machine, and its first seat. The first ticket is `first`, so that `u64::MAX - first` tickets are
    /// left.
    ///
    /// `NoMemory` where a growth is refused: then the machine comes back.
    pub fn starting(
        alloc: A,
        machine: M,
        first: u64,
    ) -> Result<(Turn<M, A>, TurnSeat<M>), (Fault, M)>
        ensures ok { IfOk result (λ t. IsSeatOf t.0 t.1 × IsFirst first machine (view t.1)) }
        ensures err { IfErr result (λ e. e ≡ (NoMemory, machine)) }
    {
        let slot = Some(machine);
        let origin = Origin {
            first,
            start: Snapshot::of(&slot),
        };
        let mut slots = Vec::new(alloc);
        if let Err(AllocFailed { value }) = slots.push(slot) {
            slots.destroy_empty();
            return Err((Fault::NoMemory, value.unwrap()));
        }
        match Table::new(alloc, &[first, first], slots, &origin) {
            Ok((table, place)) => {
                let sleepers = Sleepers::new();
                Ok((Turn { table, sleepers }, SeatOf { place }))
            }
            Err(Refused { mut slots }) => {
                let slot = slots.pop().unwrap();
                slots.destroy_empty();
                Err((Fault::NoMemory, slot.unwrap()))
            }
        }
    }
}

impl<M: Machine, A: Allocator> Turn<M, A> {
    /// Waits for the turn, makes the step, ends the turn, and answers the machine's reply. The seat has to be of this
    /// turn, here and below. Takes no memory but what the step takes.
    ///
    /// `Spent` where no ticket is left, and never `Busy`: then nothing happened, and the step comes back.
    #[inline(always)]
    pub fn call<W: Wait>(
        &self,
        rt: &W,
        seat: &mut TurnSeat<M>,
        step: M::Step,
    ) -> Result<M::Reply, TurnFault<M::Step>>
        requires { IsSeatOf self.now seat.old }
        ensures turn { IsBeside seat.old seat.new }
        ensures ok { IfOk result (λ r.
            Extends (view seat.old) (entry (view seat.old).number step r) (view seat.new)) }
        ensures history { IsHistory M.stands_for M.steps_to (view seat.new) }
        ensures acted { IfOk result (λ r. (m n : M) × M.acts m step r n) }
        ensures longer { IfErr result (λ _. Longer (view seat.old) (view seat.new)) }
        ensures err { IfErr result (λ e. (e ≡ Spent step) × ((view seat.new).drawn ≡ 2 ^ 64 - 1)) }
    {
        if self.wait_turn(rt, &mut seat.place) {
            return Ok(self.run(&mut seat.place, step));
        }
        self.wake_next();
        Err(TurnFault::Spent(step))
    }

    /// Makes the step and ends the turn, where no other turn is open, and returns the machine's reply. Never waits.
    /// Takes no memory but what the step takes.
    ///
    /// `Busy` where another turn was open at some moment of the call, `Spent` where no ticket is left: then nothing
    /// happened, and the step comes back.
    pub fn try_call(
        &self,
        seat: &mut TurnSeat<M>,
        step: M::Step,
    ) -> Result<M::Reply, TurnFault<M::Step>>
        requires { IsSeatOf self.now seat.old }
        ensures turn { IsBeside seat.old seat.new }
        ensures ok { IfOk result (λ r.
            Extends (view seat.old) (entry (view seat.old).number step r) (view seat.new)) }
        ensures history { IsHistory M.stands_for M.steps_to (view seat.new) }
        ensures acted { IfOk result (λ r. (m n : M) × M.acts m step r n) }
        ensures longer { IfErr result (λ _. Longer (view seat.old) (view seat.new)) }
        ensures err { IfErr result (λ e. (e ≡ Busy step × SawBusy (view seat.old) (view seat.new))
            ⊎ (e ≡ Spent step × (view seat.new).drawn ≡ 2 ^ 64 - 1)) }
    {
        match self.enter(&mut seat.place) {
            Ok(()) => Ok(self.run(&mut seat.place, step)),
            Err(TurnFault::Busy(())) => Err(TurnFault::Busy(step)),
            Err(TurnFault::Spent(())) => Err(TurnFault::Spent(step)),
        }
    }

    /// The first ticket plus the number of turns that have ended. The seat has seen all of them. Takes no memory.
    pub fn served(&self, seat: &mut TurnSeat<M>) -> u64
        requires { IsSeatOf self.now seat.old }
        ensures turn { IsBeside seat.old seat.new }
        ensures longer { Longer (view seat.old) (view seat.new) }
        ensures history { IsHistory M.stands_for M.steps_to (view seat.new) }
        ensures count { result ≡ (view seat.new).first + length (view seat.new).seen }
    {
        self.table.shared.load::<Look<M>>(&mut seat.place, SERVED)
    }

    /// A new seat, for another thread. It has seen what this one has, under a number of its own, and made no call.
    /// Takes no memory.
    pub fn split(&self, seat: &mut TurnSeat<M>) -> TurnSeat<M>
        requires { IsSeatOf self.now seat.old }
        ensures turn { IsBeside seat.old seat.new × IsSeatOf self.now result }
        ensures same { view seat.new ≡ view seat.old }
        ensures new { Begins (view seat.old) (view result) }
    {
        let words = &self.table.shared;
        let mut place = words.split_seat::<Cut>(&mut seat.place);
        words.load::<Name>(&mut place, TICKETS);
        SeatOf { place }
    }

    /// Takes in another seat: this one has then seen what either had. The two had two numbers, so that no entry is of
    /// both. Takes no memory.
    pub fn join(&self, seat: &mut TurnSeat<M>, other: TurnSeat<M>)
        requires { IsSeatOf self.now seat.old × IsSeatOf self.now other }
        ensures turn { IsBeside seat.old seat.new }
        ensures longer { Longer (view seat.old) (view seat.new) }
        ensures history { IsHistory M.stands_for M.steps_to (view seat.new) }
        ensures other { StartsWith (view seat.new).seen (view other).seen
            × (calls_by (view other).number (view seat.new).seen ≡ (view other).mine) }
        ensures two { (view other).number ≢ (view seat.old).number }
    {
        let words = &self.table.shared;
        words.join_seat::<TakeIn>(&mut seat.place, other.into_place());
        words.load::<Look<M>>(&mut seat.place, SERVED);
    }

    /// Ends it all, and gives the machine back. Takes no memory.
    ///
    /// `Err` only where a turn is open, with whatever the slot held: a thread that stopped within its turn left it so.
    pub fn finish(self, seat: TurnSeat<M>) -> Result<M, Option<M>>
        requires { IsSeatOf self seat }
        ensures ok { IfOk result (λ m. EndsAs M.stands_for M.steps_to (view seat) m) }
        ensures err { IfErr result (λ _. IsLeftOpen M.stands_for M.steps_to (view seat)) }
    {
        let Turn { table, .. } = self;
        let mut closed = table.close_with(seat.into_place());
        let is_open = closed.word(SERVED) != closed.word(TICKETS);
        let slot = closed.take(MACHINE);
        closed.free();
        if is_open {
            return Err(slot);
        }
        Ok(slot.unwrap())
    }
}
