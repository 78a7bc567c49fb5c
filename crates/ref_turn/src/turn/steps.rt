//! The parts of a call: taking the turn, running the machine, ending the turn.

ghost use Rattle.std.specs.Prelude.{◌≡◌, ◌⊎◌, ℕ, ◌-◌, ◌^◌, [], ◌++◌, ◌∷◌, Some, IfOk, IfErr, IsTrue, IsFalse};
ghost use Rattle.ref_turn.specs.declared.turn.TurnFault.TheVariants.{Busy, Spent};
ghost use Rattle.ref_turn.specs.History.{Reaches};
ghost use Rattle.ref_turn.specs.Seats.{entry, Longer, Extends, IsHistory, SawBusy};
ghost use Rattle.ref_turn.specs.Turns.{IsSamePlace, IsPlaceOf, IsIdle, HoldsMachine, HoldsTurn};

use super::plays::{Add, Draw, Grab, Look, Said};
use super::waiting::{ROUNDS_AWAKE, stay_awake};
use super::{MACHINE, Place, SERVED, TICKETS, Turn, TurnFault};
use crate::machine::Machine;
use std::alloc::Allocator;
use std::marker::Brand;
use std::snapshot::Snapshot;
use std::sync::Wait;

impl<M: Machine, A: Allocator> Turn<M, A> {
    // Takes the turn where none is open and a ticket is left. The ended turns are looked at first: so where more
    // tickets are drawn than were seen to have ended, a turn was open in between.
    #[inline(always)]
    pub(super) fn enter(&self, place: &mut Place<M>) -> Result<(), TurnFault<()>>
        requires place { IsPlaceOf self.now place.old }
        requires idle { IsIdle place.old.me }
        ensures place { IsSamePlace place.old place.new }
        ensures longer { Longer place.old.me.0 place.new.me.0 }
        ensures history { IsHistory M.stands_for M.steps_to place.new.me.0 }
        ensures ok { IfOk result (λ _. HoldsTurn M.stands_for M.steps_to place.new.me) }
        ensures idle { IfErr result (λ _. IsIdle place.new.me) }
        ensures err { IfErr result (λ e. (e ≡ Busy tt × SawBusy place.old.me.0 place.new.me.0)
            ⊎ (e ≡ Spent tt × place.new.me.0.drawn ≡ 2 ^ 64 - 1)) }
    {
        let words = &self.table.shared;
        let served = words.load::<Look<M>>(place, SERVED);
        let tickets = words.load::<Draw>(place, TICKETS);
        if tickets == u64::MAX {
            return Err(TurnFault::Spent(()));
        }
        if tickets != served {
            return Err(TurnFault::Busy(()));
        }
        let found = words.compare_exchange::<Grab<M>>(place, TICKETS, tickets, tickets + 1);
        if found == tickets {
            return Ok(());
        }
        if found == u64::MAX {
            return Err(TurnFault::Spent(()));
        }
        Err(TurnFault::Busy(()))
    }

    // Waits until no other turn is open, and takes the turn. Returns false where no ticket is left.
    #[inline(always)]
    pub(super) fn wait_turn<W: Wait>(&self, rt: &W, place: &mut Place<M>) -> bool
        requires place { IsPlaceOf self.now place.old }
        requires idle { IsIdle place.old.me }
        ensures place { IsSamePlace place.old place.new }
        ensures longer { Longer place.old.me.0 place.new.me.0 }
        ensures history { IsHistory M.stands_for M.steps_to place.new.me.0 }
        ensures taken { IsTrue result → HoldsTurn M.stands_for M.steps_to place.new.me }
        ensures spent { IsFalse result → IsIdle place.new.me × (place.new.me.0.drawn ≡ 2 ^ 64 - 1) }
    {
        let mut round = 0;
        for _ in rt.forever() {
            match self.enter(place) {
                Ok(()) => return true,
                Err(TurnFault::Spent(())) => return false,
                Err(TurnFault::Busy(())) if round < ROUNDS_AWAKE => {
                    stay_awake(round);
                    round += 1;
                }
                Err(TurnFault::Busy(())) => {
                    self.sleep(rt);
                    round = 0;
                }
            }
        }
        unreachable!()
    }

    // Runs the machine in the turn that the seat holds, and ends the turn.
    #[inline(always)]
    pub(super) fn run(&self, place: &mut Place<M>, step: M::Step) -> M::Reply
        requires place { IsPlaceOf self.now place.old }
        requires turn { HoldsTurn M.stands_for M.steps_to place.old.me }
        ensures place { IsSamePlace place.old place.new }
        ensures idle { IsIdle place.new.me }
        ensures extends { Extends place.old.me.0 (entry place.old.me.0.number step result) place.new.me.0 }
        ensures history { IsHistory M.stands_for M.steps_to place.new.me.0 }
        ensures acted { (m n : M) × M.acts m step result n }
    {
        let asked = Snapshot::of(&step);
        let reply = match place.slot_mut(&self.table.shared, MACHINE) {
            Some(machine) => machine.apply(step),
            None => unreachable!(),
        };
        self.append::<Brand>(place, &asked, &reply);
        self.wake_next();
        reply
    }

    // Ends the turn with this entry.
    fn append<W: Said<M::Step, M::Reply>>(
        &self,
        place: &mut Place<M>,
        asked: &Snapshot<M::Step>,
        reply: &M::Reply,
    )
        requires place { IsPlaceOf self.now place.old }
        requires said { W.entry ≡ Some (entry place.old.me.0.number asked.now.value reply.now) }
        requires turn { (m : M) × HoldsMachine place.old.me m
            × Reaches M.stands_for M.steps_to place.old.me.0.start
            (place.old.me.0.seen ++ entry place.old.me.0.number asked.now.value reply.now ∷ []) m }
        ensures place { IsSamePlace place.old place.new }
        ensures idle { IsIdle place.new.me }
        ensures extends { Extends place.old.me.0
            (entry place.old.me.0.number asked.now.value reply.now) place.new.me.0 }
        ensures seen { place.new.me.0.seen
            ≡ place.old.me.0.seen ++ entry place.old.me.0.number asked.now.value reply.now ∷ [] }
    {
        self.table.shared.fetch_add::<Add<W>>(place, SERVED, 1);
    }

    // Sleeps while a turn is open, until one ends. No wake-up is lost: this raises the count and then looks at the
    // words, who ends a turn adds to the first word and then looks at the count. So either the sleep sees the change
    // (it compares the low 32 bits of the word, which are the same again only after 2^32 turns), or who ends the turn
    // sees the sleeper. A woken call that finds the turn taken sleeps anew, and whoever then ends it wakes the next.
    #[cold]
    #[inline(never)]
    fn sleep<W: Wait>(&self, rt: &W) {
        self.sleepers.enter();
        let words = &self.table.shared;
        let served = words.peek(SERVED);
        if words.peek(TICKETS) != served {
            words.park(rt, SERVED, (served & 0xffff_ffff) as u32);
        }
        self.sleepers.leave();
    }

    // After a turn: one of those that sleep goes on. Also after a call that found no ticket left, which may have been
    // woken in the place of another.
    pub(super) fn wake_next(&self) {
        if self.sleepers.any() {
            self.table.shared.wake_one(SERVED);
        }
    }
}
