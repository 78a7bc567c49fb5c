//! Rows of moves, which say nothing of where objects lie.

ghost use Rattle.std.specs.Prelude.{None};
ghost use Rattle.ref_base.specs.Refusals.{is_in, unless, select_refusal};
ghost use Rattle.ref_objects.specs.Grounds.{IsRefused};
ghost use Rattle.ref_judge.specs.Standing.{TellsOf};

use super::{Judge, is_legal, is_refused};
use crate::stop::Stop;
use ref_base::{Fault, Phase, PlainStep, Reply, Step, WorkerNo};
use std::alloc::Allocator;

impl<A: Allocator + Copy> Judge<A> {
    // Objects are chosen, any number of them, or there is no room or address.
    pub(super) fn select(&mut self, reply: Reply) -> Result<(), Stop>
        ensures { TellsOf self.old (record { step = Step.Plain PlainStep.Select; reply = reply }) result self.new }
    {
        if let Err(fault) = self.check_select() {
            return is_refused(fault, reply);
        }
        match reply {
            Reply::Selected(_) => {
                self.phase = Phase::Moving;
                self.was_chosen = true;
                Ok(())
            }
            Reply::Refused(fault) => match fault {
                Fault::NoRoom | Fault::AddressesSpent => Ok(()),
                _ => Err(Stop::Illegal),
            },
            _ => Err(Stop::Illegal),
        }
    }

    // An object that is there moves, or none is left to.
    pub(super) fn move_next(&mut self, worker: WorkerNo, reply: Reply) -> Result<(), Stop>
        ensures { TellsOf self.old (record { step = Step.Plain (PlainStep.MoveNext worker); reply = reply }) result
            self.new }
    {
        if let Err(fault) = self.check_work(worker, Phase::Moving) {
            return is_refused(fault, reply);
        }
        match reply {
            Reply::Moved(no) => is_legal(self.objects.has_object(no)),
            Reply::Nothing => Ok(()),
            _ => Err(Stop::Illegal),
        }
    }

    // Moves end, or an object is left to move.
    pub(super) fn end_move(&mut self, reply: Reply) -> Result<(), Stop>
        ensures { TellsOf self.old (record { step = Step.Plain PlainStep.EndMove; reply = reply }) result self.new }
    {
        if let Err(fault) = self.check_phase(Phase::Moving) {
            return is_refused(fault, reply);
        }
        match reply {
            Reply::Done => {
                self.phase = Phase::Idle;
                Ok(())
            }
            _ => is_refused(Fault::MovesLeft, reply),
        }
    }

    // Why a choice of objects is refused.
    pub(super) fn check_select(&self) -> Result<(), Fault>
        ensures { IsRefused (select_refusal self.now.phase self.now.was_chosen) result }
    {
        if self.phase != Phase::Idle || self.was_chosen {
            return Err(Fault::WrongPhase);
        }
        Ok(())
    }

    // Whether this is the phase.
    pub(super) fn check_phase(&self, phase: Phase) -> Result<(), Fault>
        ensures { IsRefused (unless (is_in self.now.phase phase) Fault.WrongPhase None) result }
    {
        if self.phase != phase {
            return Err(Fault::WrongPhase);
        }
        Ok(())
    }
}
