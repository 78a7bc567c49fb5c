//! What a mutator does: it makes references, enqueues some, and keeps some.

use super::{NEWEST, QUEUE, Station};
use crate::cleaning::CleaningStation;
use ref_base::{Fault, MutNo, ObjNo, PlainStep, SlotNo, Strength};
use ref_objects::Hold;
use ref_share::enqueue;
use std::sync::Wait;
use std::{slice, thread};

/// How often a mutator makes its objects again where no cell was free.
const TRIES: u32 = 1_000;

/// How many of its references a mutator keeps to the end at most.
const MOST_KEPT: usize = 64;

impl Station<'_> {
    ghost use Rattle.refrun.specs.CleaningSeats.{IsCleanSeated, StaysCleanSeated};
    ghost use Rattle.refrun.specs.StressSeats.{IsSeated, StaysSeated};

    /// A mutator's rounds, until the tally stops them. In each it makes an object and a reference to it, lets the
    /// object go, and every other time enqueues the reference. A round for which no cell is free is left out. Some of
    /// the references it holds from then on, and notes their numbers. In some rounds it does something with a job.
    pub(crate) fn mutate<R: Wait>(
        &mut self,
        rt: &R,
        mutator: MutNo,
        rounds: u64,
        cleaning: &mut CleaningStation,
        kept: &mut Vec<ObjNo>,
        holds: &mut Vec<Hold>,
    ) -> Result<(), Fault>
        requires { IsSeated self.old × IsCleanSeated cleaning.old }
        ensures { StaysSeated self.old self.new × StaysCleanSeated cleaning.old cleaning.new }
    {
        for round in 0..rounds {
            if self.tally.is_stopped() {
                break;
            }
            self.do_round(rt, mutator, round, kept, holds)?;
            self.tally.count_jobs(cleaning.mutate(rt, mutator, round)?);
            self.tally.count_round();
        }
        self.tally.count_jobs(cleaning.settle(rt, mutator)?);
        Ok(())
    }

    /// One round.
    fn do_round<R: Wait>(
        &mut self,
        rt: &R,
        mutator: MutNo,
        round: u64,
        kept: &mut Vec<ObjNo>,
        holds: &mut Vec<Hold>,
    ) -> Result<(), Fault>
        requires { IsSeated self.old }
        ensures { StaysSeated self.old self.new }
    {
        let strength = strength_of(mutator, round);
        if !self.make(rt, mutator, slot_of(round), strength)? {
            return Ok(());
        }
        self.keep(rt, mutator, round, kept, holds)?;
        if round % 2 == 0 {
            return self.enqueue(rt, mutator, slot_of(round));
        }
        Ok(())
    }

    /// Holds the reference of this round and notes its number, if it is one to keep and not enough are held.
    fn keep<R: Wait>(
        &mut self,
        rt: &R,
        mutator: MutNo,
        round: u64,
        kept: &mut Vec<ObjNo>,
        holds: &mut Vec<Hold>,
    ) -> Result<(), Fault>
        requires { IsSeated self.old }
        ensures { StaysSeated self.old self.new }
    {
        if !is_kept(round) || holds.len() >= MOST_KEPT {
            return Ok(());
        }
        let slot = slot_of(round);
        let hold = self
            .shared
            .heap
            .hold(rt, &mut self.heap_seat, mutator, slot)?;
        let noted = kept.push(hold.obj());
        if let Err(refused) = holds.push(hold) {
            self.release(rt, refused.value);
            return Err(Fault::NoMemory);
        }
        noted.map_err(|_| Fault::NoMemory)
    }

    /// Makes an object, and in the slot a reference to it. False where no cell was free at each try.
    fn make<R: Wait>(
        &mut self,
        rt: &R,
        mutator: MutNo,
        slot: SlotNo,
        strength: Strength,
    ) -> Result<bool, Fault>
        requires { IsSeated self.old }
        ensures { StaysSeated self.old self.new }
    {
        for _ in 0..=TRIES {
            match self.try_to_make(rt, mutator, slot, strength) {
                Err(Fault::NoCell) => {}
                answer => return answer.map(|()| true),
            }
            self.let_go(rt, mutator)?;
            thread::yield_now();
        }
        Ok(false)
    }

    fn try_to_make<R: Wait>(
        &mut self,
        rt: &R,
        mutator: MutNo,
        slot: SlotNo,
        strength: Strength,
    ) -> Result<(), Fault>
        requires { IsSeated self.old }
        ensures { StaysSeated self.old self.new }
    {
        let object = PlainStep::New {
            mutator,
            slot: NEWEST,
            fields: 0,
        };
        self.ask(rt, object)?;
        let reference = PlainStep::Refer {
            mutator,
            strength,
            slot,
            source: NEWEST,
            queue: Some(QUEUE),
            fields: 0,
        };
        self.ask(rt, reference)?;
        self.let_go(rt, mutator)
    }

    /// The enqueue call of the reference in the slot.
    fn enqueue<R: Wait>(&mut self, rt: &R, mutator: MutNo, slot: SlotNo) -> Result<(), Fault>
        requires { IsSeated self.old }
        ensures { StaysSeated self.old self.new }
    {
        let answer = enqueue(
            rt,
            &self.shared.heap,
            &mut self.heap_seat,
            slice::from_ref(&self.shared.queue),
            slice::from_mut(&mut self.queue_seat),
            mutator,
            slot,
        );
        match answer {
            Ok(_) => Ok(()),
            Err(fault) => Err(self.settle(rt, fault)),
        }
    }
}

/// Where a mutator makes the reference of this round.
fn slot_of(round: u64) -> SlotNo {
    SlotNo(1 + (round % 8) as u32)
}

/// The strength of the reference of this round: each in turn where the mutator doesn't enqueue it, and else weak.
fn strength_of(mutator: MutNo, round: u64) -> Strength {
    if round % 2 == 0 {
        return Strength::Weak;
    }
    match (round / 2 + u64::from(mutator.0)) % 3 {
        0 => Strength::Weak,
        1 => Strength::Soft,
        _ => Strength::Phantom,
    }
}

/// Whether a mutator keeps the reference of this round: each that it doesn't enqueue, and a few that it does.
fn is_kept(round: u64) -> bool {
    round % 2 == 1 || round % 16 == 0
}
