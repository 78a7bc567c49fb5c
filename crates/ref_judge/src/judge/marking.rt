//! Rows of a mark: its begin, scans, and its end.

ghost use Rattle.std.specs.Prelude.{◌≡◌, true, None, Ok};
ghost use Rattle.ref_base.specs.Refusals.{begin_refusal, work_refusal, is_in};
ghost use Rattle.ref_objects.specs.Grounds.{IsRefused};
ghost use Rattle.ref_judge.specs.Judged.{is_left_in};
ghost use Rattle.ref_judge.specs.MarkEnding.{may_end, mark_end, are_roots_spared};
ghost use Rattle.ref_judge.specs.Standing.{DoesAs, TellsOf};

use super::{Judge, is_legal, is_refused};
use crate::marks::{is_any_left, known, policy_as};
use crate::roots::{are_carried_spared, are_lines_spared, are_pending_spared, mark_kept};
use crate::stop::Stop;
use crate::survivors::{
    MarkEnd, are_edges_spared, are_slots_spared, dooms_so_many, mark_spared, tell_found,
};
use crate::worker::forget_found;
use ref_base::{Fault, ObjNo, Phase, PlainStep, Reply, Step, Urgency, WorkerNo};
use ref_objects::Colour;
use std::alloc::Allocator;

impl<A: Allocator + Copy> Judge<A> {
    // A cycle begins: what is kept now may be scanned.
    pub(super) fn begin(&mut self, now: u64, urgency: Urgency) -> Result<Reply, Fault>
        ensures { DoesAs self.old (Step.Plain (PlainStep.Begin now urgency)) result self.new }
    {
        self.check_begin(now)?;
        // Gives the proof that the grey list has room.
        known(&self.objects);
        self.cycle += 1;
        self.policy = self.objects.policy(now, urgency);
        self.objects.set_clock(now);
        self.phase = Phase::Marking;
        self.born = self.objects.next_no();
        self.scanned = 0;
        forget_found(&mut self.workers);
        self.objects.begin_marks(Colour::of_cycle(1));
        if !self.profile.keeps_more {
            let policy = policy_as(self.profile, self.policy);
            let (objects, grey) = (&mut self.objects, &mut self.grey);
            mark_kept(
                objects,
                grey,
                &self.hands,
                &self.lines,
                &self.workers,
                policy,
            );
        }
        self.may_be_none = true;
        self.may_be_left = is_any_left(
            &self.objects,
            self.profile.keeps_more,
            self.born,
            self.scanned,
        );
        Ok(Reply::Cycle(self.cycle))
    }

    // Why a begin is refused.
    fn check_begin(&self, now: u64) -> Result<(), Fault>
        ensures { IsRefused (begin_refusal self.now.phase self.now.ground.heap.clock self.now.cycle now) result }
    {
        if self.phase != Phase::Idle {
            return Err(Fault::WrongPhase);
        }
        if now < self.objects.clock() {
            return Err(Fault::ClockBack);
        }
        if self.cycle == u64::MAX {
            return Err(Fault::NumbersSpent);
        }
        Ok(())
    }

    // A scan, of an object that is left, or of none where it may be said that none is.
    pub(super) fn scan(&mut self, worker: WorkerNo, reply: Reply) -> Result<(), Stop>
        ensures { TellsOf self.old (record { step = Step.Plain (PlainStep.Scan worker); reply = reply }) result
            self.new }
    {
        if let Err(fault) = self.check_work(worker, Phase::Marking) {
            return is_refused(fault, reply);
        }
        match reply {
            Reply::Scanned(no) => {
                if !self.may_be_left || !self.is_left(no) {
                    return Err(Stop::Illegal);
                }
                self.scan_object(worker, no)
            }
            Reply::Nothing => {
                if !self.may_be_none {
                    return Err(Stop::Illegal);
                }
                self.may_be_left = false;
                Ok(())
            }
            _ => Err(Stop::Illegal),
        }
    }

    // The worker scans this object, which is left.
    fn scan_object(&mut self, worker: WorkerNo, no: ObjNo) -> Result<(), Stop>
        requires none { work_refusal self.old.ground.heap self.old.phase Phase.Marking worker ≡ None }
        requires said { self.old.may_be_left ≡ true }
        requires left { is_left_in self.old no ≡ true }
        ensures { TellsOf self.old (record { step = Step.Plain (PlainStep.Scan worker); reply = Reply.Scanned no })
            result
            self.new }
    {
        // Gives the proof that each object has a tag.
        known(&self.objects);
        let is_reference = self.objects.reference_of(no).is_some();
        self.workers[worker.0 as usize].note(no, is_reference)?;
        let cycle = self.cycle;
        self.objects.set_cleared_in(no, cycle);
        self.scanned += 1;
        self.may_be_none = true;
        self.may_be_left = is_any_left(
            &self.objects,
            self.profile.keeps_more,
            self.born,
            self.scanned,
        );
        Ok(())
    }

    // A mark's end: refused where it may be said that an object is left, else it dooms what wasn't scanned.
    pub(super) fn end_mark(&mut self, reply: Reply) -> Result<(), Stop>
        ensures { TellsOf self.old (record { step = Step.Plain PlainStep.EndMark; reply = reply }) result self.new }
    {
        if let Err(fault) = self.check_phase(Phase::Marking) {
            return is_refused(fault, reply);
        }
        match reply {
            Reply::Doomed(count) => {
                is_legal(self.may_be_none && self.may_doom(count))?;
                self.doom(count);
                Ok(())
            }
            _ => {
                is_refused(Fault::GreyLeft, reply)?;
                is_legal(self.may_be_left)?;
                self.may_be_none = false;
                Ok(())
            }
        }
    }

    // Whether the mark may end, and dooms so many.
    pub(super) fn may_doom(&self, count: u32) -> bool
        ensures { result ≡ may_end self.now count }
    {
        // Gives the proof that numbers rise.
        known(&self.objects);
        if !dooms_so_many(&self.objects, self.born, self.scanned, count) {
            return false;
        }
        if !self.are_roots_spared() {
            return false;
        }
        are_edges_spared(&self.objects, self.mark_end())
    }

    // Whether no root is doomed.
    pub(super) fn are_roots_spared(&self) -> bool
        ensures { result ≡ are_roots_spared self.now }
    {
        let end = self.mark_end();
        if !are_slots_spared(&self.objects, end) {
            return false;
        }
        if !are_carried_spared(&self.objects, end, &self.hands) {
            return false;
        }
        if !are_lines_spared(&self.objects, end, &self.lines) {
            return false;
        }
        are_pending_spared(&self.objects, end, &self.workers)
    }

    // The mark ends, where it may.
    fn doom(&mut self, count: u32)
        requires marks { is_in self.old.phase Phase.Marking ≡ true }
        requires none { self.old.may_be_none ≡ true }
        requires ends { may_end self.old count ≡ true }
        ensures { TellsOf self.old (record { step = Step.Plain PlainStep.EndMark; reply = Reply.Doomed count }) (Ok tt)
            self.new }
    {
        let end = self.mark_end();
        // Gives the proof that numbers rise.
        known(&self.objects);
        tell_found(&self.objects, end, &mut self.workers);
        self.objects.begin_marks(Colour::of_cycle(2));
        mark_spared(&mut self.objects, end);
        self.objects.condemn(&mut self.doomed);
        self.some_left = false;
        self.phase = Phase::Clearing;
    }

    // What a mark's end goes by.
    pub(super) fn mark_end(&self) -> MarkEnd
        ensures { result ≡ mark_end self.now }
    {
        MarkEnd {
            born: self.born,
            cycle: self.cycle,
            policy: self.policy,
            soft_free: self.profile.soft_free,
        }
    }

    // Whether an object is left to scan.
    pub(super) fn is_left(&self, no: ObjNo) -> bool
        ensures { result ≡ is_left_in self.now no }
    {
        if !self.objects.has_object(no) {
            return false;
        }
        let may_be_kept = self.profile.keeps_more || self.objects.is_marked(no);
        may_be_kept && u64::from(no.0) < self.born && self.objects.cleared_in(no) != self.cycle
    }

    // Why a worker's step is refused: NoSuchActor, WrongPhase.
    pub(super) fn check_work(&self, worker: WorkerNo, phase: Phase) -> Result<(), Fault>
        ensures { IsRefused (work_refusal self.now.ground.heap self.now.phase phase worker) result }
    {
        if worker.0 >= self.config.workers {
            return Err(Fault::NoSuchActor);
        }
        if self.phase != phase {
            return Err(Fault::WrongPhase);
        }
        Ok(())
    }
}
