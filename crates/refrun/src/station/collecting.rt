//! What a worker does: its share of the cycles, and of handing on what they cleared.

use super::{FOURTH, MOST, Station};
use crate::cleaning::CleaningStation;
use ref_base::{Batch, Fault, PlainStep, Reply, Urgency, WorkerNo};
use ref_share::{deliver_all, deliver_batch, deliver_one};
use std::slice;
use std::sync::Wait;
use std::sync::atomic::Ordering;

/// In every so manieth time that the first worker works it does a cycle of the jobs' heap.
const CLEANING: u64 = 32;

/// How often the last worker goes on with a cycle before it gives it up: many times what a full heap takes.
const MOST_TURNS: u32 = 100_000;

impl Station<'_> {
    ghost use Rattle.refrun.specs.CleaningSeats.{IsCleanSeated, StaysCleanSeated};
    ghost use Rattle.refrun.specs.StressSeats.{IsSeated, StaysSeated};

    /// A worker's share of the cycles, until the mutators have ended. The first worker begins and ends the cycles,
    /// their phases and the moves between them; what comes at the wrong time is refused, which is no matter. It ends as
    /// the last one, behind one more cycle. It does cycles of the jobs' heap too, and one more of them.
    pub(crate) fn work<R: Wait>(
        &mut self,
        rt: &R,
        worker: WorkerNo,
        cleaning: &mut CleaningStation,
    ) -> Result<(), Fault>
        requires { IsSeated self.old × IsCleanSeated cleaning.old }
        ensures { StaysSeated self.old self.new × StaysCleanSeated cleaning.old cleaning.new }
    {
        let mut now: u64 = 0;
        for _ in rt.forever() {
            let is_last = self.shared.running.mutators.load(Ordering::SeqCst) == 0;
            now = now.saturating_add(1);
            self.take_part(rt, worker, now, is_last)?;
            let is_due = is_last || now % CLEANING == 0;
            cleaning.collect(rt, is_due && worker == WorkerNo(0))?;
            if is_last {
                return self.end_work(rt, worker, now);
            }
        }
        unreachable!()
    }

    /// A worker's share of the cycles, once.
    fn take_part<R: Wait>(
        &mut self,
        rt: &R,
        worker: WorkerNo,
        now: u64,
        is_last: bool,
    ) -> Result<(), Fault>
        requires { IsSeated self.old }
        ensures { StaysSeated self.old self.new }
    {
        if worker == WorkerNo(0) {
            self.lead(rt, now, is_last);
        }
        self.assist(rt, worker, now)
    }

    /// What the first worker does once the mutators have ended.
    fn end_work<R: Wait>(&mut self, rt: &R, worker: WorkerNo, now: u64) -> Result<(), Fault>
        requires { IsSeated self.old }
        ensures { StaysSeated self.old self.new }
    {
        if worker == WorkerNo(0) {
            self.end_cycles(rt, now)
        } else {
            Ok(())
        }
    }

    /// Ends the phase that can end. Where a cycle has ended, objects are chosen to move; and a cycle begins where none
    /// is open and nothing moves. Neither comes at the last time.
    fn lead<R: Wait>(&mut self, rt: &R, now: u64, is_last: bool)
        requires { IsSeated self.old }
        ensures { StaysSeated self.old self.new }
    {
        let _ = self.end_phase(rt);
        if !is_last {
            let _ = self.ask(rt, PlainStep::Select);
            let _ = self.begin(rt, now, urgency_behind(self.tally.counts().cycles));
        }
    }

    /// Begins a cycle where none is open and nothing moves. Whether it did.
    fn begin<R: Wait>(&mut self, rt: &R, now: u64, urgency: Urgency) -> bool
        requires { IsSeated self.old }
        ensures { StaysSeated self.old self.new }
    {
        let has_begun = self.ask(rt, PlainStep::Begin { now, urgency }).is_ok();
        if has_begun && urgency == Urgency::Urgent {
            self.tally.count_urgent();
        }
        has_begun
    }

    /// Ends the phase that can end. Whether that was the cycle's last.
    fn end_phase<R: Wait>(&mut self, rt: &R) -> bool
        requires { IsSeated self.old }
        ensures { StaysSeated self.old self.new }
    {
        let _ = self.ask(rt, PlainStep::EndMark);
        let _ = self.ask(rt, PlainStep::EndClear);
        let _ = self.ask(rt, PlainStep::EndMove);
        let has_ended = self.ask(rt, PlainStep::EndSweep).is_ok();
        if has_ended {
            self.tally.count_cycle();
        }
        has_ended
    }

    /// What the last worker does for all of them: it brings the open cycle and the moves to their end, and then one
    /// more cycle, which finds dead what the mutators dropped. Then it hands on all that is pending. A cycle that does
    /// not end is given up, so that the run ends.
    fn end_cycles<R: Wait>(&mut self, rt: &R, now: u64) -> Result<(), Fault>
        requires { IsSeated self.old }
        ensures { StaysSeated self.old self.new }
    {
        self.wait_for_workers(rt, 1);
        self.begin_last(rt, now)?;
        self.end_last(rt)?;
        self.deliver_pending(rt)
    }

    /// Goes on with what is open until a cycle can begin, and begins it.
    fn begin_last<R: Wait>(&mut self, rt: &R, now: u64) -> Result<(), Fault>
        requires { IsSeated self.old }
        ensures { StaysSeated self.old self.new }
    {
        for _ in 0..MOST_TURNS {
            self.go_on(rt)?;
            if self.begin(rt, now, Urgency::Urgent) {
                return Ok(());
            }
        }
        Ok(())
    }

    /// Goes on with the cycle until it has ended.
    fn end_last<R: Wait>(&mut self, rt: &R) -> Result<(), Fault>
        requires { IsSeated self.old }
        ensures { StaysSeated self.old self.new }
    {
        for _ in 0..MOST_TURNS {
            if self.go_on(rt)? {
                return Ok(());
            }
        }
        Ok(())
    }

    /// A step of each kind of each worker, and the end of the phase that can end. Whether a cycle has ended.
    fn go_on<R: Wait>(&mut self, rt: &R) -> Result<bool, Fault>
        requires { IsSeated self.old }
        ensures { StaysSeated self.old self.new }
    {
        for number in 0..self.shared.heap.config().workers {
            self.collect(rt, WorkerNo(number));
            self.deliver_some(rt, WorkerNo(number))?;
        }
        Ok(self.end_phase(rt))
    }

    /// Hands on what is pending of each worker.
    fn deliver_pending<R: Wait>(&mut self, rt: &R) -> Result<(), Fault>
        requires { IsSeated self.old }
        ensures { StaysSeated self.old self.new }
    {
        for number in 0..self.shared.heap.config().workers {
            self.deliver_all(rt, WorkerNo(number))?;
        }
        Ok(())
    }

    /// Hands on what is pending of the worker. What no queue takes is released.
    fn deliver_all<R: Wait>(&mut self, rt: &R, worker: WorkerNo) -> Result<(), Fault>
        requires { IsSeated self.old }
        ensures { StaysSeated self.old self.new }
    {
        let batch = Batch::new(self.alloc)?;
        let (answer, left) = deliver_all(
            rt,
            &self.shared.heap,
            &mut self.heap_seat,
            slice::from_ref(&self.shared.queue),
            slice::from_mut(&mut self.queue_seat),
            worker,
            batch,
        );
        self.release_batch(rt, left);
        match answer {
            Ok(()) => Ok(()),
            Err(fault) => Err(self.settle(rt, fault)),
        }
    }

    /// One step of each kind of work.
    fn collect<R: Wait>(&mut self, rt: &R, worker: WorkerNo)
        requires { IsSeated self.old }
        ensures { StaysSeated self.old self.new }
    {
        let _ = self.ask(rt, PlainStep::Scan { worker });
        let _ = self.ask(rt, PlainStep::ClearNext { worker });
        let _ = self.ask(rt, PlainStep::Sweep { worker });
        if let Ok(Reply::Moved(_)) = self.ask(rt, PlainStep::MoveNext { worker }) {
            self.tally.count_move();
        }
    }

    /// One step of each kind of work, and what is pending on its way: each fourth time as much as goes at once.
    fn assist<R: Wait>(&mut self, rt: &R, worker: WorkerNo, time: u64) -> Result<(), Fault>
        requires { IsSeated self.old }
        ensures { StaysSeated self.old self.new }
    {
        self.collect(rt, worker);
        if time % FOURTH == 0 {
            return self.deliver_some(rt, worker);
        }
        self.deliver_one(rt, worker)
    }

    /// Hands on what is pending of the worker, as much as goes at once. What no queue takes is released.
    fn deliver_some<R: Wait>(&mut self, rt: &R, worker: WorkerNo) -> Result<(), Fault>
        requires { IsSeated self.old }
        ensures { StaysSeated self.old self.new }
    {
        let batch = Batch::new(self.alloc)?;
        let (answer, left) = deliver_batch(
            rt,
            &self.shared.heap,
            &mut self.heap_seat,
            slice::from_ref(&self.shared.queue),
            slice::from_mut(&mut self.queue_seat),
            worker,
            MOST,
            batch,
        );
        self.release_batch(rt, left);
        match answer {
            Ok(None) => Ok(()),
            Ok(Some(_)) => {
                self.tally.count_handed();
                Ok(())
            }
            Err(fault) => Err(self.settle(rt, fault)),
        }
    }

    /// Hands on one notice.
    fn deliver_one<R: Wait>(&mut self, rt: &R, worker: WorkerNo) -> Result<(), Fault>
        requires { IsSeated self.old }
        ensures { StaysSeated self.old self.new }
    {
        let answer = deliver_one(
            rt,
            &self.shared.heap,
            &mut self.heap_seat,
            slice::from_ref(&self.shared.queue),
            slice::from_mut(&mut self.queue_seat),
            worker,
        );
        match answer {
            Ok(_) => Ok(()),
            Err(fault) => Err(self.settle(rt, fault)),
        }
    }
}

/// How urgent the cycle is that begins behind so many.
fn urgency_behind(cycles: u64) -> Urgency {
    if cycles % FOURTH == FOURTH - 1 {
        Urgency::Urgent
    } else {
        Urgency::Normal
    }
}
