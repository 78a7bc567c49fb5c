//! What a poller does: it takes what was put in, and runs the jobs of what is gone.

use super::{FOURTH, MOST, NEWEST, Station};
use crate::cleaning::CleaningStation;
use ref_base::{Batch, Fault, MutNo, ObjNo, Parcel};
use ref_clear::Notice;
use ref_objects::Hold;
use ref_queue::PolledBatch;
use ref_share::Polled;
use std::sync::Wait;
use std::sync::atomic::Ordering;

/// How often a poller polls before it looks whether the run is at its end.
const POLLS: u32 = 1_000;

impl Station<'_> {
    ghost use Rattle.refrun.specs.CleaningSeats.{IsCleanSeated, StaysCleanSeated};
    ghost use Rattle.refrun.specs.StressSeats.{IsSeated, StaysSeated};

    /// Takes what was put in until the queue is closed and nothing stands, and notes its numbers. Each object is
    /// adopted and let go. Once no worker runs, the first poller that waits in vain closes the queue. Behind each poll
    /// it runs the jobs of what is gone.
    pub(crate) fn poll<R: Wait>(
        &mut self,
        rt: &R,
        mutator: MutNo,
        cleaning: &mut CleaningStation,
        taken: &mut Vec<ObjNo>,
    ) -> Result<(), Fault>
        requires { IsSeated self.old × IsCleanSeated cleaning.old }
        ensures { StaysSeated self.old self.new × StaysCleanSeated cleaning.old cleaning.new }
    {
        let mut time: u64 = 0;
        for _ in rt.forever() {
            time = time.saturating_add(1);
            let is_at_the_end = self.poll_at(rt, mutator, time, taken)?;
            self.tally.count_jobs(cleaning.clean(rt)?);
            if is_at_the_end {
                return Ok(());
            }
        }
        unreachable!()
    }

    /// Takes one notice, and each fourth time as many as go at once. Whether the queue is closed and nothing stands.
    fn poll_at<R: Wait>(
        &mut self,
        rt: &R,
        mutator: MutNo,
        time: u64,
        taken: &mut Vec<ObjNo>,
    ) -> Result<bool, Fault>
        requires { IsSeated self.old }
        ensures { StaysSeated self.old self.new }
    {
        if time % FOURTH == 0 {
            return self.poll_some(rt, mutator, taken);
        }
        self.poll_one(rt, mutator, taken)
    }

    /// Takes one notice. Where none came, it closes the queue if that is due.
    fn poll_one<R: Wait>(
        &mut self,
        rt: &R,
        mutator: MutNo,
        taken: &mut Vec<ObjNo>,
    ) -> Result<bool, Fault>
        requires { IsSeated self.old }
        ensures { StaysSeated self.old self.new }
    {
        match self
            .shared
            .queue
            .remove_within(rt, &mut self.queue_seat, POLLS)
        {
            Ok(Polled::Took(notice)) => self.take(rt, mutator, notice, taken).map(|()| false),
            Ok(Polled::Closed) => Ok(true),
            Ok(Polled::TimedOut | Polled::Empty) => self.close_at_the_end(rt).map(|()| false),
            Err(fault) => Err(self.settle(rt, fault)),
        }
    }

    /// Takes as many notices as go at once, if the queue is free.
    fn poll_some<R: Wait>(
        &mut self,
        rt: &R,
        mutator: MutNo,
        taken: &mut Vec<ObjNo>,
    ) -> Result<bool, Fault>
        requires { IsSeated self.old }
        ensures { StaysSeated self.old self.new }
    {
        let batch = Batch::new(self.alloc)?;
        let (answer, came) = self
            .shared
            .queue
            .poll_batch_now(&mut self.queue_seat, MOST, batch);
        let noted = self.take_all(rt, mutator, came, taken);
        match answer {
            Ok(PolledBatch::Took(_)) => {
                self.tally.count_polled();
                noted.map(|()| false)
            }
            Ok(PolledBatch::Empty) => noted.map(|()| false),
            Ok(PolledBatch::Closed) => noted.map(|()| true),
            Err(fault) => fault.give_up().map(|()| false),
        }
    }

    /// Takes each notice of the batch, until one can't be taken: then the others are released.
    fn take_all<R: Wait>(
        &mut self,
        rt: &R,
        mutator: MutNo,
        batch: Batch<Notice>,
        taken: &mut Vec<ObjNo>,
    ) -> Result<(), Fault>
        requires { IsSeated self.old }
        ensures { StaysSeated self.old self.new }
    {
        let mut batch = batch;
        while let Some(notice) = batch.take_first() {
            if let Err(fault) = self.take(rt, mutator, notice, taken) {
                self.release_batch(rt, batch);
                return Err(fault);
            }
        }
        batch.end();
        Ok(())
    }

    /// Notes the number of the reference, adopts it and lets it go.
    fn take<R: Wait>(
        &mut self,
        rt: &R,
        mutator: MutNo,
        notice: Notice,
        taken: &mut Vec<ObjNo>,
    ) -> Result<(), Fault>
        requires { IsSeated self.old }
        ensures { StaysSeated self.old self.new }
    {
        let noted = taken.push(notice.obj());
        self.adopt(rt, mutator, notice.into_hold())?;
        self.tally.count_notice();
        noted.map_err(|_| Fault::NoMemory)
    }

    /// Adopts what the hold holds, and lets it go.
    fn adopt<R: Wait>(&mut self, rt: &R, mutator: MutNo, hold: Hold) -> Result<(), Fault>
        requires { IsSeated self.old }
        ensures { StaysSeated self.old self.new }
    {
        let Station {
            shared,
            heap_seat,
            ..
        } = self;
        if let Err((fault, hold)) = shared.heap.adopt(rt, heap_seat, mutator, NEWEST, hold) {
            hold.leak();
            return Err(fault);
        }
        self.let_go(rt, mutator)
    }

    /// Closes the queue if no worker runs any more.
    fn close_at_the_end<R: Wait>(&mut self, rt: &R) -> Result<(), Fault>
        requires { IsSeated self.old }
        ensures { StaysSeated self.old self.new }
    {
        if self.shared.running.workers.load(Ordering::SeqCst) > 0 {
            return Ok(());
        }
        match self.shared.queue.close(rt, &mut self.queue_seat) {
            Ok(_) => Ok(()),
            Err(fault) => Err(self.settle(rt, fault)),
        }
    }
}
