//! Rows behind a mark: looks at what was found, what is handed on, sweeps.

ghost use Rattle.std.specs.Prelude.{◌≡◌, ◌≤◌, None, MatchResult, map, take, drop};
ghost use Rattle.ref_base.specs.Members.{first_of};
ghost use Rattle.ref_base.specs.Heaps.{reference_at, registered_in};
ghost use Rattle.ref_base.specs.CollectorRows.{referent_of};
ghost use Rattle.ref_base.specs.Refusals.{is_in, is_empty, unless, work_refusal, front_with};
ghost use Rattle.ref_judge.specs.Finding.{IsLookAt, looked_so, pending_so};
ghost use Rattle.ref_objects.specs.Grounds.{IsRefused};
ghost use Rattle.ref_judge.specs.Standing.{DoesAs, TellsOf};

use super::{Judge, is_legal, is_refused};
use crate::stop::Stop;
use crate::sweeping::free_some;
use crate::worker::{Pending, Worker, has_any_cleared, may_any_have_more, may_others_have_more};
use ref_base::{Actor, Cause, Fault, Nos, ObjNo, Phase, PlainStep, Reply, Step, WorkerNo};
use std::alloc::Allocator;
use std::collections::VecDeque;

impl<A: Allocator + Copy> Judge<A> {
    // A worker looks at the next reference that it found, or has none left.
    pub(super) fn clear_next(&mut self, worker: WorkerNo, reply: Reply) -> Result<(), Stop>
        ensures { TellsOf self.old (record { step = Step.Plain (PlainStep.ClearNext worker); reply = reply }) result
            self.new }
    {
        if let Err(fault) = self.check_work(worker, Phase::Clearing) {
            return is_refused(fault, reply);
        }
        match reply {
            Reply::Cleared(no) | Reply::Kept(no) | Reply::Skipped(no) => self.look(
                worker, no, reply,
            ),
            Reply::Nothing => self.pass_all(worker),
            _ => Err(Stop::Illegal),
        }
    }

    // The worker looks at this reference, once it has passed those in front. The mark's end cleared none of those.
    fn look(&mut self, worker: WorkerNo, no: ObjNo, reply: Reply) -> Result<(), Stop>
        requires none { work_refusal self.old.ground.heap self.old.phase Phase.Clearing worker ≡ None }
        requires names { IsLookAt reply no }
        ensures { TellsOf self.old (record { step = Step.Plain (PlainStep.ClearNext worker); reply = reply }) result
            self.new }
    {
        let place = worker.0 as usize;
        let Some((next, is_cleared)) = self.workers[place].find(no) else {
            return Err(Stop::Illegal);
        };
        self.check_look(no, is_cleared, reply)?;
        let pending = self.pending_after(no, is_cleared);
        self.workers[place].go_on(next, pending)?;
        self.some_left = false;
        Ok(())
    }

    // Whether a look at this one is answered so.
    fn check_look(&self, no: ObjNo, is_cleared: bool, reply: Reply) -> Result<(), Stop>
        ensures { MatchResult result
            (λ _. looked_so is_cleared (referent_of (reference_at self.now.ground.heap no)) no ≡ reply)
            (λ stop. (stop ≡ Stop.Illegal)
            × (looked_so is_cleared (referent_of (reference_at self.now.ground.heap no)) no ≡ reply → ⊥)) }
    {
        if is_cleared {
            return is_legal(reply == Reply::Cleared(no));
        }
        match self.objects.referent_of(no) {
            Some(_) => is_legal(reply == Reply::Kept(no)),
            None => is_legal(reply == Reply::Skipped(no)),
        }
    }

    // What is pending then.
    fn pending_after(&self, no: ObjNo, is_cleared: bool) -> Option<Pending>
        ensures { result ≡ pending_so is_cleared (registered_in (reference_at self.now.ground.heap no)) no
            self.now.cycle }
    {
        match self.objects.queue_of(no) {
            Some(queue) if is_cleared => Some(Pending {
                object: no,
                queue,
                cycle: self.cycle,
            }),
            _ => None,
        }
    }

    // The worker says that it has none left to look at. The mark's end then cleared none that it hasn't looked at.
    fn pass_all(&mut self, worker: WorkerNo) -> Result<(), Stop>
        requires { work_refusal self.old.ground.heap self.old.phase Phase.Clearing worker ≡ None }
        ensures { TellsOf self.old (record { step = Step.Plain (PlainStep.ClearNext worker); reply = Reply.Nothing })
            result self.new }
    {
        let place = worker.0 as usize;
        if self.workers[place].has_cleared() {
            return Err(Stop::Illegal);
        }
        if self.some_left && !may_others_have_more(&self.workers, place) {
            return Err(Stop::Illegal);
        }
        self.workers[place].pass_all();
        Ok(())
    }

    // Clearing ends where it may be said that no reference is left, and is refused where it may be said that one is.
    pub(super) fn end_clear(&mut self, reply: Reply) -> Result<(), Stop>
        ensures { TellsOf self.old (record { step = Step.Plain PlainStep.EndClear; reply = reply }) result self.new }
    {
        if let Err(fault) = self.check_phase(Phase::Clearing) {
            return is_refused(fault, reply);
        }
        match reply {
            Reply::Done => {
                if self.some_left || has_any_cleared(&self.workers) {
                    return Err(Stop::Illegal);
                }
                self.phase = Phase::Sweeping;
                Ok(())
            }
            _ => {
                is_refused(Fault::ClearingLeft, reply)?;
                if !may_any_have_more(&self.workers) {
                    return Err(Stop::Illegal);
                }
                self.some_left = true;
                Ok(())
            }
        }
    }

    // ---- what is handed on

    // The worker's hand takes the notice of the next reference that it cleared.
    pub(super) fn hand(&mut self, worker: WorkerNo) -> Result<Reply, Fault>
        ensures { DoesAs self.old (Step.Hand worker) result self.new }
    {
        self.hands.check_empty(Actor::Worker(worker))?;
        let place = worker.0 as usize;
        let Some(first) = first_pending(&self.workers[place]) else {
            return Ok(Reply::Nothing);
        };
        if self.holds == u64::MAX {
            return Err(Fault::NumbersSpent);
        }
        drop_front(&mut self.workers[place], 1);
        self.holds += 1;
        self.hands
            .fill_one(Actor::Worker(worker), first.queue, first.object);
        Ok(Reply::Notice {
            object: first.object,
            queue: first.queue,
            cause: Cause::Cycle(first.cycle, worker),
        })
    }

    // And of the next ones, so many at most, of one queue and one cycle.
    pub(super) fn hands(&mut self, worker: WorkerNo, max: u32) -> Result<Reply, Fault>
        ensures { DoesAs self.old (Step.Hands worker max) result self.new }
    {
        self.hands.check_fits(Actor::Worker(worker), max)?;
        self.hands.check_empty(Actor::Worker(worker))?;
        let place = worker.0 as usize;
        let Some(first) = first_pending(&self.workers[place]) else {
            return Ok(Reply::Nothing);
        };
        let objects = first_batch(&self.workers[place].pending, first, max);
        let count = objects.as_slice().len();
        if u64::MAX - self.holds < count as u64 {
            return Err(Fault::NumbersSpent);
        }
        let told = objects;
        drop_front(&mut self.workers[place], count);
        self.holds += count as u64;
        self.hands.fill(Actor::Worker(worker), first.queue, objects);
        Ok(Reply::Notices {
            objects: told,
            queue: first.queue,
            cycle: first.cycle,
            worker,
        })
    }

    // ---- sweeps

    // Frees the 64 least of the doomed, or all.
    pub(super) fn sweep(&mut self, worker: WorkerNo) -> Result<Reply, Fault>
        ensures { DoesAs self.old (Step.Plain (PlainStep.Sweep worker)) result self.new }
    {
        self.check_work(worker, Phase::Sweeping)?;
        let swept = free_some(&mut self.objects, &mut self.doomed);
        let reply = if swept == 0 {
            Reply::Nothing
        } else {
            Reply::Swept(swept)
        };
        Ok(reply)
    }

    // The cycle ends.
    pub(super) fn end_sweep(&mut self) -> Result<Reply, Fault>
        ensures { DoesAs self.old (Step.Plain PlainStep.EndSweep) result self.new }
    {
        self.check_end_sweep()?;
        self.objects.end_cycle();
        self.phase = Phase::Idle;
        self.was_chosen = false;
        Ok(Reply::Done)
    }

    // Why a sweep's end is refused.
    fn check_end_sweep(&self) -> Result<(), Fault>
        ensures { IsRefused (unless (is_in self.now.phase Phase.Sweeping) Fault.WrongPhase
            (unless (is_empty self.now.doomed.stands) Fault.SweepLeft None)) result }
    {
        if self.phase != Phase::Sweeping {
            return Err(Fault::WrongPhase);
        }
        if !self.doomed.is_empty() {
            return Err(Fault::SweepLeft);
        }
        Ok(())
    }
}

// The references that go with the first of these, so many at most, in order.
fn first_batch<A: Allocator>(pending: &VecDeque<Pending, A>, first: Pending, max: u32) -> Nos
    requires { max ≤ 32 }
    ensures { result ≡ map (λ p. p.object) (take max (front_with first pending.now.items)) }
{
    let mut objects = Nos::new();
    for place in 0..max as usize {
        match pending.get(place) {
            Some(next) if next.queue == first.queue && next.cycle == first.cycle => {
                objects.push(next.object);
            }
            _ => return objects,
        }
    }
    objects
}

// The reference that the worker has pending first, if any.
fn first_pending<A: Allocator>(worker: &Worker<A>) -> Option<Pending>
    ensures { result ≡ first_of worker.now.pending }
{
    worker.pending.front().copied()
}

// The worker no longer has so many pending, the first ones.
fn drop_front<A: Allocator>(worker: &mut Worker<A>, count: usize)
    ensures { worker.new ≡ record worker.old { pending = drop count worker.old.pending } }
{
    for _one in 0..count {
        worker.pending.pop_front();
    }
}
