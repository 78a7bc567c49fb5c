//! The jobs of a stress run: a heap of its own, the cleaner of its objects, and what threads do with them.

ghost use Rattle.std.specs.Prelude.{All, IfOk};
ghost use Rattle.refrun.specs.CleaningSeats.{IsCleanSeated, IsOfCleaning, StaysCleanSeated};

use crate::outcomes::{JobFate, Outcomes};
use ref_base::{Batch, Config, Fault, MutNo, PlainStep, SlotNo, SpanRule, Urgency, WorkerNo};
use ref_objects::Hold;
use ref_queue::Job;
use ref_share::{
    Cleanable, Cleaned, Gate, HeapSeat, QueuedCleaner, QueuedSeat, SharedHeap, end_batch,
};
use std::alloc::{AllocError, Global};
use std::sync::Wait;

/// How many jobs a mutator has.
pub(crate) const JOBS: u64 = 64;

/// In every so manieth round a mutator does something with a job.
const PACE: u64 = 16;

/// Where a mutator makes an object, and what a call uses on its way.
const OBJECT: SlotNo = SlotNo(0);

const WAY: SlotNo = SlotNo(1);

/// What all threads share: the heap, its cleaner, and what became of each job.
pub(crate) struct Cleaning {
    pub(crate) heap: SharedHeap,
    pub(crate) cleaner: QueuedCleaner,
    pub(crate) outcomes: Outcomes,
}

/// What one thread uses it with.
#[derive(Drop)]
pub(crate) struct CleaningSeats {
    pub(crate) heap: HeapSeat,
    pub(crate) clean: QueuedSeat,
}

/// What one thread works with: what all share, its own seats, and the jobs that it has not registered.
#[derive(Drop)]
pub(crate) struct CleaningStation<'a> {
    alloc: Global,
    cleaning: &'a Cleaning,
    seats: CleaningSeats,
    jobs: Vec<Job>,
    registered: Option<Registered>,
    cycles: u64,
}

/// The job of the object that a mutator holds.
#[derive(Clone, Copy)]
struct Registered {
    number: u64,
    cleanable: Cleanable,
}

impl Cleaning {
    /// What each thread works with: seats that are split off these, and the jobs of one list.
    pub(crate) fn stations(
        &self,
        alloc: Global,
        seats: &mut CleaningSeats,
        lists: Vec<Vec<Job>>,
    ) -> Result<Vec<CleaningStation<'_>>, AllocError>
        requires { IsOfCleaning self.now seats.old }
        ensures seats { IsOfCleaning self.now seats.new }
        ensures seated { IfOk result (λ stations. All (λ station. IsCleanSeated station) stations.items) }
    {
        let mut stations = Vec::new(alloc);
        for jobs in lists {
            stations.push(self.station(alloc, seats, jobs))?;
        }
        Ok(stations)
    }

    /// What one thread works with, with these jobs.
    fn station(
        &self,
        alloc: Global,
        seats: &mut CleaningSeats,
        jobs: Vec<Job>,
    ) -> CleaningStation<'_>
        requires { IsOfCleaning self.now seats.old }
        ensures seats { IsOfCleaning self.now seats.new }
        ensures seated { IsCleanSeated result }
    {
        CleaningStation {
            alloc,
            cleaning: self,
            seats: CleaningSeats {
                heap: self.heap.split(&mut seats.heap),
                clean: self.cleaner.split(&mut seats.clean),
            },
            jobs,
            registered: None,
            cycles: 0,
        }
    }

    /// Ends the cleaner, once no thread uses it any more, and says what became of each job by then.
    pub(crate) fn end(self, alloc: Global, seats: CleaningSeats) -> Result<Vec<JobFate>, Fault>
        requires { IsOfCleaning self seats }
    {
        let Cleaning {
            heap: _heap,
            cleaner,
            outcomes,
        } = self;
        let CleaningSeats { heap: _seat, clean } = seats;
        let fates = outcomes.fates(alloc);
        let _notices = cleaner.end(clean, &());
        fates.map_err(|_| Fault::NoMemory)
    }
}

impl CleaningStation<'_> {
    /// What a mutator does with jobs in this round, which is nothing in most: it lets go what it holds, and makes
    /// another object with a job. How many jobs it ran by hand.
    pub(crate) fn mutate<R: Wait>(
        &mut self,
        rt: &R,
        mutator: MutNo,
        round: u64,
    ) -> Result<u64, Fault>
        requires { IsCleanSeated self.old }
        ensures { StaysCleanSeated self.old self.new }
    {
        if round % PACE != 0 {
            return Ok(0);
        }
        let ran = self.settle(rt, mutator)?;
        self.begin(rt, mutator)?;
        Ok(ran)
    }

    /// Makes an object and registers the next job for it. Where no cell is free, that job is left for later.
    fn begin<R: Wait>(&mut self, rt: &R, mutator: MutNo) -> Result<(), Fault>
        requires { IsCleanSeated self.old }
        ensures { StaysCleanSeated self.old self.new }
    {
        match self.begin_next(rt, mutator) {
            Err(Fault::NoCell) => self.drop_object(rt, mutator),
            answer => answer,
        }
    }

    /// Makes an object and registers the next job for it, if one is left. One that is refused is kept for later.
    fn begin_next<R: Wait>(&mut self, rt: &R, mutator: MutNo) -> Result<(), Fault>
        requires { IsCleanSeated self.old }
        ensures { StaysCleanSeated self.old self.new }
    {
        match self.jobs.pop() {
            Some(job) => self.make_with(rt, mutator, job),
            None => Ok(()),
        }
    }

    /// Makes an object and registers the job for it. One that is refused is kept for later.
    fn make_with<R: Wait>(&mut self, rt: &R, mutator: MutNo, job: Job) -> Result<(), Fault>
        requires { IsCleanSeated self.old }
        ensures { StaysCleanSeated self.old self.new }
    {
        match self.make(rt, mutator) {
            Ok(()) => self.register(rt, mutator, job),
            Err(fault) => {
                let _ = self.jobs.push(job);
                Err(fault)
            }
        }
    }

    /// Makes an object.
    fn make<R: Wait>(&mut self, rt: &R, mutator: MutNo) -> Result<(), Fault>
        requires { IsCleanSeated self.old }
        ensures { StaysCleanSeated self.old self.new }
    {
        let object = PlainStep::New {
            mutator,
            slot: OBJECT,
            fields: 0,
        };
        self.ask(rt, object)
    }

    /// Registers the job for the object. One that is refused is kept for later.
    fn register<R: Wait>(&mut self, rt: &R, mutator: MutNo, job: Job) -> Result<(), Fault>
        requires { IsCleanSeated self.old }
        ensures { StaysCleanSeated self.old self.new }
    {
        let number = job.number();
        let Cleaning { heap, cleaner, .. } = self.cleaning;
        let CleaningSeats {
            heap: heap_seat,
            clean,
        } = &mut self.seats;
        match cleaner.register(rt, clean, heap, heap_seat, mutator, OBJECT, WAY, job) {
            Ok(cleanable) => {
                self.cleaning.outcomes.note_registered(number);
                self.registered = Some(Registered { number, cleanable });
                Ok(())
            }
            Err((fault, job)) => {
                let _ = self.jobs.push(job);
                Err(fault.into_fault())
            }
        }
    }

    /// Lets go the object that the mutator holds, if it does. Some of the jobs it runs by hand, and some it takes out,
    /// each before or behind that. How many it ran.
    pub(crate) fn settle<R: Wait>(&mut self, rt: &R, mutator: MutNo) -> Result<u64, Fault>
        requires { IsCleanSeated self.old }
        ensures { StaysCleanSeated self.old self.new }
    {
        let Some(registered) = self.registered else {
            return Ok(0);
        };
        self.registered = None;
        let number = registered.number;
        if number % 2 == 1 {
            self.let_go(rt, mutator, number)?;
            self.be_done(rt, mutator, registered)
        } else {
            let ran = self.be_done(rt, mutator, registered)?;
            self.let_go(rt, mutator, number)?;
            Ok(ran)
        }
    }

    /// Runs some jobs by hand, takes some out, and leaves the others to the cleaner. How many it ran.
    fn be_done<R: Wait>(
        &mut self,
        rt: &R,
        mutator: MutNo,
        registered: Registered,
    ) -> Result<u64, Fault>
        requires { IsCleanSeated self.old }
        ensures { StaysCleanSeated self.old self.new }
    {
        let Registered { number, cleanable } = registered;
        match number % 8 {
            1 | 4 => self.run_by_hand(rt, mutator, number, cleanable),
            2 | 5 => self.take_out(rt, number, cleanable),
            _ => Ok(0),
        }
    }

    /// Lets the object go: its job may run from now on.
    fn let_go<R: Wait>(&mut self, rt: &R, mutator: MutNo, number: u64) -> Result<(), Fault>
        requires { IsCleanSeated self.old }
        ensures { StaysCleanSeated self.old self.new }
    {
        self.cleaning.outcomes.note_may_run(number);
        self.drop_object(rt, mutator)
    }

    /// Runs the job now, if the cleaner has it still. How many ran.
    fn run_by_hand<R: Wait>(
        &mut self,
        rt: &R,
        mutator: MutNo,
        number: u64,
        cleanable: Cleanable,
    ) -> Result<u64, Fault>
        requires { IsCleanSeated self.old }
        ensures { StaysCleanSeated self.old self.new }
    {
        let Cleaning {
            heap,
            cleaner,
            outcomes,
        } = self.cleaning;
        let CleaningSeats {
            heap: heap_seat,
            clean,
        } = &mut self.seats;
        outcomes.note_may_run(number);
        match cleaner.clean(rt, clean, heap, heap_seat, mutator, WAY, cleanable) {
            Ok(Cleaned::Gone) => Ok(0),
            Ok(Cleaned::Ran(ran, back)) => {
                give_up(back);
                outcomes.after(ran);
                Ok(1)
            }
            Err(fault) => Err(fault.into_fault()),
        }
    }

    /// Takes the job out, if the cleaner has it still: then it is never to run.
    fn take_out<R: Wait>(&mut self, rt: &R, number: u64, cleanable: Cleanable) -> Result<u64, Fault>
        requires { IsCleanSeated self.old }
        ensures { StaysCleanSeated self.old self.new }
    {
        let Cleaning {
            heap,
            cleaner,
            outcomes,
        } = self.cleaning;
        let CleaningSeats {
            heap: heap_seat,
            clean,
        } = &mut self.seats;
        match cleaner.unregister(rt, clean, heap, heap_seat, cleanable) {
            Ok(None) => Ok(0),
            Ok(Some((_job, back))) => {
                give_up(back);
                outcomes.note_taken_out(number);
                Ok(0)
            }
            Err(fault) => Err(fault.into_fault()),
        }
    }

    /// Empties the slot of the mutator's object.
    fn drop_object<R: Wait>(&mut self, rt: &R, mutator: MutNo) -> Result<(), Fault>
        requires { IsCleanSeated self.old }
        ensures { StaysCleanSeated self.old self.new }
    {
        let slot = OBJECT;
        self.ask(rt, PlainStep::Drop { mutator, slot })
    }

    fn ask<R: Wait>(&mut self, rt: &R, step: PlainStep) -> Result<(), Fault>
        requires { IsCleanSeated self.old }
        ensures { StaysCleanSeated self.old self.new }
    {
        self.cleaning.heap.perform(rt, &mut self.seats.heap, step)?;
        Ok(())
    }

    /// A cycle, where one is due.
    pub(crate) fn collect<R: Wait>(&mut self, rt: &R, is_due: bool) -> Result<(), Fault>
        requires { IsCleanSeated self.old }
        ensures { StaysCleanSeated self.old self.new }
    {
        if is_due { self.cycle(rt) } else { Ok(()) }
    }

    /// One whole cycle, each fourth of them urgent: what died before it is told to the cleaner. A notice for which the
    /// queue finds no memory is given up.
    fn cycle<R: Wait>(&mut self, rt: &R) -> Result<(), Fault>
        requires { IsCleanSeated self.old }
        ensures { StaysCleanSeated self.old self.new }
    {
        self.cycles = self.cycles.saturating_add(1);
        let urgency = if self.cycles % 4 == 0 {
            Urgency::Urgent
        } else {
            Urgency::Normal
        };
        let Cleaning { heap, cleaner, .. } = self.cleaning;
        let CleaningSeats {
            heap: heap_seat,
            clean,
        } = &mut self.seats;
        let batch = Batch::new(self.alloc)?;
        let now = self.cycles;
        let (answer, left) = cleaner.cycle(
            rt,
            clean,
            heap,
            heap_seat,
            WorkerNo(0),
            now,
            urgency,
            batch,
        );
        end_batch(left);
        match answer {
            Ok(()) => Ok(()),
            Err(fault) => Err(fault.into_fault()),
        }
    }

    /// Runs the jobs of what is gone, as far as the cleaner was told. How many it ran.
    pub(crate) fn clean<R: Wait>(&mut self, rt: &R) -> Result<u64, Fault>
        requires { IsCleanSeated self.old }
        ensures { StaysCleanSeated self.old self.new }
    {
        let Cleaning {
            heap,
            cleaner,
            outcomes,
        } = self.cleaning;
        let CleaningSeats {
            heap: heap_seat,
            clean,
        } = &mut self.seats;
        match cleaner.clean_some(rt, clean, heap, heap_seat, outcomes) {
            Ok(count) => Ok(count),
            Err(fault) => Err(fault.into_fault()),
        }
    }
}

/// The heap of the jobs: for so many mutators, with few cells.
pub(crate) fn config_of(mutators: u32) -> Config {
    Config {
        mutators,
        workers: 1,
        queues: 1,
        cells: 64,
        span: 0,
        rule: SpanRule::Fixed,
    }
}

/// Gives up a hold that its heap did not take.
fn give_up(back: Option<Hold>) {
    if let Some(hold) = back {
        hold.leak();
    }
}
