//! A cleaner that one thread uses.

ghost use Rattle.std.specs.Prelude.{◌≡◌};
ghost use Rattle.ref_share.specs.CleanSeats.{IsCleanSeat};
ghost use Rattle.ref_share.specs.HeapSeats.{IsHeapSeat};

use crate::letters::{CONFIG, QUEUE};
use crate::timing::{Sample, Timer};
use ref_base::{Fault, MutNo, PlainStep, SlotNo};
use ref_queue::{Action, Job};
use ref_share::{
    CleanSeat, Cleanable, Cleaned, HeapSeat, SharedCleaner, SharedHeap, run_jobs_left,
};
use std::alloc::Global;
use std::sync::Wait;
use std::time::Clock;

const MUTATOR: MutNo = MutNo(0);

const OBJECT: SlotNo = SlotNo(0);

const REFERENCE: SlotNo = SlotNo(1);

/// A thread's way to a cleaner and its heap.
#[derive(Drop)]
struct User<'a> {
    cleaner: &'a SharedCleaner,
    seat: CleanSeat,
    heap: &'a SharedHeap,
    heap_seat: HeapSeat,
}

impl User<'_> {
    /// Registers a job for the object.
    fn register<R: Wait>(&mut self, rt: &R, job: Job) -> Result<Cleanable, Fault>
        requires seats { IsCleanSeat self.old.cleaner.now self.old.seat
            × IsHeapSeat self.old.heap.now self.old.heap_seat }
        ensures seats { IsCleanSeat self.new.cleaner.now self.new.seat
            × IsHeapSeat self.new.heap.now self.new.heap_seat }
    {
        let User {
            cleaner,
            seat,
            heap,
            heap_seat,
        } = self;
        match cleaner.register(rt, seat, heap, heap_seat, MUTATOR, OBJECT, REFERENCE, job) {
            Ok(cleanable) => Ok(cleanable),
            Err((fault, _job)) => Err(fault.into_fault()),
        }
    }

    /// Runs its job.
    fn clean<R: Wait>(&mut self, rt: &R, cleanable: Cleanable) -> Result<(), Fault>
        requires seats { IsCleanSeat self.old.cleaner.now self.old.seat
            × IsHeapSeat self.old.heap.now self.old.heap_seat }
        ensures seats { IsCleanSeat self.new.cleaner.now self.new.seat
            × IsHeapSeat self.new.heap.now self.new.heap_seat }
    {
        let User {
            cleaner,
            seat,
            heap,
            heap_seat,
        } = self;
        match cleaner.clean(rt, seat, heap, heap_seat, MUTATOR, REFERENCE, cleanable) {
            Ok(Cleaned::Ran(_, Some(hold))) => {
                hold.leak();
                Ok(())
            }
            Ok(Cleaned::Ran(_, None) | Cleaned::Gone) => Ok(()),
            Err(fault) => fault.give_up(),
        }
    }
}

/// What a job costs that is registered and then run by hand, while so many others stand registered. The jobs are made
/// before the clock starts; the action of each has a number to remember, as that of a file.
pub fn jobs_registered_and_run<R: Wait + Clock>(
    rt: &R,
    alloc: Global,
    standing: u32,
) -> Result<Sample, Fault> {
    let mut others = Vec::new(alloc);
    let mut jobs = Vec::new(alloc);
    for number in 1..CONFIG.cells {
        let file = u64::from(number);
        let Ok(action) = Box::new(
            alloc,
            move |_number: u64| -> u64
                ensures { result ≡ file }
            { file },
        ) else {
            return Err(Fault::NoMemory);
        };
        let action: Action = action;
        let list = if number <= standing {
            &mut others
        } else {
            &mut jobs
        };
        if list.push(Job::new(file, file, action)).is_err() {
            return Err(Fault::NoMemory);
        }
    }
    let (heap, heap_seat) = SharedHeap::new(alloc, CONFIG, 0)?;
    let (cleaner, mut seat) = SharedCleaner::new(alloc, QUEUE)?;
    let user = User {
        cleaner: &cleaner,
        seat: cleaner.split(&mut seat),
        heap: &heap,
        heap_seat,
    };
    let sample = register_and_run(rt, user, others, jobs);
    run_jobs_left(cleaner.finish(seat), &());
    sample
}

fn register_and_run<R: Wait + Clock>(
    rt: &R,
    user: User,
    others: Vec<Job>,
    jobs: Vec<Job>,
) -> Result<Sample, Fault>
    requires seats { IsCleanSeat user.cleaner.now user.seat
        × IsHeapSeat user.heap.now user.heap_seat }
{
    let mut user = user;
    let object = PlainStep::New {
        mutator: MUTATOR,
        slot: OBJECT,
        fields: 0,
    };
    let _ = user.heap.ask(rt, &mut user.heap_seat, object);
    for job in others {
        user.register(rt, job)?;
    }
    let count = jobs.len();
    let timer = Timer::start(rt);
    for job in jobs {
        let cleanable = user.register(rt, job)?;
        user.clean(rt, cleanable)?;
    }
    Ok(timer.stop(rt, count as u64))
}
