//! What each thread of a stress run is given, what it does with that, and what it leaves.

ghost use Rattle.std.specs.Prelude.{All, IfOk};
ghost use Rattle.ref_share.specs.HeapSeats.{IsHeapSeat};
ghost use Rattle.ref_share.specs.QueueSeats.{IsQueueSeat};
ghost use Rattle.refrun.specs.CleaningSeats.{IsCleanSeated};
ghost use Rattle.refrun.specs.StressSeats.{IsLeftAt, IsSeated, IsSeatedAt, StaysSeated};

use crate::cleaning::CleaningStation;
use crate::station::{Running, Shared, Station};
use crate::stress_options::StressOptions;
use crate::tally::Tally;
use ref_base::{Fault, MutNo, ObjNo, WorkerNo};
use ref_objects::Hold;
use ref_share::{HeapSeat, QueueSeat};
use std::alloc::{AllocError, Global};
use std::sync::Wait;
use std::sync::atomic::{AtomicU32, Ordering};
use std::thread::Promise;

/// What one thread is for.
#[derive(Clone, Copy)]
pub(super) enum Role {
    Mutate { mutator: MutNo, rounds: u64 },
    Work(WorkerNo),
    Poll(MutNo),
}

/// What one thread is given.
#[derive(Drop)]
pub(super) struct Task<'a> {
    role: Role,
    heap_seat: HeapSeat,
    queue_seat: QueueSeat,
    cleaning: CleaningStation<'a>,
}

/// What one thread leaves: what it kept or took, or why it gave up, and its seats.
#[derive(Drop)]
pub(super) struct Left {
    noted: Result<Vec<ObjNo>, Fault>,
    heap_seat: HeapSeat,
    queue_seat: QueueSeat,
}

/// That a thread leaves seats of these.
#[derive(Clone, Copy)]
pub(super) struct SeatsOf<'a>(pub(super) &'a Shared);

impl<'a> Promise<Left> for SeatsOf<'a> {
    ghost kept_by = { λ seats left. IsLeftAt seats.0.now left };
}

/// Counts its thread as ended when it is dropped.
struct Ending<'a>(&'a AtomicU32);

impl Drop for Ending<'_> {
    fn drop(self) {
        self.0.fetch_sub(1, Ordering::SeqCst);
        let Ending(_) = self;
    }
}

/// What each thread is given, with seats that are split off these.
pub(super) fn tasks<'a>(
    alloc: Global,
    shared: &Shared,
    heap_seat: &mut HeapSeat,
    queue_seat: &mut QueueSeat,
    stations: Vec<CleaningStation<'a>>,
) -> Result<Vec<Task<'a>>, AllocError>
    requires seats { IsHeapSeat shared.now.heap heap_seat.old × IsQueueSeat shared.now.queue queue_seat.old }
    requires stations { All (λ station. IsCleanSeated station) stations.items }
    ensures seats { IsHeapSeat shared.now.heap heap_seat.new × IsQueueSeat shared.now.queue queue_seat.new }
    ensures seated { IfOk result (λ tasks. All (λ task. IsSeatedAt shared.now task) tasks.items) }
{
    let mut tasks = Vec::new(alloc);
    let mut thread: u32 = 0;
    for cleaning in stations {
        let role = role_of(thread, shared.options);
        tasks.push(task_of(shared, heap_seat, queue_seat, role, cleaning))?;
        thread = thread.saturating_add(1);
    }
    Ok(tasks)
}

/// What one thread of this role is given.
fn task_of<'a>(
    shared: &Shared,
    heap_seat: &mut HeapSeat,
    queue_seat: &mut QueueSeat,
    role: Role,
    cleaning: CleaningStation<'a>,
) -> Task<'a>
    requires seats { IsHeapSeat shared.now.heap heap_seat.old × IsQueueSeat shared.now.queue queue_seat.old }
    requires station { IsCleanSeated cleaning }
    ensures seats { IsHeapSeat shared.now.heap heap_seat.new × IsQueueSeat shared.now.queue queue_seat.new }
    ensures seated { IsSeatedAt shared.now result }
{
    Task {
        role,
        heap_seat: shared.heap.split(heap_seat),
        queue_seat: shared.queue.split(queue_seat),
        cleaning,
    }
}

/// What the thread of this number is for: the first are mutators, the last pollers.
fn role_of(thread: u32, options: StressOptions) -> Role {
    let others = options.mutators.saturating_add(options.workers);
    if thread < options.mutators {
        Role::Mutate {
            mutator: MutNo(thread),
            rounds: options.rounds,
        }
    } else if thread < others {
        Role::Work(WorkerNo(thread - options.mutators))
    } else {
        Role::Poll(MutNo(thread.saturating_sub(options.workers)))
    }
}

/// What one thread leaves at its end. A fault stops the whole run. It counts as ended before it gives back what it
/// holds.
pub(super) fn left_by<'a, R: Wait>(
    rt: &R,
    alloc: Global,
    shared: &'a Shared,
    tally: &'a Tally,
    task: Task,
) -> Left
    requires { IsSeatedAt shared.now task }
    ensures { IsLeftAt shared.now result }
{
    let Task {
        role,
        heap_seat,
        queue_seat,
        mut cleaning,
    } = task;
    let ending = Ending(count_of(&role, &shared.running));
    let mut station = Station::new(alloc, shared, tally, heap_seat, queue_seat);
    let (mut noted, mut holds) = (Vec::new(alloc), Vec::new(alloc));
    let answer = if shared.gate.pass(rt) {
        act(
            rt,
            role,
            &mut station,
            &mut cleaning,
            &mut noted,
            &mut holds,
        )
    } else {
        Err(Fault::NoMemory)
    };
    if answer.is_err() {
        station.stop();
    }
    drop(ending);
    station.release_all(rt, holds);
    let (heap_seat, queue_seat) = station.into_seats();
    Left {
        noted: answer.map(|()| noted),
        heap_seat,
        queue_seat,
    }
}

/// The count of the threads of this kind.
fn count_of<'a>(role: &Role, running: &'a Running) -> &'a AtomicU32 {
    match *role {
        Role::Mutate { .. } => &running.mutators,
        Role::Work(_) => &running.workers,
        Role::Poll(_) => &running.pollers,
    }
}

/// What one thread does once all are there.
fn act<R: Wait>(
    rt: &R,
    role: Role,
    station: &mut Station,
    cleaning: &mut CleaningStation,
    noted: &mut Vec<ObjNo>,
    holds: &mut Vec<Hold>,
) -> Result<(), Fault>
    requires { IsSeated station.old × IsCleanSeated cleaning.old }
    ensures { StaysSeated station.old station.new }
{
    match role {
        Role::Mutate { mutator, rounds } => {
            station.mutate(rt, mutator, rounds, cleaning, noted, holds)
        }
        Role::Work(worker) => station.work(rt, worker, cleaning),
        Role::Poll(mutator) => station.poll(rt, mutator, cleaning, noted),
    }
}

/// Takes in the seats of all that have ended, and gives what each kept or took.
pub(super) fn joined(
    alloc: Global,
    shared: &Shared,
    heap_seat: &mut HeapSeat,
    queue_seat: &mut QueueSeat,
    all: Vec<Left>,
) -> Result<Vec<Vec<ObjNo>>, Fault>
    requires seats { IsHeapSeat shared.now.heap heap_seat.old × IsQueueSeat shared.now.queue queue_seat.old }
    requires left { All (λ left. IsLeftAt shared.now left) all.items }
    ensures { IsHeapSeat shared.now.heap heap_seat.new × IsQueueSeat shared.now.queue queue_seat.new }
{
    let mut lists = Vec::new(alloc);
    for left in all {
        let Left {
            noted,
            heap_seat: own_heap_seat,
            queue_seat: own_queue_seat,
        } = left;
        shared.heap.join(heap_seat, own_heap_seat);
        shared.queue.join(queue_seat, own_queue_seat);
        let Ok(()) = lists.push(noted?) else {
            return Err(Fault::NoMemory);
        };
    }
    Ok(lists)
}
