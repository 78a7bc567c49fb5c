//! The collector's thread.

ghost use Rattle.std.specs.Prelude.{◌≡◌};
ghost use Rattle.ref_share.specs.Collectors.{AreOwn, HasRun, HasReturned, collector_of};
ghost use Rattle.ref_share.specs.Cycles.{CyclesAlone, RunsCycles};
ghost use Rattle.ref_share.specs.HeapSeats.{heap_view};
ghost use Rattle.ref_share.specs.Users.{AtEachPlace, HasClosed};
ghost use Rattle.ref_turn.specs.Seats.{Begins};

use crate::{
    HeapSeat, HeapUser, QueueSeat, QueueUsers, ShareFault, SharedHeap, SharedQueue, Stop, cycle,
    end_batch,
};
use ref_base::{Batch, Fault, MutNo, Urgency, WorkerNo};
use std::alloc::{Allocator, Global};
use std::sync::Wait;
use std::thread;
use std::thread::Threads;

/// One worker of a collector, with the heap, and the queues that it tells.
#[derive(Drop)]
pub struct Collector<'a, A: Allocator + Copy = Global> {
    alloc: A,
    user: HeapUser<'a, A>,
    queues: QueueUsers<'a, A>,
    worker: WorkerNo,
}

impl<'a, A: Allocator + Copy> Collector<'a, A> {
    /// The worker of this number, on the user's heap, with a seat of its own. The queues are those of the heap's
    /// configuration, in order. Takes no memory; each cycle takes that of a batch.
    pub fn new<'h: 'a>(
        alloc: A,
        user: &mut HeapUser<'h, A>,
        queues: QueueUsers<'a, A>,
        worker: WorkerNo,
    ) -> Self
        ensures user { user.new ≡ record user.old { seat = user.new.seat } }
        ensures seat { heap_view user.new.seat ≡ heap_view user.old.seat }
        ensures own { result.user ≡ record user.old { seat = result.user.seat } }
        ensures begins { Begins (heap_view user.old.seat) (heap_view result.user.seat) }
        ensures queues { result.queues ≡ queues.entry }
        ensures worker { result.worker ≡ worker }
    {
        let user = user.another();
        Collector {
            alloc,
            user,
            queues,
            worker,
        }
    }

    /// One whole cycle, as `cycle`. Its batch is made for it, and where a fault leaves notices in that, they are given
    /// up. `Refused(NoMemory)` where there is no memory for the batch: then nothing was done.
    pub fn cycle<R: Wait>(&mut self, rt: &R, now: u64, urgency: Urgency) -> Result<(), ShareFault>
        ensures user { self.new.user ≡ record self.old.user { seat = self.new.user.seat } }
        ensures same { self.new.queues.queues ≡ self.old.queues.queues }
        ensures worker { self.new.worker ≡ self.old.worker }
        ensures cycles { CyclesAlone self.old.queues.queues self.old.worker now urgency
            (heap_view self.old.user.seat) self.old.queues.seats result (heap_view self.new.user.seat)
            self.new.queues.seats }
    {
        let batch = Batch::new(self.alloc)?;
        let HeapUser { heap, seat, .. } = &mut self.user;
        let QueueUsers { queues, seats } = &mut self.queues;
        let (answer, left) = cycle(
            rt,
            heap,
            seat,
            queues,
            seats,
            self.worker,
            now,
            urgency,
            batch,
        );
        end_batch(left);
        answer
    }

    /// Makes cycles, none of them urgent, until one began after the stop was set. The clock of the first is 0, and of
    /// each that follows by one more. It ends with the first fault of a cycle.
    pub fn run_cycles<R: Wait>(&mut self, rt: &R, stop: &Stop) -> Result<(), Fault>
        ensures user { self.new.user ≡ record self.old.user { seat = self.new.user.seat } }
        ensures same { self.new.queues.queues ≡ self.old.queues.queues }
        ensures worker { self.new.worker ≡ self.old.worker }
        ensures runs { RunsCycles self.old.queues.queues self.old.worker (heap_view self.old.user.seat)
            self.old.queues.seats result (heap_view self.new.user.seat) self.new.queues.seats }
    {
        for now in 0..u64::MAX {
            let is_last = stop.is_set();
            if let Err(fault) = self.cycle(rt, now, Urgency::Normal) {
                return Err(fault.into_fault());
            }
            if is_last {
                break;
            }
        }
        Ok(())
    }

    /// Closes the queues that it tells, as `QueueUsers::close`.
    pub fn close<R: Wait>(&mut self, rt: &R)
        ensures user { self.new.user ≡ self.old.user }
        ensures worker { self.new.worker ≡ self.old.worker }
        ensures same { self.new.queues.queues ≡ self.old.queues.queues }
        ensures closes { AtEachPlace HasClosed self.old.queues.seats self.new.queues.seats }
    {
        self.queues.close(rt);
    }
}

/// A collector whose cycles have ended, and how they did.
#[derive(Drop)]
pub struct Collected<'a> {
    /// The collector, which has closed its queues.
    pub collector: Collector<'a>,
    /// `Ok` where its cycles ended since it was told to stop, and else the fault of the cycle that failed.
    pub ended: Result<(), Fault>,
}

// What a collector has beside heap and queues. A closure's clauses say nothing where it takes along a value that
// names a lifetime. That is why this goes to the thread, and comes back, by itself.
#[derive(Drop)]
struct Own {
    alloc: Global,
    mutator: MutNo,
    worker: WorkerNo,
    heap: HeapSeat,
    queues: Vec<QueueSeat>,
}

impl<'a> Collector<'a> {
    /// Runs the program, and in a thread of its own cycles, as `run_cycles`, until the program has ended. Then it
    /// closes the queues, so that who waits for them goes on. What the program answered, and the collector. Where no
    /// thread can be made, the cycle comes after the program.
    pub fn run_beside<R: Threads + Wait + Sync, F: FnOnce() -> T, T>(
        self,
        rt: &R,
        program: F,
    ) -> (T, Collected<'a>)
        requires { F.pre program }
        ensures program { F.post program result.0 }
        ensures collected { HasRun self.entry result.1.ended result.1.collector }
    {
        let (heap, queues, own) = self.apart();
        let (ran, (own, ended)) = go_beside(rt, heap, queues, own, program);
        let collector = Collector::of(heap, queues, own);
        (ran, Collected { collector, ended })
    }

    /// Runs the program and cycles, as `run_beside`, and in a third thread the readers, which go on until the queues
    /// are closed. What the program and the readers answered, and the collector. Where no thread can be made, the
    /// readers come last.
    pub fn run_with_readers<
        R: Threads + Wait + Sync,
        F: FnOnce() -> T,
        G: FnOnce() -> U + Send,
        T,
        U: Send,
    >(self, rt: &R, program: F, readers: G) -> (T, U, Collected<'a>)
        requires { F.pre program × G.pre readers }
        ensures program { F.post program result.0 }
        ensures readers { G.post readers result.1 }
        ensures collected { HasRun self.entry result.2.ended result.2.collector }
    {
        let (heap, queues, own) = self.apart();
        let (read, (ran, (own, ended))) = thread::join(
            rt,
            readers,
            || -> (T, (Own, Result<(), Fault>))
                requires { F.pre program × AreOwn heap.now queues.now own }
                ensures { F.post program result.0
                    × HasReturned heap.entry.now queues.entry.now own result.1.1 result.1.0 }
            { go_beside(rt, heap, queues, own, program) },
        );
        let collector = Collector::of(heap, queues, own);
        (ran, read, Collected { collector, ended })
    }

    fn apart(self) -> (&'a SharedHeap, &'a [SharedQueue], Own)
        ensures parts { self.entry ≡ collector_of result.0.now result.1.now result.2 }
        ensures own { AreOwn result.0.now result.1.now result.2 }
    {
        let Collector {
            alloc,
            user,
            queues,
            worker,
        } = self;
        let HeapUser {
            heap,
            seat,
            mutator,
        } = user;
        let QueueUsers { queues, seats } = queues;
        let own = Own {
            alloc,
            mutator,
            worker,
            heap: seat,
            queues: seats,
        };
        (heap, queues, own)
    }

    fn of(heap: &'a SharedHeap, queues: &'a [SharedQueue], own: Own) -> Collector<'a>
        requires { AreOwn heap.now queues.now own }
        ensures { result ≡ collector_of heap.now queues.now own }
    {
        let Own {
            alloc,
            mutator,
            worker,
            heap: seat,
            queues: seats,
        } = own;
        Collector {
            alloc,
            user: HeapUser {
                heap,
                seat,
                mutator,
            },
            queues: QueueUsers { queues, seats },
            worker,
        }
    }
}

// Runs the program, and in a thread of its own the collector of this heap and these queues, until the program has
// ended.
fn go_beside<R: Threads + Wait + Sync, F: FnOnce() -> T, T>(
    rt: &R,
    heap: &SharedHeap,
    queues: &[SharedQueue],
    own: Own,
    program: F,
) -> (T, (Own, Result<(), Fault>))
    requires { F.pre program × AreOwn heap.now queues.now own }
    ensures program { F.post program result.0 }
    ensures left { HasReturned heap.now queues.now own result.1.1 result.1.0 }
{
    let has_ended = Stop::new();
    let (left, ran) = thread::join(
        rt,
        || -> (Own, Result<(), Fault>)
            requires { AreOwn heap.now queues.now own }
            ensures { HasReturned heap.entry.now queues.entry.now own result.1 result.0 }
        { run(rt, heap, queues, own, &has_ended) },
        || -> T
            requires { F.pre program }
            ensures { F.post program result }
        {
            let ran = program();
            has_ended.set();
            ran
        },
    );
    (ran, left)
}

// Makes cycles until the stop is set, and then closes the queues.
fn run<R: Wait>(
    rt: &R,
    heap: &SharedHeap,
    queues: &[SharedQueue],
    own: Own,
    stop: &Stop,
) -> (Own, Result<(), Fault>)
    requires { AreOwn heap.now queues.now own }
    ensures { HasReturned heap.now queues.now own result.1 result.0 }
{
    let mut collector = Collector::of(heap, queues, own);
    let ended = collector.run_cycles(rt, stop);
    collector.close(rt);
    let (_, _, own) = collector.apart();
    (own, ended)
}
