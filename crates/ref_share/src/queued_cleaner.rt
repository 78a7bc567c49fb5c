//! A cleaner that keeps the queue which tells it what is gone, for a heap of this one queue.

ghost use Rattle.std.specs.Prelude.{◌≡◌, ℕ, [], ◌∷◌, OnErr, Err, IfOk};
ghost use Rattle.ref_base.specs.declared.fault.Fault.TheVariants.{NoMemory, NoSuchActor};
ghost use Rattle.ref_share.specs.CleanLoops.{GoesOn, GoesRound};
ghost use Rattle.ref_share.specs.CleanSeats.{clean_view};
ghost use Rattle.ref_share.specs.CleanedHeaps.{AreEnded};
ghost use Rattle.ref_share.specs.Cleanings.{CleansNow, IsOutside, LooksOnce, RegistersApart, Unregisters};
ghost use Rattle.ref_share.specs.Cycles.{Cycles};
ghost use Rattle.ref_share.specs.Deliveries.{DeliversAll};
ghost use Rattle.ref_share.specs.HeapSeats.{heap_view, IsHeapSeat};
ghost use Rattle.ref_share.specs.QueueCalls.{ClosesQueue};
ghost use Rattle.ref_share.specs.QueueSeats.{queue_view};
ghost use Rattle.ref_share.specs.QueuedCleaners.{BeginsBoth, IsNewQueuedCleaner, IsQueuedSeat, TookInBoth};
ghost use Rattle.ref_share.specs.declared.answers.ShareFault.TheVariants.{Refused};

use crate::endings::end_both;
use crate::{
    CleanSeat, Cleanable, Cleaned, Gate, HeapSeat, QueueSeat, ShareFault, SharedCleaner,
    SharedHeap, SharedQueue, Task, cycle_one, deliver_all, end_queue,
};
use ref_base::{Batch, Fault, MutNo, QueueNo, SlotNo, Urgency, WorkerNo};
use ref_clear::Notice;
use ref_objects::Hold;
use ref_queue::Job;
use std::alloc::Global;
use std::slice;
use std::sync::Wait;

const QUEUE: QueueNo = QueueNo(0);

/// A cleaner that threads share, with the queue that tells it what is gone: queue 0, the only one of its heap. The
/// queue is its own, so that no call polls it but the cleaner's, and no notice is lost to another. It must be ended by
/// `end`, since the holds in queue and cleaner must be given up.
pub struct QueuedCleaner<J = Job> {
    pub(crate) cleaner: SharedCleaner<J>,
    pub(crate) queue: SharedQueue,
}

/// What one thread uses it with.
#[derive(Drop)]
pub struct QueuedSeat<J = Job> {
    pub(crate) clean: CleanSeat<J>,
    pub(crate) queue: QueueSeat,
}

impl<J: Task> QueuedCleaner<J> {
    /// A cleaner without jobs, with an empty queue of the number 0, and their first seat. The one refusal is
    /// `NoMemory`.
    pub fn new(alloc: Global) -> Result<(Self, QueuedSeat<J>), Fault>
        ensures made { IfOk result (λ made. IsNewQueuedCleaner made.0 made.1) }
        ensures seat { IfOk result (λ made. IsQueuedSeat made.0 made.1) }
        ensures err { OnErr result (result ≡ Err NoMemory) }
    {
        let (queue, queue_seat) = SharedQueue::new(alloc, QUEUE)?;
        match SharedCleaner::new(alloc, QUEUE) {
            Ok((cleaner, clean)) => Ok((
                QueuedCleaner { cleaner, queue },
                QueuedSeat {
                    clean,
                    queue: queue_seat,
                },
            )),
            Err(fault) => {
                end_queue(queue.finish(queue_seat));
                Err(fault)
            }
        }
    }

    /// A seat for one thread more. It has seen what this one has.
    pub fn split(&self, seat: &mut QueuedSeat<J>) -> QueuedSeat<J>
        requires { IsQueuedSeat self.now seat.old }
        ensures seat { IsQueuedSeat self.now seat.new × IsQueuedSeat self.now result }
        ensures same { (clean_view seat.new.clean ≡ clean_view seat.old.clean)
            × (queue_view seat.new.queue ≡ queue_view seat.old.queue) }
        ensures begins { BeginsBoth seat.old result }
    {
        QueuedSeat {
            clean: self.cleaner.split(&mut seat.clean),
            queue: self.queue.split(&mut seat.queue),
        }
    }

    /// Takes a seat in: this one has then seen what either had.
    pub fn join(&self, seat: &mut QueuedSeat<J>, other: QueuedSeat<J>)
        requires { IsQueuedSeat self.now seat.old × IsQueuedSeat self.now other }
        ensures seat { IsQueuedSeat self.now seat.new }
        ensures joined { TookInBoth seat.old other seat.new }
    {
        let QueuedSeat { clean, queue } = other;
        self.cleaner.join(&mut seat.clean, clean);
        self.queue.join(&mut seat.queue, queue);
    }

    /// Registers a job for what the source slot holds, as `SharedCleaner::register_apart`: it runs once, by a thread
    /// that cleans after a cycle found the object dead, or before that by `clean`. The other slot is used on the way,
    /// and is empty afterwards: what it held is let go.
    pub fn register<R: Wait>(
        &self,
        rt: &R,
        seat: &mut QueuedSeat<J>,
        heap: &SharedHeap,
        heap_seat: &mut HeapSeat,
        mutator: MutNo,
        source: SlotNo,
        slot: SlotNo,
        job: J,
    ) -> Result<Cleanable, (ShareFault, J)>
        requires { IsQueuedSeat self.now seat.old × IsHeapSeat heap.now heap_seat.old }
        ensures seats { IsQueuedSeat self.now seat.new × IsHeapSeat heap.now heap_seat.new }
        ensures registers { RegistersApart job (clean_view seat.old.clean) self.now.cleaner.frame mutator source slot
            (heap_view heap_seat.old) result (heap_view heap_seat.new) (clean_view seat.new.clean) }
        ensures others { seat.new ≡ record seat.old { clean = seat.new.clean } }
    {
        let clean = &mut seat.clean;
        self.cleaner
            .register_apart(rt, clean, heap, heap_seat, mutator, source, slot, job)
    }

    /// Runs the job now, as `SharedCleaner::clean`, unless it was taken before. The slot is used on the way, and is
    /// empty afterwards, as far as turns are left: what it held is let go.
    pub fn clean<R: Wait>(
        &self,
        rt: &R,
        seat: &mut QueuedSeat<J>,
        heap: &SharedHeap,
        heap_seat: &mut HeapSeat,
        mutator: MutNo,
        slot: SlotNo,
        cleanable: Cleanable,
    ) -> Result<Cleaned, ShareFault>
        requires { IsQueuedSeat self.now seat.old × IsHeapSeat heap.now heap_seat.old }
        ensures seats { IsQueuedSeat self.now seat.new × IsHeapSeat heap.now heap_seat.new }
        ensures others { seat.new ≡ record seat.old { clean = seat.new.clean } }
        ensures outside { IsOutside heap.now.frame.config mutator slot → (result ≡ Err (Refused NoSuchActor))
            × (clean_view seat.new.clean ≡ clean_view seat.old.clean)
            × (heap_view heap_seat.new ≡ heap_view heap_seat.old) }
        ensures cleans { ¬ (IsOutside heap.now.frame.config mutator slot)
            → CleansNow J.ran cleanable.obj mutator slot
            (heap_view heap_seat.old) (clean_view seat.old.clean) result (heap_view heap_seat.new)
            (clean_view seat.new.clean) }
    {
        let clean = &mut seat.clean;
        self.cleaner
            .clean(rt, clean, heap, heap_seat, mutator, slot, cleanable)
    }

    /// Takes the job out, and doesn't run it, as `SharedCleaner::unregister`: it never runs then. None where it was
    /// taken before.
    pub fn unregister<R: Wait>(
        &self,
        rt: &R,
        seat: &mut QueuedSeat<J>,
        heap: &SharedHeap,
        heap_seat: &mut HeapSeat,
        cleanable: Cleanable,
    ) -> Result<Option<(J, Option<Hold>)>, ShareFault>
        requires { IsQueuedSeat self.now seat.old × IsHeapSeat heap.now heap_seat.old }
        ensures seats { IsQueuedSeat self.now seat.new × IsHeapSeat heap.now heap_seat.new }
        ensures others { seat.new ≡ record seat.old { clean = seat.new.clean } }
        ensures unregisters { Unregisters cleanable.obj (heap_view heap_seat.old) (clean_view seat.old.clean) result
            (heap_view heap_seat.new) (clean_view seat.new.clean) }
    {
        self.cleaner
            .unregister(rt, &mut seat.clean, heap, heap_seat, cleanable)
    }

    /// Whether the job is still registered, as `SharedCleaner::is_registered`.
    pub fn is_registered<R: Wait>(
        &self,
        rt: &R,
        seat: &mut QueuedSeat<J>,
        cleanable: Cleanable,
    ) -> Result<bool, ShareFault>
        requires { IsQueuedSeat self.now seat.old }
        ensures seat { IsQueuedSeat self.now seat.new }
        ensures others { seat.new ≡ record seat.old { clean = seat.new.clean } }
        ensures looks { LooksOnce (clean_view seat.old.clean) cleanable.obj result (clean_view seat.new.clean) }
    {
        self.cleaner.is_registered(rt, &mut seat.clean, cleanable)
    }

    /// Runs the jobs of what is gone, as their notices come, until the queue is closed, as `SharedCleaner::clean_loop`,
    /// and answers how many that were. It may never return.
    pub fn clean_loop<R: Wait, G: Gate>(
        &self,
        rt: &R,
        seat: &mut QueuedSeat<J>,
        heap: &SharedHeap,
        heap_seat: &mut HeapSeat,
        gate: &G,
    ) -> Result<u64, ShareFault>
        requires { IsQueuedSeat self.now seat.old × IsHeapSeat heap.now heap_seat.old }
        ensures seats { IsQueuedSeat self.now seat.new × IsHeapSeat heap.now heap_seat.new }
        ensures goes { GoesRound (queue_view seat.old.queue) (heap_view heap_seat.old) (clean_view seat.old.clean)
            result (queue_view seat.new.queue) (heap_view heap_seat.new) (clean_view seat.new.clean) }
    {
        let QueuedSeat { clean, queue } = seat;
        self.cleaner
            .clean_loop(rt, clean, heap, heap_seat, &self.queue, queue, gate)
    }

    /// Runs the jobs whose notices stand now, as `SharedCleaner::clean_some`, and returns how many it ran.
    pub fn clean_some<R: Wait, G: Gate>(
        &self,
        rt: &R,
        seat: &mut QueuedSeat<J>,
        heap: &SharedHeap,
        heap_seat: &mut HeapSeat,
        gate: &G,
    ) -> Result<u64, ShareFault>
        requires { IsQueuedSeat self.now seat.old × IsHeapSeat heap.now heap_seat.old }
        ensures seats { IsQueuedSeat self.now seat.new × IsHeapSeat heap.now heap_seat.new }
        ensures goes { GoesOn (queue_view seat.old.queue) (heap_view heap_seat.old) (clean_view seat.old.clean)
            result (queue_view seat.new.queue) (heap_view heap_seat.new) (clean_view seat.new.clean) }
    {
        let QueuedSeat { clean, queue } = seat;
        self.cleaner
            .clean_some(rt, clean, heap, heap_seat, &self.queue, queue, gate)
    }

    /// One whole cycle, as `cycle`: what it finds dead is cleared, told to the queue, and freed. The heap has no other
    /// queue, by the caller: with the notice of another queue's reference the cycle stops, as `cycle` tells. The batch
    /// goes and comes back as there. Notices that it holds with a fault can't be put in any more: `end_batch` gives
    /// them up, and their jobs run at `end`.
    pub fn cycle<R: Wait>(
        &self,
        rt: &R,
        seat: &mut QueuedSeat<J>,
        heap: &SharedHeap,
        heap_seat: &mut HeapSeat,
        worker: WorkerNo,
        now: u64,
        urgency: Urgency,
        batch: Batch<Notice>,
    ) -> (Result<(), ShareFault>, Batch<Notice>)
        requires seats { IsQueuedSeat self.now seat.old × IsHeapSeat heap.now heap_seat.old }
        requires empty { batch ≡ [] }
        ensures seats { IsQueuedSeat self.now seat.new × IsHeapSeat heap.now heap_seat.new }
        ensures cycles { Cycles (self.now.queue ∷ []) worker now urgency (heap_view heap_seat.old)
            (seat.old.queue ∷ []) result.0 result.1 (heap_view heap_seat.new) (seat.new.queue ∷ []) }
        ensures empty { IfOk result.0 (λ _. result.1 ≡ []) }
        ensures others { seat.new ≡ record seat.old { queue = seat.new.queue } }
    {
        let queue_seat = &mut seat.queue;
        cycle_one(
            rt,
            heap,
            heap_seat,
            &self.queue,
            queue_seat,
            worker,
            now,
            urgency,
            batch,
        )
    }

    /// Hands on all that is pending of the worker, as `deliver_all`: each notice goes into the queue. The heap has no
    /// other queue, by the caller. The batch goes and comes back as from `cycle`.
    pub fn deliver_all<R: Wait>(
        &self,
        rt: &R,
        seat: &mut QueuedSeat<J>,
        heap: &SharedHeap,
        heap_seat: &mut HeapSeat,
        worker: WorkerNo,
        batch: Batch<Notice>,
    ) -> (Result<(), ShareFault>, Batch<Notice>)
        requires seats { IsQueuedSeat self.now seat.old × IsHeapSeat heap.now heap_seat.old }
        requires empty { batch ≡ [] }
        ensures seats { IsQueuedSeat self.now seat.new × IsHeapSeat heap.now heap_seat.new }
        ensures delivers { DeliversAll worker (self.now.queue ∷ []) (heap_view heap_seat.old) (seat.old.queue ∷ [])
            result.0 result.1 (heap_view heap_seat.new) (seat.new.queue ∷ []) }
        ensures empty { IfOk result.0 (λ _. result.1 ≡ []) }
        ensures others { seat.new ≡ record seat.old { queue = seat.new.queue } }
    {
        let queues = slice::from_ref(&self.queue);
        let seats = slice::from_mut(&mut seat.queue);
        deliver_all(rt, heap, heap_seat, queues, seats, worker, batch)
    }

    /// Closes the queue: each `clean_loop` returns once nothing stands in it. True where it was open. As
    /// `SharedQueue::close`.
    pub fn close<R: Wait>(&self, rt: &R, seat: &mut QueuedSeat<J>) -> Result<bool, ShareFault>
        requires { IsQueuedSeat self.now seat.old }
        ensures seat { IsQueuedSeat self.now seat.new }
        ensures closes { ClosesQueue (queue_view seat.old.queue) result (queue_view seat.new.queue) }
        ensures others { seat.new ≡ record seat.old { queue = seat.new.queue } }
    {
        self.queue.close(rt, &mut seat.queue)
    }
}

impl QueuedCleaner<Job> {
    /// Ends it: notices that stand are given up, and jobs that are still registered are run, each between the gate's
    /// two calls. How many notices that were. Takes no memory but what the jobs take.
    pub fn end<G: Gate>(self, seat: QueuedSeat, gate: &G) -> usize
        requires { IsQueuedSeat self seat }
        ensures { AreEnded (λ job. (answer : ℕ)
            × ⟦<Box<dyn FnOnce(u64) -> u64 + Send> as FnOnce(u64) -> u64>⟧.post job.action job.number answer)
            self.queue seat.queue seat.clean result }
    {
        let QueuedCleaner { cleaner, queue } = self;
        let QueuedSeat {
            clean,
            queue: queue_seat,
        } = seat;
        end_both(queue, queue_seat, cleaner, clean, gate)
    }
}
