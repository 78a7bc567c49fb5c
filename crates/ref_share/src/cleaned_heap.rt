//! All that a program of one thread uses: a heap with one queue, and the cleaner that the queue tells what is gone.

ghost use Rattle.std.specs.Prelude.{◌≡◌, ℕ, [], ◌∷◌, Err, IfOk};
ghost use Rattle.ref_base.specs.declared.fault.Fault.TheVariants.{NoSuchActor};
ghost use Rattle.ref_base.specs.declared.plain_step.PlainStep.TheVariants.{New, Refer, Drop, RefersTo};
ghost use Rattle.ref_base.specs.declared.urgency.Urgency.TheVariants.{Normal, Urgent};
ghost use Rattle.ref_objects.specs.Grounds.{starting_refusal};
ghost use Rattle.ref_share.specs.CleanSeats.{clean_view};
ghost use Rattle.ref_share.specs.CleanedHeaps.{HasSeats, IsNewCleanedHeap, IsEnded};
ghost use Rattle.ref_share.specs.Cleanings.{CleansNow, IsOutside, LooksOnce, RegistersApart, Unregisters};
ghost use Rattle.ref_share.specs.declared.answers.ShareFault.TheVariants.{Refused};
ghost use Rattle.ref_share.specs.CleanLoops.{GoesOn};
ghost use Rattle.ref_share.specs.Cycles.{Cycles};
ghost use Rattle.ref_share.specs.HeapCalls.{Performs};
ghost use Rattle.ref_share.specs.HeapSeats.{heap_view};
ghost use Rattle.ref_share.specs.QueueSeats.{queue_view};
ghost use Rattle.ref_share.specs.SeatCalls.{MakesUnless};
ghost use Rattle.ref_share.specs.WantsOfRoom.{DoesAfter};

use crate::endings::end_both;
use crate::{
    CleanSeat, Cleanable, Cleaned, Gate, HeapSeat, QueueSeat, ShareFault, SharedCleaner,
    SharedHeap, SharedQueue, Task, cycle_one, end_queue, make_or_collect,
};
use ref_base::{
    Batch, Config, Fault, MutNo, PlainStep, QueueNo, Reply, SlotNo, Strength, Urgency, WorkerNo,
};
use ref_clear::Notice;
use ref_objects::Hold;
use ref_queue::Job;
use std::alloc::Global;
use std::slice;
use std::sync::Wait;

const MUTATOR: MutNo = MutNo(0);

const QUEUE: QueueNo = QueueNo(0);

const WORKER: WorkerNo = WorkerNo(0);

/// A heap, its queue 0, and the cleaner that this queue tells what is gone, with a seat of each, for a program of one
/// thread. That thread is mutator 0, and worker 0 where it collects. It must be ended by `end`, since the holds in
/// queue and cleaner must be given up.
///
/// Calls of the heap that it has not are made of its parts, as
/// `heap.heap.hold(rt, &mut heap.heap_seat, mutator, slot)`. Queue and cleaner are its own: no call polls the queue but
/// the cleaner's, so that no notice is lost to another.
pub struct CleanedHeap<J = Job> {
    pub heap: SharedHeap,
    pub heap_seat: HeapSeat,
    pub(crate) queue: SharedQueue,
    pub(crate) queue_seat: QueueSeat,
    pub(crate) cleaner: SharedCleaner<J>,
    pub(crate) clean_seat: CleanSeat<J>,
}

impl<J: Task> CleanedHeap<J> {
    /// A heap without objects, its number 0, with an empty queue and a cleaner without jobs. Tried in this order:
    /// `BadConfig`, `NoMemory`.
    pub fn new(alloc: Global, config: Config) -> Result<Self, Fault>
        ensures made { IfOk result (λ made. IsNewCleanedHeap config made) }
        ensures seats { IfOk result (λ made. HasSeats made) }
        ensures refused { MakesUnless (starting_refusal config (record { obj = 1; cycle = 0; page = 1 })) result }
    {
        let (heap, heap_seat) = SharedHeap::new(alloc, config, 0)?;
        let (queue, queue_seat) = SharedQueue::new(alloc, QUEUE)?;
        match SharedCleaner::new(alloc, QUEUE) {
            Ok((cleaner, clean_seat)) => Ok(CleanedHeap {
                heap,
                heap_seat,
                queue,
                queue_seat,
                cleaner,
                clean_seat,
            }),
            Err(fault) => {
                end_queue(queue.finish(queue_seat));
                Err(fault)
            }
        }
    }

    /// Does a step by which neither a hold nor a notice changes hands, as `SharedHeap::perform`: a refusal is an `Err`,
    /// of the heap's own or `TurnsSpent`. What follows is such a step of mutator 0.
    pub fn perform<R: Wait>(&mut self, rt: &R, step: PlainStep) -> Result<Reply, Fault>
        requires { HasSeats self.old }
        ensures seats { HasSeats self.new }
        ensures performs { Performs (heap_view self.old.heap_seat) step result (heap_view self.new.heap_seat) }
        ensures others { self.new ≡ record self.old { heap_seat = self.new.heap_seat } }
    {
        self.heap.perform(rt, &mut self.heap_seat, step)
    }

    /// Makes an object with so many fields, all of them null, and the slot then holds it. The reply is `Object`.
    pub fn make<R: Wait>(&mut self, rt: &R, slot: SlotNo, fields: u32) -> Result<Reply, Fault>
        requires { HasSeats self.old }
        ensures seats { HasSeats self.new }
        ensures performs { Performs (heap_view self.old.heap_seat) (New 0 slot fields) result
            (heap_view self.new.heap_seat) }
        ensures others { self.new ≡ record self.old { heap_seat = self.new.heap_seat } }
    {
        let mutator = MUTATOR;
        let step = PlainStep::New {
            mutator,
            slot,
            fields,
        };
        self.perform(rt, step)
    }

    /// Makes an object as `make` does. Where the heap is full a cycle comes first, and then an urgent one, as
    /// `make_or_collect` tells. The notices of what they clear stand in the queue then, for `clean_some`. The batch goes
    /// and comes back as from `cycle`.
    pub fn make_or_collect<R: Wait>(
        &mut self,
        rt: &R,
        slot: SlotNo,
        fields: u32,
        now: u64,
        batch: Batch<Notice>,
    ) -> (Result<Reply, ShareFault>, Batch<Notice>)
        requires seats { HasSeats self.old }
        requires empty { batch ≡ [] }
        ensures seats { HasSeats self.new }
        ensures does { DoesAfter (self.old.queue ∷ []) 0 now (New 0 slot fields) (Normal ∷ Urgent ∷ [])
            (heap_view self.old.heap_seat) (self.old.queue_seat ∷ []) result.0 result.1
            (heap_view self.new.heap_seat) (self.new.queue_seat ∷ []) }
        ensures empty { IfOk result.0 (λ _. result.1 ≡ []) }
        ensures others { self.new ≡ record self.old {
          heap_seat = self.new.heap_seat;
          queue_seat = self.new.queue_seat;
        } }
    {
        let queues = slice::from_ref(&self.queue);
        let seats = slice::from_mut(&mut self.queue_seat);
        let step = PlainStep::New {
            mutator: MUTATOR,
            slot,
            fields,
        };
        make_or_collect(
            rt,
            &self.heap,
            &mut self.heap_seat,
            queues,
            seats,
            WORKER,
            now,
            step,
            batch,
        )
    }

    /// Makes a reference to what the source slot holds, and the slot then holds it. The reply is `Object`.
    pub fn refer<R: Wait>(
        &mut self,
        rt: &R,
        strength: Strength,
        slot: SlotNo,
        source: SlotNo,
        queue: Option<QueueNo>,
    ) -> Result<Reply, Fault>
        requires { HasSeats self.old }
        ensures seats { HasSeats self.new }
        ensures performs { Performs (heap_view self.old.heap_seat) (Refer 0 strength slot source queue 0) result
            (heap_view self.new.heap_seat) }
        ensures others { self.new ≡ record self.old { heap_seat = self.new.heap_seat } }
    {
        let step = PlainStep::Refer {
            mutator: MUTATOR,
            strength,
            slot,
            source,
            queue,
            fields: 0,
        };
        self.perform(rt, step)
    }

    /// Empties the slot. The reply is `Done`.
    pub fn empty<R: Wait>(&mut self, rt: &R, slot: SlotNo) -> Result<Reply, Fault>
        requires { HasSeats self.old }
        ensures seats { HasSeats self.new }
        ensures performs { Performs (heap_view self.old.heap_seat) (Drop 0 slot) result
            (heap_view self.new.heap_seat) }
        ensures others { self.new ≡ record self.old { heap_seat = self.new.heap_seat } }
    {
        let mutator = MUTATOR;
        self.perform(rt, PlainStep::Drop { mutator, slot })
    }

    /// Whether the reference is to what the other slot holds, or cleared where that is empty. The reply is `Refers`.
    pub fn refers_to<R: Wait>(
        &mut self,
        rt: &R,
        reference: SlotNo,
        other: SlotNo,
    ) -> Result<Reply, Fault>
        requires { HasSeats self.old }
        ensures seats { HasSeats self.new }
        ensures performs { Performs (heap_view self.old.heap_seat) (RefersTo 0 reference other) result
            (heap_view self.new.heap_seat) }
        ensures others { self.new ≡ record self.old { heap_seat = self.new.heap_seat } }
    {
        let mutator = MUTATOR;
        let step = PlainStep::RefersTo {
            mutator,
            reference,
            other,
        };
        self.perform(rt, step)
    }

    /// Registers a job for what the source slot holds, as `SharedCleaner::register_apart`: it runs once, in a
    /// `clean_some` after a cycle found the object dead, or before that by `clean`. The other slot is used on the way,
    /// and is empty afterwards: what it held is let go.
    pub fn register<R: Wait>(
        &mut self,
        rt: &R,
        source: SlotNo,
        slot: SlotNo,
        job: J,
    ) -> Result<Cleanable, (ShareFault, J)>
        requires { HasSeats self.old }
        ensures seats { HasSeats self.new }
        ensures registers { RegistersApart job (clean_view self.old.clean_seat) self.old.cleaner.frame 0 source slot
            (heap_view self.old.heap_seat) result (heap_view self.new.heap_seat) (clean_view self.new.clean_seat) }
        ensures others { self.new ≡ record self.old {
          heap_seat = self.new.heap_seat;
          clean_seat = self.new.clean_seat;
        } }
    {
        let CleanedHeap {
            heap,
            heap_seat,
            cleaner,
            clean_seat,
            ..
        } = self;
        cleaner.register_apart(rt, clean_seat, heap, heap_seat, MUTATOR, source, slot, job)
    }

    /// Runs the job now, as `SharedCleaner::clean`, unless it was taken before. The slot is used on the way, and is
    /// empty afterwards, as far as turns are left: what it held is let go.
    pub fn clean<R: Wait>(
        &mut self,
        rt: &R,
        slot: SlotNo,
        cleanable: Cleanable,
    ) -> Result<Cleaned, ShareFault>
        requires { HasSeats self.old }
        ensures seats { HasSeats self.new }
        ensures others { self.new
            ≡ record self.old { heap_seat = self.new.heap_seat; clean_seat = self.new.clean_seat } }
        ensures outside { IsOutside self.old.heap.frame.config 0 slot → (result ≡ Err (Refused NoSuchActor))
            × (clean_view self.new.clean_seat ≡ clean_view self.old.clean_seat)
            × (heap_view self.new.heap_seat ≡ heap_view self.old.heap_seat) }
        ensures cleans { ¬ (IsOutside self.old.heap.frame.config 0 slot)
            → CleansNow J.ran cleanable.obj 0 slot
            (heap_view self.old.heap_seat) (clean_view self.old.clean_seat) result (heap_view self.new.heap_seat)
            (clean_view self.new.clean_seat) }
    {
        let CleanedHeap {
            heap,
            heap_seat,
            cleaner,
            clean_seat,
            ..
        } = self;
        cleaner.clean(rt, clean_seat, heap, heap_seat, MUTATOR, slot, cleanable)
    }

    /// Takes the job out, and doesn't run it, as `SharedCleaner::unregister`: it never runs then. None where it was
    /// taken before.
    pub fn unregister<R: Wait>(
        &mut self,
        rt: &R,
        cleanable: Cleanable,
    ) -> Result<Option<(J, Option<Hold>)>, ShareFault>
        requires { HasSeats self.old }
        ensures seats { HasSeats self.new }
        ensures others { self.new
            ≡ record self.old { heap_seat = self.new.heap_seat; clean_seat = self.new.clean_seat } }
        ensures unregisters { Unregisters cleanable.obj (heap_view self.old.heap_seat)
            (clean_view self.old.clean_seat) result (heap_view self.new.heap_seat) (clean_view self.new.clean_seat) }
    {
        let CleanedHeap {
            heap,
            heap_seat,
            cleaner,
            clean_seat,
            ..
        } = self;
        cleaner.unregister(rt, clean_seat, heap, heap_seat, cleanable)
    }

    /// Whether the job is still registered, as `SharedCleaner::is_registered`.
    pub fn is_registered<R: Wait>(
        &mut self,
        rt: &R,
        cleanable: Cleanable,
    ) -> Result<bool, ShareFault>
        requires { HasSeats self.old }
        ensures seats { HasSeats self.new }
        ensures others { self.new ≡ record self.old { clean_seat = self.new.clean_seat } }
        ensures looks { LooksOnce (clean_view self.old.clean_seat) cleanable.obj result
            (clean_view self.new.clean_seat) }
    {
        self.cleaner
            .is_registered(rt, &mut self.clean_seat, cleanable)
    }

    /// One whole cycle, as `cycle`, by worker 0: what it finds dead is cleared, told to its queue, and freed. The batch
    /// goes and comes back as there. Notices that it holds with a fault can't be put in any more: `end_batch` gives
    /// them up, and their jobs run at `end`.
    pub fn cycle<R: Wait>(
        &mut self,
        rt: &R,
        now: u64,
        urgency: Urgency,
        batch: Batch<Notice>,
    ) -> (Result<(), ShareFault>, Batch<Notice>)
        requires seats { HasSeats self.old }
        requires empty { batch ≡ [] }
        ensures seats { HasSeats self.new }
        ensures cycles { Cycles (self.old.queue ∷ []) 0 now urgency (heap_view self.old.heap_seat)
            (self.old.queue_seat ∷ []) result.0 result.1 (heap_view self.new.heap_seat) (self.new.queue_seat ∷ []) }
        ensures empty { IfOk result.0 (λ _. result.1 ≡ []) }
        ensures others { self.new ≡ record self.old {
          heap_seat = self.new.heap_seat;
          queue_seat = self.new.queue_seat;
        } }
    {
        cycle_one(
            rt,
            &self.heap,
            &mut self.heap_seat,
            &self.queue,
            &mut self.queue_seat,
            WORKER,
            now,
            urgency,
            batch,
        )
    }

    /// Runs the jobs of what the queue tells, as `SharedCleaner::clean_some`, and answers how many that were.
    pub fn clean_some<R: Wait, G: Gate>(&mut self, rt: &R, gate: &G) -> Result<u64, ShareFault>
        requires { HasSeats self.old }
        ensures seats { HasSeats self.new }
        ensures goes { GoesOn (queue_view self.old.queue_seat) (heap_view self.old.heap_seat)
            (clean_view self.old.clean_seat) result (queue_view self.new.queue_seat) (heap_view self.new.heap_seat)
            (clean_view self.new.clean_seat) }
        ensures others { self.new ≡ record self.old {
          heap_seat = self.new.heap_seat;
          queue_seat = self.new.queue_seat;
          clean_seat = self.new.clean_seat;
        } }
    {
        self.cleaner.clean_some(
            rt,
            &mut self.clean_seat,
            &self.heap,
            &mut self.heap_seat,
            &self.queue,
            &mut self.queue_seat,
            gate,
        )
    }
}

impl CleanedHeap<Job> {
    /// Ends all of it: notices that stand are given up, and jobs that are still registered are run, each between the
    /// gate's two calls. How many notices that were. Takes no memory but what the jobs take.
    pub fn end<G: Gate>(self, gate: &G) -> usize
        requires { HasSeats self }
        ensures { IsEnded (λ job. (answer : ℕ)
            × ⟦<Box<dyn FnOnce(u64) -> u64 + Send> as FnOnce(u64) -> u64>⟧.post job.action job.number answer) self result }
    {
        let CleanedHeap {
            heap: _heap,
            heap_seat: _heap_seat,
            queue,
            queue_seat,
            cleaner,
            clean_seat,
        } = self;
        end_both(queue, queue_seat, cleaner, clean_seat, gate)
    }
}
