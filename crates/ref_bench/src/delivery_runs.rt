//! What it costs to deliver a notice from a shared heap to a shared queue, and to take it out there: one by one, or 32
//! at once.

ghost use Rattle.std.specs.Prelude.{◌≡◌, []};
ghost use Rattle.ref_share.specs.HeapSeats.{IsHeapSeat};
ghost use Rattle.ref_share.specs.QueueSeats.{IsQueueSeat};

use crate::heap_runs::{MUTATOR, WORKER};
use crate::letters::{CONFIG, QUEUE};
use crate::timing::{Sample, Timer};
use ref_base::{Batch, Fault, Outs, PlainStep, SlotNo, Strength, Urgency};
use ref_clear::Notice;
use ref_share::{
    Delivery, HeapSeat, Polled, QueueSeat, ShareFault, SharedHeap, SharedQueue, deliver_batch,
    deliver_one, end_queue,
};
use std::alloc::Global;
use std::slice;
use std::sync::Wait;
use std::time::Clock;

/// How many references there are to one dead object: as many as the heap has room for.
const DEAD: u32 = CONFIG.cells - 1;

/// As many notices as go at once.
const MOST: u32 = 32;

/// Makes the object that is to die.
const TARGET: [PlainStep; 1] = [PlainStep::New {
    mutator: MUTATOR,
    slot: SlotNo(0),
    fields: 0,
}];

/// Makes a weak reference to it, which has the one before in a field.
const REFERENCE: [PlainStep; 3] = [
    PlainStep::Refer {
        mutator: MUTATOR,
        strength: Strength::Weak,
        slot: SlotNo(1),
        source: SlotNo(0),
        queue: Some(QUEUE),
        fields: 1,
    },
    PlainStep::Store {
        mutator: MUTATOR,
        object: SlotNo(1),
        field: 0,
        value: SlotNo(2),
    },
    PlainStep::Copy {
        mutator: MUTATOR,
        slot: SlotNo(2),
        source: SlotNo(1),
    },
];

/// The object dies, and a cycle begins.
const DEATH: [PlainStep; 2] = [
    PlainStep::Drop {
        mutator: MUTATOR,
        slot: SlotNo(0),
    },
    PlainStep::Begin {
        now: 0,
        urgency: Urgency::Normal,
    },
];

/// How notices go.
#[derive(Clone, Copy)]
pub enum By {
    One,
    Batch,
}

/// Deliveries of all notices, and the polls that take them.
pub fn deliveries<R: Wait + Clock>(rt: &R, alloc: Global, by: By) -> Result<Sample, Fault> {
    let (heap, heap_seat) = SharedHeap::new(alloc, CONFIG, 0)?;
    let (queue, mut seat) = SharedQueue::new(alloc, QUEUE)?;
    let mut road = Road {
        heap: &heap,
        heap_seat,
        queue: &queue,
        queue_seat: queue.split(&mut seat),
    };
    let sample = match Batch::new(alloc) {
        Ok(batch) => Ok(road.timed(rt, by, batch)),
        Err(fault) => Err(fault),
    };
    drop(road);
    end_queue(queue.finish(seat));
    sample
}

/// One thread's way from a heap to its queue.
#[derive(Drop)]
struct Road<'a> {
    heap: &'a SharedHeap,
    heap_seat: HeapSeat,
    queue: &'a SharedQueue,
    queue_seat: QueueSeat,
}

impl Road<'_> {
    /// How long it takes from all pending to all taken.
    fn timed<R: Wait + Clock>(&mut self, rt: &R, by: By, batch: Batch<Notice>) -> Sample
        requires seats { IsHeapSeat self.old.heap.now self.old.heap_seat
            × IsQueueSeat self.old.queue.now self.old.queue_seat }
        requires empty { batch ≡ [] }
    {
        self.make_all_pending(rt);
        let timer = Timer::start(rt);
        match by {
            By::One => {
                batch.end();
                self.one_by_one(rt);
            }
            By::Batch => self.at_once(rt, batch),
        }
        timer.stop(rt, u64::from(DEAD))
    }

    /// All references are cleared, and pending then.
    fn make_all_pending<R: Wait>(&mut self, rt: &R)
        requires seats { IsHeapSeat self.old.heap.now self.old.heap_seat
            × IsQueueSeat self.old.queue.now self.old.queue_seat }
        ensures seats { IsHeapSeat self.new.heap.now self.new.heap_seat
            × IsQueueSeat self.new.queue.now self.new.queue_seat }
    {
        self.ask(rt, &TARGET, 1);
        self.ask(rt, &REFERENCE, DEAD);
        self.ask(rt, &DEATH, 1);
        self.ask(rt, &[PlainStep::Scan { worker: WORKER }], CONFIG.cells);
        self.ask(rt, &[PlainStep::EndMark], 1);
        self.ask(rt, &[PlainStep::ClearNext { worker: WORKER }], DEAD);
    }

    /// Asks these steps of the heap in turn, so often.
    fn ask<R: Wait>(&mut self, rt: &R, steps: &[PlainStep], times: u32)
        requires seats { IsHeapSeat self.old.heap.now self.old.heap_seat
            × IsQueueSeat self.old.queue.now self.old.queue_seat }
        ensures seats { IsHeapSeat self.new.heap.now self.new.heap_seat
            × IsQueueSeat self.new.queue.now self.new.queue_seat }
    {
        for _ in 0..times {
            for step in steps {
                let _ = self.heap.ask(rt, &mut self.heap_seat, *step);
            }
        }
    }

    fn one_by_one<R: Wait>(&mut self, rt: &R)
        requires seats { IsHeapSeat self.old.heap.now self.old.heap_seat
            × IsQueueSeat self.old.queue.now self.old.queue_seat }
    {
        for _ in 0..DEAD {
            self.deliver(rt);
        }
        for _ in 0..DEAD {
            match self.queue.poll_now(&mut self.queue_seat) {
                Ok(Polled::Took(notice)) => notice.into_hold().leak(),
                Ok(Polled::Empty | Polled::Closed | Polled::TimedOut) => {}
                Err(fault) => {
                    let _ = fault.give_up();
                }
            }
        }
    }

    fn at_once<R: Wait>(&mut self, rt: &R, batch: Batch<Notice>)
        requires seats { IsHeapSeat self.old.heap.now self.old.heap_seat
            × IsQueueSeat self.old.queue.now self.old.queue_seat }
        requires empty { batch ≡ [] }
    {
        let mut batch = self.deliver_pending(rt, batch);
        for _ in 0..DEAD.div_ceil(MOST) {
            let (answer, taken) = self.queue.poll_batch_now(&mut self.queue_seat, MOST, batch);
            if let Err(fault) = answer {
                let _ = fault.give_up();
            }
            batch = emptied(taken);
        }
        batch.end();
    }

    /// Delivers one.
    fn deliver<R: Wait>(&mut self, rt: &R)
        requires { IsHeapSeat self.old.heap.now self.old.heap_seat
            × IsQueueSeat self.old.queue.now self.old.queue_seat }
        ensures { IsHeapSeat self.new.heap.now self.new.heap_seat
            × IsQueueSeat self.new.queue.now self.new.queue_seat }
    {
        let queues = slice::from_ref(self.queue);
        let own = slice::from_mut(&mut self.queue_seat);
        let answer = deliver_one(rt, self.heap, &mut self.heap_seat, queues, own, WORKER);
        give_up(answer);
    }

    /// Delivers all that is pending.
    fn deliver_pending<R: Wait>(&mut self, rt: &R, batch: Batch<Notice>) -> Batch<Notice>
        requires seats { IsHeapSeat self.old.heap.now self.old.heap_seat
            × IsQueueSeat self.old.queue.now self.old.queue_seat }
        requires empty { batch ≡ [] }
        ensures seats { IsHeapSeat self.new.heap.now self.new.heap_seat
            × IsQueueSeat self.new.queue.now self.new.queue_seat }
        ensures empty { result ≡ [] }
    {
        let mut batch = batch;
        for _ in rt.forever() {
            let (is_more, left) = self.deliver_some(rt, batch);
            batch = left;
            if !is_more {
                return batch;
            }
        }
        batch
    }

    /// Delivers as many as go at once. Whether there were any.
    fn deliver_some<R: Wait>(&mut self, rt: &R, batch: Batch<Notice>) -> (bool, Batch<Notice>)
        requires seats { IsHeapSeat self.old.heap.now self.old.heap_seat
            × IsQueueSeat self.old.queue.now self.old.queue_seat }
        requires empty { batch ≡ [] }
        ensures seats { IsHeapSeat self.new.heap.now self.new.heap_seat
            × IsQueueSeat self.new.queue.now self.new.queue_seat }
        ensures empty { result.1 ≡ [] }
    {
        let queues = slice::from_ref(self.queue);
        let own = slice::from_mut(&mut self.queue_seat);
        let (heap, seat) = (self.heap, &mut self.heap_seat);
        let (answer, left) = deliver_batch(rt, heap, seat, queues, own, WORKER, MOST, batch);
        (is_some(answer), emptied(left))
    }
}

/// Spends what a delivery of one answered.
fn give_up(answer: Result<Delivery, ShareFault>) {
    if let Err(fault) = answer {
        let _ = fault.give_up();
    }
}

/// Whether something was delivered.
fn is_some(answer: Result<Option<Outs>, ShareFault>) -> bool {
    match answer {
        Ok(outs) => outs.is_some(),
        Err(fault) => {
            let _ = fault.give_up();
            false
        }
    }
}

/// Gives up the notices of a batch.
fn emptied(batch: Batch<Notice>) -> Batch<Notice>
    ensures { result ≡ [] }
{
    let mut batch = batch;
    while let Some(notice) = batch.take_first() {
        notice.into_hold().leak();
    }
    batch
}
