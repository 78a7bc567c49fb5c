//! What a thread of a stress run works with: what all share, and its own seats.

use crate::gate::Gate;
use crate::stress_options::StressOptions;
use crate::tally::Tally;
use ref_base::{Batch, Fault, MOST_IN_BATCH, MutNo, Parcel, PlainStep, QueueNo, Reply, SlotNo};
use ref_clear::Notice;
use ref_objects::Hold;
use ref_share::{HeapSeat, QueueSeat, ShareFault, SharedHeap, SharedQueue};
use std::alloc::Global;
use std::sync::Wait;
use std::sync::atomic::{AtomicU32, Ordering};
use std::thread;

mod collecting;
mod mutating;
mod polling;

/// The queue of the run.
pub(crate) const QUEUE: QueueNo = QueueNo(0);

/// Where a mutator makes an object, and a poller adopts one.
const NEWEST: SlotNo = SlotNo(0);

/// Each fourth cycle is urgent, and each fourth time workers hand on, and pollers take, as many notices as go at once.
const FOURTH: u64 = 4;

/// How many notices go at once.
const MOST: u32 = MOST_IN_BATCH as u32;

/// What all threads share.
pub(crate) struct Shared {
    pub(crate) heap: SharedHeap,
    pub(crate) queue: SharedQueue,
    pub(crate) gate: Gate,
    pub(crate) running: Running,
    pub(crate) options: StressOptions,
}

/// How many threads have not ended.
#[derive(Drop)]
pub(crate) struct Running {
    pub(crate) mutators: AtomicU32,
    pub(crate) workers: AtomicU32,
    pub(crate) pollers: AtomicU32,
}

/// What one thread works with: what all share, and its own seats.
#[derive(Drop)]
pub(crate) struct Station<'a> {
    alloc: Global,
    shared: &'a Shared,
    tally: &'a Tally,
    heap_seat: HeapSeat,
    queue_seat: QueueSeat,
}

impl<'a> Station<'a> {
    ghost use Rattle.std.specs.Prelude.{◌≡◌};
    ghost use Rattle.refrun.specs.StressSeats.{IsSeated, StaysSeated};

    /// The station of one thread, with these seats.
    pub(crate) fn new(
        alloc: Global,
        shared: &'a Shared,
        tally: &'a Tally,
        heap_seat: HeapSeat,
        queue_seat: QueueSeat,
    ) -> Self
        ensures { result ≡ record {
          alloc = alloc;
          shared = shared.entry;
          tally = tally.entry;
          heap_seat = heap_seat;
          queue_seat = queue_seat;
        } }
    {
        Station {
            alloc,
            shared,
            tally,
            heap_seat,
            queue_seat,
        }
    }

    /// Ends the station, and gives its seats.
    pub(crate) fn into_seats(self) -> (HeapSeat, QueueSeat)
        ensures { result ≡ (self.entry.heap_seat, self.entry.queue_seat) }
    {
        let Station {
            heap_seat,
            queue_seat,
            ..
        } = self;
        (heap_seat, queue_seat)
    }

    /// Stops the rounds of all mutators, so that the run comes to its end.
    pub(crate) fn stop(&self) {
        self.tally.stop();
    }

    /// Waits until no more workers run than this.
    fn wait_for_workers<R: Wait>(&self, rt: &R, most: u32) {
        for _ in rt.forever() {
            if self.shared.running.workers.load(Ordering::SeqCst) <= most {
                return;
            }
            thread::yield_now();
        }
    }

    /// One step of the heap by which neither a hold nor a notice changes hands. A refusal is told as a fault.
    fn ask<R: Wait>(&mut self, rt: &R, step: PlainStep) -> Result<Reply, Fault>
        requires { IsSeated self.old }
        ensures { StaysSeated self.old self.new }
    {
        self.shared.heap.perform(rt, &mut self.heap_seat, step)
    }

    /// Empties the slot where the mutator made or adopted an object.
    fn let_go<R: Wait>(&mut self, rt: &R, mutator: MutNo) -> Result<(), Fault>
        requires { IsSeated self.old }
        ensures { StaysSeated self.old self.new }
    {
        let slot = NEWEST;
        self.ask(rt, PlainStep::Drop { mutator, slot })?;
        Ok(())
    }

    /// Gives a hold back. One that comes back is given up.
    fn release<R: Wait>(&mut self, rt: &R, hold: Hold)
        requires { IsSeated self.old }
        ensures { StaysSeated self.old self.new }
    {
        if let Err((_fault, hold)) = self.shared.heap.release(rt, &mut self.heap_seat, hold) {
            hold.leak();
        }
    }

    /// Gives all holds back, once no worker runs any more.
    pub(crate) fn release_all<R: Wait>(&mut self, rt: &R, holds: Vec<Hold>)
        requires { IsSeated self.old }
        ensures { StaysSeated self.old self.new }
    {
        let mut holds = holds;
        if !holds.is_empty() {
            self.wait_for_workers(rt, 0);
        }
        while let Some(hold) = holds.pop() {
            self.release(rt, hold);
        }
        holds.destroy_empty();
    }

    /// Gives back what a batch of notices holds.
    fn release_batch<R: Wait>(&mut self, rt: &R, batch: Batch<Notice>)
        requires { IsSeated self.old }
        ensures { StaysSeated self.old self.new }
    {
        let mut batch = batch;
        while let Some(notice) = batch.take_first() {
            self.release(rt, notice.into_hold());
        }
        batch.end();
    }

    /// Why a call of the heap and the queue was refused. A notice that comes back is released.
    fn settle<R: Wait>(&mut self, rt: &R, fault: ShareFault) -> Fault
        requires { IsSeated self.old }
        ensures { StaysSeated self.old self.new }
    {
        match fault {
            ShareFault::Refused(fault) => fault,
            ShareFault::Busy => Fault::TurnsSpent,
            ShareFault::Notice(notice, fault) => {
                self.release(rt, notice.into_hold());
                fault
            }
            ShareFault::Held(hold, fault) => {
                hold.leak();
                fault
            }
        }
    }
}
