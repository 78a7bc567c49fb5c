//! The thread that runs the jobs of what is gone.

ghost use Rattle.std.specs.Prelude.{◌≡◌, ◌+◌, ◌<◌, length};
ghost use Rattle.ref_turn.specs.Seats.{Longer};
ghost use Rattle.ref_share.specs.CleanLoops.{GoesBy, GoesRound, GoesOn, PollsBy, PollsFor};
ghost use Rattle.ref_share.specs.CleanSeats.{clean_view, IsCleanSeat};
ghost use Rattle.ref_share.specs.Cleanings.{CleansDead};
ghost use Rattle.ref_share.specs.HeapSeats.{heap_view, IsHeapSeat};
ghost use Rattle.ref_share.specs.QueueSeats.{QueueView, queue_view, IsQueueSeat};
ghost use Rattle.ref_share.specs.declared.clean_loop.Polling.{Polling};

use crate::{
    CleanSeat, HeapSeat, Polled, QueueSeat, ShareFault, SharedCleaner, SharedHeap, SharedQueue,
    Task,
};
use ref_base::Parcel;
use ref_clear::Notice;
use ref_queue::Ran;
use std::alloc::Allocator;
use std::sync::Wait;

/// What a cleaner's thread is told before and after each job. It is called in no turn, so it may wait.
pub trait Gate {
    /// The job of this number runs next.
    fn before(&self, number: u64);

    /// The job was run.
    fn after(&self, ran: Ran);
}

/// A gate that does nothing, for jobs that do themselves what is to be done.
impl Gate for () {
    fn before(&self, _number: u64) {}

    fn after(&self, _ran: Ran) {}
}

// How the rounds ask for the next notice.
#[derive(Clone, Copy)]
enum Polling {
    // They wait until one comes, or the queue is closed.
    Waits,
    // They take one that stands.
    Once,
}

impl<J: Task, A: Allocator + Copy> SharedCleaner<J, A> {
    /// Runs the jobs of what is gone, as their notices come, until the queue is closed: then it answers how many it
    /// ran. Any number of threads may do so at once; each job runs in one of them, outside every turn. As the thread of
    /// a `Cleaner` of Java SE 17.
    ///
    /// Each notice takes polls of the queue, a turn of the heap, by which it is released, and one of the table, which
    /// gives its job out. Where there is a job, one turn of the heap more releases its hold, and the job is run. It may
    /// never return. Takes no memory but what the jobs take.
    ///
    /// `Refused(TurnsSpent)` where the queue or the table has no turn left: then it takes no further job. `Held` where
    /// the heap has no turn left for a release, or does not count the hold, which comes back. A job whose notice could
    /// not be released stays in the table, and one that was taken is still run and told to the gate.
    pub fn clean_loop<R: Wait, G: Gate>(
        &self,
        rt: &R,
        seat: &mut CleanSeat<J, A>,
        heap: &SharedHeap<A>,
        heap_seat: &mut HeapSeat<A>,
        queue: &SharedQueue<A>,
        queue_seat: &mut QueueSeat<A>,
        gate: &G,
    ) -> Result<u64, ShareFault>
        requires seats { IsCleanSeat self.now seat.old × IsHeapSeat heap.now heap_seat.old }
        requires queue_seat { IsQueueSeat queue.now queue_seat.old }
        ensures seat { IsCleanSeat self.now seat.new }
        ensures heap_seat { IsHeapSeat heap.now heap_seat.new }
        ensures queue_seat { IsQueueSeat queue.now queue_seat.new }
        ensures goes { GoesRound (queue_view queue_seat.old) (heap_view heap_seat.old) (clean_view seat.old)
            result (queue_view queue_seat.new) (heap_view heap_seat.new) (clean_view seat.new) }
    {
        self.rounds(
            rt,
            seat,
            heap,
            heap_seat,
            queue,
            queue_seat,
            gate,
            Polling::Waits,
        )
    }

    /// Runs the jobs whose notices stand now, and returns how many it ran. As `clean_loop`, but it ends as soon as a
    /// poll finds nothing, so that a program of one thread cleans between its own calls.
    ///
    /// Turns and faults are as those of `clean_loop`. Takes no memory but what the jobs take.
    pub fn clean_some<R: Wait, G: Gate>(
        &self,
        rt: &R,
        seat: &mut CleanSeat<J, A>,
        heap: &SharedHeap<A>,
        heap_seat: &mut HeapSeat<A>,
        queue: &SharedQueue<A>,
        queue_seat: &mut QueueSeat<A>,
        gate: &G,
    ) -> Result<u64, ShareFault>
        requires seats { IsCleanSeat self.now seat.old × IsHeapSeat heap.now heap_seat.old }
        requires queue_seat { IsQueueSeat queue.now queue_seat.old }
        ensures seat { IsCleanSeat self.now seat.new }
        ensures heap_seat { IsHeapSeat heap.now heap_seat.new }
        ensures queue_seat { IsQueueSeat queue.now queue_seat.new }
        ensures goes { GoesOn (queue_view queue_seat.old) (heap_view heap_seat.old) (clean_view seat.old)
            result (queue_view queue_seat.new) (heap_view heap_seat.new) (clean_view seat.new) }
    {
        self.rounds(
            rt,
            seat,
            heap,
            heap_seat,
            queue,
            queue_seat,
            gate,
            Polling::Once,
        )
    }

    // Rounds of a poll and what follows its notice, until a poll gives none. How many jobs were run.
    fn rounds<R: Wait, G: Gate>(
        &self,
        rt: &R,
        seat: &mut CleanSeat<J, A>,
        heap: &SharedHeap<A>,
        heap_seat: &mut HeapSeat<A>,
        queue: &SharedQueue<A>,
        queue_seat: &mut QueueSeat<A>,
        gate: &G,
        polling: Polling,
    ) -> Result<u64, ShareFault>
        requires seats { IsCleanSeat self.now seat.old × IsHeapSeat heap.now heap_seat.old }
        requires queue_seat { IsQueueSeat queue.now queue_seat.old }
        ensures seat { IsCleanSeat self.now seat.new }
        ensures heap_seat { IsHeapSeat heap.now heap_seat.new }
        ensures queue_seat { IsQueueSeat queue.now queue_seat.new }
        ensures goes { GoesBy (queue_view queue_seat.old) (heap_view heap_seat.old) (clean_view seat.old) polling
            result (queue_view queue_seat.new) (heap_view heap_seat.new) (clean_view seat.new) }
    {
        let mut count = 0;
        for _ in rt.forever() {
            let notice = match poll_by(rt, queue, queue_seat, polling) {
                Ok(Some(notice)) => notice,
                Ok(None) => break,
                Err(fault) => return Err(fault),
            };
            match self.clean_dead(rt, seat, heap, heap_seat, notice, gate) {
                Ok(true) => count = self.one_more(seat, count),
                Ok(false) => {}
                Err(fault) => return Err(fault),
            }
        }
        Ok(count)
    }

    // What follows a notice. True where it had a job.
    fn clean_dead<R: Wait, G: Gate>(
        &self,
        rt: &R,
        seat: &mut CleanSeat<J, A>,
        heap: &SharedHeap<A>,
        heap_seat: &mut HeapSeat<A>,
        notice: Notice,
        gate: &G,
    ) -> Result<bool, ShareFault>
        requires { IsCleanSeat self.now seat.old × IsHeapSeat heap.now heap_seat.old }
        ensures seat { IsCleanSeat self.now seat.new }
        ensures heap_seat { IsHeapSeat heap.now heap_seat.new }
        ensures cleans { CleansDead notice (heap_view heap_seat.old) (clean_view seat.old) result
            (heap_view heap_seat.new) (clean_view seat.new) }
    {
        let object = notice.obj();
        if let Err((fault, hold)) = heap.release(rt, heap_seat, notice.into_hold()) {
            return Err(ShareFault::Held(hold, fault));
        }
        match self.take(rt, seat, object) {
            Ok(None) => Ok(false),
            Ok(Some((hold, job))) => {
                let released = heap.release(rt, heap_seat, hold);
                gate.before(job.number());
                gate.after(job.run());
                match released {
                    Ok(()) => Ok(true),
                    Err((fault, hold)) => Err(ShareFault::Held(hold, fault)),
                }
            }
            Err(fault) => Err(fault),
        }
    }

    // One more than a count of calls of this seat: there are no more of them than turns that have ended.
    fn one_more(&self, seat: &mut CleanSeat<J, A>, count: u64) -> u64
        requires seat { IsCleanSeat self.now seat.old }
        requires calls { count < length (clean_view seat.old).mine }
        ensures seat { IsCleanSeat self.now seat.new }
        ensures longer { Longer (clean_view seat.old) (clean_view seat.new) }
        ensures more { result ≡ count + 1 }
    {
        let _turns = self.served(seat);
        count + 1
    }
}

// The notice that a poll of the queue took, in this way.
fn poll_by<R: Wait, A: Allocator + Copy>(
    rt: &R,
    queue: &SharedQueue<A>,
    seat: &mut QueueSeat<A>,
    polling: Polling,
) -> Result<Option<Notice>, ShareFault>
    requires { IsQueueSeat queue.now seat.old }
    ensures seat { IsQueueSeat queue.now seat.new }
    ensures polls { PollsFor polling (queue_view seat.old) result (queue_view seat.new) }
{
    match polling {
        Polling::Waits => taken(Some(queue.remove_wait(rt, seat))),
        Polling::Once => taken(queue.poll(rt, seat)),
    }
}

// The notice that was taken, if one was.
fn taken(answer: Option<Result<Polled, ShareFault>>) -> Result<Option<Notice>, ShareFault>
    ensures { (polling : Polling) (v w : QueueView) → PollsBy polling v answer w → PollsFor polling v result w }
{
    let Some(answer) = answer else {
        return Ok(None);
    };
    match answer {
        Ok(Polled::Took(notice)) => Ok(Some(notice)),
        // A poll tells of nothing else but the end.
        Ok(Polled::Closed | Polled::Empty | Polled::TimedOut) => Ok(None),
        Err(fault) => Err(fault),
    }
}
