//! A shared heap, its queue and a cleaner: stories of calls, each with its answer.

ghost use Rattle.std.specs.Prelude.{◌≡◌, []};
ghost use Rattle.ref_share.specs.HeapSeats.{IsHeapSeat};
ghost use Rattle.ref_share.specs.QueueSeats.{IsQueueSeat};
ghost use Rattle.std.specs.Mem.{FitsInMemory};
ghost use Rattle.thread_tests.specs.QueueRows.{queue_row};

use calls::answer;
use ref_base::{Batch, Config, Fault, MutNo, ObjNo, QueueNo, SpanRule, WorkerNo};
use ref_clear::Notice;
use ref_queue::Queue;
use ref_share::{HeapSeat, QueueSeat, SharedHeap, SharedQueue, end_queue};
use rows::{BREAKS, call_of, is_comment, parts_of};
use std::alloc::{Allocator, Global};
use std::process::Abort;
use std::sync::Wait;
use told::expect;

mod batches;
pub mod calls;
pub mod cleaners;
mod cycles;
mod last_turns;
pub mod many_queues;
mod memory;
mod printed;
mod refusals;
pub mod rows;
mod stories;
mod threads;
pub mod told;
mod users;
mod waiting;

/// One mutator, one worker, one queue, 8 cells, and a span of 10.
pub const CONFIG: Config = Config {
    mutators: 1,
    workers: 1,
    queues: 1,
    cells: 8,
    span: 10,
    rule: SpanRule::Fixed,
};

pub const M: MutNo = MutNo(0);

pub const W: WorkerNo = WorkerNo(0);

pub const Q: QueueNo = QueueNo(0);

/// A seat of the heap and one of its queue, and where batches have their memory from.
#[derive(Drop)]
pub struct Seats<A: Allocator + Copy = Global> {
    pub heap: HeapSeat<A>,
    pub queue: QueueSeat<A>,
    pub alloc: A,
}

/// The first tickets of heap and queue, and the queue's number.
#[derive(Clone, Copy)]
pub struct Starts {
    pub heap: u64,
    pub queue: u64,
    pub number: QueueNo,
}

pub const STARTS: Starts = Starts {
    heap: 0,
    queue: 0,
    number: Q,
};

/// A new heap and a new queue, with a seat of each.
pub fn start<A: Allocator + Copy>(
    rt: &impl Abort,
    alloc: A,
    starts: Starts,
) -> (SharedHeap<A>, SharedQueue<A>, Seats<A>)
    ensures { IsHeapSeat result.0 result.2.heap × IsQueueSeat result.1 result.2.queue }
{
    let Ok((heap, heap_seat)) = SharedHeap::starting(alloc, CONFIG, 0, starts.heap) else {
        panic!(rt; "there is no heap");
    };
    let Ok((queue, queue_seat)) = SharedQueue::starting(alloc, starts.number, starts.queue) else {
        panic!(rt; "there is no queue");
    };
    let seats = Seats {
        heap: heap_seat,
        queue: queue_seat,
        alloc,
    };
    (heap, queue, seats)
}

/// A batch of no notices.
pub fn new_batch<A: Allocator>(rt: &impl Abort, alloc: A) -> Batch<Notice, A>
    ensures { result ≡ [] }
{
    match Batch::new(alloc) {
        Ok(batch) => batch,
        Err(fault) => panic!(rt; "no batch: {fault}"),
    }
}

/// A cycle finds object 1 dead. References 2 and 3 to it are in slots 1 and 2, and pending in this order.
pub const DEATH: &'static str = "
    m0 new s0 0 : object 1; m0 weak s1 s0 q0 0 : object 2; m0 weak s2 s0 q0 0 : object 3; m0 drop s0 : ok
    begin 5 normal : cycle 1; w0 scan : scanned 2; w0 scan : scanned 3; w0 scan : none; endmark : doomed 1
    w0 clearnext : cleared 2; w0 clearnext : cleared 3; endclear : ok";

/// Makes the calls of a story in turn, each of which has its answer.
pub fn make_calls<R: Wait + Abort, A: Allocator + Copy>(
    rt: &R,
    heap: &SharedHeap<A>,
    queue: &SharedQueue<A>,
    seats: &mut Seats<A>,
    story: &str,
)
    requires seats { IsHeapSeat heap.now seats.old.heap × IsQueueSeat queue.now seats.old.queue }
    requires fits { FitsInMemory (queue_row A.row A.Allocator A.Clone) }
    ensures { IsHeapSeat heap.now seats.new.heap × IsQueueSeat queue.now seats.new.queue }
{
    for row in story.split(BREAKS) {
        if !is_comment(row) {
            let (call, want) = parts_of(row);
            let told = answer(rt, heap, queue, seats, call_of(rt, call));
            expect(rt, seats.alloc, told, want, row);
        }
    }
}

/// The references that were ever put in, in order, and those of them that stand in the end.
type Left<'a> = (&'a [u32], &'a [u32]);

/// Nothing was put in.
const NOTHING: Left = (&[], &[]);

/// The heap's first ticket.
const fn heap_from(heap: u64) -> Starts {
    Starts { heap, ..STARTS }
}

/// The queue's first ticket.
const fn queue_from(queue: u64) -> Starts {
    Starts { queue, ..STARTS }
}

/// Tells a story in two parts of a new heap and a new queue, and looks what is left then.
fn agree<R: Wait + Abort>(
    rt: &R,
    alloc: Global,
    starts: Starts,
    first: &str,
    then: &str,
    left: Left,
) {
    let (heap, queue, mut seats) = start(rt, alloc, starts);
    make_calls(rt, &heap, &queue, &mut seats, first);
    make_calls(rt, &heap, &queue, &mut seats, then);
    assert!(rt; heap.config() == CONFIG && queue.number() == starts.number);
    end(rt, alloc, heap, queue, seats, left);
}

/// Ends heap and queue, of which no turn is open, and looks what is left.
fn end(
    rt: &impl Abort,
    alloc: Global,
    heap: SharedHeap,
    queue: SharedQueue,
    seats: Seats,
    left: Left,
)
    requires { IsHeapSeat heap seats.heap × IsQueueSeat queue seats.queue }
{
    let is_over = heap.finish(seats.heap).is_ok();
    assert!(rt; is_over, "no turn of the heap is open");
    match queue.finish(seats.queue) {
        Ok(queue) => {
            have_numbers(rt, queue.enqueued(alloc), left.0);
            have_numbers(rt, queue.stands(alloc), left.1);
            end_queue(Ok(queue));
        }
        Err(back) => {
            end_queue(Err(back));
            assert!(rt; false, "no turn of the queue is open");
        }
    }
}

fn have_numbers(rt: &impl Abort, found: Result<Vec<ObjNo>, Fault>, want: &[u32]) {
    let found = match found {
        Ok(found) => found,
        Err(fault) => panic!(rt; "{fault}"),
    };
    assert!(rt; found.len() == want.len());
    for (place, &no) in want.iter().enumerate() {
        assert!(rt; found.get(place) == Some(&ObjNo(no)), "place {place}");
    }
}
