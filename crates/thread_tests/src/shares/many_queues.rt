//! A heap with more than one queue: each notice goes into its own.

ghost use Rattle.std.specs.Prelude.{◌<◌, ◌≤◌};
ghost use Rattle.ref_share.specs.HeapSeats.{IsHeapSeat};
ghost use Rattle.ref_share.specs.QueueSeats.{IsQueueSeat};
ghost use Rattle.ref_share.specs.Users.{AreSeated};

use super::calls::{sent, stepped};
use super::rows::{Sending, new, weak};
use super::told::expect;
use super::{CONFIG, W, new_batch};
use ref_base::{Config, HeapStep, ObjNo, PlainStep, QueueNo, Reply, Urgency};
use ref_share::{HeapSeat, QueueSeat, SharedHeap, SharedQueue, end_queue};
use std::alloc::{AllocFailed, Global};
use std::process::Abort;
use std::sync::Wait;

/// Queues in order, each with its seat at its place.
pub struct Lists {
    pub queues: Vec<SharedQueue>,
    pub seats: Vec<QueueSeat>,
    pub alloc: Global,
}

impl Lists {
    /// New queues, numbered from 0, whose turns are counted from `first` on.
    pub fn new<R: Abort>(rt: &R, alloc: Global, count: u32, first: u64) -> Lists
        ensures { AreSeated result.queues.items result.seats.items }
    {
        let mut lists = Lists {
            queues: Vec::new(alloc),
            seats: Vec::new(alloc),
            alloc,
        };
        for number in 0..count {
            lists.add(rt, QueueNo(number), first);
        }
        lists
    }

    /// One queue more.
    fn add<R: Abort>(&mut self, rt: &R, number: QueueNo, first: u64)
        requires { AreSeated self.old.queues.items self.old.seats.items }
        ensures { AreSeated self.new.queues.items self.new.seats.items }
    {
        let (queue, seat) = match SharedQueue::starting(self.alloc, number, first) {
            Ok(made) => made,
            Err(fault) => panic!(rt; "{fault}"),
        };
        if let Err(AllocFailed { value: _queue }) = self.queues.push(queue) {
            panic!(rt; "no memory for a queue");
        }
        if let Err(AllocFailed { value: _seat }) = self.seats.push(seat) {
            panic!(rt; "no memory for a seat");
        }
    }

    /// Ends all queues, the last first. Each was told of the reference for it, or nothing.
    pub fn end<R: Abort>(self, rt: &R, is_told: bool)
        requires { AreSeated self.queues.items self.seats.items }
    {
        let Lists {
            mut queues,
            mut seats,
            alloc,
        } = self;
        while let Some(queue) = queues.pop() {
            match seats.pop() {
                Some(seat) => has_its_own(rt, alloc, queue, seat, is_told),
                None => unreachable!(),
            }
        }
        queues.destroy_empty();
    }
}

/// The one notice that this queue got is of its own reference, whose number is by two the greater; or it got none.
fn has_its_own<R: Abort>(rt: &R, alloc: Global, queue: SharedQueue, seat: QueueSeat, is_told: bool)
    requires { IsQueueSeat queue seat }
{
    let number = queue.number();
    let own = [ObjNo(number.0.wrapping_add(2))];
    let want = if is_told { own.as_slice() } else { &[] };
    match queue.finish(seat) {
        Ok(left) => {
            let enqueued = left.enqueued(alloc);
            end_queue(Ok(left));
            match enqueued {
                Ok(found) => assert!(rt; found.as_slice() == want, "{number}"),
                Err(fault) => panic!(rt; "{fault}"),
            }
        }
        Err(left) => {
            end_queue(Err(left));
            panic!(rt; "no turn of a queue is open");
        }
    }
}

/// An object, and for each queue a weak reference to it, numbered from 2 on in the order of the queues. The last of
/// them takes the object's slot, so that nothing else refers to it.
pub fn make_references<R: Abort>(rt: &R, heap: &SharedHeap, seat: &mut HeapSeat, queues: u32)
    requires seat { IsHeapSeat heap.now seat.old }
    requires queues { queues ≤ 16 }
    ensures { IsHeapSeat heap.now seat.new }
{
    tell(rt, heap, seat, new(0), Reply::Object(ObjNo(1)));
    for queue in 0..queues {
        let step = weak(slot_of(queue, queues), queue);
        tell(rt, heap, seat, step, Reply::Object(ObjNo(queue + 2)));
    }
}

/// The step is answered so.
fn tell<R: Abort>(rt: &R, heap: &SharedHeap, seat: &mut HeapSeat, step: PlainStep, want: Reply)
    requires { IsHeapSeat heap.now seat.old }
    ensures { IsHeapSeat heap.now seat.new }
{
    let told = stepped(heap.try_call(seat, HeapStep::Plain(step)));
    assert!(rt; told.reply() == Some(want), "{told}, and not {want}");
}

/// The slot of the reference for this queue.
fn slot_of(queue: u32, queues: u32) -> u32
    requires { queue < queues × queues ≤ 16 }
{
    if queue + 1 < queues { queue + 1 } else { 0 }
}

/// Worker 0 finds the object dead, and clears the references in the order of their slots: that of the last queue, and
/// then the others.
pub fn find_dead<R: Abort>(rt: &R, heap: &SharedHeap, seat: &mut HeapSeat, queues: u32)
    requires seat { IsHeapSeat heap.now seat.old }
    requires queues { 0 < queues × queues ≤ 16 }
    ensures { IsHeapSeat heap.now seat.new }
{
    let (now, urgency) = (5, Urgency::Normal);
    let begin = PlainStep::Begin { now, urgency };
    tell(rt, heap, seat, begin, Reply::Cycle(1));
    for place in 0..queues {
        let no = ObjNo(queue_at(place, queues) + 2);
        tell(
            rt,
            heap,
            seat,
            PlainStep::Scan { worker: W },
            Reply::Scanned(no),
        );
    }
    tell(
        rt,
        heap,
        seat,
        PlainStep::Scan { worker: W },
        Reply::Nothing,
    );
    tell(rt, heap, seat, PlainStep::EndMark, Reply::Doomed(1));
    for place in 0..queues {
        let no = ObjNo(queue_at(place, queues) + 2);
        let clear = PlainStep::ClearNext { worker: W };
        tell(rt, heap, seat, clear, Reply::Cleared(no));
    }
    tell(rt, heap, seat, PlainStep::EndClear, Reply::Done);
}

/// The queue whose reference is the one at this place in the order of slots.
fn queue_at(place: u32, queues: u32) -> u32
    requires { place < queues × queues ≤ 16 }
    ensures { result < queues }
{
    if place == 0 { queues - 1 } else { place - 1 }
}

/// A call for which the queues stand in lists is answered so.
fn send<R: Wait + Abort>(
    rt: &R,
    heap: &SharedHeap,
    seat: &mut HeapSeat,
    lists: &mut Lists,
    sending: Sending,
    want: &str,
)
    requires { IsHeapSeat heap.now seat.old × AreSeated lists.old.queues.items lists.old.seats.items }
    ensures { IsHeapSeat heap.now seat.new × AreSeated lists.new.queues.items lists.new.seats.items }
{
    let batch = new_batch(rt, lists.alloc);
    let told = sent(
        rt,
        (heap, &lists.queues),
        seat,
        &mut lists.seats,
        sending,
        batch,
    );
    expect(rt, lists.alloc, told, want, "sent");
}

/// A configuration with this many queues.
pub const fn with(queues: u32) -> Config {
    Config {
        queues,
        cells: 32,
        ..CONFIG
    }
}

/// Each death is told to its own queue.
fn deliver_all<R: Wait + Abort>(rt: &R, alloc: Global, queues: u32)
    requires { 0 < queues × queues ≤ 16 }
{
    let Ok((heap, mut seat)) = SharedHeap::new(alloc, with(queues), 0) else {
        panic!(rt; "there is no heap");
    };
    let mut lists = Lists::new(rt, alloc, queues, 0);
    make_references(rt, &heap, &mut seat, queues);
    find_dead(rt, &heap, &mut seat, queues);
    for place in 0..queues {
        let queue = queue_at(place, queues);
        let no = queue + 2;
        let Ok(want) = format!(in alloc; "delivered {no} {queue} 0") else {
            panic!(rt; "no memory for a text");
        };
        send(
            rt,
            &heap,
            &mut seat,
            &mut lists,
            Sending::One(0),
            want.as_str(),
        );
    }
    send(rt, &heap, &mut seat, &mut lists, Sending::One(0), "none");
    lists.end(rt, true);
}

/// Each reference is enqueued in its own queue, once.
fn enqueue_all<R: Wait + Abort>(rt: &R, alloc: Global, queues: u32)
    requires { 0 < queues × queues ≤ 16 }
{
    let Ok((heap, mut seat)) = SharedHeap::new(alloc, with(queues), 0) else {
        panic!(rt; "there is no heap");
    };
    let mut lists = Lists::new(rt, alloc, queues, 0);
    make_references(rt, &heap, &mut seat, queues);
    for queue in 0..queues {
        let slot = slot_of(queue, queues);
        for want in ["enqueued", "not enqueued"] {
            send(
                rt,
                &heap,
                &mut seat,
                &mut lists,
                Sending::Enqueue(slot),
                want,
            );
        }
    }
    lists.end(rt, true);
}

#[test]
fn each_of_two_and_of_sixteen_queues_gets_its_own(rt: HostRuntime) {
    deliver_all(&rt, rt.alloc(), 2);
    deliver_all(&rt, rt.alloc(), 16);
    enqueue_all(&rt, rt.alloc(), 2);
    enqueue_all(&rt, rt.alloc(), 16);
}
