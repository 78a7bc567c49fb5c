//! What the callers can prove of what goes from a heap to its queues.

ghost use Rattle.std.specs.Mem.{FitsInMemory};
ghost use Rattle.std.specs.Prelude.{◌≡◌, ◌⊎◌, ◌++◌, [], ◌∷◌, true, Ok, IfSome, IsTrue};
ghost use Rattle.ref_base.specs.HeapSteps.{HeldNotice};
ghost use Rattle.ref_queue.specs.declared.queue.Put.{Put};
ghost use Rattle.ref_queue.specs.declared.queue.Put.TheVariants.{Already, Closed};
ghost use Rattle.ref_share.specs.HeapSeats.{IsHeapSeat};
ghost use Rattle.ref_share.specs.QueueSeats.{queue_view, IsQueueSeat};
ghost use Rattle.ref_share.specs.declared.queue_machine.QueueReply.TheVariants as replies;
ghost use Rattle.ref_share.specs.declared.queue_machine.QueueStep.TheVariants as steps;
ghost use Rattle.ref_turn.specs.Seats.{entry};
ghost use Rattle.ref_share.specs.Users.{AreSeated};
ghost use Rattle.thread_tests.specs.QueueRows.{queue_row};

use crate::shares::many_queues::{Lists, find_dead, make_references, with};
use crate::shares::{DEATH, M, STARTS, Seats, W, make_calls, start};
use rationed::Rationed;
use ref_base::{Batch, Fault, Parcel, SlotNo};
use ref_clear::Notice;
use ref_share::{
    HeapSeat, ShareFault, SharedHeap, SharedQueue, deliver_batch, deliver_one, end_batch,
    end_queue, enqueue,
};
use std::alloc::{Allocator, Global};
use std::process::Abort;
use std::slice;
use std::sync::Wait;
use std::test::Fail;

// promise: enqueue: what is given up was put in before, or its queue is closed
/// An enqueue that is answered no put in what the queue had before, or found it closed, if there was a notice at all.
fn is_in_vain<R: Wait, A: Allocator + Copy>(
    rt: &R,
    heap: &SharedHeap<A>,
    queue: &SharedQueue<A>,
    seats: &mut Seats<A>,
) -> bool
    requires seats { IsHeapSeat heap.now seats.old.heap × IsQueueSeat queue.now seats.old.queue }
    requires fits { FitsInMemory (queue_row A.row A.Allocator A.Clone) }
    ensures seats { IsHeapSeat heap.now seats.new.heap × IsQueueSeat queue.now seats.new.queue }
    ensures told { IsTrue result → ((queue_view seats.new.queue).mine ≡ (queue_view seats.old.queue).mine)
        ⊎ ((notice : HeldNotice) × (told : Put HeldNotice) × ((told ≡ Already notice) ⊎ (told ≡ Closed notice))
        × ((queue_view seats.new.queue).mine ≡ (queue_view seats.old.queue).mine
        ++ entry (queue_view seats.old.queue).number (steps.Put notice) (replies.Put (Ok told)) ∷ [])) }
{
    let queues = slice::from_ref(queue);
    let own = slice::from_mut(&mut seats.queue);
    match enqueue(rt, heap, &mut seats.heap, queues, own, M, SlotNo(1)) {
        Ok(is_added) => !is_added,
        Err(fault) => {
            let _ = fault.give_up();
            false
        }
    }
}

// promise: deliver_batch: where a delivery stops, what was not added or released yet comes back
/// Where memory ends as the queue puts a batch in, something comes back in the batch.
fn keeps_what_found_no_memory<R: Wait, A: Allocator + Copy>(
    rt: &R,
    heap: &SharedHeap<A>,
    queue: &SharedQueue<A>,
    seats: &mut Seats<A>,
    batch: Batch<Notice, A>,
) -> Option<bool>
    requires seats { IsHeapSeat heap.now seats.old.heap × IsQueueSeat queue.now seats.old.queue }
    requires empty { batch ≡ [] }
    requires fits { FitsInMemory (queue_row A.row A.Allocator A.Clone) }
    ensures seats { IsHeapSeat heap.now seats.new.heap × IsQueueSeat queue.now seats.new.queue }
    ensures left { IfSome result (λ is_left. is_left ≡ true) }
{
    let queues = slice::from_ref(queue);
    let own = slice::from_mut(&mut seats.queue);
    let (answer, batch) = deliver_batch(rt, heap, &mut seats.heap, queues, own, W, 32, batch);
    let is_left = !batch.is_empty();
    end_batch(batch);
    match answer {
        Err(ShareFault::Refused(Fault::NoMemory)) => Some(is_left),
        Ok(_) => None,
        Err(fault) => {
            let _ = fault.give_up();
            None
        }
    }
}

// promise: enqueue: BadQueue is answered of a queue alone for which the lists have no place
/// An enqueue that is refused with `BadQueue` is for a queue beyond the end of the lists.
fn enqueues_beyond<R: Wait>(
    rt: &R,
    heap: &SharedHeap,
    seat: &mut HeapSeat,
    lists: &mut Lists,
    slot: SlotNo,
) -> Option<bool>
    requires { IsHeapSeat heap.now seat.old × AreSeated lists.old.queues.items lists.old.seats.items }
    ensures seats { IsHeapSeat heap.now seat.new × AreSeated lists.new.queues.items lists.new.seats.items }
    ensures beyond { IfSome result (λ is_beyond. is_beyond ≡ true) }
{
    match enqueue(rt, heap, seat, &lists.queues, &mut lists.seats, M, slot) {
        Err(ShareFault::Notice(notice, Fault::BadQueue)) => {
            let is_beyond = lists.queues.len() <= notice.queue().0 as usize;
            notice.into_hold().leak();
            Some(is_beyond)
        }
        Ok(_) => None,
        Err(fault) => {
            let _ = fault.give_up();
            None
        }
    }
}

// promise: deliver_one: BadQueue is answered of a queue alone for which the lists have no place
/// A delivery that is refused with `BadQueue` is for a queue beyond the end of the lists.
fn delivers_beyond<R: Wait>(
    rt: &R,
    heap: &SharedHeap,
    seat: &mut HeapSeat,
    lists: &mut Lists,
) -> Option<bool>
    requires { IsHeapSeat heap.now seat.old × AreSeated lists.old.queues.items lists.old.seats.items }
    ensures seats { IsHeapSeat heap.now seat.new × AreSeated lists.new.queues.items lists.new.seats.items }
    ensures beyond { IfSome result (λ is_beyond. is_beyond ≡ true) }
{
    match deliver_one(rt, heap, seat, &lists.queues, &mut lists.seats, W) {
        Err(ShareFault::Notice(notice, Fault::BadQueue)) => {
            let is_beyond = lists.queues.len() <= notice.queue().0 as usize;
            notice.into_hold().leak();
            Some(is_beyond)
        }
        Ok(_) => None,
        Err(fault) => {
            let _ = fault.give_up();
            None
        }
    }
}

/// References 2 and 3 are enqueued and delivered without memory, and reference 3 is enqueued once the queue is closed.
/// Whether the first enqueue is in vain, whether the delivery left something, and whether the last enqueue is in vain.
fn sent_without_memory<'a, R: Wait + Abort>(
    rt: &R,
    memory: &'a Rationed<Global>,
    heap: &SharedHeap<&'a Rationed<Global>>,
    queue: &SharedQueue<&'a Rationed<Global>>,
    seats: &mut Seats<&'a Rationed<Global>>,
) -> Result<(bool, Option<bool>, bool), Fault>
    requires { IsHeapSeat heap.now seats.old.heap × IsQueueSeat queue.now seats.old.queue }
    ensures { IsHeapSeat heap.now seats.new.heap × IsQueueSeat queue.now seats.new.queue }
{
    make_calls(rt, heap, queue, seats, DEATH);
    let batch = Batch::new(memory)?;
    memory.ration(0);
    let first = is_in_vain(rt, heap, queue, seats);
    let left = keeps_what_found_no_memory(rt, heap, queue, seats, batch);
    memory.lift();
    make_calls(rt, heap, queue, seats, "close : was open");
    let last = is_in_vain(rt, heap, queue, seats);
    Ok((first, left, last))
}

#[test]
fn what_finds_no_memory_is_not_given_up(rt: HostRuntime) {
    let memory = &Rationed::new(rt.alloc());
    let (heap, queue, mut seats) = start(&rt, memory, STARTS);
    let sent = sent_without_memory(&rt, memory, &heap, &queue, &mut seats);
    end_queue(queue.finish(seats.queue));
    assert!(rt; sent == Ok((false, Some(true), true)));
}

/// The references for queues 1 and 0 are delivered, once their referent is dead, or enqueued. Whether the queue of each
/// is beyond the end of the lists.
fn both_sent<R: Wait + Abort>(
    rt: &R,
    heap: &SharedHeap,
    seat: &mut HeapSeat,
    lists: &mut Lists,
    is_dead: bool,
) -> [Option<bool>; 2]
    requires { IsHeapSeat heap.now seat.old × AreSeated lists.old.queues.items lists.old.seats.items }
    ensures { IsHeapSeat heap.now seat.new × AreSeated lists.new.queues.items lists.new.seats.items }
{
    if is_dead {
        find_dead(rt, heap, seat, 2);
        let first = delivers_beyond(rt, heap, seat, lists);
        return [first, delivers_beyond(rt, heap, seat, lists)];
    }
    let first = enqueues_beyond(rt, heap, seat, lists, SlotNo(0));
    [first, enqueues_beyond(rt, heap, seat, lists, SlotNo(1))]
}

/// The references for queues 1 and 0 of a heap with two are sent, where so many queues are in the lists: by deliveries
/// once their referent is dead, or by enqueues. Whether the queue of each is beyond their end.
fn sent_to<R: Wait + Abort>(
    rt: &R,
    alloc: Global,
    count: u32,
    is_dead: bool,
) -> Result<[Option<bool>; 2], Fail> {
    let (heap, mut seat) = SharedHeap::new(alloc, with(2), 0)?;
    let mut lists = Lists::new(rt, alloc, count, 0);
    make_references(rt, &heap, &mut seat, 2);
    let told = both_sent(rt, &heap, &mut seat, &mut lists, is_dead);
    lists.end(rt, true);
    Ok(told)
}

#[test]
fn a_queue_that_stands_in_the_lists_is_found(rt: HostRuntime) -> Result<(), Fail> {
    for is_dead in [false, true] {
        // Both stand in the lists, or the first.
        assert!(rt; sent_to(&rt, rt.alloc(), 2, is_dead)? == [None, None]);
        assert!(rt; sent_to(&rt, rt.alloc(), 1, is_dead)? == [Some(true), None]);
    }
    Ok(())
}
