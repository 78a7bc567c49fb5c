//! What the callers of a shared heap can prove.

ghost use Rattle.std.specs.Prelude.{◌≡◌, ◌-◌, ◌^◌, ◌++◌, [], ◌∷◌, true, false, IfSome, IsTrue};
ghost use Rattle.ref_base.specs.declared.heap_step.HeapStep.TheVariants as steps;
ghost use Rattle.ref_base.specs.HeapSteps.{HeldNotice};
ghost use Rattle.ref_share.specs.HeapSeats.{heap_view, IsHeapSeat};
ghost use Rattle.ref_share.specs.QueueSeats.{IsQueueSeat};
ghost use Rattle.ref_turn.specs.Seats.{entry};
ghost use Rattle.ref_world.specs.declared.heap_machine.HeapReply.TheVariants as replies;

use crate::shares::calls::stepped;
use crate::shares::{CONFIG, DEATH, M, STARTS, Seats, Starts, W, make_calls, start};
use ref_base::{Config, HeapStep, PlainStep, SlotNo};
use ref_share::{Delivery, HeapSeat, SharedHeap, SharedQueue, deliver_one, end_queue, enqueue};
use ref_turn::TurnFault;
use std::alloc::Global;
use std::process::Abort;
use std::slice;
use std::sync::Wait;
use std::test::Fail;

// promise: SharedHeap::call, SharedHeap::served: a step that was made took a turn
/// A step that was made is served.
fn serves_each_step<R: Wait>(rt: &R, heap: &SharedHeap, seat: &mut HeapSeat) -> Option<bool>
    requires { IsHeapSeat heap.now seat.old }
    ensures { IfSome result (λ is_more. is_more ≡ true) }
{
    let before = heap.served(seat);
    let answer = heap.call(rt, seat, HeapStep::Plain(PlainStep::EndSweep));
    let is_made = answer.is_ok();
    stepped(answer);
    let after = heap.served(seat);
    if is_made { Some(before < after) } else { None }
}

// promise: SharedHeap::try_call: not Busy where no turn but the last is left
/// With one turn left a try is not busy: no turn is open, or the last one was begun.
pub fn is_busy_at_the_last_turn(heap: &SharedHeap, seat: &mut HeapSeat) -> bool
    requires seat { IsHeapSeat heap.now seat.old }
    requires last { (heap_view seat.old).first ≡ 2 ^ 64 - 2 }
    ensures seat { IsHeapSeat heap.now seat.new }
    ensures not { result ≡ false }
{
    let answer = heap.try_call(seat, HeapStep::Plain(PlainStep::EndSweep));
    let is_busy = matches!(&answer, Err(TurnFault::Busy(_)));
    stepped(answer);
    is_busy
}

// promise: SharedHeap::new, SharedHeap::finish: the heap has the configuration that was told
/// A heap has the configuration that it was made with.
fn has_its_configuration(alloc: Global, config: Config) -> Option<Config>
    ensures { IfSome result (λ found. found ≡ config) }
{
    match SharedHeap::new(alloc, config, 0) {
        Ok((heap, seat)) => match heap.finish(seat) {
            Ok(left) => Some(left.config()),
            Err(_) => None,
        },
        Err(_) => None,
    }
}

// promise: enqueue, SharedHeap::unhook: an enqueue that added made one unhook, which gave a notice
/// An enqueue that added its notice made one call of the heap, which gave it.
fn adds_by_one_call<R: Wait>(
    rt: &R,
    heap: &SharedHeap,
    queue: &SharedQueue,
    seats: &mut Seats,
) -> bool
    requires { IsHeapSeat heap.now seats.old.heap × IsQueueSeat queue.now seats.old.queue }
    ensures seats { IsHeapSeat heap.now seats.new.heap × IsQueueSeat queue.now seats.new.queue }
    ensures one { IsTrue result → (notice : HeldNotice)
        × ((heap_view seats.new.heap).mine ≡ (heap_view seats.old.heap).mine
        ++ entry (heap_view seats.old.heap).number (steps.Unhook 0 1) (replies.Notice notice) ∷ []) }
{
    let queues = slice::from_ref(queue);
    let own = slice::from_mut(&mut seats.queue);
    match enqueue(rt, heap, &mut seats.heap, queues, own, M, SlotNo(1)) {
        Ok(is_added) => is_added,
        Err(fault) => {
            let _ = fault.give_up();
            false
        }
    }
}

// promise: deliver_one, SharedHeap::release: what is dropped is given back to the heap
/// A delivery that was dropped took two turns of the heap: the hand, and the release of the hold.
fn releases_what_it_drops<R: Wait>(
    rt: &R,
    heap: &SharedHeap,
    queue: &SharedQueue,
    seats: &mut Seats,
) -> Option<bool>
    requires { IsHeapSeat heap.now seats.old.heap × IsQueueSeat queue.now seats.old.queue }
    ensures seats { IsHeapSeat heap.now seats.new.heap × IsQueueSeat queue.now seats.new.queue }
    ensures released { IfSome result (λ is_released. is_released ≡ true) }
{
    let queues = slice::from_ref(queue);
    let own = slice::from_mut(&mut seats.queue);
    let before = heap.served(&mut seats.heap);
    match deliver_one(rt, heap, &mut seats.heap, queues, own, W) {
        Ok(Delivery::Dropped(_)) => Some(heap.served(&mut seats.heap) - before >= 2),
        Ok(_) => None,
        Err(fault) => {
            let _ = fault.give_up();
            None
        }
    }
}

#[test]
fn a_heap_does_what_it_is_asked(rt: HostRuntime) -> Result<(), Fail> {
    let (heap, mut seat) = SharedHeap::new(rt.alloc(), CONFIG, 0)?;
    assert!(rt; serves_each_step(&rt, &heap, &mut seat) == Some(true));
    assert!(rt; has_its_configuration(rt.alloc(), CONFIG) == Some(CONFIG));
    Ok(())
}

/// After a death of what two references refer to the first of them is enqueued twice and then delivered. Whether the
/// first enqueue added it, the second, and whether the heap took back what the delivery dropped.
fn sent_twice<R: Wait + Abort>(
    rt: &R,
    alloc: Global,
    heap_first: u64,
) -> (bool, Option<bool>, bool) {
    let heap = heap_first;
    let (heap, queue, mut seats) = start(rt, alloc, Starts { heap, ..STARTS });
    make_calls(rt, &heap, &queue, &mut seats, DEATH);
    let is_added = adds_by_one_call(rt, &heap, &queue, &mut seats);
    let is_released = releases_what_it_drops(rt, &heap, &queue, &mut seats);
    let is_again = adds_by_one_call(rt, &heap, &queue, &mut seats);
    end_queue(queue.finish(seats.queue));
    (is_added, is_released, is_again)
}

#[test]
fn a_notice_goes_out_once(rt: HostRuntime) {
    assert!(rt; sent_twice(&rt, rt.alloc(), 0) == (true, Some(true), false));
    // Without a turn for the release: twelve turns of the cycle, an unhook and a hand.
    assert!(rt; sent_twice(&rt, rt.alloc(), u64::MAX - 14) == (true, None, false));
}
