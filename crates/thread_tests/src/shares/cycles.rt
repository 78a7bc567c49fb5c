//! Whole cycles and deliveries of all that is pending, on a heap with two queues, each call with its answer.

ghost use Rattle.ref_share.specs.HeapSeats.{IsHeapSeat};
ghost use Rattle.ref_share.specs.Users.{AreSeated};

use super::calls::{of_heap, sent, sent_nowhere};
use super::many_queues::{Lists, make_references, with};
use super::new_batch;
use super::rows::{BREAKS, Call, call_of, is_comment, parts_of};
use super::told::{Told, Word, bare, expect};
use ref_base::Config;
use ref_share::{HeapSeat, SharedHeap};
use std::alloc::Global;
use std::process::Abort;
use std::sync::Wait;

/// How a heap with two queues starts, where an object is made, and a weak reference to it for each of the queues.
#[derive(Clone, Copy)]
struct Starts {
    /// How many cells the heap has.
    cells: u32,
    /// The heap's first ticket.
    heap: u64,
    /// The first ticket of each queue.
    queues: u64,
    /// Whether each queue is told of its reference then.
    is_told: bool,
}

const STARTS: Starts = Starts {
    cells: 32,
    heap: 0,
    queues: 0,
    is_told: true,
};

/// No queue is told, with these first tickets of the heap and of each queue.
const fn in_vain(heap: u64, queues: u64) -> Starts {
    Starts {
        heap,
        queues,
        is_told: false,
        ..STARTS
    }
}

/// Makes a call, and tells what was answered.
fn answer<R: Wait + Abort>(
    rt: &R,
    heap: &SharedHeap,
    seat: &mut HeapSeat,
    lists: &mut Lists,
    call: Call,
) -> Told
    requires { IsHeapSeat heap.now seat.old × AreSeated lists.old.queues.items lists.old.seats.items }
    ensures { IsHeapSeat heap.now seat.new × AreSeated lists.new.queues.items lists.new.seats.items }
{
    let alloc = lists.alloc;
    match call {
        Call::Heap(call) => of_heap(rt, heap, seat, call),
        Call::Send(sending) => {
            let Lists { queues, seats, .. } = lists;
            sent(
                rt,
                (heap, queues),
                seat,
                seats,
                sending,
                new_batch(rt, alloc),
            )
        }
        Call::SendNowhere(sending) => sent_nowhere(rt, heap, seat, sending, new_batch(rt, alloc)),
        _ => bare(Word::Unknown),
    }
}

/// Makes the calls of a story in turn, and looks what is in the queues then.
fn agree<R: Wait + Abort>(rt: &R, alloc: Global, starts: Starts, story: &str) {
    let config = Config {
        cells: starts.cells,
        ..with(2)
    };
    let Ok((heap, mut seat)) = SharedHeap::starting(alloc, config, 0, starts.heap) else {
        panic!(rt; "there is no heap");
    };
    let mut lists = Lists::new(rt, alloc, 2, starts.queues);
    make_references(rt, &heap, &mut seat, 2);
    for row in story.split(BREAKS) {
        if !is_comment(row) {
            let (call, want) = parts_of(row);
            let told = answer(rt, &heap, &mut seat, &mut lists, call_of(rt, call));
            expect(rt, alloc, told, want, row);
        }
    }
    lists.end(rt, starts.is_told);
}

#[test]
fn all_that_was_cleared_is_told_to_its_queue(rt: HostRuntime) {
    // By whole cycles.
    let calls = "cycle 0 5 : ok; cycle 0 5 : ok; deliver_all 0 : ok";
    agree(&rt, rt.alloc(), STARTS, calls);
    // By deliveries of all that is pending.
    let calls = "
        perform begin 5 normal : cycle 1; perform w0 scan : scanned 3; perform w0 scan : scanned 2
        perform endmark : doomed 1; perform w0 clearnext : cleared 3; perform w0 clearnext : cleared 2
        deliver_all 1 : refused: NoSuchActor; deliver_all 0 : ok; deliver_all 0 : ok";
    agree(&rt, rt.alloc(), STARTS, calls);
}

#[test]
fn what_the_heap_refuses_in_a_cycle_is_told(rt: HostRuntime) {
    let calls = "
        cycle 0 5 : ok; cycle 0 4 : refused: ClockBack; cycle 1 5 : refused: NoSuchActor
        cycle 0 5 : refused: WrongPhase; perform begin 5 normal : refused: WrongPhase";
    agree(&rt, rt.alloc(), STARTS, calls);
    // No turn is left behind a begin and a scan.
    let calls = "cycle 0 5 : refused: TurnsSpent; deliver_all 0 : refused: TurnsSpent";
    agree(&rt, rt.alloc(), in_vain(u64::MAX - 5, 0), calls);
}

#[test]
fn a_cycle_stops_where_a_notice_comes_back(rt: HostRuntime) {
    // With no queue in the lists. The notice of the last queue's reference comes first.
    let calls = "
        nowhere cycle 0 5 : refused: BadQueue left 3; nowhere deliver_all 0 : refused: BadQueue left 2
        nowhere deliver_all 0 : ok; cycle 0 5 : refused: WrongPhase";
    agree(&rt, rt.alloc(), in_vain(0, 0), calls);
    let calls = "
        cycle 0 5 : refused: TurnsSpent left 3; deliver_all 0 : refused: TurnsSpent left 2; deliver_all 0 : ok";
    agree(&rt, rt.alloc(), in_vain(0, u64::MAX), calls);
}

#[test]
fn an_urgent_cycle_keeps_no_soft_reference(rt: HostRuntime) {
    let calls = "
        perform m0 new s4 0 : object 4; perform m0 soft s5 s4 - 0 : object 5; perform m0 drop s4 : ok
        cycle 0 6 : ok; perform m0 get s7 s5 : object 4; perform m0 weak s6 s7 - 0 : object 6
        perform m0 drop s7 : ok; urgent_cycle 0 6 : ok; perform m0 get s7 s5 : null
        perform m0 weak s6 s7 - 0 : refused: EmptySlot; urgent_cycle 0 5 : refused: ClockBack";
    agree(&rt, rt.alloc(), STARTS, calls);
}

#[test]
fn where_a_heap_is_full_a_cycle_comes_first_and_then_an_urgent_one(rt: HostRuntime) {
    let calls = "
        perform m0 new s4 0 : object 4; perform m0 soft s5 s4 - 0 : object 5; perform m0 new s4 0 : object 6
        perform m0 soft s6 s4 - 0 : object 7; perform m0 new s4 0 : object 8
        # All eight cells are taken, and nothing but weak references keeps object 1.
        perform m0 new s8 0 : refused: NoCell; make_or_collect 6 m0 new s8 0 : object 9
        perform m0 get s7 s5 : object 4; perform m0 drop s7 : ok
        # Only an urgent cycle frees what soft references kept.
        make_or_collect 6 m0 new s9 0 : object 10; perform m0 get s7 s5 : null
        perform m0 weak s10 s7 - 0 : refused: EmptySlot; make_or_collect 6 m0 new s10 0 : object 11
        make_or_collect 6 m0 new s11 0 : refused: NoCell; perform m0 drop s10 : ok
        make_or_collect 6 m0 new s11 0 : object 12; make_or_collect 6 m0 new s16 0 : refused: NoSuchActor";
    let starts = Starts { cells: 8, ..STARTS };
    agree(&rt, rt.alloc(), starts, calls);
}
