//! Users of several queues, and a collector, each with a seat of its own.

use super::{M, W};
use ref_base::{Config, Fault, ObjNo, Parcel, PlainStep, QueueNo, SlotNo, Strength, Urgency};
use ref_share::{Collector, HeapUser, QueueUsers, Queues, SharedHeap, Stop};
use std::alloc::Global;
use std::process::Abort;
use std::sync::Wait;
use std::thread::Threads;

/// How many queues there are.
const QUEUES: u32 = 3;

/// An object in slot 0, and for each queue a weak reference to it in a slot behind, in the order of the queues. Their
/// numbers follow that of the object, which is answered.
fn make_references<R: Wait>(rt: &R, heap: &mut HeapUser<'_>) -> Result<ObjNo, Fault> {
    let object = heap.make(rt, SlotNo(0), 0)?;
    for queue in 0..QUEUES {
        let (slot, queue) = (SlotNo(queue + 1), Some(QueueNo(queue)));
        heap.refer(rt, Strength::Weak, slot, SlotNo(0), queue)?;
    }
    Ok(object)
}

/// Each reference is enqueued, and once more in vain.
fn enqueue_twice<R: Wait + Abort>(
    rt: &R,
    heap: &mut HeapUser<'_>,
    queues: &mut QueueUsers<'_>,
) -> Result<(), Fault> {
    for slot in 1..=QUEUES {
        for want in [true, false] {
            let is_added = heap.enqueue(rt, SlotNo(slot), queues)?;
            assert!(rt; is_added == want, "slot {slot}");
        }
    }
    Ok(())
}

/// How many notices stand in the queue of this number, and the reference of the last.
fn take_all<R: Wait>(
    rt: &R,
    heap: &mut HeapUser<'_>,
    queues: &mut QueueUsers<'_>,
    queue: u32,
) -> Result<(u64, Option<ObjNo>), Fault> {
    let mut user = queues.user(QueueNo(queue))?;
    let (mut count, mut last) = (0, None);
    for notice in user.standing(rt) {
        count = u64::wrapping_add(count, 1);
        last = Some(notice.obj());
        heap.give_back(rt, notice.into_hold())?;
    }
    Ok((count, last))
}

/// In each queue stands a notice of its own reference to the object, which is taken.
fn take_each<R: Wait + Abort>(
    rt: &R,
    heap: &mut HeapUser<'_>,
    queues: &mut QueueUsers<'_>,
    ObjNo(object): ObjNo,
) -> Result<(), Fault> {
    for queue in 0..QUEUES {
        let own = ObjNo(object.wrapping_add(queue + 1));
        let taken = take_all(rt, heap, queues, queue)?;
        assert!(rt; taken == (1, Some(own)), "queue {queue}");
    }
    Ok(())
}

/// Nothing stands in any queue.
fn are_empty<R: Wait + Abort>(
    rt: &R,
    heap: &mut HeapUser<'_>,
    queues: &mut QueueUsers<'_>,
) -> Result<(), Fault> {
    for queue in 0..QUEUES {
        let taken = take_all(rt, heap, queues, queue)?;
        assert!(rt; taken == (0, None), "queue {queue}");
    }
    Ok(())
}

/// What one thread's users put in, another's take, and then nothing stands for the first.
fn put_and_take<R: Wait + Abort>(
    rt: &R,
    heap: &mut HeapUser<'_>,
    putting: &mut QueueUsers<'_>,
    taking: &mut QueueUsers<'_>,
) -> Result<(), Fault> {
    let object = make_references(rt, heap)?;
    enqueue_twice(rt, heap, putting)?;
    take_each(rt, heap, taking, object)?;
    are_empty(rt, heap, putting)
}

/// Each queue was closed by another, and there is none behind the last.
fn are_closed<R: Wait + Abort>(rt: &R, queues: &mut QueueUsers<'_>) -> Result<(), Fault> {
    for queue in 0..QUEUES {
        let was_open = queues.user(QueueNo(queue))?.close(rt)?;
        assert!(rt; !was_open, "queue {queue}");
    }
    for queue in [QueueNo(QUEUES), QueueNo(u32::MAX)] {
        let behind = queues.user(queue);
        assert!(rt; behind.is_err_and(|fault| fault == Fault::BadQueue));
    }
    Ok(())
}

/// The object that the slots refer to dies in the one cycle of a collector that is told to stop before it begins.
fn collect_once<R: Wait + Abort>(
    rt: &R,
    heap: &mut HeapUser<'_>,
    collector: &mut Collector<'_>,
    taking: &mut QueueUsers<'_>,
) -> Result<(), Fault> {
    let object = make_references(rt, heap)?;
    heap.empty(rt, SlotNo(0))?;
    let stop = Stop::new();
    stop.set();
    collector.run_cycles(rt, &stop)?;
    take_each(rt, heap, taking, object)
}

/// A collector goes beside a program that does nothing, and comes back. It has made a cycle, or was refused one where
/// another had begun; in both cases the queues are closed.
fn run_beside<'a, R: Threads + Wait + Abort + Sync>(
    rt: &R,
    collector: Collector<'a>,
    want: Result<(), Fault>,
) -> Collector<'a> {
    let (ran, collected) = collector.run_beside(rt, || -> u32 { QUEUES });
    assert!(rt; ran == QUEUES && collected.ended == want);
    collected.collector
}

/// Users of one thread, and a collector, tell users of another.
fn tell<'x, R: Threads + Wait + Abort + Sync>(
    rt: &R,
    alloc: Global,
    heap: &mut HeapUser<'x>,
    queues: &'x mut Queues,
) -> Result<(), Fault> {
    let mut putting = queues.users()?;
    let mut taking = putting.split(alloc)?;
    put_and_take(rt, heap, &mut putting, &mut taking)?;
    let mut collector = Collector::new(alloc, heap, putting, W);
    collect_once(rt, heap, &mut collector, &mut taking)?;
    let mut collector = run_beside(rt, collector, Ok(()));
    are_closed(rt, &mut taking)?;
    let (now, urgency) = (9, Urgency::Normal);
    heap.perform(rt, PlainStep::Begin { now, urgency })?;
    let mut collector = run_beside(rt, collector, Err(Fault::WrongPhase));
    collector.close(rt);
    are_closed(rt, &mut taking)
}

#[test]
fn users_and_a_collector_tell_each_queue_its_own(rt: HostRuntime) {
    let alloc = rt.alloc();
    let config = Config::default().queues(QUEUES);
    let Ok((heap, seat)) = SharedHeap::new(alloc, config, 0) else {
        panic!(rt; "there is no heap");
    };
    let Ok(mut queues) = Queues::new(alloc, QUEUES) else {
        panic!(rt; "there are no queues");
    };
    let told = tell(&rt, alloc, &mut HeapUser::new(&heap, seat, M), &mut queues);
    queues.end();
    assert!(rt; told == Ok(()));
}
