//! Queues whose memory runs out.

use super::{Bench, Slip, of, put};
use crate::rows::refused;
use crate::scarce::{MOST, Trial, refuse_each};
use crate::steps::{agree, agree_with};
use rationed::Rationed;
use ref_base::{Fault, ObjNo, Reply};
use ref_queue::Queue;
use std::alloc::{Allocator, Global};
use std::process::Abort;

/// Puts a slip in that may find no memory. Whether it is added, behind so many.
fn is_added<A: Allocator + Copy>(rt: &impl Abort, queue: &mut Queue<Slip, A>, object: u32) -> bool {
    let reply = put(queue, of(object));
    if reply != Some(Reply::Added(u64::from(object))) {
        assert!(rt; reply == Some(refused(Fault::NoMemory)), "object {object}");
        return false;
    }
    true
}

/// A slip that is put in behind all that were numbered from 0 on, of which none was taken.
#[derive(Drop)]
struct PutLast<'a> {
    bench: Bench<&'a Rationed<Global>>,
    alloc: Global,
    object: u32,
}

impl<'a> Trial for PutLast<'a> {
    fn call(&self) -> &'static str {
        "Queue::put"
    }

    fn is_made(&mut self, rt: &impl Abort) -> bool {
        is_added(rt, &mut self.bench.queue, self.object)
    }

    fn stays(&self, rt: &impl Abort) {
        let queue = &self.bench.queue;
        have(rt, queue.enqueued(self.alloc), (0, self.object));
        have(rt, queue.taken(self.alloc), (0, 0));
        have(rt, queue.stands(self.alloc), (0, self.object));
    }
}

/// The list has so many numbers, from the first on.
fn have<B: Allocator>(
    rt: &impl Abort,
    list: Result<Vec<ObjNo, B>, Fault>,
    (first, count): (u32, u32),
) {
    let list = match list {
        Ok(list) => list,
        Err(fault) => panic!(rt; "{fault}"),
    };
    assert!(rt; list.len() == count as usize, "{count} of them");
    for (place, no) in (0..count).zip(list.iter()) {
        assert!(rt; no.0 == first.saturating_add(place), "place {place}");
    }
}

#[test]
fn a_put_without_memory_changes_nothing(rt: HostRuntime) {
    let memory = Rationed::new(rt.alloc());
    let mut trial = PutLast {
        bench: Bench::new(&rt, &memory, rt.alloc()),
        alloc: rt.alloc(),
        object: 0,
    };
    let mut requests = 0u64;
    for object in 0..100 {
        trial.object = object;
        requests = requests.saturating_add(refuse_each(&rt, &memory, &mut trial));
    }
    assert!(rt; 1 < requests && requests < MOST, "{requests} requests");
    // Just these were put in, and all of them stand: they are taken one by one.
    trial.object = 100;
    trial.stays(&rt);
    for object in 0..100 {
        agree_with(&rt, &mut trial.bench, "poll : took $", &[object]);
    }
    agree(&rt, &mut trial.bench, "poll : empty");
}

/// Puts slips in, numbered from 0, until there is no memory for one more. Answers how many were added.
fn fill<A: Allocator + Copy>(rt: &impl Abort, queue: &mut Queue<Slip, A>) -> u32 {
    for object in 0..1_000 {
        if !is_added(rt, queue, object) {
            return object;
        }
    }
    assert!(rt; false, "a thousand were added");
    1_000
}

#[test]
fn want_of_memory_is_told_last(rt: HostRuntime) {
    let memory = Rationed::new(rt.alloc());
    let mut bench = Bench::new(&rt, &memory, rt.alloc());
    memory.ration(8);
    let count = fill(&rt, &mut bench.queue);
    assert!(rt; count > 0, "some were added");
    let story = "
        put $ : refused 3 NoMemory; put $ 1 : refused 20 WrongQueue; put 0 : already; close : ok; put $ : closed";
    agree_with(&rt, &mut bench, story, &[count, count, count]);
}

/// A list of a queue, which makes one request.
#[derive(Drop)]
struct List<'a> {
    bench: Bench<&'a Rationed<Global>>,
    memory: &'a Rationed<Global>,
    alloc: Global,
    name: Name,
}

#[derive(Clone, Copy)]
enum Name {
    Enqueued,
    Taken,
    Stands,
}

impl<'a> Trial for List<'a> {
    fn call(&self) -> &'static str {
        match self.name {
            Name::Enqueued => "Queue::enqueued",
            Name::Taken => "Queue::taken",
            Name::Stands => "Queue::stands",
        }
    }

    fn is_made(&mut self, rt: &impl Abort) -> bool {
        let queue = &self.bench.queue;
        let (list, first) = match self.name {
            Name::Enqueued => (queue.enqueued(self.memory), 0),
            Name::Taken => (queue.taken(self.memory), 0),
            Name::Stands => (queue.stands(self.memory), 5),
        };
        match list {
            Ok(list) => {
                assert!(rt; list.first() == Some(&ObjNo(first)));
                true
            }
            Err(fault) => {
                assert!(rt; fault == Fault::NoMemory, "{fault}");
                false
            }
        }
    }

    fn stays(&self, rt: &impl Abort) {
        let queue = &self.bench.queue;
        have(rt, queue.enqueued(self.alloc), (0, 10));
        have(rt, queue.taken(self.alloc), (0, 5));
        have(rt, queue.stands(self.alloc), (5, 5));
    }
}

#[test]
fn a_list_without_memory_is_refused(rt: HostRuntime) {
    let memory = Rationed::new(rt.alloc());
    let mut bench = Bench::new(&rt, &memory, rt.alloc());
    for object in 0..10 {
        agree_with(&rt, &mut bench, "put $ : added $", &[object, object]);
    }
    for object in 0..5 {
        agree_with(&rt, &mut bench, "poll : took $", &[object]);
    }
    let mut trial = List {
        bench,
        memory: &memory,
        alloc: rt.alloc(),
        name: Name::Enqueued,
    };
    for name in [Name::Enqueued, Name::Taken, Name::Stands] {
        trial.name = name;
        let requests = refuse_each(&rt, &memory, &mut trial);
        assert!(rt; requests == 1, "{requests} requests");
    }
}
