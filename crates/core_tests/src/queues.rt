//! A queue, call by call.

mod batches;
mod memory;
mod stories;

use crate::steps::{Steps, Told, agree};
use ref_base::{Batch, MOST_IN_BATCH, ObjNo, Parcel, QueueNo, Reply, Step};
use ref_queue::{Polled, PolledBatch, Put, Queue};
use std::alloc::{Allocator, Global};
use std::process::Abort;

/// The least that a queue takes: the two numbers themselves.
#[derive(Clone, Copy, Debug, PartialEq, Eq)]
pub(crate) struct Slip {
    pub(crate) object: u32,
    pub(crate) queue: u32,
}

impl Parcel for Slip {
    ghost object_of = { λ s. s.object };

    ghost queue_of = { λ s. s.queue };

    fn obj(&self) -> ObjNo {
        ObjNo(self.object)
    }

    fn queue(&self) -> QueueNo {
        QueueNo(self.queue)
    }
}

/// A slip for queue 0.
const fn of(object: u32) -> Slip {
    Slip { object, queue: 0 }
}

/// Puts a slip in. One that isn't added comes back: none is told where another does.
fn put<A: Allocator + Copy>(queue: &mut Queue<Slip, A>, slip: Slip) -> Option<Reply> {
    let (reply, back) = match queue.put(slip) {
        Ok(Put::Added(position)) => (Reply::Added(position), slip),
        Ok(Put::Already(back)) => (Reply::Already, back),
        Ok(Put::Closed(back)) => (Reply::Closed, back),
        Err((fault, back)) => (Reply::Refused(fault), back),
    };
    if back == slip { Some(reply) } else { None }
}

/// Queue 0 of a story, and a batch for it.
#[derive(Drop)]
struct Bench<A: Allocator = Global> {
    queue: Queue<Slip, A>,
    batch: Batch<Slip>,
    /// How many were put in before the last batch.
    before: u64,
    /// Where lists have their memory from.
    alloc: Global,
}

impl<A: Allocator + Copy> Bench<A> {
    /// A new queue with this memory, and an empty batch.
    fn new(rt: &impl Abort, memory: A, alloc: Global) -> Self {
        let Ok(batch) = Batch::new(alloc) else {
            panic!(rt; "no memory for a batch");
        };
        Bench {
            queue: Queue::new(memory, QueueNo(0)),
            batch,
            before: 0,
            alloc,
        }
    }

    // Polls for one.
    fn poll(&mut self) -> Told {
        match self.queue.poll() {
            Polled::Took(slip) if slip == of(slip.object) => Told::Reply(Reply::Took(slip.obj())),
            Polled::Took(_) => Told::Unknown,
            Polled::Empty => Told::Reply(Reply::Empty),
            Polled::Closed => Told::Reply(Reply::Closed),
        }
    }

    // Calls of batches. A slip is added to the batch, or the first is taken out of it.
    fn batched(&mut self, name: &str, slip: Slip) -> Told {
        match name {
            "add" => self.add(slip),
            "first" => match self.batch.take_first() {
                Some(slip) => Told::Of(slip.object, u64::from(slip.queue)),
                None => Told::Number(None),
            },
            "puts" => self.puts(),
            "before" => Told::Number(Some(self.before)),
            "polls" => self.polls(slip.object as usize),
            _ => listed(&self.queue, self.alloc, name),
        }
    }

    fn add(&mut self, slip: Slip) -> Told {
        if self.batch.len() >= MOST_IN_BATCH {
            return Told::Unknown;
        }
        self.batch.push(slip);
        Told::Reply(Reply::Done)
    }

    // Puts the batch in. What isn't added stays in it.
    fn puts(&mut self) -> Told {
        match self.queue.put_batch(&mut self.batch) {
            Ok(outs) => {
                self.before = outs.before();
                Told::Reply(Reply::Outs(outs))
            }
            Err(fault) => Told::Reply(Reply::Refused(fault)),
        }
    }

    // Polls for so many at most. What is taken goes behind what is in the batch.
    fn polls(&mut self, most: usize) -> Told {
        let count = self.batch.len();
        if most == 0 || count > MOST_IN_BATCH || most > MOST_IN_BATCH - count {
            return Told::Unknown;
        }
        Told::Reply(match self.queue.poll_batch(most, &mut self.batch) {
            PolledBatch::Took(objects) => Reply::TookSome(objects),
            PolledBatch::Empty => Reply::Empty,
            PolledBatch::Closed => Reply::Closed,
        })
    }
}

/// What was put into a queue, what of it was taken, and what stands. Lists have this memory.
pub fn listed<T: Parcel, A: Allocator + Copy>(
    queue: &Queue<T, A>,
    alloc: Global,
    name: &str,
) -> Told {
    let list = match name {
        "enqueued" => queue.enqueued(alloc),
        "taken" => queue.taken(alloc),
        "stands" => queue.stands(alloc),
        _ => return Told::Unknown,
    };
    match list {
        Ok(list) => Told::numbers(&list),
        Err(fault) => Told::Reply(Reply::Refused(fault)),
    }
}

/// Calls name an object, and then a queue, where it isn't queue 0.
impl<A: Allocator + Copy> Steps for Bench<A> {
    fn step(&mut self, _step: Step) -> Told {
        Told::Unknown
    }

    fn own(&mut self, name: &str, numbers: (u32, u64)) -> Told {
        let Ok(queue) = u32::try_from(numbers.1) else {
            return Told::Unknown;
        };
        let object = numbers.0;
        let slip = Slip { object, queue };
        match name {
            "put" => match put(&mut self.queue, slip) {
                Some(reply) => Told::Reply(reply),
                None => Told::Unknown,
            },
            "poll" => self.poll(),
            "close" if self.queue.close() => Told::Reply(Reply::Done),
            "close" => Told::Reply(Reply::Closed),
            _ => self.batched(name, slip),
        }
    }
}

/// Makes the calls of a story in a new queue, which then ends, and gives these.
fn agree_in_new(rt: &impl Abort, alloc: Global, story: &str, left: &[u32]) {
    let mut bench = Bench::new(rt, alloc, alloc);
    agree(rt, &mut bench, story);
    let given = bench.queue.end();
    assert!(rt; given.len() == left.len(), "so many are left");
    for (place, &want) in left.iter().enumerate() {
        assert!(rt; given.get(place) == Some(&of(want)), "place {place}");
    }
}
