//! What a caller of a queue can prove of its answers.

ghost use Rattle.std.specs.Prelude.{◌≡◌, true, false};

use crate::queues::Slip;
use ref_base::{Fault, QueueNo};
use ref_queue::{Polled, Queue};
use std::alloc::Global;

const FIRST: Slip = Slip {
    object: 3,
    queue: 0,
};

const SECOND: Slip = Slip {
    object: 7,
    queue: 0,
};

// promise: Queue::close: a second close tells that the queue was closed
fn closes_once(queue: &mut Queue<Slip>) -> bool
    ensures { result ≡ false }
{
    let _was_open = queue.close();
    queue.close()
}

// promise: Queue::put: a parcel of another queue is WrongQueue
fn refuses_what_is_another_queues(alloc: Global) -> bool
    ensures { result ≡ true }
{
    let mut queue = Queue::new(alloc, QueueNo(1));
    let is_refused = match queue.put(FIRST) {
        Err((Fault::WrongQueue, _)) => true,
        _ => false,
    };
    queue.end();
    is_refused
}

// promise: Queue::poll: not Empty while something stands
fn gives_out_what_stands(alloc: Global) -> bool
    ensures { result ≡ true }
{
    let mut queue = Queue::new(alloc, QueueNo(0));
    let Ok(_added) = queue.put(FIRST) else {
        return true;
    };
    match queue.poll() {
        Polled::Took(slip) => slip.object == 3,
        _ => false,
    }
}

// promise: Queue::end: what stands is given in order
fn ends_with_the_first_first(alloc: Global) -> bool
    ensures { result ≡ true }
{
    let mut queue = Queue::new(alloc, QueueNo(0));
    let (Ok(_first), Ok(_second)) = (queue.put(FIRST), queue.put(SECOND)) else {
        return true;
    };
    let mut left = queue.end();
    match left.pop_front() {
        Some(slip) => slip.object == 3,
        None => false,
    }
}

// promise: Queue::enqueued, Queue::taken, Queue::stands: what was taken is in two of the lists
fn lists_what_was_taken(alloc: Global) -> bool
    ensures { result ≡ true }
{
    let mut queue = Queue::new(alloc, QueueNo(0));
    let Ok(_added) = queue.put(FIRST) else {
        return true;
    };
    let _taken = queue.poll();
    match (
        queue.enqueued(alloc),
        queue.taken(alloc),
        queue.stands(alloc),
    ) {
        (Ok(all), Ok(taken), Ok(stands)) => all.len() == 1 && taken.len() == 1 && stands.is_empty(),
        _ => true,
    }
}

#[test]
fn what_callers_of_a_queue_see(rt: HostRuntime) {
    let mut queue = Queue::new(rt.alloc(), QueueNo(0));
    assert!(rt; !closes_once(&mut queue));
    assert!(rt; refuses_what_is_another_queues(rt.alloc()));
    assert!(rt; gives_out_what_stands(rt.alloc()));
    assert!(rt; ends_with_the_first_first(rt.alloc()));
    assert!(rt; lists_what_was_taken(rt.alloc()));
}
