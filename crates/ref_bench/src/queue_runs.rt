//! Queues that one thread has alone.

use crate::letters::{Letter, QUEUE, letters};
use crate::tills::{SharedTill, Till};
use crate::timing::{Sample, Timer};
use ref_base::Fault;
use ref_queue::Queue;
use ref_share::{SharedQueue, end_queue};
use std::alloc::Global;
use std::sync::Wait;
use std::time::Clock;

/// Puts of as many notices as `count` into a queue, and as many polls.
pub fn queue_alone<R: Clock>(rt: &R, alloc: Global, count: u32) -> Result<Sample, Fault> {
    let letters = letters(alloc, 1, count)?;
    let mut queue = Queue::new(alloc, QUEUE);
    let timer = Timer::start(rt);
    for letter in letters {
        if let Err((fault, _)) = queue.put(letter) {
            return Err(fault);
        }
    }
    for _ in 0..count {
        let _ = queue.poll();
    }
    Ok(timer.stop(rt, calls(count)))
}

/// A put and a poll for each notice.
fn calls(count: u32) -> u64 {
    u64::from(count).saturating_mul(2)
}

/// Puts of as many notices as `count` into a shared queue, and as many polls.
pub fn shared_queue_alone<R: Wait + Clock>(
    rt: &R,
    alloc: Global,
    count: u32,
) -> Result<Sample, Fault> {
    let letters = letters(alloc, 1, count)?;
    let (queue, mut seat) = SharedQueue::new(alloc, QUEUE)?;
    let mut till = SharedTill::new(&queue, queue.split(&mut seat));
    let timer = Timer::start(rt);
    let answer = put_and_take(rt, &mut till, letters);
    let sample = timer.stop(rt, calls(count));
    drop(till);
    end_queue(queue.finish(seat));
    answer.map(|()| sample)
}

fn put_and_take<R: Wait, T: Till>(rt: &R, till: &mut T, letters: Vec<Letter>) -> Result<(), Fault>
    requires { T.is_ready till.old }
{
    let count = letters.len();
    for letter in letters {
        till.put(rt, letter)?;
    }
    for _ in 0..count {
        till.take(rt);
    }
    Ok(())
}
