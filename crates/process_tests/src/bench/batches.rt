//! Handing on at once: `hand_batch 0 1 5` hands on what finder 0 has for queue 1, at most 5. The notices are held then,
//! behind those that are. `next_queue 0` tells for which queue finder 0 has one next.

use super::{Bench, number};
use crate::told::Told;
use ref_base::{Cause, QueueNo};
use ref_process::Notice;
use std::alloc::Allocator;
use std::collections::VecDeque;
use std::process::Abort;

impl<A: Allocator + Copy + Drop> Bench<A> {
    pub(super) fn next_queue(&self, is_first: bool) -> Told {
        let queue = if is_first {
            self.processor.next_queue(&self.first)
        } else {
            self.processor.next_queue(&self.second)
        };
        Told::Queue(queue)
    }

    pub(super) fn hand_batch(&mut self, rt: &impl Abort, rest: &str) -> Told {
        let (finder, rest) = rest.split_once(' ').unwrap_or((rest, ""));
        let (queue, most) = rest.split_once(' ').unwrap_or((rest, ""));
        let Ok(queue) = queue.parse::<u32>() else {
            panic!(rt; "no queue: {queue}");
        };
        let queue = QueueNo(queue);
        let most = number(rt, most) as usize;
        let mut batch = VecDeque::new(self.alloc);
        let answer = if finder == "0" {
            self.processor
                .hand_batch(&mut self.first, queue, most, &mut batch)
        } else {
            self.processor
                .hand_batch(&mut self.second, queue, most, &mut batch)
        };
        match answer {
            Ok(()) => self.hold_all(batch),
            Err(fault) => Told::Refused(fault),
        }
    }

    // Holds these notices, behind those that are held.
    fn hold_all(&mut self, mut batch: VecDeque<Notice, A>) -> Told {
        let count = batch.len();
        for _place in 0..count {
            if let Some(notice) = batch.pop_front() {
                let _cause: Cause = notice.cause();
                let _told = self.hold(notice);
            }
        }
        Told::Batch(count as u64)
    }
}
