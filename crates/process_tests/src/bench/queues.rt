//! The calls of two queues: `put 0` puts the first notice that is held into queue 0, `poll 0` takes one from it, which
//! is held last then, `close 0` closes it, and `end 0` ends it and holds what stood. Then a new one has its place.

use super::Bench;
use crate::told::Told;
use ref_base::{Cause, QueueNo};
use ref_process::{Notice, NoticePolled, NoticePut, NoticeQueue};
use std::alloc::Allocator;
use std::mem;

impl<A: Allocator + Copy + Drop> Bench<A> {
    /// Makes the call of a row of this name, of queue 0 or of queue 1.
    pub(super) fn of_queue(&mut self, name: &str, is_0: bool) -> Told {
        match name {
            "put" => self.put(is_0),
            "poll" => self.poll(is_0),
            "close" => Told::Is(self.close(is_0)),
            _ => self.end(is_0),
        }
    }

    fn put(&mut self, is_0: bool) -> Told {
        let Some(notice) = self.notices.pop_front() else {
            return Told::Nothing;
        };
        let put = if is_0 {
            self.queue_0.put(notice)
        } else {
            self.queue_1.put(notice)
        };
        match put {
            Ok(NoticePut::Added(position)) => Told::Position(position),
            Ok(NoticePut::Closed(notice)) => self.back(notice, Told::Closed),
            Err((fault, notice)) => self.back(notice, Told::Refused(fault)),
        }
    }

    // Holds a notice that came back, in front of those that are held.
    fn back(&mut self, notice: Notice, told: Told) -> Told {
        match self.notices.push_front(notice) {
            Ok(()) => told,
            Err(_) => Told::Unknown,
        }
    }

    fn poll(&mut self, is_0: bool) -> Told {
        let polled = if is_0 {
            self.queue_0.poll()
        } else {
            self.queue_1.poll()
        };
        match polled {
            NoticePolled::Took(notice) => self.hold(notice),
            NoticePolled::Empty => Told::Empty,
            NoticePolled::Closed => Told::Closed,
        }
    }

    fn close(&mut self, is_0: bool) -> bool {
        if is_0 {
            self.queue_0.close()
        } else {
            self.queue_1.close()
        }
    }

    fn end(&mut self, is_0: bool) -> Told {
        let queue = if is_0 {
            mem::replace(&mut self.queue_0, NoticeQueue::new(self.alloc, QueueNo(0)))
        } else {
            mem::replace(&mut self.queue_1, NoticeQueue::new(self.alloc, QueueNo(1)))
        };
        let mut stood = queue.end();
        let count = stood.len();
        for _place in 0..count {
            if let Some(notice) = stood.pop_front() {
                let _cause: Cause = notice.cause();
                let _told = self.hold(notice);
            }
        }
        Told::Stood(count as u64)
    }
}
