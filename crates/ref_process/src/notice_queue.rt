//! The queue of notices, and what its calls answer.

ghost use Rattle.std.specs.Prelude.{◌≡◌, not, IfOk, IfErr, OnOk, OnErr, None};
ghost use Rattle.ref_process.specs.NoticeQueues.{new_notices, putting_refusal, RefusesPutting, putting_of};
ghost use Rattle.ref_process.specs.NoticeQueues.{after_putting, polling_of, after_polling, TakesFor, AreFor};
ghost use Rattle.ref_process.specs.NoticeQueues.{after_closing};

use crate::{Notice, ProcessFault};
use ref_base::QueueNo;
use std::alloc::{Allocator, Global};
use std::collections::VecDeque;
use std::marker::Model;

/// What putting a notice in answers where it is not refused.
#[derive(Debug, Drop)]
pub enum NoticePut {
    /// The notice stands last now. Its position says how many were ever put in before it.
    Added(u64),
    /// The queue takes nothing any more, so the notice comes back.
    Closed(Notice),
}

/// What a poll of a queue of notices answers.
#[derive(Debug, Drop)]
pub enum NoticePolled {
    /// The first that stood.
    Took(Notice),
    /// Nothing stands, and something may come yet.
    Empty,
    /// Nothing stands, and nothing comes any more.
    Closed,
}

/// A queue of notices, first in, first out. Of what was taken it remembers nothing: that a reference has one notice is
/// kept by its processor, and that a notice is put in once by its type, which can't be copied. All its memory is of the
/// allocator that it was made with.
#[derive(Drop)]
pub struct NoticeQueue<A: Allocator = Global> {
    queue: QueueNo,
    standing: VecDeque<Notice, A>,
    // How many were ever put in.
    count: u64,
    is_closed: bool,
}

impl<A: Allocator> Model for NoticeQueue<A> {
    ghost use Rattle.ref_process.specs.NoticeQueues.{QueuedNotices, AreFor};

    ghost Value = { QueuedNotices };

    ghost view = { λ s. record {
      queue = s.queue;
      stands = s.standing.items;
      count = s.count;
      closed = s.is_closed;
    } };

    ghost invariant = { λ s. AreFor s.queue s.standing.items };
}

impl<A: Allocator + Copy> NoticeQueue<A> {
    /// The queue of this number, open, with nothing ever put in. Takes no memory.
    pub fn new(alloc: A, queue: QueueNo) -> Self
        ensures { result ≡ new_notices queue }
    {
        NoticeQueue {
            queue,
            standing: VecDeque::new(alloc),
            count: 0,
            is_closed: false,
        }
    }

    /// The queue's number. In constant time.
    pub fn queue(&self) -> QueueNo
        ensures { result ≡ self.now.queue }
    {
        self.queue
    }

    /// Puts a notice in, last, and answers its position among all that were ever put in, from 0. Where the queue is
    /// closed it answers `Closed` with the notice, and nothing has changed. In constant time, amortized.
    ///
    /// Tried in this order: `WrongQueue` where the notice is for another queue, then whether the queue is closed,
    /// `NumbersSpent` where 2^64 - 1 were put in, `NoMemory` where a growth is refused. With an error the notice comes
    /// back, and nothing has changed.
    pub fn put(&mut self, notice: Notice) -> Result<NoticePut, (ProcessFault, Notice)>
        ensures allowed { OnOk result (putting_refusal self.old notice ≡ None) }
        ensures answer { IfOk result (λ put. put ≡ putting_of self.old notice) }
        ensures after { OnOk result (self.new ≡ after_putting self.old notice) }
        ensures refused { IfErr result (λ refused. RefusesPutting self.old notice refused.0) }
        ensures back { IfErr result (λ refused. refused.1 ≡ notice) }
        ensures unchanged { OnErr result (self.new ≡ self.old) }
    {
        if notice.queue != self.queue {
            return Err((ProcessFault::WrongQueue, notice));
        }
        if self.is_closed {
            return Ok(NoticePut::Closed(notice));
        }
        if self.count == u64::MAX {
            return Err((ProcessFault::NumbersSpent, notice));
        }
        if self.standing.reserve(1).is_err() {
            return Err((ProcessFault::NoMemory, notice));
        }
        let position = self.count;
        self.standing.push_back_reserved(notice);
        self.count += 1;
        Ok(NoticePut::Added(position))
    }

    /// Takes the first that stands, which is for this queue. Where nothing stands it answers `Closed` if the queue is,
    /// and else `Empty`: then nothing has changed. In constant time. Takes no memory.
    pub fn poll(&mut self) -> NoticePolled
        ensures answer { result ≡ polling_of self.old self.old.stands }
        ensures after { self.new ≡ after_polling self.old self.old.stands }
        ensures own { TakesFor self.old.queue result }
    {
        match self.standing.pop_front() {
            Some(notice) => NoticePolled::Took(notice),
            None if self.is_closed => NoticePolled::Closed,
            None => NoticePolled::Empty,
        }
    }

    /// Closes the queue: no put adds anything from now on, and what stands may still be taken. True exactly where it
    /// was open. In constant time. Takes no memory.
    pub fn close(&mut self) -> bool
        ensures answer { result ≡ not self.old.closed }
        ensures after { self.new ≡ after_closing self.old }
    {
        let was_open = !self.is_closed;
        self.is_closed = true;
        was_open
    }

    /// Ends the queue, and gives what stands, in order: each is for this queue. In constant time. Takes no memory.
    pub fn end(self) -> VecDeque<Notice, A>
        ensures answer { result.items ≡ self.stands }
        ensures own { AreFor self.queue result.items }
    {
        let NoticeQueue { standing, .. } = self;
        standing
    }
}
