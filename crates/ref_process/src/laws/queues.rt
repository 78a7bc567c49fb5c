//! What holds of each run of a queue of notices.

ghost use Rattle.std.specs.Prelude.{◌≡◌, ◌+◌, ◌++◌, ℕ, Bool, List, [], length};
ghost use Rattle.ref_process.specs.NoticeQueues.{QueuedNotices, new_notices, AreFor};
ghost use Rattle.ref_process.specs.NoticeRows.{NoticeRow, PollsNotice, ClosesNotices, IsNoticeRow, IsNoticeRun};
ghost use Rattle.ref_process.specs.NoticeRows.{notices_added, notices_taken, positions_given, numbered_from};
ghost use Rattle.ref_process.specs.declared.notice_queue.NoticePolled.TheVariants as polled;

/// What was taken, followed by what stands, is what stood at first, followed by what was put in, in order. So nothing
/// is lost, and nothing is given out twice.
// promise: NoticeQueue::put, NoticeQueue::poll: what was put in is taken in order, and nothing else is
pub fn what_was_put_in_is_taken_in_order()
    ensures { (c : QueuedNotices) (rows : List NoticeRow) (e : QueuedNotices) → IsNoticeRun c rows e
        → notices_taken rows ++ e.stands ≡ c.stands ++ notices_added rows }
{}

/// Behind a close nothing is put in, however the run goes on.
// promise: NoticeQueue::close, NoticeQueue::put: nothing is put in behind a close
pub fn nothing_is_put_in_behind_a_close()
    ensures { (c : QueuedNotices) (was_open : Bool) (d : QueuedNotices) → IsNoticeRow c (ClosesNotices was_open) d
        → (rows : List NoticeRow) (e : QueuedNotices) → IsNoticeRun d rows e → notices_added rows ≡ [] }
{}

/// Once a poll was answered `Closed` nothing is taken, however the run goes on.
// promise: NoticeQueue::poll: nothing is taken once a poll was answered Closed
pub fn nothing_is_taken_once_a_poll_was_answered_closed()
    ensures { (c : QueuedNotices) (d : QueuedNotices) → IsNoticeRow c (PollsNotice polled.Closed) d
        → (rows : List NoticeRow) (e : QueuedNotices) → IsNoticeRun d rows e → notices_taken rows ≡ [] }
{}

/// The positions that puts answer rise by one, from the queue's count on, and the count rises with them.
// promise: NoticeQueue::put: positions rise by one
pub fn positions_rise_by_one()
    ensures positions { (c : QueuedNotices) (rows : List NoticeRow) (e : QueuedNotices) → IsNoticeRun c rows e
        → positions_given rows ≡ numbered_from c.count (notices_added rows) }
    ensures count { (c : QueuedNotices) (rows : List NoticeRow) (e : QueuedNotices) → IsNoticeRun c rows e
        → e.count ≡ c.count + length (notices_added rows) }
{}

/// Each notice that is taken from a queue is for it.
// promise: NoticeQueue::put, NoticeQueue::poll: each notice that is taken is for its queue
pub fn each_notice_that_is_taken_is_for_its_queue()
    ensures { (q : ℕ) (rows : List NoticeRow) (e : QueuedNotices) → IsNoticeRun (new_notices q) rows e
        → AreFor q (notices_taken rows) }
{}
