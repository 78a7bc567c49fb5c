//! What the calls of a heap answer, told as replies.

ghost use Rattle.std.specs.Prelude.{◌≡◌};
ghost use Rattle.ref_base.specs.CollectorRows.{value_reply};
ghost use Rattle.ref_mark.specs.MarkCalls.{reply_of, done_reply, scan_reply, moved_reply};
ghost use Rattle.ref_clear.specs.ClearCalls.{looked_reply, swept_reply};
ghost use Rattle.ref_world.specs.QueueReplies.{polls_reply};

use crate::plain_reply::{PlainAnswer, PlainReply};
use ref_base::{Fault, ObjNo, Reply};
use ref_clear::Looked;
use ref_queue::PolledBatch;

// The object that was made.
pub(crate) fn made(answer: Result<ObjNo, Fault>) -> PlainReply
    ensures { result ≡ reply_of Reply.Object answer }
{
    match answer {
        Ok(object) => PlainReply(PlainAnswer::Object(object)),
        Err(fault) => PlainReply(PlainAnswer::Refused(fault)),
    }
}

pub(crate) fn done(answer: Result<(), Fault>) -> PlainReply
    ensures { result ≡ reply_of done_reply answer }
{
    match answer {
        Ok(()) => PlainReply(PlainAnswer::Done),
        Err(fault) => PlainReply(PlainAnswer::Refused(fault)),
    }
}

// What a slot holds now.
pub(crate) fn value(answer: Result<Option<ObjNo>, Fault>) -> PlainReply
    ensures { result ≡ reply_of value_reply answer }
{
    match answer {
        Ok(Some(object)) => PlainReply(PlainAnswer::Object(object)),
        Ok(None) => PlainReply(PlainAnswer::Null),
        Err(fault) => PlainReply(PlainAnswer::Refused(fault)),
    }
}

pub(crate) fn refers(answer: Result<bool, Fault>) -> PlainReply
    ensures { result ≡ reply_of Reply.Refers answer }
{
    match answer {
        Ok(refers) => PlainReply(PlainAnswer::Refers(refers)),
        Err(fault) => PlainReply(PlainAnswer::Refused(fault)),
    }
}

pub(crate) fn began(answer: Result<u64, Fault>) -> PlainReply
    ensures { result ≡ reply_of Reply.Cycle answer }
{
    match answer {
        Ok(cycle) => PlainReply(PlainAnswer::Cycle(cycle)),
        Err(fault) => PlainReply(PlainAnswer::Refused(fault)),
    }
}

pub(crate) fn scanned(answer: Result<Option<ObjNo>, Fault>) -> PlainReply
    ensures { result ≡ reply_of scan_reply answer }
{
    match answer {
        Ok(Some(object)) => PlainReply(PlainAnswer::Scanned(object)),
        Ok(None) => PlainReply(PlainAnswer::Nothing),
        Err(fault) => PlainReply(PlainAnswer::Refused(fault)),
    }
}

pub(crate) fn doomed(answer: Result<u32, Fault>) -> PlainReply
    ensures { result ≡ reply_of Reply.Doomed answer }
{
    match answer {
        Ok(count) => PlainReply(PlainAnswer::Doomed(count)),
        Err(fault) => PlainReply(PlainAnswer::Refused(fault)),
    }
}

pub(crate) fn looked(answer: Result<Option<Looked>, Fault>) -> PlainReply
    ensures { result ≡ reply_of looked_reply answer }
{
    match answer {
        Ok(Some(looked)) => looked_at(looked),
        Ok(None) => PlainReply(PlainAnswer::Nothing),
        Err(fault) => PlainReply(PlainAnswer::Refused(fault)),
    }
}

fn looked_at(looked: Looked) -> PlainReply
    ensures { result ≡ looked_reply (Some looked) }
{
    match looked {
        Looked::Cleared(reference) => PlainReply(PlainAnswer::Cleared(reference)),
        Looked::Kept(reference) => PlainReply(PlainAnswer::Kept(reference)),
        Looked::Skipped(reference) => PlainReply(PlainAnswer::Skipped(reference)),
    }
}

pub(crate) fn swept(answer: Result<Option<u32>, Fault>) -> PlainReply
    ensures { result ≡ reply_of swept_reply answer }
{
    match answer {
        Ok(Some(count)) => PlainReply(PlainAnswer::Swept(count)),
        Ok(None) => PlainReply(PlainAnswer::Nothing),
        Err(fault) => PlainReply(PlainAnswer::Refused(fault)),
    }
}

pub(crate) fn selected(answer: Result<u32, Fault>) -> PlainReply
    ensures { result ≡ reply_of Reply.Selected answer }
{
    match answer {
        Ok(count) => PlainReply(PlainAnswer::Selected(count)),
        Err(fault) => PlainReply(PlainAnswer::Refused(fault)),
    }
}

pub(crate) fn moved(answer: Result<Option<ObjNo>, Fault>) -> PlainReply
    ensures { result ≡ reply_of moved_reply answer }
{
    match answer {
        Ok(Some(object)) => PlainReply(PlainAnswer::Moved(object)),
        Ok(None) => PlainReply(PlainAnswer::Nothing),
        Err(fault) => PlainReply(PlainAnswer::Refused(fault)),
    }
}

// What a poll of several took, or that nothing stands.
pub(crate) fn polled(answer: PolledBatch) -> Reply
    ensures { result ≡ polls_reply answer }
{
    match answer {
        PolledBatch::Took(numbers) => Reply::TookSome(numbers),
        PolledBatch::Empty => Reply::Empty,
        PolledBatch::Closed => Reply::Closed,
    }
}
