//! The reply to a hand of several notices, as the heap's call answered it.

ghost use Rattle.std.specs.Prelude.{◌≡◌};
ghost use Rattle.ref_mark.specs.MarkCalls.{reply_of};
ghost use Rattle.ref_clear.specs.ClearCalls.{handed_reply};
ghost use Rattle.ref_world.specs.HeapReplies.{TellsOfBatch};

use ref_base::{Fault, Reply, WorkerNo};
use ref_clear::Handed;
use std::marker::Model;

/// The reply to a step that asks for several notices at once. In a clause it is that `Reply`, which is made only where
/// a trace wants it.
#[derive(Debug, Drop)]
pub struct HandedReply {
    worker: WorkerNo,
    answer: Result<Option<Handed>, Fault>,
}

impl Model for HandedReply {
    ghost use Rattle.ref_base.specs.declared.reply.Reply.{Reply};
    ghost use Rattle.ref_mark.specs.MarkCalls.{reply_of};
    ghost use Rattle.ref_clear.specs.ClearCalls.{handed_reply};

    ghost Value = { Reply };

    ghost view = { λ r. reply_of (handed_reply r.worker) r.answer };
}

impl HandedReply {
    // The reply to this worker.
    pub(crate) fn new(worker: WorkerNo, answer: Result<Option<Handed>, Fault>) -> Self
        ensures { result ≡ reply_of (handed_reply worker) answer }
    {
        HandedReply { worker, answer }
    }

    /// What was handed on, none where nothing was pending, or why it is refused.
    #[inline(always)]
    pub fn answer(self) -> Result<Option<Handed>, Fault>
        ensures { TellsOfBatch self result }
    {
        let HandedReply { worker: _, answer } = self;
        answer
    }

    /// The reply itself.
    pub fn reply(self) -> Reply
        ensures { result ≡ self }
    {
        let HandedReply { worker, answer } = self;
        handed_on(worker, answer)
    }
}

// What a worker handed on at once, that nothing is pending, or why it is refused.
pub(crate) fn handed_on(worker: WorkerNo, answer: Result<Option<Handed>, Fault>) -> Reply
    ensures { result ≡ reply_of (handed_reply worker) answer }
{
    match answer {
        Ok(Some(handed)) => {
            let Handed {
                numbers,
                queue,
                cycle,
            } = handed;
            Reply::Notices {
                objects: numbers,
                queue,
                cycle,
                worker,
            }
        }
        Ok(None) => Reply::Nothing,
        Err(fault) => Reply::Refused(fault),
    }
}
