//! Replies to steps of one heap alone, in as few bytes as they need.

ghost use Rattle.std.specs.Prelude.{◌≡◌};

use ref_base::{Fault, ObjNo, Reply};
use std::marker::Model;

/// What a call of a heap answers that hands nothing over.
#[derive(Clone, Copy, Debug)]
pub(crate) enum PlainAnswer {
    Object(ObjNo),
    Null,
    Done,
    Refers(bool),
    Nothing,
    Cycle(u64),
    Scanned(ObjNo),
    Doomed(u32),
    Cleared(ObjNo),
    Kept(ObjNo),
    Skipped(ObjNo),
    Swept(u32),
    Selected(u32),
    Moved(ObjNo),
    Refused(Fault),
}

/// The reply to a step by which nothing changes hands. In a clause it is that `Reply`, which has room for the lists of
/// a batch: this one hasn't, so that it is cheap to pass on.
#[derive(Debug, Drop)]
pub struct PlainReply(pub(crate) PlainAnswer);

impl Model for PlainReply {
    ghost use Rattle.ref_base.specs.declared.reply.Reply.{Reply};
    ghost use Rattle.ref_world.specs.PlainReplies.{reply_of_plain};

    ghost Value = { Reply };

    ghost view = { λ r. reply_of_plain r.0 };
}

impl PlainReply {
    /// The reply itself.
    #[inline(always)]
    pub fn reply(self) -> Reply
        ensures { result ≡ self }
    {
        let PlainReply(answer) = self;
        match answer {
            PlainAnswer::Object(object) => Reply::Object(object),
            PlainAnswer::Null => Reply::Null,
            PlainAnswer::Done => Reply::Done,
            PlainAnswer::Refers(refers) => Reply::Refers(refers),
            PlainAnswer::Nothing => Reply::Nothing,
            PlainAnswer::Cycle(number) => Reply::Cycle(number),
            PlainAnswer::Scanned(object) => Reply::Scanned(object),
            PlainAnswer::Doomed(count) => Reply::Doomed(count),
            PlainAnswer::Cleared(reference) => Reply::Cleared(reference),
            PlainAnswer::Kept(reference) => Reply::Kept(reference),
            PlainAnswer::Skipped(reference) => Reply::Skipped(reference),
            PlainAnswer::Swept(count) => Reply::Swept(count),
            PlainAnswer::Selected(count) => Reply::Selected(count),
            PlainAnswer::Moved(object) => Reply::Moved(object),
            PlainAnswer::Refused(fault) => Reply::Refused(fault),
        }
    }
}
