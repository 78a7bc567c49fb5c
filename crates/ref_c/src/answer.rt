//! Answers, and their numbers.

ghost use Rattle.std.specs.Prelude.{◌≡◌};
ghost use Rattle.ref_c.specs.ReplyNumbers.{numbers_of, of_count, of_kind, of_number, of_object, reply_numbers};

use ref_base::{Cause, ObjNo, QueueNo, Reply};

/// What numbers are answered.
#[derive(Clone, Copy)]
pub enum Answer {
    /// They are no step.
    NoStep,
    /// There is no world.
    NoWorld,
    /// The step's reply.
    Replied(Reply),
}

/// An answer by numbers: its kind, and what it tells. What a kind doesn't tell is 0.
#[repr(C)]
#[derive(Clone, Copy, PartialEq, Eq)]
pub struct RefReply {
    /// 64 to 91, as the header names them.
    pub kind: u32,
    /// The number of the fault of a refusal.
    pub fault: u32,
    /// The number of an object.
    pub object: u32,
    /// The queue that a notice is for.
    pub queue: u32,
    /// The worker that cleared the reference of a notice.
    pub worker: u32,
    /// How many: objects, notices, or what was put in.
    pub count: u32,
    /// The number of a cycle, or the place of what was added to a queue.
    pub number: u64,
}

impl Answer {
    /// The numbers of the answer. Takes no memory.
    #[inline(always)]
    pub fn numbers(&self) -> RefReply
        ensures { result ≡ numbers_of self.now }
    {
        match self {
            Answer::NoStep => RefReply::of(90),
            Answer::NoWorld => RefReply::of(91),
            Answer::Replied(reply) => numbers_of(reply),
        }
    }
}

impl RefReply {
    /// One that tells its kind alone. Takes no memory.
    #[inline(always)]
    pub fn of(kind: u32) -> Self
        ensures { result ≡ of_kind kind }
    {
        RefReply {
            kind,
            fault: 0,
            object: 0,
            queue: 0,
            worker: 0,
            count: 0,
            number: 0,
        }
    }

    // One that tells an object too.
    #[inline(always)]
    fn object(kind: u32, object: ObjNo) -> Self
        ensures { result ≡ of_object kind object }
    {
        RefReply {
            object: object.0,
            ..RefReply::of(kind)
        }
    }

    // One that tells how many, too.
    #[inline(always)]
    fn count(kind: u32, count: u32) -> Self
        ensures { result ≡ of_count kind count }
    {
        RefReply {
            count,
            ..RefReply::of(kind)
        }
    }

    // One that tells a number that may be large, too.
    #[inline(always)]
    fn number(kind: u32, number: u64) -> Self
        ensures { result ≡ of_number kind number }
    {
        RefReply {
            number,
            ..RefReply::of(kind)
        }
    }
}

/// The numbers of a reply. Takes no memory.
#[inline(always)]
pub fn numbers_of(reply: &Reply) -> RefReply
    ensures { result ≡ reply_numbers reply.now }
{
    match reply {
        Reply::Object(object) => RefReply::object(64, *object),
        Reply::Null => RefReply::of(65),
        Reply::Done => RefReply::of(66),
        Reply::Refers(true) => RefReply::of(67),
        Reply::Refers(false) => RefReply::of(68),
        Reply::Notice {
            object,
            queue,
            cause,
        } => notice(*object, *queue, *cause),
        Reply::Notices {
            objects,
            queue,
            cycle,
            worker,
        } => RefReply {
            queue: queue.0,
            number: *cycle,
            worker: worker.0,
            ..RefReply::count(71, objects.as_slice().len() as u32)
        },
        Reply::Nothing => RefReply::of(72),
        Reply::Added(position) => RefReply::number(73, *position),
        Reply::Already => RefReply::of(74),
        Reply::Closed => RefReply::of(75),
        Reply::Outs(outs) => RefReply::count(76, outs.len() as u32),
        Reply::Took(object) => RefReply::object(77, *object),
        Reply::TookSome(objects) => RefReply::count(78, objects.as_slice().len() as u32),
        Reply::Empty => RefReply::of(79),
        Reply::Cycle(cycle) => RefReply::number(80, *cycle),
        Reply::Scanned(object) => RefReply::object(81, *object),
        Reply::Doomed(count) => RefReply::count(82, *count),
        Reply::Cleared(object) => RefReply::object(83, *object),
        Reply::Kept(object) => RefReply::object(84, *object),
        Reply::Skipped(object) => RefReply::object(85, *object),
        Reply::Swept(count) => RefReply::count(86, *count),
        Reply::Selected(count) => RefReply::count(87, *count),
        Reply::Moved(object) => RefReply::object(88, *object),
        Reply::Refused(fault) => RefReply {
            fault: fault.number(),
            ..RefReply::of(89)
        },
    }
}

// The numbers of a notice.
#[inline(always)]
fn notice(object: ObjNo, queue: QueueNo, cause: Cause) -> RefReply
    ensures { result ≡ reply_numbers (Reply.Notice object queue cause) }
{
    match cause {
        Cause::Cycle(cycle, worker) => RefReply {
            queue: queue.0,
            number: cycle,
            worker: worker.0,
            ..RefReply::object(69, object)
        },
        Cause::Own => RefReply {
            queue: queue.0,
            ..RefReply::object(70, object)
        },
    }
}
