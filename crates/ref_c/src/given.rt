//! Replies by numbers.

ghost use Rattle.std.specs.Prelude.{◌≡◌, ◌+◌, ◌≤◌, ◌<◌, ◌^◌, ℕ, if◌then◌else◌, MatchOption, None, Some, ◌++◌, length};
ghost use Rattle.ref_c.specs.GivenReplies.{AreMoreObjects, AreMoreOuts, IsNoOut, IsOut, Reads, early_reply};
ghost use Rattle.ref_c.specs.GivenReplies.{each_fault, end_reply, first_added, first_numbered, late_reply, plain_reply};
ghost use Rattle.ref_c.specs.GivenReplies.{refused_for, slot_reply};
ghost use Rattle.ref_c.specs.ReplyNumbers.{reply_numbers};

use crate::answer::{RefReply, numbers_of};
use ref_base::{Cause, Done, Fault, MOST_IN_BATCH, Nos, ObjNo, Outs, QueueNo, Reply, WorkerNo};

/// The faults, by number.
static FAULTS: [Fault; 25] = [
    Fault::BadConfig,
    Fault::NoSuchObject,
    Fault::NoMemory,
    Fault::NoCell,
    Fault::NumbersSpent,
    Fault::EmptySlot,
    Fault::BadField,
    Fault::NotAReference,
    Fault::NoSuchActor,
    Fault::BadQueue,
    Fault::ForeignHold,
    Fault::WrongPhase,
    Fault::ClockBack,
    Fault::GreyLeft,
    Fault::ClearingLeft,
    Fault::SweepLeft,
    Fault::MovesLeft,
    Fault::NoRoom,
    Fault::AddressesSpent,
    Fault::WrongQueue,
    Fault::RegisteredTwice,
    Fault::TableClosed,
    Fault::HandFull,
    Fault::HandEmpty,
    Fault::TurnsSpent,
];

/// The reply that has these numbers and lists these, if there is one. How many notices were put in before a batch of
/// which none was added isn't told by numbers: it is as many as are given. In the time of the list. Takes no memory.
pub fn reply_of(numbers: &RefReply, list: &[u64], before: u64) -> Option<Reply>
    requires { before < 2 ^ 63 }
    ensures { Reads numbers.now list.now before result }
{
    match numbers.kind {
        71 => notices_of(numbers, list),
        76 => outs_of(numbers, list, before),
        78 => took_of(numbers, list),
        _ => unlisted(numbers, list),
    }
}

// The notices of a batch that was handed on.
fn notices_of(numbers: &RefReply, list: &[u64]) -> Option<Reply>
    requires { numbers.now.kind ≡ 71 }
    ensures { (before : ℕ) → Reads numbers.now list.now before result }
{
    let objects = objects_behind(Nos::new(), list)?;
    if_so_numbered(
        numbers,
        Reply::Notices {
            objects,
            queue: QueueNo(numbers.queue),
            cycle: numbers.number,
            worker: WorkerNo(numbers.worker),
        },
    )
}

// What a batch took.
fn took_of(numbers: &RefReply, list: &[u64]) -> Option<Reply>
    requires { numbers.now.kind ≡ 78 }
    ensures { (before : ℕ) → Reads numbers.now list.now before result }
{
    let objects = objects_behind(Nos::new(), list)?;
    if_so_numbered(numbers, Reply::TookSome(objects))
}

// What became of a batch that was put in.
fn outs_of(numbers: &RefReply, list: &[u64], before: u64) -> Option<Reply>
    requires kind { numbers.now.kind ≡ 76 }
    requires few { before < 2 ^ 63 }
    ensures { Reads numbers.now list.now before result }
{
    let first = first_added(list, before);
    if first >= 1 << 63 {
        return None;
    }
    let outs = outs_behind(Outs::new(first), first, list)?;
    if_so_numbered(numbers, Reply::Outs(outs))
}

// A reply that lists nothing.
fn unlisted(numbers: &RefReply, list: &[u64]) -> Option<Reply>
    requires notices { ¬ (numbers.now.kind ≡ 71) }
    requires outs { ¬ (numbers.now.kind ≡ 76) }
    requires took { ¬ (numbers.now.kind ≡ 78) }
    ensures { (before : ℕ) → Reads numbers.now list.now before result }
{
    if !list.is_empty() {
        return None;
    }
    match plain_reply(numbers) {
        Some(reply) => if_so_numbered(numbers, reply),
        None => None,
    }
}

// The reply, if it has just these numbers.
fn if_so_numbered(numbers: &RefReply, reply: Reply) -> Option<Reply>
    ensures { MatchOption result (¬ (reply_numbers reply ≡ numbers.now))
        (λ same. (same ≡ reply) × (reply_numbers reply ≡ numbers.now)) }
{
    if numbers_of(&reply) == *numbers {
        return Some(reply);
    }
    None
}

// These objects, and behind them those of the list, if these are 32 at most and each is the number of one.
fn objects_behind(objects: Nos, list: &[u64]) -> Option<Nos>
    ensures { AreMoreObjects objects list.now result }
{
    match list {
        [first, rest @ ..] => {
            if *first > u64::from(u32::MAX) || objects.as_slice().len() == MOST_IN_BATCH {
                return None;
            }
            let mut more = objects;
            more.push(ObjNo(*first as u32));
            objects_behind(more, rest)
        }
        [] => Some(objects),
    }
}

// What became of these, and behind them what the list tells, where so many were put in before it.
fn outs_behind(outs: Outs, next: u64, list: &[u64]) -> Option<Outs>
    requires { next ≤ 2 ^ 63 + length outs.done }
    ensures { AreMoreOuts outs next list.now result }
{
    match list {
        [kind, number, rest @ ..] => {
            let done = out_of(*kind, *number, next)?;
            if outs.len() == MOST_IN_BATCH {
                return None;
            }
            let mut more = outs;
            more.push(done);
            outs_behind(more, next + u64::from(done.is_added()), rest)
        }
        [] => Some(outs),
        [_] => None,
    }
}

// What became of one, by two numbers, where so many were put in before.
fn out_of(kind: u64, number: u64, next: u64) -> Option<Done>
    ensures { MatchOption result (IsNoOut kind number next) (λ done. IsOut kind number next done) }
{
    match kind {
        73 => if_told(Done::Added, number == next),
        74 => if_told(Done::Already, number == 0),
        75 => if_told(Done::Closed, number == 0),
        89 => Some(Done::Refused(first_numbered(&FAULTS, number)?)),
        _ => None,
    }
}

// What became of one, where that is told.
fn if_told(done: Done, is_told: bool) -> Option<Done>
    ensures { result ≡ (if is_told then Some done else None) }
{
    if is_told { Some(done) } else { None }
}

// The place of the first of a list that was added, or this where none was.
fn first_added(list: &[u64], before: u64) -> u64
    ensures { result ≡ first_added list.now before }
{
    match list {
        [kind, number, rest @ ..] => {
            if *kind == 73 {
                return *number;
            }
            first_added(rest, before)
        }
        _ => before,
    }
}

// The first of these faults that has this number.
fn first_numbered(faults: &[Fault], number: u64) -> Option<Fault>
    ensures { result ≡ first_numbered faults.now number }
{
    match faults {
        [first, rest @ ..] => {
            if u64::from(first.number()) == number {
                return Some(*first);
            }
            first_numbered(rest, number)
        }
        [] => None,
    }
}

// The reply of this kind, if that lists nothing: with what it tells of these numbers.
fn plain_reply(n: &RefReply) -> Option<Reply>
    ensures { result ≡ plain_reply n.now }
{
    match n.kind {
        0..=68 => slot_reply(n),
        69..=76 => early_reply(n),
        77..=82 => late_reply(n),
        _ => end_reply(n),
    }
}

// Of 64 to 68.
fn slot_reply(n: &RefReply) -> Option<Reply>
    ensures { result ≡ slot_reply n.now }
{
    match n.kind {
        64 => Some(Reply::Object(ObjNo(n.object))),
        65 => Some(Reply::Null),
        66 => Some(Reply::Done),
        67 => Some(Reply::Refers(true)),
        68 => Some(Reply::Refers(false)),
        _ => None,
    }
}

// Of 69 to 76.
fn early_reply(n: &RefReply) -> Option<Reply>
    ensures { result ≡ early_reply n.now }
{
    match n.kind {
        69 => Some(Reply::Notice {
            object: ObjNo(n.object),
            queue: QueueNo(n.queue),
            cause: Cause::Cycle(n.number, WorkerNo(n.worker)),
        }),
        70 => Some(Reply::Notice {
            object: ObjNo(n.object),
            queue: QueueNo(n.queue),
            cause: Cause::Own,
        }),
        72 => Some(Reply::Nothing),
        73 => Some(Reply::Added(n.number)),
        74 => Some(Reply::Already),
        75 => Some(Reply::Closed),
        _ => None,
    }
}

// Of 77 to 82.
fn late_reply(n: &RefReply) -> Option<Reply>
    ensures { result ≡ late_reply n.now }
{
    match n.kind {
        77 => Some(Reply::Took(ObjNo(n.object))),
        79 => Some(Reply::Empty),
        80 => Some(Reply::Cycle(n.number)),
        81 => Some(Reply::Scanned(ObjNo(n.object))),
        82 => Some(Reply::Doomed(n.count)),
        _ => None,
    }
}

// Of 83 to 89.
fn end_reply(n: &RefReply) -> Option<Reply>
    ensures { result ≡ end_reply n.now }
{
    match n.kind {
        83 => Some(Reply::Cleared(ObjNo(n.object))),
        84 => Some(Reply::Kept(ObjNo(n.object))),
        85 => Some(Reply::Skipped(ObjNo(n.object))),
        86 => Some(Reply::Swept(n.count)),
        87 => Some(Reply::Selected(n.count)),
        88 => Some(Reply::Moved(ObjNo(n.object))),
        89 => refused_for(first_numbered(&FAULTS, u64::from(n.fault))),
        _ => None,
    }
}

// That a step was refused for this fault, if it is one.
fn refused_for(fault: Option<Fault>) -> Option<Reply>
    ensures { result ≡ refused_for fault }
{
    match fault {
        Some(fault) => Some(Reply::Refused(fault)),
        None => None,
    }
}
