//! Replies read back: from the words of a line to the reply that they tell.

ghost use Rattle.std.specs.Prelude.{◌≡◌, ◌<◌, ◌^◌, Some, None, [], length, MatchOption};
ghost use Rattle.ref_script.specs.Lines.{words_of};
ghost use Rattle.ref_script.specs.ReplyKinds.{is_of_one, is_of_polls, is_of_puts, IsToldReply, IsToldSo, NoneIsTold};
ghost use Rattle.ref_script.specs.ReplyKinds.{NoneIsToldSo};
ghost use Rattle.ref_script.specs.ReplyReading.{AreInFront, bare_replies, batch_in, cause_in, comma_cut};
ghost use Rattle.ref_script.specs.ReplyReading.{exact_behind};
ghost use Rattle.ref_script.specs.ReplyReading.{first_position, is_this_number, is_of_put, is_want_told, jobs_in};
ghost use Rattle.ref_script.specs.ReplyReading.{IsBatch, IsItem, is_want_before_more};
ghost use Rattle.ref_script.specs.ReplyReading.{IsNoBatch, polled_in, position_in, position_is, ran_in, said_in};
ghost use Rattle.ref_script.specs.ReplyReading.{exact_below, fault_numbered, is_padded, long_replies, notice_in};
ghost use Rattle.ref_script.specs.ReplyReading.{notices_in, numbers_in_front, plain_in, fault_in, reply_counted};
ghost use Rattle.ref_script.specs.ReplyReading.{reply_named, short_replies, single_in, took_in};

use crate::lines::{is_name, next_word};
use crate::numerals::{long_number, short_number};
use crate::reply_kind::ReplyKind;
use crate::script_step::ScriptReply;
use ref_base::{Cause, Done, Fault, MOST_IN_BATCH, Nos, ObjNo, Outs, QueueNo, Reply, WorkerNo};
use ref_queue::Ran;

/// The reply to a step of this kind whose text has the words of a line, spaces apart; `None` where there is none. Where
/// nothing of a batch was added, its text doesn't tell how many were put in before: then the answer is one of several,
/// which differ in that alone.
pub fn reply_of(kind: ReplyKind, line: &[u8]) -> Option<ScriptReply>
    ensures { MatchOption result (NoneIsToldSo kind (words_of line.now)) (IsToldSo kind (words_of line.now)) }
{
    match kind {
        ReplyKind::One => Some(ScriptReply::World(of_one(line)?)),
        ReplyKind::Polls => Some(ScriptReply::World(of_polls(line)?)),
        ReplyKind::Puts => Some(ScriptReply::World(of_puts(line)?)),
        ReplyKind::Jobs => of_jobs(line),
    }
}

/// The reply that tells what became of one thing.
fn of_one(line: &[u8]) -> Option<Reply>
    ensures { MatchOption result (NoneIsTold is_of_one (words_of line.now)) (IsToldReply is_of_one
        (words_of line.now)) }
{
    single(line)
}

/// The reply to a poll of several.
fn of_polls(line: &[u8]) -> Option<Reply>
    ensures { MatchOption result (NoneIsTold is_of_polls (words_of line.now)) (IsToldReply is_of_polls
        (words_of line.now)) }
{
    polls(line)
}

/// The reply to a put of a batch.
fn of_puts(line: &[u8]) -> Option<Reply>
    ensures { MatchOption result (NoneIsTold is_of_puts (words_of line.now)) (IsToldReply is_of_puts
        (words_of line.now)) }
{
    if let Some(outs) = batch(line, first_position(line)) {
        return Some(Reply::Outs(outs));
    }
    let reply = single(line)?;
    if is_of_put(&reply) {
        return None;
    }
    Some(reply)
}

/// Whether a reply is told of a put alone.
fn is_of_put(reply: &Reply) -> bool
    ensures { result ≡ is_of_put reply.now }
{
    matches!(
        reply,
        Reply::Added(_) | Reply::Already | Reply::Closed | Reply::Refused(Fault::NoMemory)
    )
}

/// The reply to a step of jobs.
fn of_jobs(line: &[u8]) -> Option<ScriptReply>
    ensures { MatchOption result (NoneIsToldSo ReplyKind.Jobs (words_of line.now)) (IsToldSo ReplyKind.Jobs
        (words_of line.now)) }
{
    jobs(line)
}

/// Whether a word has more than one digit and begins with 0.
fn is_padded(word: &[u8]) -> bool
    ensures { result ≡ is_padded word.now }
{
    match word {
        [first, _, ..] => *first == b'0',
        _ => false,
    }
}

/// The number below 2^64 that a word is, without leading zeros.
fn exact_long(word: &[u8]) -> Option<u64>
    ensures { result ≡ exact_below (2 ^ 64) word.now }
{
    if is_padded(word) {
        return None;
    }
    long_number(word)
}

/// The number below 2^32 that a word is, without leading zeros.
fn exact_short(word: &[u8]) -> Option<u32>
    ensures { result ≡ exact_below (2 ^ 32) word.now }
{
    if is_padded(word) {
        return None;
    }
    short_number(word)
}

/// The number that stands behind a letter.
fn exact_behind(letter: u8, word: &[u8]) -> Option<u32>
    ensures { result ≡ exact_behind letter word.now }
{
    match word.split_first() {
        Some((first, number)) if *first == letter => exact_short(number),
        _ => None,
    }
}

/// A table of replies by name: returns the one that has this name, if one has it.
macro_rules! reply_named {
    ($word:ident: $($name:literal => $reply:expr,)*) => {
        $(if is_name($word, $name) {
            return Some($reply);
        })*
        None
    };
}

/// The reply of this name alone.
fn bare_reply(name: &[u8]) -> Option<Reply>
    ensures { result ≡ reply_named bare_replies name.now }
{
    reply_named! { name:
        b"ok" => Reply::Done,
        b"none" => Reply::Nothing,
        b"null" => Reply::Null,
        b"true" => Reply::Refers(true),
        b"false" => Reply::Refers(false),
        b"empty" => Reply::Empty,
        b"already" => Reply::Already,
        b"closed" => Reply::Closed,
    }
}

/// The reply of this name and this number.
fn short_reply(name: &[u8], count: u32) -> Option<Reply>
    ensures { result ≡ reply_counted short_replies name.now count }
{
    reply_named! { name:
        b"object" => Reply::Object(ObjNo(count)),
        b"took" => Reply::Took(ObjNo(count)),
        b"scanned" => Reply::Scanned(ObjNo(count)),
        b"doomed" => Reply::Doomed(count),
        b"cleared" => Reply::Cleared(ObjNo(count)),
        b"kept" => Reply::Kept(ObjNo(count)),
        b"skipped" => Reply::Skipped(ObjNo(count)),
        b"swept" => Reply::Swept(count),
        b"selected" => Reply::Selected(count),
        b"moved" => Reply::Moved(ObjNo(count)),
    }
}

/// The reply of this name and this number, which may be long.
fn long_reply(name: &[u8], count: u64) -> Option<Reply>
    ensures { result ≡ reply_counted long_replies name.now count }
{
    reply_named! { name:
        b"added" => Reply::Added(count),
        b"cycle" => Reply::Cycle(count),
    }
}

/// The faults, by number.
static FAULTS: [Fault; 25] = [
    Fault::BadConfig,
    Fault::NoSuchObject,
    Fault::NoMemory,
    Fault::NoCell,
    Fault::NumbersSpent,
    Fault::EmptySlot,
    Fault::BadField,
    Fault::NotAReference,
    Fault::NoSuchActor,
    Fault::BadQueue,
    Fault::ForeignHold,
    Fault::WrongPhase,
    Fault::ClockBack,
    Fault::GreyLeft,
    Fault::ClearingLeft,
    Fault::SweepLeft,
    Fault::MovesLeft,
    Fault::NoRoom,
    Fault::AddressesSpent,
    Fault::WrongQueue,
    Fault::RegisteredTwice,
    Fault::TableClosed,
    Fault::HandFull,
    Fault::HandEmpty,
    Fault::TurnsSpent,
];

/// The first of these faults that has this number.
fn fault_numbered(faults: &[Fault], number: u32) -> Option<Fault>
    ensures { result ≡ fault_numbered faults.now number }
{
    match faults {
        [first, rest @ ..] => {
            if first.number() == number {
                return Some(*first);
            }
            fault_numbered(rest, number)
        }
        [] => None,
    }
}

/// The fault that the words behind `refused` tell.
fn refusal(line: &[u8]) -> Option<Fault>
    ensures { result ≡ fault_in (words_of line.now) }
{
    let (number, rest) = next_word(line)?;
    let (name, rest) = next_word(rest)?;
    if next_word(rest).is_some() {
        return None;
    }
    let fault = fault_numbered(&FAULTS, exact_short(number)?)?;
    if name == fault.name().as_bytes() {
        return Some(fault);
    }
    None
}

/// Why there is a notice, by the words at the end of it.
fn cause(line: &[u8]) -> Option<Cause>
    ensures { result ≡ cause_in (words_of line.now) }
{
    let (name, rest) = next_word(line)?;
    let Some((cycle, rest)) = next_word(rest) else {
        return if is_name(name, b"own") {
            Some(Cause::Own)
        } else {
            None
        };
    };
    let (worker, rest) = next_word(rest)?;
    if next_word(rest).is_some() || !is_name(name, b"cycle") {
        return None;
    }
    Some(Cause::Cycle(exact_long(cycle)?, WorkerNo(exact_behind(b'w', worker)?)))
}

/// The notice that the words behind `notice` tell.
fn notice(line: &[u8]) -> Option<Reply>
    ensures { result ≡ notice_in (words_of line.now) }
{
    let (object, rest) = next_word(line)?;
    let (queue, rest) = next_word(rest)?;
    Some(Reply::Notice {
        object: ObjNo(exact_short(object)?),
        queue: QueueNo(exact_behind(b'q', queue)?),
        cause: cause(rest)?,
    })
}

/// Puts in the numbers in front of a line, at most 32. Answers the line from the first word on that is none.
fn numbers_in_front<'a>(line: &'a [u8], numbers: &mut Nos) -> Option<&'a [u8]>
    requires { numbers.old ≡ [] }
    ensures { MatchOption result (32 < length (numbers_in_front (words_of line.now)))
        (λ rest. AreInFront (words_of line.now) numbers.new (words_of rest.now)) }
{
    let mut rest = line;
    while let Some((word, behind)) = next_word(rest) {
        let Some(number) = exact_short(word) else {
            break;
        };
        if numbers.as_slice().len() == MOST_IN_BATCH {
            return None;
        }
        numbers.push(ObjNo(number));
        rest = behind;
    }
    Some(rest)
}

/// The notices that the words behind `notices` tell.
fn notices(line: &[u8]) -> Option<Reply>
    ensures { result ≡ notices_in (words_of line.now) }
{
    let mut objects = Nos::new();
    let rest = numbers_in_front(line, &mut objects)?;
    let (queue, rest) = next_word(rest)?;
    let queue = QueueNo(exact_behind(b'q', queue)?);
    match cause(rest)? {
        Cause::Own => None,
        Cause::Cycle(cycle, worker) => Some(Reply::Notices {
            objects,
            queue,
            cycle,
            worker,
        }),
    }
}

/// What was taken, by the words behind `took` of a `polls`.
fn took_some(line: &[u8]) -> Option<Reply>
    ensures { result ≡ took_in (words_of line.now) }
{
    let mut objects = Nos::new();
    let rest = numbers_in_front(line, &mut objects)?;
    if next_word(rest).is_some() {
        return None;
    }
    Some(Reply::TookSome(objects))
}

/// The reply to a poll of several, by the words of a line.
fn polls(line: &[u8]) -> Option<Reply>
    ensures { result ≡ polled_in (words_of line.now) }
{
    let (name, rest) = next_word(line)?;
    if is_name(name, b"took") {
        return took_some(rest);
    }
    single(line)
}

/// The word without the comma at its end, if one is there.
fn comma_cut(word: &[u8]) -> Option<&[u8]>
    ensures { MatchOption result (comma_cut word.now ≡ None) (λ front. comma_cut word.now ≡ Some front.now) }
{
    let (last, front) = word.split_last()?;
    if *last == b',' {
        return Some(front);
    }
    None
}

/// Whether a word is this number.
fn is_this_number(word: &[u8], number: u64) -> bool
    ensures { result ≡ is_this_number number (exact_below (2 ^ 64) word.now) }
{
    match exact_long(word) {
        Some(other) => other == number,
        None => false,
    }
}

/// Whether more items follow, by the comma behind a position; `None` where the word isn't this position.
fn position_word(word: &[u8], position: u64) -> Option<bool>
    ensures { result ≡ position_is position word.now }
{
    let (front, has_comma) = match comma_cut(word) {
        Some(front) => (front, true),
        None => (word, false),
    };
    if is_this_number(front, position) {
        return Some(has_comma);
    }
    None
}

/// Whether the words behind `refused` tell want of memory, and no item more.
fn is_want(number: &[u8], line: &[u8]) -> bool
    ensures { result ≡ is_want_told number.now (words_of line.now) }
{
    let Some((name, rest)) = next_word(line) else {
        return false;
    };
    next_word(rest).is_none() && is_name(number, b"3") && is_name(name, b"NoMemory")
}

/// Whether the two words behind `refused` tell want of memory, and by the comma that items follow.
fn is_want_before_more(number: &[u8], name: &[u8]) -> bool
    ensures { result ≡ is_want_before_more number.now name.now }
{
    is_name(number, b"3") && is_name(name, b"NoMemory,")
}

/// The first item of a batch, the line behind it, and whether more items follow there. The next that was added has this
/// position.
fn item(line: &[u8], position: u64) -> Option<(Done, &[u8], bool)>
    ensures { MatchOption result (batch_in position (words_of line.now) ≡ None)
        (λ r. IsItem position (words_of line.now) r.0 (words_of r.1.now) r.2) }
{
    let (word, behind) = next_word(line)?;
    let Some((next, rest)) = next_word(behind) else {
        if is_name(word, b"already") {
            return Some((Done::Already, behind, false));
        }
        if is_name(word, b"closed") {
            return Some((Done::Closed, behind, false));
        }
        return None;
    };
    if is_name(word, b"already,") {
        return Some((Done::Already, behind, true));
    }
    if is_name(word, b"closed,") {
        return Some((Done::Closed, behind, true));
    }
    if is_name(word, b"added") {
        if position_word(next, position)? {
            return Some((Done::Added, rest, true));
        }
        if next_word(rest).is_some() {
            return None;
        }
        return Some((Done::Added, rest, false));
    }
    if !is_name(word, b"refused") {
        return None;
    }
    let (name, left) = next_word(rest)?;
    if is_want_before_more(next, name) {
        return Some((Done::Refused(Fault::NoMemory), left, true));
    }
    if is_want(next, rest) {
        return Some((Done::Refused(Fault::NoMemory), left, false));
    }
    None
}

/// What became of a batch, where so many were put in before: what the words of a line tell, at most 32.
fn batch(line: &[u8], before: u64) -> Option<Outs>
    requires { before < 2 ^ 63 }
    ensures { MatchOption result (IsNoBatch before (words_of line.now))
        (λ outs. IsBatch before (words_of line.now) outs) }
{
    let mut outs = Outs::new(before);
    let mut position = before;
    let mut rest = line;
    while outs.len() < MOST_IN_BATCH {
        let (done, behind, has_more) = item(rest, position)?;
        outs.push(done);
        if !has_more {
            return Some(outs);
        }
        if done.is_added() {
            position += 1;
        }
        rest = behind;
    }
    None
}

/// The position of the first item that was added, if it is below 2^63, and else 0.
fn first_position(line: &[u8]) -> u64
    ensures position { result ≡ first_position (words_of line.now) }
    ensures half { result < 2 ^ 63 }
{
    let mut rest = line;
    while let Some((word, behind)) = next_word(rest) {
        if is_name(word, b"added") {
            return position_in(behind);
        }
        rest = behind;
    }
    0
}

/// The position below 2^63 that a line begins with, with a comma behind it or not, and else 0.
fn position_in(line: &[u8]) -> u64
    ensures position { result ≡ position_in (words_of line.now) }
    ensures half { result < 2 ^ 63 }
{
    let Some((word, _)) = next_word(line) else {
        return 0;
    };
    let position = match comma_cut(word) {
        Some(front) => exact_long(front),
        None => exact_long(word),
    };
    let position = position.unwrap_or(0);
    if position < 1 << 63 { position } else { 0 }
}

/// The reply to a step of jobs, by the words of a line.
fn jobs(line: &[u8]) -> Option<ScriptReply>
    ensures { result ≡ jobs_in (words_of line.now) }
{
    let (name, rest) = next_word(line)?;
    if is_name(name, b"refused") {
        return Some(ScriptReply::World(Reply::Refused(refusal(rest)?)));
    }
    if is_name(name, b"ran") {
        return ran(rest);
    }
    said(name, rest)
}

/// What a job ran to, by the words behind `ran`.
fn ran(line: &[u8]) -> Option<ScriptReply>
    ensures { result ≡ ran_in (words_of line.now) }
{
    let (number, rest) = next_word(line)?;
    let (answer, rest) = next_word(rest)?;
    if next_word(rest).is_some() {
        return None;
    }
    Some(ScriptReply::Ran(Ran {
        number: exact_long(number)?,
        answer: exact_long(answer)?,
    }))
}

/// The reply of this name alone to a step of jobs.
fn said(name: &[u8], line: &[u8]) -> Option<ScriptReply>
    ensures { result ≡ said_in name.now (words_of line.now) }
{
    if next_word(line).is_some() {
        return None;
    }
    reply_named! { name:
        b"ok" => ScriptReply::Registered,
        b"used" => ScriptReply::Used,
        b"gone" => ScriptReply::Gone,
    }
}

/// The reply of a name alone, or of a name and a number.
fn plain(name: &[u8], line: &[u8]) -> Option<Reply>
    ensures { result ≡ plain_in name.now (words_of line.now) }
{
    let Some((word, rest)) = next_word(line) else {
        return bare_reply(name);
    };
    if next_word(rest).is_some() {
        return None;
    }
    if let Some(count) = exact_short(word)
        && let Some(reply) = short_reply(name, count)
    {
        return Some(reply);
    }
    long_reply(name, exact_long(word)?)
}

/// The reply that the words of a line tell, if it is of no batch.
fn single(line: &[u8]) -> Option<Reply>
    ensures { result ≡ single_in (words_of line.now) }
{
    let (name, rest) = next_word(line)?;
    if is_name(name, b"refused") {
        return Some(Reply::Refused(refusal(rest)?));
    }
    if is_name(name, b"notice") {
        return notice(rest);
    }
    if is_name(name, b"notices") {
        return notices(rest);
    }
    plain(name, rest)
}
