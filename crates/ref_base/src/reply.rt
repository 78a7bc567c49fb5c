//! What a step is answered.

ghost use Rattle.std.specs.Prelude.{◌+◌, ◌<◌, ◌^◌, [], ◌∷◌, ◌++◌, Some, length};
ghost use Rattle.std.specs.Fmt.{DisplaysOnOk};
ghost use Rattle.ref_base.specs.Texts.{Letters, number, queue as queue_word, text_of};
ghost use Rattle.ref_base.specs.Outs.{out_of, outs_of};
ghost use Rattle.ref_base.specs.Replies.{cause_words, out_words, outs_text, reply_text, spaced};

use crate::words::{say_behind, say_next, say_number};
use crate::{Cause, Done, Fault, Nos, ObjNo, Outs, QueueNo, WorkerNo};
use std::fmt;

/// The answer to one step. It prints as it stands in a trace.
#[derive(Clone, Copy, PartialEq, Eq)]
pub enum Reply {
    /// `object 1`: the object that was made, or that a slot holds now.
    Object(ObjNo),
    /// `null`: there is none.
    Null,
    /// `ok`: it was done.
    Done,
    /// `true` or `false`: whether it refers to that.
    Refers(bool),
    /// `notice 2 q0 own` or `notice 2 q0 cycle 1 w0`: the notice that the hand holds now.
    Notice {
        /// The reference that it reports.
        object: ObjNo,
        /// The queue that it is for, and no other.
        queue: QueueNo,
        /// Why there is one.
        cause: Cause,
    },
    /// `notices 2 6 q0 cycle 1 w0`: the notices that the hand holds now, of one queue and one cycle.
    Notices {
        /// The references that they report, first first.
        objects: Nos,
        /// The queue that they are for, and no other.
        queue: QueueNo,
        /// The cycle in which the worker cleared these references.
        cycle: u64,
        worker: WorkerNo,
    },
    /// `none`: there is nothing to do or to give.
    Nothing,
    /// `added 0`: the place of what was put in among all that was ever put into the queue, from 0 on.
    Added(u64),
    /// `already`: the reference was put in before.
    Already,
    /// `closed`: the queue is closed.
    Closed,
    /// `already, added 1`: what became of each notice that was put in, as a put of it alone would answer.
    Outs(Outs),
    /// `took 2`: the reference that the notice that was taken reports.
    Took(ObjNo),
    /// `took 2 6`: the references that the notices that were taken report, first first.
    TookSome(Nos),
    /// `empty`: the queue is open and nothing stands in it.
    Empty,
    /// `cycle 1`: the number of the cycle that began.
    Cycle(u64),
    /// `scanned 2`: the object that was scanned.
    Scanned(ObjNo),
    /// `doomed 1`: how many objects are doomed now.
    Doomed(u32),
    /// `cleared 2`: the reference that was cleared, since its referent is doomed.
    Cleared(ObjNo),
    /// `kept 2`: the reference whose referent lives.
    Kept(ObjNo),
    /// `skipped 2`: the reference that has no referent any more.
    Skipped(ObjNo),
    /// `swept 1`: how many objects were freed.
    Swept(u32),
    /// `selected 3`: how many objects are to move.
    Selected(u32),
    /// `moved 1`: the object that moved.
    Moved(ObjNo),
    /// `refused 9 NoSuchActor`: nothing was done.
    Refused(Fault),
}

impl fmt::Display for Reply {
    ghost output = { λ reply. Some (reply_text reply) };

    fn fmt<W: fmt::Write>(&self, f: &mut fmt::Formatter<W>) -> fmt::Result {
        match self {
            Reply::Object(object) => say_named(f, "object", object.0),
            Reply::Null => f.write_str("null"),
            Reply::Done => f.write_str("ok"),
            Reply::Refers(true) => f.write_str("true"),
            Reply::Refers(false) => f.write_str("false"),
            Reply::Notice {
                object,
                queue,
                cause,
            } => say_notice(f, *object, *queue, *cause),
            Reply::Notices {
                objects,
                queue,
                cycle,
                worker,
            } => say_notices(f, objects, *queue, *cycle, *worker),
            Reply::Nothing => f.write_str("none"),
            Reply::Added(position) => say_out(f, *position, Done::Added),
            Reply::Already => f.write_str("already"),
            Reply::Closed => f.write_str("closed"),
            Reply::Outs(outs) => say_outs(f, outs.before(), outs.as_slice()),
            Reply::Took(object) => say_named(f, "took", object.0),
            Reply::TookSome(objects) => say_listed(f, "took", objects),
            Reply::Empty => f.write_str("empty"),
            Reply::Cycle(cycle) => say_cycle(f, *cycle),
            Reply::Scanned(object) => say_named(f, "scanned", object.0),
            Reply::Doomed(count) => say_named(f, "doomed", *count),
            Reply::Cleared(object) => say_named(f, "cleared", object.0),
            Reply::Kept(object) => say_named(f, "kept", object.0),
            Reply::Skipped(object) => say_named(f, "skipped", object.0),
            Reply::Swept(count) => say_named(f, "swept", *count),
            Reply::Selected(count) => say_named(f, "selected", *count),
            Reply::Moved(object) => say_named(f, "moved", object.0),
            Reply::Refused(fault) => say_refusal(f, *fault),
        }
    }
}

// As `object 1`.
#[inline(always)]
fn say_named<W: fmt::Write>(
    f: &mut fmt::Formatter<W>,
    name: &'static str,
    count: u32,
) -> fmt::Result
    ensures { DisplaysOnOk W.write_str_gives f.old result
        (Some (text_of (Letters name.now ∷ number count ∷ []))) f.new }
{
    f.write_str(name)?;
    say_next(f, count)
}

// As `refused 9 NoSuchActor`.
fn say_refusal<W: fmt::Write>(f: &mut fmt::Formatter<W>, fault: Fault) -> fmt::Result
    ensures { DisplaysOnOk W.write_str_gives f.old result (Some (reply_text (Reply.Refused fault))) f.new }
{
    say_named(f, "refused", fault.number())?;
    f.write_str(" ")?;
    f.write_str(fault.name())
}

// As `notice 2 q0 own`.
fn say_notice<W: fmt::Write>(
    f: &mut fmt::Formatter<W>,
    object: ObjNo,
    queue: QueueNo,
    cause: Cause,
) -> fmt::Result
    ensures { DisplaysOnOk W.write_str_gives f.old result
        (Some (reply_text (Reply.Notice object queue cause))) f.new }
{
    say_named(f, "notice", object.0)?;
    match cause {
        Cause::Own => {
            say_behind(f, " q", queue.0)?;
            f.write_str(" own")
        }
        Cause::Cycle(cycle, worker) => say_origin(f, queue, cycle, worker),
    }
}

// As `notices 2 6 q0 cycle 1 w0`.
#[inline(always)]
fn say_notices<W: fmt::Write>(
    f: &mut fmt::Formatter<W>,
    objects: &Nos,
    queue: QueueNo,
    cycle: u64,
    worker: WorkerNo,
) -> fmt::Result
    ensures { DisplaysOnOk W.write_str_gives f.old result
        (Some (reply_text (Reply.Notices objects.now queue cycle worker))) f.new }
{
    say_listed(f, "notices", objects)?;
    say_origin(f, queue, cycle, worker)
}

// As `cycle 1`.
#[inline(always)]
fn say_cycle<W: fmt::Write>(f: &mut fmt::Formatter<W>, cycle: u64) -> fmt::Result
    ensures { DisplaysOnOk W.write_str_gives f.old result (Some (reply_text (Reply.Cycle cycle))) f.new }
{
    f.write_str("cycle ")?;
    say_number(f, cycle)
}

// As ` q0 cycle 1 w0`.
fn say_origin<W: fmt::Write>(
    f: &mut fmt::Formatter<W>,
    queue: QueueNo,
    cycle: u64,
    worker: WorkerNo,
) -> fmt::Result
    ensures { DisplaysOnOk W.write_str_gives f.old result
        (Some (32 ∷ text_of (queue_word queue ∷ cause_words (Cause.Cycle cycle worker)))) f.new }
{
    say_behind(f, " q", queue.0)?;
    f.write_str(" cycle ")?;
    say_number(f, cycle)?;
    say_behind(f, " w", worker.0)
}

// As `took 2 6`.
#[inline(always)]
fn say_listed<W: fmt::Write>(
    f: &mut fmt::Formatter<W>,
    name: &'static str,
    objects: &Nos,
) -> fmt::Result
    ensures { DisplaysOnOk W.write_str_gives f.old result (Some (name.now ++ spaced objects.now)) f.new }
{
    f.write_str(name)?;
    say_numbers(f, objects.as_slice())
}

// Prints the numbers, with a space before each.
fn say_numbers<W: fmt::Write>(f: &mut fmt::Formatter<W>, numbers: &[ObjNo]) -> fmt::Result
    ensures { DisplaysOnOk W.write_str_gives f.old result (Some (spaced numbers.now)) f.new }
{
    match numbers {
        [first, rest @ ..] => {
            say_next(f, first.0)?;
            say_numbers(f, rest)
        }
        [] => Ok(()),
    }
}

// Prints what became of each, with a comma between each two, where so many were put in before.
fn say_outs<W: fmt::Write>(f: &mut fmt::Formatter<W>, before: u64, done: &[Done]) -> fmt::Result
    requires { before + length done.now < 2 ^ 64 }
    ensures { DisplaysOnOk W.write_str_gives f.old result (Some (outs_text (outs_of before done.now))) f.new }
{
    match done {
        [last] => say_out(f, before, *last),
        [first, rest @ ..] => {
            say_out(f, before, *first)?;
            f.write_str(", ")?;
            say_outs(f, before + u64::from(first.is_added()), rest)
        }
        [] => Ok(()),
    }
}

// As `added 1`, where so many were put in before.
fn say_out<W: fmt::Write>(f: &mut fmt::Formatter<W>, before: u64, done: Done) -> fmt::Result
    ensures { DisplaysOnOk W.write_str_gives f.old result (Some (text_of (out_words (out_of before done)))) f.new }
{
    match done {
        Done::Added => {
            f.write_str("added ")?;
            say_number(f, before)
        }
        Done::Already => f.write_str("already"),
        Done::Closed => f.write_str("closed"),
        Done::Refused(fault) => say_refusal(f, fault),
    }
}

// As in a trace: what a failed test prints reads as the trace does.
impl fmt::Debug for Reply {
    fn fmt<W: fmt::Write>(&self, f: &mut fmt::Formatter<W>) -> fmt::Result {
        fmt::Display::fmt(self, f)
    }
}
