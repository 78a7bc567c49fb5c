//! What does steps and replies to each, and the runner of all its stories. A story is told as a trace is: a row is a
//! step and its reply, or a call of a layer's own by its name, with numbers behind it, and what it answers. Rows stand
//! in lines, or apart by semicolons. A line that begins with `#` is a comment.

use arrayvec::ArrayString;
use ref_base::{Fault, MOST_IN_BATCH, MutNo, Nos, ObjNo, Phase, Reply, Row, Step, Strength};
use ref_objects::{Kind, Look};
use ref_script::{ScriptStep, step_of};
use std::fmt;
use std::fmt::Write;
use std::ops::Range;
use std::process::Abort;

/// The mutator of stories.
pub const M: MutNo = MutNo(0);

/// The most bytes that a row takes.
pub const ROOM: usize = 256;

/// What stands between rows.
pub const BREAKS: [char; 2] = ['\n', ';'];

/// What a call is answered.
#[derive(Clone, Copy)]
pub enum Told {
    /// The call is none of the subject's.
    Unknown,
    Reply(Reply),
    Is(bool),
    Number(Option<u64>),
    Kind(Option<Kind>),
    Phase(Phase),
    /// An object, and the number of the heap that it is of.
    Of(u32, u64),
    Numbers(Nos),
}

impl Told {
    /// These numbers, 32 at most.
    pub fn numbers(list: &[ObjNo]) -> Self {
        let mut numbers = Nos::new();
        for no in list {
            if numbers.as_slice().len() == MOST_IN_BATCH {
                return Told::Unknown;
            }
            numbers.push(*no);
        }
        Told::Numbers(numbers)
    }
}

impl fmt::Display for Told {
    fn fmt<W: fmt::Write>(&self, f: &mut fmt::Formatter<W>) -> fmt::Result {
        match self {
            Told::Unknown => f.write_str("unknown"),
            Told::Reply(reply) => write!(f, "{reply}"),
            Told::Is(true) => f.write_str("yes"),
            Told::Is(false) => f.write_str("no"),
            Told::Number(Some(number)) => write!(f, "{number}"),
            Told::Number(None) => f.write_str("none"),
            Told::Kind(kind) => f.write_str(kind_name(*kind)),
            Told::Phase(phase) => f.write_str(phase_name(*phase)),
            Told::Of(object, heap) => write!(f, "{object} of {heap}"),
            Told::Numbers(numbers) => say_numbers(f, numbers.as_slice()),
        }
    }
}

fn say_numbers<W: fmt::Write>(f: &mut fmt::Formatter<W>, numbers: &[ObjNo]) -> fmt::Result {
    let mut mark = "";
    for no in numbers {
        write!(f, "{mark}{no}")?;
        mark = " ";
    }
    Ok(())
}

fn kind_name(kind: Option<Kind>) -> &'static str {
    match kind {
        Some(Kind::Plain) => "plain",
        Some(Kind::Reference(Strength::Soft)) => "soft",
        Some(Kind::Reference(Strength::Weak)) => "weak",
        Some(Kind::Reference(Strength::Phantom)) => "phantom",
        None => "none",
    }
}

fn phase_name(phase: Phase) -> &'static str {
    match phase {
        Phase::Idle => "idle",
        Phase::Marking => "marking",
        Phase::Clearing => "clearing",
        Phase::Sweeping => "sweeping",
        Phase::Moving => "moving",
    }
}

/// What does steps.
pub trait Steps {
    /// Whether it may do a step.
    ghost is_ready: { Self → Type 0 } = { λ _. Unit {0} };

    /// Does a step.
    fn step(&mut self, step: Step) -> Told
        requires { is_ready self.old }
        ensures { is_ready self.new };

    /// Makes a call of its own by its name, with these numbers.
    fn own(&mut self, _name: &str, _numbers: (u32, u64)) -> Told
        requires { is_ready self.old }
        ensures { is_ready self.new }
    {
        Told::Unknown
    }
}

/// The step of a row.
pub fn step_in(rt: &impl Abort, row: &str) -> Step {
    let (step, _) = row.split_once(" : ").unwrap_or((row, ""));
    match step_of(step.as_bytes()) {
        Ok(ScriptStep::World(step)) => step,
        _ => panic!(rt; "no step: {row}"),
    }
}

/// The row is of this step and this reply.
pub fn is_row(rt: &impl Abort, step: Step, reply: Reply, row: &str) {
    let told = Row { step, reply };
    let mut printed = ArrayString::<ROOM>::new();
    let is_whole = write!(printed, "{told}").is_ok();
    assert!(rt;
        is_whole && printed.as_str() == row,
        "{told}, and not {row}"
    );
}

/// Whether it prints so.
pub fn is_so(told: Told, want: &str) -> bool {
    let mut printed = ArrayString::<ROOM>::new();
    let is_whole = write!(printed, "{told}").is_ok();
    is_whole && printed.as_str() == want
}

/// What a call of a subject's own is answered, by its words.
fn own_answer<S: Steps>(subject: &mut S, call: &str) -> Told
    requires { S.is_ready subject.old }
    ensures { S.is_ready subject.new }
{
    let (name, numbers) = call.split_once(' ').unwrap_or((call, "0"));
    let (first, second) = numbers.split_once(' ').unwrap_or((numbers, "0"));
    match (first.parse::<u32>(), second.parse::<u64>()) {
        (Ok(first), Ok(second)) => subject.own(name, (first, second)),
        _ => Told::Unknown,
    }
}

/// What a call is answered, by its words: a step, or else a call of the subject's own.
fn answered<S: Steps>(subject: &mut S, call: &str) -> Told
    requires { S.is_ready subject.old }
    ensures { S.is_ready subject.new }
{
    match step_of(call.as_bytes()) {
        Ok(ScriptStep::World(step)) => subject.step(step),
        _ => own_answer(subject, call),
    }
}

/// The call of a row and its answer, unless the row is a comment or says nothing.
pub fn parts_of(row: &str) -> Option<(&str, &str)> {
    let row = row.trim();
    if row.is_empty() || row.starts_with('#') {
        return None;
    }
    let (call, want) = row.split_once(" :").unwrap_or((row, ""));
    Some((call, want.trim_start()))
}

/// Does the steps of a story in turn, each of which has its reply.
pub fn agree<S: Steps>(rt: &impl Abort, subject: &mut S, story: &str)
    requires { S.is_ready subject.old }
    ensures { S.is_ready subject.new }
{
    for row in story.split(BREAKS) {
        if let Some((call, want)) = parts_of(row) {
            let told = answered(subject, call);
            assert!(rt; is_so(told, want), "{row}: {told}");
        }
    }
}

/// A story with these numbers in the places of its dollars, in order.
pub fn filled(rt: &impl Abort, story: &str, numbers: &[u32]) -> ArrayString<ROOM> {
    let (first, behind) = story.split_once('$').unwrap_or((story, ""));
    let mut filled = ArrayString::new();
    let mut is_whole = filled.try_push_str(first).is_ok();
    for (number, piece) in numbers.iter().zip(behind.split('$')) {
        is_whole = is_whole && write!(filled, "{number}{piece}").is_ok();
    }
    assert!(rt; is_whole, "too long: {story}");
    filled
}

/// Does the steps of a story with these numbers in the places of its dollars, in order.
pub fn agree_with<S: Steps>(rt: &impl Abort, subject: &mut S, story: &str, numbers: &[u32])
    requires { S.is_ready subject.old }
    ensures { S.is_ready subject.new }
{
    agree(rt, subject, filled(rt, story, numbers).as_str());
}

/// Makes the objects of these numbers in turn, without fields, in this slot.
pub fn make_in<S: Steps>(rt: &impl Abort, subject: &mut S, slot: u32, numbers: Range<u32>)
    requires { S.is_ready subject.old }
    ensures { S.is_ready subject.new }
{
    for no in numbers {
        agree_with(rt, subject, "m0 new s$ 0 : object $", &[slot, no]);
    }
}

pub fn made(answer: Result<ObjNo, Fault>) -> Told {
    Told::Reply(match answer {
        Ok(no) => Reply::Object(no),
        Err(fault) => Reply::Refused(fault),
    })
}

pub fn done(answer: Result<(), Fault>) -> Told {
    Told::Reply(match answer {
        Ok(()) => Reply::Done,
        Err(fault) => Reply::Refused(fault),
    })
}

/// What a slot holds now.
pub fn value(answer: Result<Option<ObjNo>, Fault>) -> Told {
    Told::Reply(match answer {
        Ok(Some(no)) => Reply::Object(no),
        Ok(None) => Reply::Null,
        Err(fault) => Reply::Refused(fault),
    })
}

/// What came of a look.
pub fn looked(look: Look) -> Reply {
    let no = ObjNo(look.was.no.0);
    match look.was.reference {
        Some(_) if look.is_cleared => Reply::Cleared(no),
        Some(reference) if reference.referent.is_some() => Reply::Kept(no),
        _ => Reply::Skipped(no),
    }
}
