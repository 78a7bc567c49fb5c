//! What calls are answered, as plain data that prints as it stands in a row of a story.

use ref_base::{Fault, Nos, Outs, Reply};
use ref_share::Delivery;
use std::alloc::Allocator;
use std::fmt;
use std::process::Abort;

/// What kind of answer it is.
#[derive(Clone, Copy, PartialEq, Eq)]
pub enum Word {
    /// A reply has no other word.
    Reply,
    /// What stands behind the reply to a batch.
    Behind,
    Refused,
    Unknown,
    Busy,
    NotReleased,
    NotPut,
    TimedOut,
    Served,
    WasOpen,
    WasClosed,
    Enqueued,
    NotEnqueued,
    Delivered,
    Dropped,
    Registered,
    NotRegistered,
    NoJob,
    Ran,
    RanUnheld,
    CameOut,
    RanJobs,
}

impl Word {
    fn text(self) -> &'static str {
        match self {
            Word::Reply => "",
            Word::Behind => " behind",
            Word::Refused => "refused",
            Word::Unknown => "unknown",
            Word::Busy => "busy",
            Word::NotReleased => "not released",
            Word::NotPut => "not put",
            Word::TimedOut => "timed out",
            Word::Served => "served",
            Word::WasOpen => "was open",
            Word::WasClosed => "was closed",
            Word::Enqueued => "enqueued",
            Word::NotEnqueued => "not enqueued",
            Word::Delivered => "delivered",
            Word::Dropped => "dropped",
            Word::Registered => "registered",
            Word::NotRegistered => "not registered",
            Word::NoJob => "no job",
            Word::Ran => "ran",
            Word::RanUnheld => "ran unheld",
            Word::CameOut => "came out",
            Word::RanJobs => "ran jobs",
        }
    }
}

/// What a call was answered. It prints as a reply does in a trace, or as a word with its numbers, as `served 4`. A
/// fault of the call itself stands behind a colon, as `not put 2: BadQueue`. What came back stands last: `left 2 3` are
/// notices in a batch, by their references, and `job 1` is a job.
#[derive(Clone, Copy)]
pub struct Told {
    reply: Option<Reply>,
    word: Word,
    numbers: [Option<u64>; 3],
    fault: Option<Fault>,
    left: Nos,
    job: Option<u64>,
}

impl Told {
    /// Whether it prints so.
    pub fn is<A: Allocator>(&self, alloc: A, text: &str) -> bool {
        let told = self;
        match format!(in alloc; "{told}") {
            Ok(printed) => printed.as_str() == text,
            Err(_) => false,
        }
    }

    /// What was replied, if it is a reply.
    pub fn reply(&self) -> Option<Reply> {
        self.reply
    }

    /// The answer, with these notices left in the batch.
    pub fn leaving(self, left: Nos) -> Told {
        Told { left, ..self }
    }

    /// The answer, with which the job of this number came back.
    pub fn with_job(self, number: u64) -> Told {
        Told {
            job: Some(number),
            ..self
        }
    }

    /// The first number behind this word, if it is the word.
    pub fn number_of(&self, word: Word) -> Option<u64> {
        let [number, _, _] = self.numbers;
        if self.word == word { number } else { None }
    }
}

impl fmt::Display for Told {
    fn fmt<W: fmt::Write>(&self, f: &mut fmt::Formatter<W>) -> fmt::Result {
        if let Some(reply) = self.reply {
            write!(f, "{reply}")?;
        }
        f.write_str(self.word.text())?;
        for number in self.numbers {
            if let Some(number) = number {
                write!(f, " {number}")?;
            }
        }
        if let Some(fault) = self.fault {
            write!(f, ": {fault}")?;
        }
        for (place, no) in self.left.as_slice().iter().enumerate() {
            f.write_str(if place == 0 { " left " } else { " " })?;
            write!(f, "{no}")?;
        }
        match self.job {
            Some(job) => write!(f, " job {job}"),
            None => Ok(()),
        }
    }
}

/// The call of this row was answered so.
pub fn expect<A: Allocator>(rt: &impl Abort, alloc: A, told: Told, want: &str, row: &str) {
    assert!(rt; told.is(alloc, want), "{row}: {told}, and not {want}");
}

/// What a step or a queue replied.
pub fn replied(reply: Reply) -> Told {
    Told {
        reply: Some(reply),
        ..bare(Word::Reply)
    }
}

/// What became of a batch, behind so many, if there was one.
pub fn outs_told(outs: Option<Outs>) -> Told {
    match outs {
        Some(outs) => Told {
            word: Word::Behind,
            numbers: [Some(outs.before()), None, None],
            ..replied(Reply::Outs(outs))
        },
        None => replied(Reply::Nothing),
    }
}

pub fn bare(word: Word) -> Told {
    Told {
        reply: None,
        word,
        numbers: [None; 3],
        fault: None,
        left: Nos::new(),
        job: None,
    }
}

pub fn counted(word: Word, number: u64) -> Told {
    numbered(word, [Some(number), None, None])
}

pub fn numbered(one: Word, numbers: [Option<u64>; 3]) -> Told {
    Told {
        numbers,
        ..bare(one)
    }
}

/// Why a call was not made.
pub fn refused(fault: Fault) -> Told {
    Told {
        fault: Some(fault),
        ..bare(Word::Refused)
    }
}

/// What came back to whom, by its number, and why.
pub fn not(word: Word, no: u32, fault: Fault) -> Told {
    Told {
        fault: Some(fault),
        ..counted(word, u64::from(no))
    }
}

/// What a delivery answered: the reference, its queue, and how many were put in there before.
pub fn delivery(answer: Delivery) -> Told {
    match answer {
        Delivery::Nothing => replied(Reply::Nothing),
        Delivery::Added(object, queue, position) => {
            let (object, queue) = (u64::from(object.0), u64::from(queue.0));
            numbered(Word::Delivered, [Some(object), Some(queue), Some(position)])
        }
        Delivery::Dropped(object) => counted(Word::Dropped, u64::from(object.0)),
    }
}

/// The word where the answer is yes, or the other.
pub fn either(answer: bool, yes: Word, no: Word) -> Told {
    bare(if answer { yes } else { no })
}
