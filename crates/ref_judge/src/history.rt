//! Which earlier row of a trace settled what a row breaks.

use crate::{Breach, Instead, Judge, Rule};
use ref_base::{Fault, ObjNo, PlainStep, QueueNo, Reply, Row, Step};
use std::alloc::Allocator;
use std::fmt;

/// A row of a trace that stands before another.
#[derive(Clone, Copy, Debug, PartialEq, Eq)]
pub struct Earlier {
    /// Its number among the rows, counted from 1.
    pub number: u64,
    /// The row.
    pub row: Row,
}

/// What an earlier row settled.
#[derive(Clone, Copy, Debug, PartialEq, Eq)]
pub enum Settled {
    /// The row said that something is left, or that nothing is.
    Said,
    /// The cycle began with it.
    Cycle,
    /// The phase began with it.
    Phase,
    /// The row ended the mark, and cleared what is looked at now.
    Mark,
    /// The row doomed this object.
    Doomed(ObjNo),
    /// The row closed the queue.
    Closed,
}

impl fmt::Display for Settled {
    fn fmt<W: fmt::Write>(&self, f: &mut fmt::Formatter<W>) -> fmt::Result {
        match self {
            Settled::Said => f.write_str("said so"),
            Settled::Cycle => f.write_str("began the cycle"),
            Settled::Phase => f.write_str("began the phase"),
            Settled::Mark => f.write_str("ended the mark"),
            Settled::Doomed(no) => write!(f, "doomed object {no}"),
            Settled::Closed => f.write_str("closed the queue"),
        }
    }
}

/// Why a row isn't legal.
#[derive(Clone, Copy, Debug, PartialEq, Eq)]
pub enum Because {
    /// An earlier row settled it. It prints as `row 7 (endmark : doomed 1) doomed object 1`.
    Settled(Earlier, Settled),
    /// The row names a new object as this one, which is there.
    InUse(ObjNo),
}

impl fmt::Display for Because {
    fn fmt<W: fmt::Write>(&self, f: &mut fmt::Formatter<W>) -> fmt::Result {
        match self {
            Because::Settled(earlier, settled) => {
                write!(f, "row {} ({}) {settled}", earlier.number, earlier.row)
            }
            Because::InUse(no) => write!(f, "object {no} is there, and has this name"),
        }
    }
}

/// The rows so far that settled something, the last of each kind. It takes no memory, however many rows it is told.
#[derive(Drop)]
pub struct History {
    begin: Option<Earlier>,
    mark_end: Option<Earlier>,
    phase: Option<Earlier>,
    none_left: Option<Earlier>,
    some_left: Option<Earlier>,
    reference_left: Option<Earlier>,
    closes: [Option<Earlier>; 16],
}

impl History {
    /// No row stands before.
    pub fn new() -> Self {
        History {
            begin: None,
            mark_end: None,
            phase: None,
            none_left: None,
            some_left: None,
            reference_left: None,
            closes: [None; 16],
        }
    }

    /// One more row, of this number, which is legal. None is a row that is no collector's. In constant time.
    pub fn note(&mut self, number: u64, row: Option<Row>) {
        let Some(row) = row else {
            return;
        };
        let (told, step, reply) = (row, row.step, row.reply);
        let earlier = Earlier { number, row: told };
        match step {
            Step::Plain(step) => self.note_plain(step, reply, earlier),
            Step::Close { queue, .. } => self.note_close(queue, reply, earlier),
            _ => {}
        }
    }

    // One of a queue that closes.
    fn note_close(&mut self, queue: QueueNo, reply: Reply, earlier: Earlier) {
        if reply != Reply::Done {
            return;
        }
        if let Some(close) = self.closes.get_mut(queue.0 as usize) {
            *close = Some(earlier);
        }
    }

    // One that hands nothing over.
    fn note_plain(&mut self, step: PlainStep, reply: Reply, earlier: Earlier) {
        match reply {
            Reply::Cycle(_) => self.note_begin(earlier),
            Reply::Doomed(_) => self.note_mark_end(earlier),
            Reply::Object(_) => self.note_object(step),
            Reply::Scanned(_) => self.forget_left(),
            Reply::Cleared(_) | Reply::Kept(_) | Reply::Skipped(_) => self.reference_left = None,
            Reply::Selected(_) => self.phase = Some(earlier),
            Reply::Refused(Fault::GreyLeft) => self.some_left = Some(earlier),
            Reply::Refused(Fault::ClearingLeft) => self.reference_left = Some(earlier),
            Reply::Nothing => self.note_none(step, earlier),
            Reply::Done => self.note_end(step, earlier),
            _ => {}
        }
    }

    // The begin of a cycle.
    fn note_begin(&mut self, row: Earlier) {
        let phase = row;
        self.begin = Some(row);
        self.phase = Some(phase);
        self.forget_left();
    }

    // A mark's end that dooms.
    fn note_mark_end(&mut self, row: Earlier) {
        let phase = row;
        self.mark_end = Some(row);
        self.phase = Some(phase);
        self.reference_left = None;
    }

    // One that answers an object: of a load or a get it says anew what is left to scan.
    fn note_object(&mut self, step: PlainStep) {
        if let PlainStep::Load { .. } | PlainStep::Get { .. } = step {
            self.forget_left();
        }
    }

    // One that answers that there is none.
    fn note_none(&mut self, step: PlainStep, earlier: Earlier) {
        if let PlainStep::Scan { .. } = step {
            self.none_left = Some(earlier);
        }
    }

    // One that answers that it is done.
    fn note_end(&mut self, step: PlainStep, earlier: Earlier) {
        match step {
            PlainStep::EndClear | PlainStep::EndSweep | PlainStep::EndMove => {
                self.phase = Some(earlier);
            }
            _ => {}
        }
    }

    // What was said of what is left to scan holds no more.
    fn forget_left(&mut self) {
        self.none_left = None;
        self.some_left = None;
    }

    /// The row that settled what this one breaks, if it is known: for a reader, since no clause says which it is. The
    /// judge is the one that objected to the row. In the time of a search.
    pub fn because<A: Allocator + Copy>(
        &self,
        judge: &Judge<A>,
        row: Row,
        breach: Breach,
    ) -> Option<Because> {
        let (earlier, settled) = match breach.rule {
            Rule::NoneLeft | Rule::NothingLeft => (self.none_left, Settled::Said),
            Rule::SomeLeft => (self.some_left, Settled::Said),
            Rule::ReferenceLeft => (self.reference_left, Settled::Said),
            Rule::DoomedCount | Rule::DoomedSoft => (self.begin, Settled::Cycle),
            Rule::LookObject | Rule::LookAnswer | Rule::ClearedLeft => (
                self.mark_end,
                Settled::Mark,
            ),
            Rule::Refusal => (self.phase_of(breach.instead), Settled::Phase),
            Rule::Poll => (self.close_of(row.step, breach.instead), Settled::Closed),
            Rule::Answer => {
                let no = object_told(row.reply)?;
                if !judge.is_doomed(no) {
                    return None;
                }
                (self.mark_end, Settled::Doomed(no))
            }
            _ => (None, Settled::Said),
        };
        Some(Because::Settled(earlier?, settled))
    }

    // The row with which the phase began that refuses a step.
    fn phase_of(&self, instead: Instead) -> Option<Earlier> {
        match instead {
            Instead::Only(Reply::Refused(Fault::WrongPhase)) => self.phase,
            _ => None,
        }
    }

    // The row that closed the queue of a poll.
    fn close_of(&self, step: Step, instead: Instead) -> Option<Earlier> {
        if instead != Instead::Among(Reply::Closed) {
            return None;
        }
        match step {
            Step::Poll { queue, .. } | Step::Polls { queue, .. } => self.close(queue),
            _ => None,
        }
    }

    fn close(&self, queue: QueueNo) -> Option<Earlier> {
        *self.closes.get(queue.0 as usize)?
    }
}

/// The object that a reply names, if it names one.
fn object_told(reply: Reply) -> Option<ObjNo> {
    match reply {
        Reply::Object(no) => Some(no),
        _ => None,
    }
}
