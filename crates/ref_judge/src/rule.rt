//! The rules of a collector's rows.

use ref_base::Reply;
use std::fmt;

/// A rule of a collector's rows, which a row breaks that no state has that fits the rows before.
#[derive(Clone, Copy, Debug, PartialEq, Eq)]
pub enum Rule {
    /// The step is accepted, and its answer is another.
    Answer,
    /// The step is refused.
    Refusal,
    /// A reply to a step that has no such replies.
    Form,
    /// A scan of an object that isn't left.
    ScanObject,
    /// No object is left to scan, as was said.
    NoneLeft,
    /// An object is said to be left to scan, and none is.
    NothingLeft,
    /// An object is left to scan, as was said.
    SomeLeft,
    /// A mark's end with another count.
    DoomedCount,
    /// A root holds what the mark's end dooms.
    DoomedRoot,
    /// What lives on has what the mark's end dooms in a field.
    DoomedField,
    /// The mark's end clears a soft reference that it has to keep.
    DoomedSoft,
    /// The mark's end clears a reference that no worker scanned.
    ClearedUnscanned,
    /// A look at what the worker has not to look at next.
    LookObject,
    /// A look with another answer.
    LookAnswer,
    /// A worker has nothing left, or clearing ends, before each reference that the mark's end cleared was looked at.
    ClearedLeft,
    /// A reference is left to look at, as was said.
    ReferenceLeft,
    /// A reference is said to be left to look at, and none can be.
    NoReferenceLeft,
    /// Another thing becomes of a notice.
    Put,
    /// A batch tells of too few notices, or of too many.
    PutCount,
    /// A poll of what doesn't stand there, or not next.
    Poll,
    /// A move of what isn't there.
    MoveObject,
}

impl Rule {
    /// The rule in words.
    pub fn sentence(self) -> &'static str {
        match self {
            Rule::Answer => "this step has one answer here",
            Rule::Refusal => "this step is refused here, and this is the first fault that applies",
            Rule::Form => "this step has other answers",
            Rule::ScanObject => {
                "a scan takes an object that was made before the cycle, that a kept path led to in this mark, \
                and that wasn't scanned in it"
            }
            Rule::NoneLeft =>
                "that no object is left to scan holds till a load or a get answers an object",
            Rule::NothingLeft => "that an object is left to scan is said only where one is",
            Rule::SomeLeft =>
                "that an object is left to scan holds till one is scanned, loaded or got",
            Rule::DoomedCount =>
                "a mark's end dooms all that was made before the cycle and not scanned in it",
            Rule::DoomedRoot =>
                "no root is doomed: no slot, no notice in a hand or a queue, none that is pending",
            Rule::DoomedField => "no field of what lives on holds what is doomed",
            Rule::DoomedSoft =>
                "a soft reference within its span keeps its referent, unless the cycle is urgent",
            Rule::ClearedUnscanned =>
                "a reference that a mark's end clears was scanned by a worker in this cycle",
            Rule::LookObject => {
                "a worker looks at references that it scanned in this cycle, in that order, and passes none that \
                the mark's end cleared"
            }
            Rule::LookAnswer => {
                "a look answers cleared of what this mark's end cleared, else kept with a referent and skipped \
                without"
            }
            Rule::ClearedLeft =>
                "each reference that the mark's end cleared is looked at before clearing ends",
            Rule::ReferenceLeft =>
                "that a reference is left to look at holds till one is looked at",
            Rule::NoReferenceLeft => {
                "that a reference is left to look at is said only where one was scanned and not looked at"
            }
            Rule::Put => {
                "a notice is put in once, at the next position, into an open queue, and only want of memory \
                refuses it"
            }
            Rule::PutCount =>
                "a batch tells of each notice of the hand, up to the first for which memory is refused",
            Rule::Poll => {
                "a poll takes what stands next in its queue, as many as asked for or all, and nothing only where \
                none stands"
            }
            Rule::MoveObject => "a move answers an object that is there",
        }
    }
}

impl fmt::Display for Rule {
    fn fmt<W: fmt::Write>(&self, f: &mut fmt::Formatter<W>) -> fmt::Result {
        f.write_str(self.sentence())
    }
}

/// What would have been legal in place of an illegal row's answer.
#[derive(Clone, Copy, Debug, PartialEq, Eq)]
pub enum Instead {
    /// Just this answer.
    Only(Reply),
    /// An answer, and perhaps there are others: of such a step a collector may have a choice.
    Among(Reply),
    /// No answer is named: of such a step a collector may have a choice.
    Untold,
}

/// What an illegal row breaks, and what would have been legal in its place.
#[derive(Clone, Copy, Debug, PartialEq, Eq)]
pub struct Breach {
    /// The rule, for a reader: no clause says which it is.
    pub rule: Rule,
    /// What would have been legal behind the rows before: `Only` where no collector has a choice of such a step's
    /// answer.
    pub instead: Instead,
}

impl Breach {
    ghost use Rattle.std.specs.Prelude.{◌≡◌};

    // That of a row whose step has this one answer.
    pub(crate) fn by_answer(answer: Reply) -> Self
        ensures { result.instead ≡ Instead.Only answer }
    {
        let rule = match answer {
            Reply::Refused(_) => Rule::Refusal,
            _ => Rule::Answer,
        };
        Breach {
            rule,
            instead: Instead::Only(answer),
        }
    }
}

/// Why a judge takes no row.
#[derive(Clone, Copy, Debug, PartialEq, Eq)]
pub enum Objection {
    /// No state that fits the rows before has this row, and this is what it breaks.
    Illegal(Breach),
    /// Memory was refused, and nothing is said of the row.
    NoMemory,
}
