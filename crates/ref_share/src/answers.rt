//! What calls of shared heaps and queues answer.

use ref_base::{Fault, ObjNo, Parcel, QueueNo};
use ref_clear::Notice;
use ref_objects::Hold;
use ref_queue::Ran;
use std::fmt;

/// Why a call of a shared heap or queue is refused. It prints as one line, without what comes back.
pub enum ShareFault {
    /// The call is refused with this fault, and nothing has changed but what was seen.
    Refused(Fault),
    /// Another turn was open.
    Busy,
    /// The notice could not be put into its queue, for this reason, and comes back.
    Notice(Notice, Fault),
    /// The hold could not be given back to its heap, for this reason, and comes back.
    Held(Hold, Fault),
}

impl ShareFault {
    ghost use Rattle.std.specs.Prelude.{◌≡◌};
    ghost use Rattle.ref_share.specs.Answers.{given_up, fault_of};

    /// What to do about it: nothing where another turn was open, since the call can be made again; else to end with
    /// this fault. What came back is given up: its heap, if it is still there, counts it for good. Takes no memory.
    pub fn give_up(self) -> Result<(), Fault>
        ensures { result ≡ given_up self }
    {
        match self {
            ShareFault::Busy => Ok(()),
            ShareFault::Refused(fault) => Err(fault),
            ShareFault::Notice(notice, fault) => {
                notice.into_hold().leak();
                Err(fault)
            }
            ShareFault::Held(hold, fault) => {
                hold.leak();
                Err(fault)
            }
        }
    }

    /// The fault of a call that waits, to end with; what came back is given up as by `give_up`. `Busy`, which no call
    /// that waits answers, becomes `TurnsSpent`. Takes no memory.
    pub fn into_fault(self) -> Fault
        ensures { result ≡ fault_of self }
    {
        match self.give_up() {
            Ok(()) => Fault::TurnsSpent,
            Err(fault) => fault,
        }
    }
}

impl fmt::Display for ShareFault {
    fn fmt<W: fmt::Write>(&self, f: &mut fmt::Formatter<W>) -> fmt::Result {
        let (what, object, fault) = match self {
            ShareFault::Refused(fault) => return write!(f, "refused: {fault}"),
            ShareFault::Busy => return f.write_str("another turn is open"),
            ShareFault::Notice(notice, fault) => ("notice", notice.obj(), *fault),
            ShareFault::Held(hold, fault) => ("hold", hold.obj(), *fault),
        };
        write!(f, "the {what} of {object} comes back: {fault}")
    }
}

impl fmt::Debug for ShareFault {
    fn fmt<W: fmt::Write>(&self, f: &mut fmt::Formatter<W>) -> fmt::Result {
        fmt::Display::fmt(self, f)
    }
}

impl From<Fault> for ShareFault {
    ghost use Rattle.std.specs.Prelude.{◌≡◌};
    ghost use Rattle.ref_share.specs.declared.answers.ShareFault.TheVariants.{Refused};

    ghost from_gives = { λ fault why. why ≡ Refused fault };

    fn from(fault: Fault) -> ShareFault {
        ShareFault::Refused(fault)
    }
}

/// The fault to end with, as by `into_fault`, so that `?` passes it on: what came back is given up.
impl From<ShareFault> for Fault {
    ghost use Rattle.std.specs.Prelude.{◌≡◌};
    ghost use Rattle.ref_share.specs.Answers.{fault_of};

    ghost from_gives = { λ why fault. fault ≡ fault_of why };

    fn from(why: ShareFault) -> Fault {
        why.into_fault()
    }
}

/// What became of a notice.
#[derive(Clone, Copy, PartialEq, Eq)]
pub enum Delivery {
    /// There was none.
    Nothing,
    /// The notice of this reference stands in this queue now, at this position of all that were ever put in.
    Added(ObjNo, QueueNo, u64),
    /// The queue had this reference before, or is closed: the notice was given up.
    Dropped(ObjNo),
}

impl fmt::Display for Delivery {
    fn fmt<W: fmt::Write>(&self, f: &mut fmt::Formatter<W>) -> fmt::Result {
        match *self {
            Delivery::Nothing => f.write_str("nothing"),
            Delivery::Added(object, queue, position) => {
                write!(f, "{object} added to {queue} at {position}")
            }
            Delivery::Dropped(object) => write!(f, "{object} dropped"),
        }
    }
}

impl fmt::Debug for Delivery {
    fn fmt<W: fmt::Write>(&self, f: &mut fmt::Formatter<W>) -> fmt::Result {
        fmt::Display::fmt(self, f)
    }
}

/// What a poll of a shared queue answers.
pub enum Polled {
    /// The first that stood.
    Took(Notice),
    /// Nothing stood, and something may come yet.
    Empty,
    /// Nothing stood, and nothing comes any more.
    Closed,
    /// Nothing stood at each of the polls that were allowed.
    TimedOut,
}

impl fmt::Display for Polled {
    fn fmt<W: fmt::Write>(&self, f: &mut fmt::Formatter<W>) -> fmt::Result {
        match self {
            Polled::Took(notice) => {
                let object = notice.obj();
                write!(f, "took {object}")
            }
            Polled::Empty => f.write_str("empty"),
            Polled::Closed => f.write_str("closed"),
            Polled::TimedOut => f.write_str("timed out"),
        }
    }
}

impl fmt::Debug for Polled {
    fn fmt<W: fmt::Write>(&self, f: &mut fmt::Formatter<W>) -> fmt::Result {
        fmt::Display::fmt(self, f)
    }
}

/// What a registered job is cleaned by: the number of its phantom reference.
#[derive(Clone, Copy, Debug, PartialEq, Eq)]
pub struct Cleanable {
    pub obj: ObjNo,
}

/// What a clean did.
pub enum Cleaned {
    /// Nothing: the job was taken before.
    Gone,
    /// A clean that ran the job. The hold of its reference comes back where the heap had no turn left to adopt it, or
    /// did not count it.
    Ran(Ran, Option<Hold>),
}

impl fmt::Display for Cleaned {
    fn fmt<W: fmt::Write>(&self, f: &mut fmt::Formatter<W>) -> fmt::Result {
        match self {
            Cleaned::Gone => f.write_str("gone"),
            Cleaned::Ran(ran, _) => {
                let Ran { number, answer } = *ran;
                write!(f, "ran {number}, which answered {answer}")
            }
        }
    }
}

impl fmt::Debug for Cleaned {
    fn fmt<W: fmt::Write>(&self, f: &mut fmt::Formatter<W>) -> fmt::Result {
        fmt::Display::fmt(self, f)
    }
}
