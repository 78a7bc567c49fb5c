//! What is wrong with a text, or with the ends that it is read from and its output is written to.

use crate::source::ReadError;
use std::alloc::{AllocError, AllocFailed};
use thiserror::Error;

/// What is wrong with a line of a script or a graph text. It prints as it stands behind the line's number.
#[derive(Clone, Copy, Debug, PartialEq, Eq, Error)]
pub enum LineFault {
    /// In both texts: more than 200 bytes stand before the line's end.
    #[error("line too long")]
    LineTooLong,
    /// In both texts: a byte is above 127.
    #[error("not ASCII")]
    NotAscii,
    /// In both texts: the first line that says something isn't `refscript 1` or `refscript 2` in a script, or
    /// `refgraph 1` in a graph text.
    #[error("bad header")]
    BadHeader,
    /// In a script alone: the next isn't `config` and five numbers within their limits, of which the cells' is 4,096 in
    /// version 1 and 65,536 in version 2.
    #[error("bad config")]
    BadConfig,
    /// In a script alone: no step has this actor's letter and this name.
    #[error("unknown step")]
    UnknownStep,
    /// In a graph text alone: no line begins with this word.
    #[error("unknown line")]
    UnknownLine,
    /// In both texts: the step or the line wants more words.
    #[error("missing word")]
    MissingWord,
    /// In both texts: an actor's number or an operand isn't of its form.
    #[error("bad word")]
    BadWord,
    /// In both texts: a word stands behind the last operand.
    #[error("extra word")]
    ExtraWord,
    /// In a graph text alone: an object of this number was declared before.
    #[error("double object")]
    DoubleObject,
}

/// Why no whole trace or listing was written.
#[derive(Clone, Copy, Debug, PartialEq, Eq, Error)]
pub enum TextFault {
    /// The first faulty line, counted from 1, and its fault. Nothing was written.
    #[error("line {0}: {1}")]
    Line(u64, LineFault),
    /// The text has more than 4,194,304 bytes. Nothing was written.
    #[error("script too long")]
    TooLong,
    /// A read failed. Nothing was written.
    #[error("cannot read")]
    CannotRead,
    /// A write failed. A prefix of the output may have gone out.
    #[error("cannot write")]
    CannotWrite,
    /// Memory ran out. Nothing was written.
    #[error("no memory")]
    NoMemory,
}

impl From<AllocError> for TextFault {
    ghost use Rattle.std.specs.Prelude.{◌≡◌};
    ghost use Rattle.ref_text.specs.declared.fault.TextFault.TheVariants.{NoMemory};

    ghost from_gives = { λ _ e. e ≡ NoMemory };

    fn from(_error: AllocError) -> TextFault {
        TextFault::NoMemory
    }
}

impl<T: Drop> From<AllocFailed<T>> for TextFault {
    ghost use Rattle.std.specs.Prelude.{◌≡◌};
    ghost use Rattle.ref_text.specs.declared.fault.TextFault.TheVariants.{NoMemory};

    ghost from_gives = { λ _ e. e ≡ NoMemory };

    fn from(_error: AllocFailed<T>) -> TextFault {
        TextFault::NoMemory
    }
}

impl From<ReadError> for TextFault {
    ghost use Rattle.std.specs.Prelude.{◌≡◌};
    ghost use Rattle.ref_text.specs.Reads.{fault_of_read};

    ghost from_gives = { λ error e. e ≡ fault_of_read error };

    fn from(error: ReadError) -> TextFault {
        match error {
            ReadError::Failed => TextFault::CannotRead,
            ReadError::NoMemory => TextFault::NoMemory,
        }
    }
}

impl TextFault {
    ghost use Rattle.std.specs.Prelude.{◌≡◌};
    ghost use Rattle.ref_text.specs.ExitStatuses.{exit_status_of};

    /// The exit status of a program that ends with this fault: 5 for want of memory, and else 3. Takes no memory.
    pub fn exit_status(self) -> u8
        ensures { result ≡ exit_status_of self }
    {
        match self {
            TextFault::NoMemory => 5,
            _ => 3,
        }
    }
}
