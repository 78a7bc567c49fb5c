//! Why there is no verdict on a log.

use crate::called::Called;
use crate::fault::LogFault;
use ref_base::Row;
use ref_judge::{Because, Breach, Instead};
use std::alloc::AllocError;
use std::fmt;
use thiserror::Error;

/// Why there is no verdict on a log.
#[derive(Clone, Copy, Debug, PartialEq, Eq, Error)]
pub enum LogFailure {
    /// A faulty line, counted from 1, and its fault.
    #[error("line {0}: {1}")]
    Line(u64, LogFault),
    /// The last line has no LF and is no row. All rows before it are legal.
    #[error("line {line}: cut off")]
    CutOff {
        /// How many rows stand before it.
        rows: u64,
        /// Its number, counted from 1.
        line: u64,
    },
    /// A read failed.
    #[error("cannot read")]
    CannotRead,
    /// Memory ran out, or the numbers of lines did.
    #[error("no memory")]
    NoMemory,
}

impl From<AllocError> for LogFailure {
    ghost use Rattle.std.specs.Prelude.{◌≡◌};
    ghost use Rattle.ref_log.specs.declared.failure.LogFailure.TheVariants.{NoMemory};

    ghost from_gives = { λ _ e. e ≡ NoMemory };

    fn from(_: AllocError) -> Self {
        LogFailure::NoMemory
    }
}

impl LogFailure {
    /// The exit status of a program that tells it: 5 where memory ran out, else 3.
    pub fn exit_status(&self) -> u8 {
        match self {
            LogFailure::NoMemory => 5,
            _ => 3,
        }
    }
}

/// What a judge says of a log.
#[derive(Clone, Copy, Debug, PartialEq, Eq)]
pub enum Verdict {
    /// A collector of the log's profile may have given all rows.
    Legal {
        /// How many they are.
        rows: u64,
    },
    /// No collector of the profile can have given the rows up to this one, and one may have given those before it.
    Illegal(Finding),
}

/// The first row of a log that isn't legal.
#[derive(Clone, Copy, Debug, PartialEq, Eq)]
pub struct Finding {
    /// Its number among the rows, counted from 1.
    pub number: u64,
    /// The number of its line, counted from 1.
    pub line: u64,
    /// The row.
    pub row: Row,
    /// The rule that it breaks, and an answer that would have been legal.
    pub breach: Breach,
    /// The earlier row that settled it, if one did and is known.
    pub because: Option<Because>,
    /// What objects are called that the row and that answer name, where objects have names.
    pub called: [Option<Called>; 2],
}

impl Finding {
    ghost use Rattle.std.specs.Prelude.{◌≡◌};

    /// A finding of this row without a reason or a name.
    pub(crate) fn bare(number: u64, line: u64, row: Row, breach: Breach) -> Self
        ensures number { result.number ≡ number }
        ensures line { result.line ≡ line }
        ensures row { result.row ≡ row }
        ensures breach { result.breach ≡ breach }
    {
        Finding {
            number,
            line,
            row,
            breach,
            because: None,
            called: [None, None],
        }
    }
}

impl Verdict {
    /// The exit status of a program that tells it: 4 where a row isn't legal, else 0.
    pub fn exit_status(&self) -> u8 {
        match self {
            Verdict::Legal { .. } => 0,
            Verdict::Illegal(_) => 4,
        }
    }
}

/// The report of a judge, for reading aloud.
impl fmt::Display for Verdict {
    fn fmt<W: fmt::Write>(&self, f: &mut fmt::Formatter<W>) -> fmt::Result {
        match self {
            Verdict::Legal { rows } => write!(f, "legal: {rows} rows"),
            Verdict::Illegal(finding) => fmt::Display::fmt(finding, f),
        }
    }
}

impl fmt::Display for Finding {
    fn fmt<W: fmt::Write>(&self, f: &mut fmt::Formatter<W>) -> fmt::Result {
        writeln!(
            f,
            "row {} isn't legal (line {}): {}",
            self.number, self.line, self.row
        )?;
        write!(f, "rule: {}", self.breach.rule)?;
        match self.breach.instead {
            Instead::Only(reply) => write!(f, "\nlegal here: {reply}")?,
            Instead::Among(reply) => write!(f, "\nlegal here, for one: {reply}")?,
            Instead::Untold => {}
        }
        if let Some(because) = self.because {
            write!(f, "\nbecause: {because}")?;
        }
        match self.called {
            [Some(one), Some(other)] => write!(f, "\nnames: {one}, {other}"),
            [Some(one), None] | [None, Some(one)] => write!(f, "\nnames: {one}"),
            [None, None] => Ok(()),
        }
    }
}
