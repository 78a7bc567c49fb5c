//! What is wrong with a line of a log.

ghost use Rattle.std.specs.Prelude.{◌≡◌};
ghost use Rattle.ref_log.specs.LogFaults.{log_fault};

use ref_text::LineFault;
use thiserror::Error;

/// What is wrong with a line of a log. It prints as it stands behind the line's number.
#[derive(Clone, Copy, Debug, PartialEq, Eq, Error)]
pub enum LogFault {
    /// More bytes stand before the line's end than a line has.
    #[error("line too long")]
    LineTooLong,
    /// A byte is above 127.
    #[error("not ASCII")]
    NotAscii,
    /// The first line that says something isn't `reftrace 1` or `reftrace 2`.
    #[error("bad header")]
    BadHeader,
    /// The next isn't `config` and five numbers within their limits.
    #[error("bad config")]
    BadConfig,
    /// A word behind `profile` is no name of what a profile loosens, or doesn't go with the words before it.
    #[error("bad profile")]
    BadProfile,
    /// No step has this actor's letter and this name.
    #[error("unknown step")]
    UnknownStep,
    /// The step wants more words.
    #[error("missing word")]
    MissingWord,
    /// An actor's number or an operand isn't of its form, or a number has a leading zero.
    #[error("bad word")]
    BadWord,
    /// A word stands behind the last operand.
    #[error("extra word")]
    ExtraWord,
    /// No word is a colon, or the words behind the first one are no reply to the step.
    #[error("no reply")]
    NoReply,
}

/// The fault of a line of a log, from that of a line of a script.
pub fn log_fault(fault: LineFault) -> LogFault
    ensures { result ≡ log_fault fault }
{
    match fault {
        LineFault::LineTooLong => LogFault::LineTooLong,
        LineFault::NotAscii => LogFault::NotAscii,
        LineFault::BadHeader => LogFault::BadHeader,
        LineFault::BadConfig => LogFault::BadConfig,
        LineFault::UnknownStep | LineFault::UnknownLine => LogFault::UnknownStep,
        LineFault::MissingWord => LogFault::MissingWord,
        LineFault::BadWord | LineFault::DoubleObject => LogFault::BadWord,
        LineFault::ExtraWord => LogFault::ExtraWord,
    }
}
