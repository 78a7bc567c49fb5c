//! What a text answers.

ghost use Rattle.std.specs.Prelude.{◌≡◌, ◌<◌, ◌+◌};

use ref_log::{LogFailure, verdict_on};
use ref_queue::{Action, Job};
use ref_script::strength_text;
use refrun::{FromReader, TextFault, ToWriter, run_script};
use std::alloc::{AllocError, Global};

/// How many jobs a script has.
const JOBS: u64 = 64;

/// What a text is.
#[derive(Clone, Copy)]
pub enum Kind {
    Script,
    Graph,
    Log,
}

/// All of them.
pub const KINDS: [Kind; 3] = [Kind::Script, Kind::Graph, Kind::Log];

impl Kind {
    /// The ending of such a text.
    pub fn text(self) -> &'static str {
        match self {
            Kind::Script => "script",
            Kind::Graph => "graph",
            Kind::Log => "log",
        }
    }

    /// The ending of what it prints.
    pub fn printed(self) -> &'static str {
        match self {
            Kind::Script => "trace",
            Kind::Graph => "out",
            Kind::Log => "report",
        }
    }
}

/// What is printed on standard output and on standard error, and the exit status.
#[derive(Drop)]
pub struct Answer {
    pub printed: Vec<u8>,
    pub error: String,
    pub status: u8,
}

impl Answer {
    /// Whether it is the same.
    pub fn is(&self, other: &Answer) -> bool {
        self.printed.as_slice() == other.printed.as_slice()
            && self.error.as_str() == other.error.as_str()
            && self.status == other.status
    }
}

/// What a text answers.
pub fn answer_to(alloc: Global, kind: Kind, text: &[u8]) -> Result<Answer, AllocError> {
    let mut printed = Vec::new(alloc);
    let done = match kind {
        Kind::Script => run_with_jobs(alloc, text, &mut printed),
        Kind::Graph => strength_text(
            alloc,
            &mut FromReader::new(text),
            &mut ToWriter::new(&mut printed),
        ),
        Kind::Log => return report_on(alloc, text),
    };
    let (error, status) = match done {
        Ok(()) => (String::new(alloc), 0),
        Err(fault) => (format!(in alloc; "refrun: {fault}\n")?, fault.exit_status()),
    };
    Ok(Answer {
        printed,
        error,
        status,
    })
}

/// Runs a script with its jobs: job a has number a, and its action answers a + 1000.
fn run_with_jobs(alloc: Global, text: &[u8], printed: &mut Vec<u8>) -> Result<(), TextFault> {
    let mut jobs = Vec::new(alloc);
    for number in 0..JOBS {
        let action: Action = Box::new(
            alloc,
            |number: u64| -> u64
                requires { number < 64 }
                ensures { result ≡ number + 1000 }
            { number + 1000 },
        )?;
        jobs.push(Job::new(number, number + 1000, action))?;
    }
    run_script(
        alloc,
        &mut FromReader::new(text),
        &mut ToWriter::new(printed),
        jobs,
    )
}

/// The report on a log.
fn report_on(alloc: Global, log: &[u8]) -> Result<Answer, AllocError> {
    let (printed, error, status) = match verdict_on(alloc, &mut FromReader::new(log), None) {
        Ok(verdict) => (
            format!(in alloc; "{verdict}\n")?,
            String::new(alloc),
            verdict.exit_status(),
        ),
        Err(failure) => (
            cut_off(alloc, &failure)?,
            format!(in alloc; "refrun: {failure}\n")?,
            failure.exit_status(),
        ),
    };
    Ok(Answer {
        printed: printed.into_bytes(),
        error,
        status,
    })
}

/// What is printed of a log that is cut off.
fn cut_off(alloc: Global, failure: &LogFailure) -> Result<String, AllocError> {
    match failure {
        LogFailure::CutOff { rows, .. } => {
            format!(in alloc; "legal: {rows} rows as far as they go\n")
        }
        _ => Ok(String::new(alloc)),
    }
}
