//! What a script needs of its jobs, and jobs that are two numbers.

ghost use Rattle.std.specs.Prelude.{◌≡◌, IfOk};
ghost use Rattle.refrun.specs.JobViews.{answering_jobs, job_number, note_of, plain_note, plain_number};

use ref_queue::{Job, Ran};
use std::alloc::{AllocError, Allocator};

/// A job that a script registers and runs. The script names it by its number, and it can be run once, since that takes
/// it. One that is never run is dropped.
pub trait ScriptJob: Drop {
    ghost use Rattle.std.specs.Prelude.{◌≡◌, ℕ};

    /// Its number.
    ghost number_of: { Self → ℕ };

    /// What it answers where it is run.
    ghost note_of: { Self → ℕ };

    /// Its number.
    fn number(&self) -> u64
        ensures { result ≡ number_of self.now };

    /// Runs it, and tells its number and what it answers.
    fn run(self) -> Ran
        ensures { result ≡ record { number = number_of self; answer = note_of self } };
}

impl ScriptJob for Job {
    ghost number_of = { job_number };

    ghost note_of = { note_of };

    fn number(&self) -> u64 {
        Job::number(self)
    }

    fn run(self) -> Ran {
        Job::run(self)
    }
}

/// A job without an action: to run it is to answer its note. It takes no memory of its own.
#[derive(Clone, Copy, Debug, PartialEq, Eq)]
pub struct PlainJob {
    pub number: u64,
    pub note: u64,
}

impl ScriptJob for PlainJob {
    ghost number_of = { plain_number };

    ghost note_of = { plain_note };

    fn number(&self) -> u64 {
        self.number
    }

    fn run(self) -> Ran {
        let PlainJob { number, note } = self;
        Ran {
            number,
            answer: note,
        }
    }
}

/// The jobs of a script that `refrun run` runs: job a, from 0 to 63, answers a + 1000. Takes 1 KiB.
pub fn plain_jobs<A: Allocator>(alloc: A) -> Result<Vec<PlainJob, A>, AllocError>
    ensures { IfOk result (λ jobs. jobs.items ≡ answering_jobs) }
{
    let mut jobs = Vec::with_capacity(alloc, 64)?;
    for number in 0..64u64 {
        jobs.push(PlainJob {
            number,
            note: number + 1000,
        })?;
    }
    Ok(jobs)
}
