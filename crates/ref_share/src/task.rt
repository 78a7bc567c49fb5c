//! What a cleaner runs once an object is gone.

use ref_queue::{Job, Ran};

/// A cleaning task with a number, by which its caller knows it. It can be run once, since that takes it.
///
/// A `Job` is one, whose action is in a box. So is any plain struct of a program's own, which crosses to another thread
/// by itself and can be made where the object is. What wants a handle of the system is done by the cleaner's `Gate`,
/// which is told of each task: a `Numbered` task does nothing else.
pub trait Task: Drop {
    ghost use Rattle.ref_queue.specs.declared.job.Ran.{Ran};
    ghost use Rattle.std.specs.Prelude.{◌≡◌};

    // What running it tells.
    ghost ran: { Self → Ran };

    // What is so once it was run.
    ghost was_run: { Self → Type 0 };

    /// Its number.
    fn number(&self) -> u64
        ensures { result ≡ (ran self.now).number };

    /// Runs it, once and for all.
    fn run(self) -> Ran
        ensures ran { result ≡ ran self }
        ensures run { was_run self };
}

impl Task for Job {
    ghost ran = { λ job. record { number = job.number; answer = job.note } };

    // What its action answered is told by `run_jobs_left` and by `Job::run`: a box's own clauses can't stand here.
    ghost was_run = { λ job. Unit {0} };

    fn number(&self) -> u64 {
        Job::number(self)
    }

    fn run(self) -> Ran {
        Job::run(self)
    }
}

/// A task that is a number alone. Running it does nothing and answers 0: what is to be done its gate does, by the
/// number.
#[derive(Clone, Copy, Debug, PartialEq, Eq)]
pub struct Numbered(pub u64);

impl Task for Numbered {
    ghost ran = { λ task. record { number = task.0; answer = 0 } };

    ghost was_run = { λ task. Unit {0} };

    fn number(&self) -> u64 {
        self.0
    }

    fn run(self) -> Ran {
        Ran {
            number: self.0,
            answer: 0,
        }
    }
}
