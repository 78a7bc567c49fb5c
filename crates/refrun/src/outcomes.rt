//! What became of the jobs of a stress run.

ghost use Rattle.std.specs.Prelude.{◌≡◌};
ghost use Rattle.refrun.specs.StressChecks.{ran_well};

use ref_queue::Ran;
use ref_share::Gate;
use std::alloc::{AllocError, Global};
use std::sync::atomic::{AtomicBool, AtomicU32, Ordering};

/// What became of a job.
#[derive(Clone, Copy, Debug, PartialEq, Eq)]
pub struct JobFate {
    /// Whether it was to run: it was registered, and not taken out.
    pub is_due: bool,
    /// How often it ran, with the answer that its note said.
    pub runs: u32,
    /// Whether it began while its object lived.
    pub is_early: bool,
}

impl JobFate {
    /// Whether it ran as it was to: once, behind its object's death, or never.
    pub(crate) fn is_well(&self) -> bool
        ensures { result ≡ ran_well self.now }
    {
        let times = if self.is_due { 1 } else { 0 };
        self.runs == times && !self.is_early
    }
}

/// What threads note of the jobs, each at the place of its number.
#[derive(Drop)]
pub(crate) struct Outcomes {
    jobs: Vec<Outcome>,
}

/// What threads note of one job.
#[derive(Drop)]
struct Outcome {
    is_due: AtomicBool,
    may_run: AtomicBool,
    is_early: AtomicBool,
    runs: AtomicU32,
}

impl Outcome {
    fn new() -> Self {
        Outcome {
            is_due: AtomicBool::new(false),
            may_run: AtomicBool::new(false),
            is_early: AtomicBool::new(false),
            runs: AtomicU32::new(0),
        }
    }

    fn fate(&self) -> JobFate {
        JobFate {
            is_due: self.is_due.load(Ordering::SeqCst),
            runs: self.runs.load(Ordering::SeqCst),
            is_early: self.is_early.load(Ordering::SeqCst),
        }
    }
}

impl Outcomes {
    /// Jobs of this count, of which nothing was noted. All its memory is taken here.
    pub(crate) fn new(alloc: Global, jobs: usize) -> Result<Self, AllocError> {
        let mut outcomes = Vec::new(alloc);
        for _ in 0..jobs {
            outcomes.push(Outcome::new())?;
        }
        Ok(Outcomes { jobs: outcomes })
    }

    /// The job was registered: it is to run.
    pub(crate) fn note_registered(&self, number: u64) {
        if let Some(outcome) = self.of(number) {
            outcome.is_due.store(true, Ordering::SeqCst);
        }
    }

    /// The job was taken out: it is never to run.
    pub(crate) fn note_taken_out(&self, number: u64) {
        if let Some(outcome) = self.of(number) {
            outcome.is_due.store(false, Ordering::SeqCst);
        }
    }

    /// The job's object is let go next, or the job is run by hand: it may run from now on.
    pub(crate) fn note_may_run(&self, number: u64) {
        if let Some(outcome) = self.of(number) {
            outcome.may_run.store(true, Ordering::SeqCst);
        }
    }

    /// What became of each job, by its number.
    pub(crate) fn fates(&self, alloc: Global) -> Result<Vec<JobFate>, AllocError> {
        self.jobs
            .iter()
            .map(|outcome| outcome.fate())
            .collect(alloc)
    }

    fn of(&self, number: u64) -> Option<&Outcome> {
        self.jobs.get(number as usize)
    }
}

impl Gate for Outcomes {
    fn before(&self, number: u64) {
        if let Some(outcome) = self.of(number)
            && !outcome.may_run.load(Ordering::SeqCst)
        {
            outcome.is_early.store(true, Ordering::SeqCst);
        }
    }

    fn after(&self, ran: Ran) {
        if let Some(outcome) = self.of(ran.number)
            && ran.answer == answer_of(ran.number)
        {
            outcome.runs.fetch_add(1, Ordering::SeqCst);
        }
    }
}

/// What a job's action answers.
pub(crate) fn answer_of(number: u64) -> u64
    ensures { result ≡ number }
{
    number
}
