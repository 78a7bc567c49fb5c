//! How far a stress run is, and whether it is to go on.

use std::fmt;
use std::sync::atomic::{AtomicBool, AtomicU64, Ordering};

/// What a stress run has done so far. The run counts, and any thread may look meanwhile, or stop the mutators.
#[derive(Drop)]
pub struct Tally {
    rounds: AtomicU64,
    cycles: AtomicU64,
    notices: AtomicU64,
    moves: AtomicU64,
    urgent: AtomicU64,
    handed: AtomicU64,
    polled: AtomicU64,
    jobs: AtomicU64,
    is_stopped: AtomicBool,
}

/// What a tally showed. It prints as `7 rounds, 4 cycles, 1 urgent, 3 notices, 1 and 0 batches, 2 moves, 5 jobs`.
#[derive(Clone, Copy, Debug, PartialEq, Eq)]
pub struct Counts {
    /// Rounds of mutators that have ended.
    pub rounds: u64,
    /// Cycles of the collector that have ended.
    pub cycles: u64,
    /// Urgent cycles that have begun.
    pub urgent: u64,
    /// Notices that pollers have taken.
    pub notices: u64,
    /// Batches of notices that workers have handed on.
    pub handed: u64,
    /// Batches of notices that pollers have taken.
    pub polled: u64,
    /// Objects that workers have moved, but for those that a load or a get moved.
    pub moves: u64,
    /// Jobs of the cleaner that have run.
    pub jobs: u64,
}

impl fmt::Display for Counts {
    fn fmt<W: fmt::Write>(&self, f: &mut fmt::Formatter<W>) -> fmt::Result {
        let Counts {
            rounds,
            cycles,
            urgent,
            notices,
            handed,
            polled,
            moves,
            jobs,
        } = *self;
        write!(f, "{rounds} rounds, {cycles} cycles, {urgent} urgent, ")?;
        write!(
            f,
            "{notices} notices, {handed} and {polled} batches, {moves} moves, {jobs} jobs"
        )
    }
}

impl Tally {
    /// Nothing was done yet. Takes no memory.
    pub fn new() -> Self {
        Tally {
            rounds: AtomicU64::new(0),
            cycles: AtomicU64::new(0),
            notices: AtomicU64::new(0),
            moves: AtomicU64::new(0),
            urgent: AtomicU64::new(0),
            handed: AtomicU64::new(0),
            polled: AtomicU64::new(0),
            jobs: AtomicU64::new(0),
            is_stopped: AtomicBool::new(false),
        }
    }

    /// No mutator begins a round any more; the run ends as it does behind its last round. Takes no memory.
    pub fn stop(&self) {
        self.is_stopped.store(true, Ordering::SeqCst);
    }

    pub(crate) fn is_stopped(&self) -> bool {
        self.is_stopped.load(Ordering::SeqCst)
    }

    /// What was done so far, each number as it was when it was looked at. Takes no memory.
    pub fn counts(&self) -> Counts {
        Counts {
            rounds: self.rounds.load(Ordering::SeqCst),
            cycles: self.cycles.load(Ordering::SeqCst),
            notices: self.notices.load(Ordering::SeqCst),
            moves: self.moves.load(Ordering::SeqCst),
            urgent: self.urgent.load(Ordering::SeqCst),
            handed: self.handed.load(Ordering::SeqCst),
            polled: self.polled.load(Ordering::SeqCst),
            jobs: self.jobs.load(Ordering::SeqCst),
        }
    }

    pub(crate) fn count_round(&self) {
        self.rounds.fetch_add(1, Ordering::SeqCst);
    }

    pub(crate) fn count_cycle(&self) {
        self.cycles.fetch_add(1, Ordering::SeqCst);
    }

    pub(crate) fn count_urgent(&self) {
        self.urgent.fetch_add(1, Ordering::SeqCst);
    }

    pub(crate) fn count_handed(&self) {
        self.handed.fetch_add(1, Ordering::SeqCst);
    }

    pub(crate) fn count_polled(&self) {
        self.polled.fetch_add(1, Ordering::SeqCst);
    }

    pub(crate) fn count_jobs(&self, jobs: u64) {
        self.jobs.fetch_add(jobs, Ordering::SeqCst);
    }

    pub(crate) fn count_notice(&self) {
        self.notices.fetch_add(1, Ordering::SeqCst);
    }

    pub(crate) fn count_move(&self) {
        self.moves.fetch_add(1, Ordering::SeqCst);
    }
}
