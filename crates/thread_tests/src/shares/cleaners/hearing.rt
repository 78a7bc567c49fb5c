//! What a cleaner's threads tell of the jobs that they run.

use crate::turns::gated::saw;
use ref_queue::Ran;
use ref_share::Gate;
use std::sync::atomic::{AtomicU64, Ordering};

/// Counts what it is told of jobs 1 and 2. Job 1 waits for job 2, and until its gate is opened, if it is to.
#[derive(Drop)]
pub struct Hearing {
    first: Heard,
    second: Heard,
    /// How often it was told something else, or out of order.
    others: AtomicU64,
    waits: bool,
    opened: AtomicU64,
    gave_up: AtomicU64,
}

/// What was told of one job: how often that it runs next, and how often that it was run with its answer.
#[derive(Drop)]
struct Heard {
    before: AtomicU64,
    after: AtomicU64,
}

impl Heard {
    fn new() -> Heard {
        Heard {
            before: AtomicU64::new(0),
            after: AtomicU64::new(0),
        }
    }

    /// Whether it was told once more that the job runs next than that it was run.
    fn is_between(&self) -> bool {
        self.before.load(Ordering::SeqCst) == self.after.load(Ordering::SeqCst).wrapping_add(1)
    }
}

impl Hearing {
    pub fn new(waits: bool) -> Hearing {
        Hearing {
            first: Heard::new(),
            second: Heard::new(),
            others: AtomicU64::new(0),
            waits,
            opened: AtomicU64::new(0),
            gave_up: AtomicU64::new(0),
        }
    }

    /// How often job 1 was run, job 2, and anything else; each time it was told before that the job runs next.
    pub fn heard(&self) -> (u64, u64, u64) {
        (
            self.first.after.load(Ordering::SeqCst),
            self.second.after.load(Ordering::SeqCst),
            self.others.load(Ordering::SeqCst),
        )
    }

    /// Waits until job 1 is at its gate, for at most 1,000,000 looks. Whether it is, and was not run yet.
    pub fn is_reached(&self) -> bool {
        saw(&self.first.before, 1_000_000) && self.first.is_between()
    }

    /// Lets job 1 go on, once job 2 was run.
    pub fn open(&self) {
        self.opened.store(1, Ordering::SeqCst);
    }

    /// Whether job 1 waited for 1,000,000 looks, and job 2 was not run, or its gate not opened.
    pub fn gave_up(&self) -> bool {
        self.gave_up.load(Ordering::SeqCst) == 1
    }
}

impl Gate for Hearing {
    fn before(&self, number: u64) {
        let count = match number {
            1 => &self.first.before,
            2 => &self.second.before,
            _ => &self.others,
        };
        count.fetch_add(1, Ordering::SeqCst);
        if self.waits && number == 1 {
            let is_run = saw(&self.second.after, 1_000_000);
            if !is_run || !saw(&self.opened, 1_000_000) {
                self.gave_up.store(1, Ordering::SeqCst);
            }
        }
    }

    fn after(&self, ran: Ran) {
        let count = match (ran.number, ran.answer) {
            (1, 1001) if self.first.is_between() => &self.first.after,
            (2, 1002) if self.second.is_between() => &self.second.after,
            _ => &self.others,
        };
        count.fetch_add(1, Ordering::SeqCst);
    }
}
