//! The gate behind which the threads of a stress run wait for one another.

use std::sync::{Condvar, Mutex, Wait};

/// What threads wait for that are to begin together, or not at all.
#[derive(Drop)]
pub(crate) struct Gate {
    verdict: Mutex<Verdict>,
    came: Condvar,
}

/// Whether those that wait are to begin.
#[derive(Clone, Copy, PartialEq, Eq)]
enum Verdict {
    Awaited,
    Begin,
    GiveUp,
}

impl Gate {
    /// A gate that is not open. Takes no memory.
    pub(crate) fn new() -> Self {
        Gate {
            verdict: Mutex::new(Verdict::Awaited),
            came: Condvar::new(),
        }
    }

    /// Lets all threads pass, those that come later too. They begin where all of them are there, and else give up.
    pub(crate) fn open<R: Wait>(&self, rt: &R, are_all_there: bool) {
        *self.verdict.lock(rt) = if are_all_there {
            Verdict::Begin
        } else {
            Verdict::GiveUp
        };
        self.came.notify_all();
    }

    /// Waits until the gate is open. Whether to begin.
    pub(crate) fn pass<R: Wait>(&self, rt: &R) -> bool {
        let verdict = self.came.wait_while(rt, self.verdict.lock(rt), |verdict| {
            *verdict == Verdict::Awaited
        });
        *verdict == Verdict::Begin
    }
}
