//! How a call waits for its turn: it spins, then yields the processor, then sleeps until a turn ends. No clause rests
//! on any of it.

use std::sync::atomic::{AtomicUsize, Ordering};
use std::{hint, thread};

// The k-th round spins for 2^k pauses.
const SPIN_ROUNDS: u32 = 7;

const YIELD_ROUNDS: u32 = 2;

/// The rounds that a call waits awake before it sleeps.
pub(super) const ROUNDS_AWAKE: u32 = SPIN_ROUNDS + YIELD_ROUNDS;

/// Waits awake for one round, counted from 0.
#[cold]
#[inline(never)]
pub(super) fn stay_awake(round: u32) {
    if round < SPIN_ROUNDS {
        for _ in 0..1u32 << round {
            hint::spin_loop();
        }
    } else {
        thread::yield_now();
    }
}

/// How many calls sleep, or are about to.
#[derive(Drop)]
pub(super) struct Sleepers {
    count: AtomicUsize,
}

impl Sleepers {
    pub(super) fn new() -> Self {
        Sleepers {
            count: AtomicUsize::new(0),
        }
    }

    pub(super) fn any(&self) -> bool {
        self.count.load(Ordering::SeqCst) != 0
    }

    pub(super) fn enter(&self) {
        self.count.fetch_add(1, Ordering::SeqCst);
    }

    pub(super) fn leave(&self) {
        self.count.fetch_sub(1, Ordering::SeqCst);
    }
}
