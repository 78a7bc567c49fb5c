//! How those that wait for a queue are told that something may have come. It is a hint: no clause rests on it.

use std::sync::atomic::{AtomicUsize, Ordering};
use std::sync::{Condvar, Mutex, Wait};
use std::time::{Clock, Duration};
use std::{hint, thread};

// After the k-th of these polls a caller spins for 2^k pauses.
const SPIN_ROUNDS: u32 = 7;

const YIELD_ROUNDS: u32 = 2;

// How often a caller polls before it listens.
const ROUNDS_AWAKE: u32 = SPIN_ROUNDS + YIELD_ROUNDS;

/// A bell. Who listens first and polls then hears what is rung after that poll.
#[derive(Drop)]
pub(crate) struct Bell {
    listeners: AtomicUsize,
    rings: Mutex<u64>,
    rung: Condvar,
}

impl Bell {
    pub(crate) fn new() -> Self {
        Bell {
            listeners: AtomicUsize::new(0),
            rings: Mutex::new(0),
            rung: Condvar::new(),
        }
    }

    /// A caller that is about to poll until something comes.
    pub(crate) fn caller(&self) -> Caller<'_> {
        Caller {
            bell: self,
            round: 0,
            heard: None,
        }
    }

    // Listens from now on. Answers how often it was rung so far.
    fn listen<R: Wait>(&self, rt: &R) -> u64 {
        self.listeners.fetch_add(1, Ordering::SeqCst);
        *self.rings.lock(rt)
    }

    // Listens no more.
    fn leave(&self) {
        self.listeners.fetch_sub(1, Ordering::SeqCst);
    }

    // Sleeps until it was rung more often than that, and listens no more.
    fn wait_past<R: Wait>(&self, rt: &R, heard: u64) {
        let rings = self
            .rung
            .wait_while(rt, self.rings.lock(rt), |rings| *rings == heard);
        drop(rings);
        self.leave();
    }

    // As `wait_past`, but for that long at most.
    fn wait_past_for<R: Wait + Clock>(&self, rt: &R, heard: u64, limit: Duration) {
        let (rings, _) = self
            .rung
            .wait_timeout_while(rt, self.rings.lock(rt), limit, |rings| *rings == heard);
        drop(rings);
        self.leave();
    }

    /// Wakes one of those that listen. Where nobody does it costs one load.
    pub(crate) fn ring<R: Wait>(&self, rt: &R) {
        if self.listeners.load(Ordering::SeqCst) > 0 {
            self.count(rt);
            self.rung.notify_one();
        }
    }

    /// Wakes all of them.
    pub(crate) fn ring_for_all<R: Wait>(&self, rt: &R) {
        self.count(rt);
        self.rung.notify_all();
    }

    fn count<R: Wait>(&self, rt: &R) {
        let mut rings = self.rings.lock(rt);
        *rings = rings.wrapping_add(1);
    }
}

/// A caller that polls until something comes. It waits awake for some rounds, in which it costs those that ring
/// nothing, and then sleeps until it is rung.
#[derive(Clone, Copy)]
pub(crate) struct Caller<'a> {
    bell: &'a Bell,
    round: u32,
    // How often the bell had been rung as the caller began to listen, where it does.
    heard: Option<u64>,
}

impl Caller<'_> {
    /// The waiter is about to poll. If it will sleep after that, it listens first, so that nothing that comes after the
    /// poll is slept through.
    pub(crate) fn begin_poll<R: Wait>(&mut self, rt: &R) {
        if self.round >= ROUNDS_AWAKE {
            self.heard = Some(self.bell.listen(rt));
        }
    }

    /// The waiter has polled, and nothing had come: it waits.
    pub(crate) fn wait<R: Wait>(&mut self, rt: &R) {
        if let Some(heard) = self.heard_or_awake() {
            self.bell.wait_past(rt, heard);
        }
    }

    /// As `wait`, but for that long at most.
    pub(crate) fn wait_for<R: Wait + Clock>(&mut self, rt: &R, limit: Duration) {
        if let Some(heard) = self.heard_or_awake() {
            self.bell.wait_past_for(rt, heard, limit);
        }
    }

    // Where it listens: how often the bell had been rung as it began to, and its rounds begin anew. Else it stays awake
    // for a round.
    fn heard_or_awake(&mut self) -> Option<u64> {
        let heard = self.heard.take();
        if heard.is_some() {
            self.round = 0;
        } else {
            self.stay_awake();
        }
        heard
    }

    // A round awake, each longer than the one before.
    fn stay_awake(&mut self) {
        if self.round < SPIN_ROUNDS {
            for _ in 0..1u32 << self.round {
                hint::spin_loop();
            }
        } else {
            thread::yield_now();
        }
        self.round = self.round.saturating_add(1);
    }

    /// The waiter has polled, and goes.
    pub(crate) fn leave(self) {
        if self.heard.is_some() {
            self.bell.leave();
        }
    }
}
