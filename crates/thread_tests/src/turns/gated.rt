//! A machine whose step waits at a gate.

use ref_turn::Machine;
use std::alloc::Global;
use std::sync::Arc;
use std::sync::atomic::{AtomicU64, Ordering};
use std::thread;

/// A gate that a test opens.
#[derive(Drop)]
pub struct Gate {
    reached: AtomicU64,
    opened: AtomicU64,
}

impl Gate {
    pub fn new() -> Gate {
        Gate {
            reached: AtomicU64::new(0),
            opened: AtomicU64::new(0),
        }
    }

    /// Waits until a step is at the gate, for at most 1,000,000 looks. Whether one is.
    pub fn is_reached(&self) -> bool {
        saw(&self.reached, 1_000_000)
    }

    pub fn open(&self) {
        self.opened.store(1, Ordering::SeqCst);
    }

    fn pass(&self, looks: u64) {
        self.reached.store(1, Ordering::SeqCst);
        saw(&self.opened, looks);
    }
}

/// Whether the flag is 1, within so many looks.
pub fn saw(flag: &AtomicU64, looks: u64) -> bool {
    for _ in 0..looks {
        if flag.load(Ordering::SeqCst) == 1 {
            return true;
        }
        thread::yield_now();
    }
    false
}

/// A machine at a gate. A step is how often it looks whether the gate is open, the reply is the number of the step.
#[derive(Drop)]
pub struct Gated {
    pub gate: Arc<Gate, Global>,
    pub steps: u64,
}

impl Machine for Gated {
    ghost use Rattle.std.specs.Prelude.{◌≡◌, ℕ, ◌+◌, ◌%◌, ◌^◌};
    ghost use Rattle.std.proofs.Common.{refl, ap, ◌∙◌};

    type Step = u64;

    type Reply = u64;

    type Frame = u64;

    ghost State = { ℕ };

    ghost stands_for = { λ m x. m.steps ≡ x };

    ghost first_state = { λ start. start };

    ghost steps_to = { λ x s r y. (r ≡ x) × (y ≡ (x + 1) % 2 ^ 64) };

    ghost acts = { λ m s r n. (r ≡ m.steps) × (n.steps ≡ (m.steps + 1) % 2 ^ 64) };

    fn apply(&mut self, step: u64) -> u64 {
        self.gate.pass(step);
        let number = self.steps;
        self.steps = number.wrapping_add(1);
        number
    }

    ghost follows = { λ m n s r did x is.
        (n.steps, (did.0 ∙ is, did.1 ∙ ap (λ z. (z + 1) % 2 ^ 64) is), refl) };
}
