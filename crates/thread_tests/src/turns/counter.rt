//! The smallest machine.

use ref_turn::Machine;

/// A count. A step is what to add, the reply is the count before it.
#[derive(Debug, Drop, PartialEq, Eq)]
pub struct Counter {
    pub count: u64,
}

impl Machine for Counter {
    ghost use Rattle.std.specs.Prelude.{◌≡◌, ℕ, ◌+◌, ◌%◌, ◌^◌};
    ghost use Rattle.std.proofs.Common.{refl, ap, ◌∙◌};

    type Step = u64;

    type Reply = u64;

    type Frame = u64;

    ghost State = { ℕ };

    ghost stands_for = { λ m x. m.count ≡ x };

    ghost first_state = { λ start. start };

    ghost steps_to = { λ x s r y. (r ≡ x) × (y ≡ (x + s) % 2 ^ 64) };

    ghost acts = { λ m s r n. (r ≡ m.count) × (n.count ≡ (m.count + s) % 2 ^ 64) };

    fn apply(&mut self, step: u64) -> u64 {
        let before = self.count;
        self.count = before.wrapping_add(step);
        before
    }

    ghost follows = { λ m n s r did x is.
        (n.count, (did.0 ∙ is, did.1 ∙ ap (λ z. (z + s) % 2 ^ 64) is), refl) };
}
