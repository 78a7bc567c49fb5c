//! Draws by a generator of a seed.

ghost use Rattle.std.specs.Prelude.{◌<◌};

use rand_core::{Rng, SeedableRng};
use rand_pcg::Pcg32;

/// What draws. All that it draws follows from its seed.
#[derive(Drop)]
pub struct Dice {
    generator: Pcg32,
}

impl Dice {
    /// The dice of this seed.
    pub fn of(seed: u64) -> Self {
        Dice {
            generator: Pcg32::seed_from_u64(seed),
        }
    }

    /// A number below this one, or 0 where that is 0.
    pub fn below(&mut self, limit: u32) -> u32
        ensures { 0 < limit → result < limit }
    {
        self.generator.next_u32().checked_rem(limit).unwrap_or(0)
    }

    /// A number from 1 to this one.
    pub fn up_to(&mut self, most: u32) -> u32 {
        self.below(most).saturating_add(1)
    }

    /// True once in so many draws.
    pub fn is_one_in(&mut self, count: u32) -> bool {
        self.below(count) == 0
    }

    /// One of these, where there is one.
    pub fn one_of<T: Copy>(&mut self, items: &[T]) -> Option<T> {
        self.pick(items).copied()
    }

    /// A reference to one of these, where there is one.
    pub fn pick<'a, T>(&mut self, items: &'a [T]) -> Option<&'a T> {
        let count = u32::try_from(items.len()).unwrap_or(u32::MAX);
        items.get(self.below(count) as usize)
    }
}
