//! Choices by chance, the same for the same seed.

use rand_core::{Rng, SeedableRng};
use rand_xoshiro::SplitMix64;

#[derive(Drop)]
pub(crate) struct Chance {
    random: SplitMix64,
}

impl Chance {
    pub fn new(seed: u64) -> Chance {
        Chance {
            random: SplitMix64::seed_from_u64(seed),
        }
    }

    /// A number below this one; 0 where that is 0.
    pub fn below(&mut self, bound: u64) -> u64 {
        self.random.next_u64() % bound.max(1)
    }

    /// Whether that came which comes once in so many times.
    pub fn comes_once_in(&mut self, times: u64) -> bool {
        self.below(times) == 0
    }

    /// Any number of 64 bits.
    pub fn any(&mut self) -> i64 {
        self.random.next_u64().cast_signed()
    }
}
