//! What is drawn.
ghost use Rattle.std.specs.Prelude.{◌<◌};

use rand_chacha::ChaCha8Rng;
use rand_core::{Rng, SeedableRng};
use simplex_types::Digest;

/// A source of random words.
#[derive(Drop)]
pub(crate) struct Luck {
    random: ChaCha8Rng,
}

impl Luck {
    /// The words of a seed: its eight bytes, the highest first, and zeros are the key.
    pub(crate) fn new(seed: u64) -> Luck {
        let mut key = [0; 32];
        key[0..8].copy_from_slice(&seed.to_be_bytes());
        Luck {
            random: ChaCha8Rng::from_seed(key),
        }
    }

    /// Whether it happens this time, where it does in so many of 100.
    pub(crate) fn strikes(&mut self, chance: u64) -> bool {
        chance > 0 && self.random.next_u64() % 100 < chance
    }

    /// A number below this one, or 0.
    pub(crate) fn below(&mut self, count: usize) -> usize
        ensures { 0 < count → result < count }
    {
        if count == 0 {
            return 0;
        }
        (self.random.next_u64() % count as u64) as usize
    }

    /// A payload of random bytes.
    pub(crate) fn payload(&mut self) -> Digest {
        let mut bytes = [0; 32];
        self.random.fill_bytes(&mut bytes);
        Digest(bytes)
    }
}
