//! Random words, and digests of them.
ghost use Rattle.std.specs.Prelude.{◌≡◌, ◌+◌, ℕ};
ghost use Rattle.rand_core.specs.Steps.{stream_of, steps_u32};
ghost use Rattle.rand_chacha.specs.ChaCha.{next_word};
ghost use Rattle.model_faults.specs.Words.{Words, Draws, words_of, list_seed};

use rand_chacha::ChaCha8Rng;
use rand_core::{Rng, SeedableRng};

/// The generator of the number's words.
#[tactic(auto, using(model_faults::proofs::Drawing::seed_draws))]
pub fn random_of(number: u64) -> ChaCha8Rng
    ensures { Draws (stream_of (steps_u32 (next_word 4)) result) (words_of (list_seed number)) 0 }
{
    ChaCha8Rng::from_seed(seed_of(number))
}

#[tactic(auto, unfolding(model_faults::specs::Words::list_seed))]
fn seed_of(number: u64) -> [u8; 32]
    ensures { result ≡ list_seed number }
{
    let mut seed = [0; 32];
    seed[0..8].copy_from_slice(&number.to_be_bytes());
    seed
}

/// The next word.
#[tactic(auto, using(model_faults::proofs::Drawing::drawn_word, model_faults::proofs::Drawing::drawn_later))]
pub fn draw<R: Rng>(random: &mut R) -> u64
    ensures word { (words : Words) (from : ℕ) → Draws (R.stream random.old) words from
        → result ≡ words from }
    ensures later { (words : Words) (from : ℕ) → Draws (R.stream random.old) words from
        → Draws (R.stream random.new) words (from + 1) }
{
    random.next_u64()
}
