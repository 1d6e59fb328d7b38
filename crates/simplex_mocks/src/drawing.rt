//! Random words.
ghost use Rattle.std.specs.Prelude.{◌≡◌, ◌++◌, ◌+◌};
ghost use Rattle.std.specs.Int.{w64, to_be_bytes};
ghost use Rattle.model_faults.specs.Conflicter.{drawn_payload};
ghost use Rattle.simplex_mocks.specs.Drawing.{IsDrawn, Uses};

use rand_core::Rng;
use simplex_types::Digest;

/// The next word. [random-words-by-place]
#[tactic(auto, using(model_faults::proofs::Drawing::drawn_word, model_faults::proofs::Drawing::drawn_later))]
pub(crate) fn draw<R: Rng>(random: &mut R) -> u64
    ensures word { IsDrawn (R.stream random.old) (λ words from. words from) result }
    ensures later { Uses (R.stream random.old) (R.stream random.new) 1 }
{
    random.next_u64()
}

/// Three words.
#[tactic(auto, using(crate::proofs::Words::three_on, crate::proofs::Words::two_on))]
pub(crate) fn draw_three<R: Rng>(random: &mut R) -> (u64, u64, u64)
    ensures first { IsDrawn (R.stream random.old) (λ words from. words from) result.0 }
    ensures second { IsDrawn (R.stream random.old) (λ words from. words (from + 1)) result.1 }
    ensures third { IsDrawn (R.stream random.old) (λ words from. words (from + 2)) result.2 }
    ensures later { Uses (R.stream random.old) (R.stream random.new) 3 }
{
    let first = draw(random);
    let second = draw(random);
    (first, second, draw(random))
}

/// The four words as bytes, the highest byte of each first.
fn spread(a: u64, b: u64, c: u64, d: u64) -> [u8; 32]
    ensures { result ≡ to_be_bytes w64 a ++ to_be_bytes w64 b ++ to_be_bytes w64 c
        ++ to_be_bytes w64 d }
{
    let mut bytes = [0; 32];
    bytes[0..8].copy_from_slice(&a.to_be_bytes());
    bytes[8..16].copy_from_slice(&b.to_be_bytes());
    bytes[16..24].copy_from_slice(&c.to_be_bytes());
    bytes[24..32].copy_from_slice(&d.to_be_bytes());
    bytes
}

/// A payload of four words.
#[tactic(auto, unfolding(model_faults::specs::Conflicter::drawn_payload), using(crate::proofs::Words::four_on, crate::proofs::Words::four_words))]
pub(crate) fn draw_payload<R: Rng>(random: &mut R) -> Digest
    ensures value { IsDrawn (R.stream random.old) drawn_payload result }
    ensures later { Uses (R.stream random.old) (R.stream random.new) 4 }
{
    let first = draw(random);
    let second = draw(random);
    let third = draw(random);
    Digest(spread(first, second, third, draw(random)))
}
