//! Payloads that are made.
ghost use Rattle.std.specs.Prelude.{◌≡◌};
ghost use Rattle.model_faults.specs.Payload.{payload_digest};

use sha2::{Digest as Hash, Sha256};
use simplex_types::{Digest, Round, absorb_number};

/// The digest of a payload's text: its round, the digest of its parent, and a word.
#[tactic(auto, using(simplex_types::proofs::Spellings::round_spelling))]
pub(crate) fn payload_digest(round: &Round, parent: &Digest, word: u64) -> Digest
    ensures { result ≡ payload_digest round.now parent.now word }
{
    let mut hasher = Sha256::new();
    absorb_number(&mut hasher, round.epoch.0);
    absorb_number(&mut hasher, round.view.0);
    hasher.update(parent.0);
    hasher.update(word.to_be_bytes());
    Digest(hasher.finalize())
}
