//! Messages taken into a digest without being spelled in memory.
ghost use Rattle.std.specs.Prelude.{◌≡◌, ◌++◌, ℕ, List};
ghost use Rattle.simplex_wire.specs.Number.{varint};
ghost use Rattle.simplex_wire.specs.Message.{round, proposal};
ghost use Rattle.simplex_types.specs.Keyed.{subject_bytes};
ghost use Rattle.simplex_types.specs.Genesis.{genesis_of};

use sha2::{Digest as Hash, Sha256};
use simplex_values::{Digest, Epoch, Proposal, Round, Subject};

/// Takes the number's spelling into the digest.
pub fn absorb_number<D: Hash>(hasher: &mut D, number: u64)
    ensures { (m : List ℕ) → D.holds hasher.old m → D.holds hasher.new (m ++ varint number) }
{
    let mut rest = number;
    while rest >= 128 {
        hasher.update([(rest % 128) as u8 + 128]);
        rest /= 128;
    }
    hasher.update([rest as u8]);
}

#[tactic(auto, using(crate::proofs::Spellings::round_spelling))]
fn absorb_round<D: Hash>(hasher: &mut D, taken: &Round)
    ensures { (m : List ℕ) → D.holds hasher.old m
        → D.holds hasher.new (m ++ round.spelling taken.now) }
{
    absorb_number(hasher, taken.epoch.0);
    absorb_number(hasher, taken.view.0);
}

#[tactic(auto, using(crate::proofs::Spellings::proposal_spelling))]
fn absorb_proposal<D: Hash>(hasher: &mut D, taken: &Proposal)
    ensures { (m : List ℕ) → D.holds hasher.old m
        → D.holds hasher.new (m ++ proposal.spelling taken.now) }
{
    absorb_round(hasher, &taken.round);
    absorb_number(hasher, taken.parent.0);
    hasher.update(taken.payload.0);
}

/// Takes the subject's bytes into the digest: those that are signed.
pub(crate) fn absorb_subject<D: Hash>(hasher: &mut D, subject: &Subject)
    ensures { (m : List ℕ) → D.holds hasher.old m
        → D.holds hasher.new (m ++ subject_bytes subject.now) }
{
    match subject {
        Subject::Notarize(proposal) => {
            hasher.update([0]);
            absorb_proposal(hasher, proposal);
        }
        Subject::Nullify(round) => {
            hasher.update([1]);
            absorb_round(hasher, round);
        }
        Subject::Finalize(proposal) => {
            hasher.update([2]);
            absorb_proposal(hasher, proposal);
        }
    }
}

/// The genesis digest of an epoch.
#[tactic(auto, unfolding(crate::specs::Genesis::genesis_of))]
pub fn genesis(epoch: Epoch) -> Digest
    ensures { result ≡ genesis_of epoch }
{
    let mut hasher = Sha256::new();
    hasher.update([7]);
    hasher.update(b"genesis");
    absorb_number(&mut hasher, epoch.0);
    Digest(hasher.finalize())
}
