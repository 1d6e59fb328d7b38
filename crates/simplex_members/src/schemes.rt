//! How members sign, and what they draw.
ghost use Rattle.std.specs.Prelude.{◌≡◌, ◌<◌, length, IsNone, IfOk, Some};
ghost use Rattle.std.specs.Int.{to_be_bytes};
ghost use Rattle.model_faults.specs.Words.{member_seed};
ghost use Rattle.model_run.specs.Kinds as kinds;
ghost use Rattle.model_run.specs.Members.{kind_of};
ghost use Rattle.model_run.specs.Mocks.{words_for};
ghost use Rattle.model_run.specs.Setups as setups;
ghost use Rattle.simplex_mocks.specs.Drawing.{words_left};

use rand_chacha::ChaCha8Rng;
use rand_core::SeedableRng;
use simplex_transcript::{MemberKind, Setup};
use simplex_types::{Keyed, Participant};
use std::alloc::{AllocError, Global};

/// Whether there is such a member, and it runs an engine.
pub fn has_engine(setup: &Setup, member: Participant) -> bool
    ensures { result ≡ kinds.runs_engine setup.now member }
{
    match setup.members.as_slice().get(member.0 as usize) {
        Some(kind) => matches!(
            kind,
            MemberKind::Honest | MemberKind::Corrupt | MemberKind::Unrecovering | MemberKind::Twin
        ),
        None => false,
    }
}

/// The member's kind. Behind the last member it is honest.
pub(crate) fn kind_of(setup: &Setup, member: Participant) -> MemberKind
    ensures { result ≡ kind_of setup.now member }
{
    let kind = setup.members.as_slice().get(member.0 as usize);
    kind.copied().unwrap_or(MemberKind::Honest)
}

/// The scheme of the member's key. [one-type-of-engine]
#[tactic(auto, using(crate::proofs::Good::good))]
pub(crate) fn scheme_of(
    alloc: Global,
    setup: &Setup,
    member: Participant,
) -> Result<Keyed, AllocError>
    requires good { IsNone (setups.first_bad setup.now) }
    requires below { member < length setup.now.members }
    ensures { IfOk result (λ scheme. (scheme.key_base ≡ setup.now.key_base)
        × (scheme.participants ≡ length setup.now.members) × (scheme.me ≡ Some member)) }
{
    let members = setup.members.len() as u32;
    Keyed::new(alloc, setup.key_base, members, Some(member))
}

/// The generator of the member's random words.
#[tactic(auto, using(crate::proofs::Seeds::seeded_words))]
pub(crate) fn random_of(setup: &Setup, member: Participant) -> ChaCha8Rng
    ensures { words_left result ≡ words_for setup.now member }
{
    ChaCha8Rng::from_seed(seed_of(setup.key_base, member))
}

// The seed of the member's generator.
#[tactic(auto, unfolding(model_faults::specs::Words::member_seed))]
fn seed_of(key_base: u64, member: Participant) -> [u8; 32]
    ensures { result ≡ member_seed key_base member }
{
    let mut seed = [0; 32];
    seed[0..8].copy_from_slice(&key_base.to_be_bytes());
    seed[8..12].copy_from_slice(&member.0.to_be_bytes());
    seed
}
