//! The setup that a number makes.
#![tactic(auto, unfolding(crate::specs::Setup::setup_of))]

ghost use Rattle.std.specs.Prelude.{◌≡◌, IfOk};
ghost use Rattle.simplex_generator.specs.Setup as setups;

use simplex_transcript::{MemberKind, Setup};
use simplex_types::{ForwardPolicy, Sequence, SkipPolicy};
use std::alloc::{AllocError, Global};

/// Five honest members, one that nullifies and finalizes, and a twin without a script, with keys of this number.
pub fn setup_of(alloc: Global, number: u64) -> Result<Setup, AllocError>
    ensures { IfOk result (λ setup. setup ≡ setups.setup_of number) }
{
    let members = vec![in alloc;
        MemberKind::Honest,
        MemberKind::Honest,
        MemberKind::Honest,
        MemberKind::Honest,
        MemberKind::Honest,
        MemberKind::Nuller,
        MemberKind::Twin,
    ]?;
    Ok(Setup {
        epoch: 0,
        key_base: number,
        members: Sequence::from_vec(members),
        term: 3,
        lookahead: 2,
        leader_timeout: 1_000,
        certification_timeout: 2_000,
        retry: 500,
        stall: None,
        retention: 10,
        skip: SkipPolicy::Disabled,
        forward: ForwardPolicy::Disabled,
        mailbox: 64,
        track: false,
        handoff: true,
        fetch_timeout: 1_000,
        fetch_retry: 100,
        scenario: Sequence::new(alloc),
    })
}
