//! What engines are made with.
ghost use Rattle.std.specs.Prelude.{◌≡◌, ◌<◌, ◌≤◌, ◌^◌, List, length, IfOk, IfSome, IsNone, None, Some};
ghost use Rattle.simplex_journal.specs.Journal.{Section};
ghost use Rattle.model_run.specs.Members as members;
ghost use Rattle.model_run.specs.Setting.{setting_of};
ghost use Rattle.model_run.specs.Setups as setups;
ghost use Rattle.model_run.specs.Wrapped.{behavior_of};
ghost use Rattle.simplex_engine.specs.Config.{first_bad};
ghost use Rattle.simplex_members.specs.NodeEngine.{made_with, IsSetUp};

use crate::electors::{NodeElector, elector_of};
use crate::schemes::{kind_of, scheme_of};
use simplex_engine::EngineConfig;
use simplex_mocks::wrapped::{Behavior, Scheme};
use simplex_transcript::{MemberKind, Setup};
use simplex_types::{Digest, Epoch, Finalization, Floor, Keep, Keyed, Participant, ViewDelta};
use std::alloc::{AllocError, Global};

/// The scheme of a node: its member's key, wrapped as its member's kind wants it.
pub type NodeScheme = Scheme<Keyed>;

/// What a node's engine is made with.
pub type NodeConfig = EngineConfig<NodeScheme, NodeElector>;

/// What the engine of a member is made with, where it starts at the floor and the digest is the payload of view 0.
/// Another kind than those with an engine makes that of an honest member.
#[tactic(auto, using(crate::proofs::Good::good))]
pub fn config_of(
    alloc: Global,
    setup: &Setup,
    genesis: Digest,
    member: Participant,
    floor: &Option<Finalization>,
) -> Result<NodeConfig, AllocError>
    requires good { IsNone (setups.first_bad setup.now) }
    requires below { member < length setup.now.members }
    ensures built { IfOk result (λ config. config.elector.fallback.members
        ≡ config.scheme.inner.participants) }
    ensures lookahead { IfOk result (λ config. config.elector.fallback.terms.lookahead ≤ 2 ^ 32) }
    ensures stall { IfOk result (λ config. IfSome config.elector.fallback.terms.stall_timeout
        (λ stall. (config.certification_timeout < stall) × (stall ≤ 2 ^ 62))) }
    ensures allowed { IfOk result (λ config. first_bad config ≡ None) }
    ensures made { IfOk result (λ config. (sections : List Section)
        → made_with config sections ≡ members.engine_of (setting_of setup.now genesis) member
        (members.floor_of genesis floor.now) sections) }
{
    let inner = scheme_of(alloc, setup, member)?;
    let scheme = Scheme::new(inner, behavior_of(kind_of(setup, member)));
    let elector = elector_of(alloc, setup)?;
    let floor = floor_at(alloc, genesis, floor)?;
    Ok(config_with(setup, genesis, scheme, elector, floor))
}

// With this genesis digest, this scheme, this elector and this floor.
#[tactic(auto, using(crate::proofs::Good::good))]
fn config_with(
    setup: &Setup,
    genesis: Digest,
    scheme: NodeScheme,
    elector: NodeElector,
    floor: Floor,
) -> NodeConfig
    requires { IsNone (setups.first_bad setup.now) }
    ensures setup { IsSetUp result (setting_of setup.now genesis) }
    ensures scheme { result.scheme ≡ scheme }
    ensures elector { result.elector ≡ elector }
    ensures floor { result.floor ≡ floor }
{
    EngineConfig {
        scheme,
        elector,
        genesis,
        floor,
        epoch: Epoch(setup.epoch),
        leader_timeout: setup.leader_timeout,
        certification_timeout: setup.certification_timeout,
        retry: setup.retry,
        retention: ViewDelta(setup.retention),
        skip: setup.skip,
        mailbox: setup.mailbox as u32,
        fetch_timeout: setup.fetch_timeout,
        fetch_retry: setup.fetch_retry,
        forward: setup.forward,
        track: setup.track,
        handoff: setup.handoff,
    }
}

// How the scheme of a member of this kind fails it.
fn behavior_of(kind: MemberKind) -> Behavior
    ensures { result ≡ behavior_of kind }
{
    match kind {
        MemberKind::Corrupt => Behavior::CorruptSignature,
        MemberKind::Unrecovering => Behavior::RecoveryFailure,
        _ => Behavior::Honest,
    }
}

// Where a start stands.
fn floor_at(
    alloc: Global,
    genesis: Digest,
    floor: &Option<Finalization>,
) -> Result<Floor, AllocError>
    ensures { IfOk result (λ at. at ≡ members.floor_of genesis floor.now) }
{
    match floor {
        None => Ok(Floor::Genesis(genesis)),
        Some(finalization) => Ok(Floor::Finalized(finalization.keep(alloc)?)),
    }
}
