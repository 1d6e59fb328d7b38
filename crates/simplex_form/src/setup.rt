//! Reads a setup: an object of eighteen members, in four parts.
ghost use Rattle.std.specs.Prelude.{◌≡◌, IfOk};
ghost use Rattle.serde_json.specs.View.{view};
ghost use Rattle.simplex_form.specs.Setup.{outdated_of, kind_of, round_of, limit_of, budget_of, enabled_of, skip_of, forward_of, committee_of, timing_of, policies_of, fetching_of, joined, setup_of};

use crate::pieces::{FromData, flag_at, has_members, number_at, read_list, text_at};
use serde_json::Value;
use simplex_names::named_kind_of;
use simplex_transcript::{MemberKind, Setup, SetupRound};
use simplex_types::{ForwardPolicy, Sequence, SkipBudget, SkipPolicy};
use std::alloc::{AllocError, Global};

// Who takes part, and in which terms.
#[derive(Drop)]
struct Committee {
    epoch: u64,
    key_base: u64,
    members: Sequence<MemberKind>,
    term: u64,
    lookahead: u64,
}

// How long things last.
#[derive(Drop)]
struct Timing {
    leader_timeout: u64,
    certification_timeout: u64,
    retry: u64,
    stall: Option<u64>,
    retention: u64,
}

// What a member does beyond the rules.
#[derive(Drop)]
struct Policies {
    skip: SkipPolicy,
    forward: ForwardPolicy,
    mailbox: u64,
    track: bool,
    handoff: bool,
}

// Fetching, and the scripted rounds.
#[derive(Drop)]
struct Fetching {
    fetch_timeout: u64,
    fetch_retry: u64,
    scenario: Sequence<SetupRound>,
}

fn read_outdated(value: &Value) -> Option<MemberKind>
    ensures { result ≡ outdated_of (view value.now) }
{
    if !has_members(value, 1) {
        return None;
    }
    let views = number_at(value, "outdated")?;
    Some(MemberKind::Outdated(views))
}

fn read_kind(value: &Value) -> Option<MemberKind>
    ensures { result ≡ kind_of (view value.now) }
{
    match value.as_str() {
        Some(name) => named_kind_of(name),
        None => read_outdated(value),
    }
}

impl FromData for MemberKind {
    ghost of = { kind_of };

    fn read(_alloc: Global, value: &Value) -> Result<Option<MemberKind>, AllocError> {
        Ok(read_kind(value))
    }
}

fn read_round(value: &Value) -> Option<SetupRound>
    ensures { result ≡ round_of (view value.now) }
{
    if !has_members(value, 3) {
        return None;
    }
    let leader = number_at(value, "leader")?;
    let primary = number_at(value, "primary")?;
    let secondary = number_at(value, "secondary")?;
    Some(SetupRound {
        leader,
        primary,
        secondary,
    })
}

impl FromData for SetupRound {
    ghost of = { round_of };

    fn read(_alloc: Global, value: &Value) -> Result<Option<SetupRound>, AllocError> {
        Ok(read_round(value))
    }
}

fn read_limit(value: &Value) -> Option<Option<u64>>
    ensures { result ≡ limit_of (view value.now) }
{
    if value.is_null() {
        return Some(None);
    }
    let limit = value.as_u64()?;
    Some(Some(limit))
}

fn read_budget(value: &Value) -> Option<SkipBudget>
    ensures { result ≡ budget_of (view value.now) }
{
    match value.as_str() {
        Some("participants") => Some(SkipBudget::Participants),
        Some(_) => None,
        None => {
            let views = value.as_u64()?;
            Some(SkipBudget::Fixed(views))
        }
    }
}

fn read_enabled(value: &Value) -> Option<SkipPolicy>
    ensures { result ≡ enabled_of (view value.now) }
{
    if !has_members(value, 2) {
        return None;
    }
    let timeout = number_at(value, "timeout")?;
    let budget = read_budget(value.get("budget")?)?;
    Some(SkipPolicy::Enabled { timeout, budget })
}

fn read_skip(value: &Value) -> Option<SkipPolicy>
    ensures { result ≡ skip_of (view value.now) }
{
    if value.is_null() {
        return Some(SkipPolicy::Disabled);
    }
    read_enabled(value)
}

fn read_forward(name: &str) -> Option<ForwardPolicy>
    ensures { result ≡ forward_of name.now }
{
    match name {
        "disabled" => Some(ForwardPolicy::Disabled),
        "voters" => Some(ForwardPolicy::SilentVoters),
        "leader" => Some(ForwardPolicy::SilentLeader),
        _ => None,
    }
}

fn read_committee(alloc: Global, value: &Value) -> Result<Option<Committee>, AllocError>
    ensures { IfOk result (λ o. o ≡ committee_of (view value.now)) }
{
    let Some(epoch) = number_at(value, "epoch") else {
        return Ok(None);
    };
    let Some(key_base) = number_at(value, "key_base") else {
        return Ok(None);
    };
    let Some(list) = value.get("members") else {
        return Ok(None);
    };
    let Some(members) = read_list(alloc, list)? else {
        return Ok(None);
    };
    let Some(term) = number_at(value, "term") else {
        return Ok(None);
    };
    let Some(lookahead) = number_at(value, "lookahead") else {
        return Ok(None);
    };
    Ok(Some(Committee {
        epoch,
        key_base,
        members,
        term,
        lookahead,
    }))
}

fn read_timing(value: &Value) -> Option<Timing>
    ensures { result ≡ timing_of (view value.now) }
{
    let leader_timeout = number_at(value, "leader_timeout")?;
    let certification_timeout = number_at(value, "certification_timeout")?;
    let retry = number_at(value, "retry")?;
    let stall = read_limit(value.get("stall")?)?;
    let retention = number_at(value, "retention")?;
    Some(Timing {
        leader_timeout,
        certification_timeout,
        retry,
        stall,
        retention,
    })
}

fn read_policies(value: &Value) -> Option<Policies>
    ensures { result ≡ policies_of (view value.now) }
{
    let skip = read_skip(value.get("skip")?)?;
    let forward = read_forward(text_at(value, "forward")?)?;
    let mailbox = number_at(value, "mailbox")?;
    let track = flag_at(value, "track")?;
    let handoff = flag_at(value, "handoff")?;
    Some(Policies {
        skip,
        forward,
        mailbox,
        track,
        handoff,
    })
}

fn read_fetching(alloc: Global, value: &Value) -> Result<Option<Fetching>, AllocError>
    ensures { IfOk result (λ o. o ≡ fetching_of (view value.now)) }
{
    let Some(fetch_timeout) = number_at(value, "fetch_timeout") else {
        return Ok(None);
    };
    let Some(fetch_retry) = number_at(value, "fetch_retry") else {
        return Ok(None);
    };
    let Some(list) = value.get("scenario") else {
        return Ok(None);
    };
    let Some(scenario) = read_list(alloc, list)? else {
        return Ok(None);
    };
    Ok(Some(Fetching {
        fetch_timeout,
        fetch_retry,
        scenario,
    }))
}

// The setup of these parts.
fn join(committee: Committee, timing: Timing, policies: Policies, fetching: Fetching) -> Setup
    ensures { result ≡ joined committee timing policies fetching }
{
    Setup {
        epoch: committee.epoch,
        key_base: committee.key_base,
        members: committee.members,
        term: committee.term,
        lookahead: committee.lookahead,
        leader_timeout: timing.leader_timeout,
        certification_timeout: timing.certification_timeout,
        retry: timing.retry,
        stall: timing.stall,
        retention: timing.retention,
        skip: policies.skip,
        forward: policies.forward,
        mailbox: policies.mailbox,
        track: policies.track,
        handoff: policies.handoff,
        fetch_timeout: fetching.fetch_timeout,
        fetch_retry: fetching.fetch_retry,
        scenario: fetching.scenario,
    }
}

/// What the value says of a setup, if it is of the form.
pub fn read_setup(alloc: Global, value: &Value) -> Result<Option<Setup>, AllocError>
    ensures { IfOk result (λ o. o ≡ setup_of (view value.now)) }
{
    if !has_members(value, 18) {
        return Ok(None);
    }
    let Some(committee) = read_committee(alloc, value)? else {
        return Ok(None);
    };
    let Some(timing) = read_timing(value) else {
        return Ok(None);
    };
    let Some(policies) = read_policies(value) else {
        return Ok(None);
    };
    let Some(fetching) = read_fetching(alloc, value)? else {
        return Ok(None);
    };
    Ok(Some(join(committee, timing, policies, fetching)))
}
