//! Which item of a setup breaks its limit.
ghost use Rattle.std.specs.Prelude.{◌≡◌};
ghost use Rattle.model_run.specs.Setups as setups;
ghost use Rattle.model_run.specs.Run as runs;

use crate::scripts::are_rounds;
use simplex_transcript::{Event, Field, MemberKind, Setup};
use simplex_types::SkipPolicy;

/// The longest time that a setup may have, in milliseconds.
const LONGEST: u64 = 1 << 62;

/// The most views of a term, of a lookahead, and below the last final one.
const MOST_VIEWS: u64 = 1 << 32;

/// Whether there are no more events than may be: at most 2^20, and at most 2^25 events times members.
/// [limits-of-a-run]
pub fn are_few(setup: &Setup, events: &[Event]) -> bool
    ensures { result ≡ runs.are_few setup.now events.now }
{
    let members = setup.members.len() as u128;
    let count = events.len() as u128;
    count <= 1 << 20 && members * count <= 1 << 25
}

/// The first item of the setup that breaks its limit, but for the number of events.
#[tactic(auto, unfolding(model_run::specs::Setups::first_bad))]
pub fn first_bad(setup: &Setup) -> Option<Field>
    ensures { result ≡ setups.first_bad setup.now }
{
    let members = setup.members.len() as u64;
    if !is_within(1, most_members(setup), members) {
        return Some(Field::Members);
    }
    if faulty_in(setup.members.as_slice()) as u64 > members.saturating_sub(1) / 3 {
        return Some(Field::Faulty);
    }
    if setup.epoch == u64::MAX {
        return Some(Field::Epoch);
    }
    if !is_within(1, MOST_VIEWS, setup.term) {
        return Some(Field::Term);
    }
    if setup.lookahead > MOST_VIEWS {
        return Some(Field::Lookahead);
    }
    if !is_time(setup.leader_timeout) || setup.leader_timeout > setup.certification_timeout {
        return Some(Field::LeaderTimeout);
    }
    if !is_time(setup.certification_timeout) {
        return Some(Field::CertificationTimeout);
    }
    if !is_time(setup.retry) {
        return Some(Field::Retry);
    }
    if !is_stall(setup.certification_timeout, setup.stall) {
        return Some(Field::Stall);
    }
    if !is_within(1, MOST_VIEWS, setup.retention) {
        return Some(Field::Retention);
    }
    if !is_skip(&setup.skip) {
        return Some(Field::Skip);
    }
    if !is_within(1, 4096, setup.mailbox) {
        return Some(Field::Mailbox);
    }
    if !is_time(setup.fetch_timeout) {
        return Some(Field::FetchTimeout);
    }
    if setup.fetch_retry > LONGEST {
        return Some(Field::FetchRetry);
    }
    if !are_rounds(members as u32, setup.scenario.as_slice()) {
        return Some(Field::Scenario);
    }
    None
}

fn is_within(least: u64, most: u64, value: u64) -> bool
    ensures { result ≡ setups.is_within least most value }
{
    least <= value && value <= most
}

fn is_time(ms: u64) -> bool
    ensures { result ≡ setups.is_time ms }
{
    is_within(1, LONGEST, ms)
}

// Fewer where twins follow a script.
fn most_members(setup: &Setup) -> u64
    ensures { result ≡ setups.most_members setup.now }
{
    if setup.scenario.is_empty() { 256 } else { 64 }
}

fn faulty_in(members: &[MemberKind]) -> usize
    ensures { result ≡ setups.faulty_in members.now }
{
    members.iter().filter(|kind| is_faulty(kind)).count()
}

fn is_faulty(kind: &MemberKind) -> bool
    ensures { result ≡ setups.is_faulty kind.now }
{
    !matches!(kind, MemberKind::Honest)
}

fn is_stall(certification_timeout: u64, stall: Option<u64>) -> bool
    ensures { result ≡ setups.is_stall certification_timeout stall }
{
    match stall {
        None => true,
        Some(ms) => certification_timeout < ms && ms <= LONGEST,
    }
}

fn is_skip(skip: &SkipPolicy) -> bool
    ensures { result ≡ setups.is_skip skip.now }
{
    match skip {
        SkipPolicy::Disabled => true,
        SkipPolicy::Enabled { timeout, .. } => is_time(*timeout),
    }
}
