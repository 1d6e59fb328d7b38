//! What is set otherwise than usual.
ghost use Rattle.std.specs.Prelude.{◌≡◌};
ghost use Rattle.std.specs.Option.{option_map};
ghost use Rattle.simplex_script.specs.declared.change.Change.TheVariants as changes;
ghost use Rattle.simplex_names.specs.Numbers as numbers;
ghost use Rattle.simplex_script.specs.Names as names;
ghost use Rattle.simplex_script.specs.Settings as said;

use crate::change::{Change, Setting};
use crate::names::verdict_of;
use simplex_names::number_of;
use simplex_transcript::Setup;
use simplex_types::ForwardPolicy;

// An item that is a number.
fn setting_of(name: &str) -> Option<Setting>
    ensures { result ≡ said.setting_of name.now }
{
    match name {
        "epoch" => Some(Setting::Epoch),
        "key_base" => Some(Setting::KeyBase),
        "term" => Some(Setting::Term),
        "lookahead" => Some(Setting::Lookahead),
        "leader_timeout" => Some(Setting::LeaderTimeout),
        "certification_timeout" => Some(Setting::CertificationTimeout),
        "retry" => Some(Setting::Retry),
        "stall" => Some(Setting::Stall),
        "retention" => Some(Setting::Retention),
        "mailbox" => Some(Setting::Mailbox),
        "fetch_timeout" => Some(Setting::FetchTimeout),
        "fetch_retry" => Some(Setting::FetchRetry),
        _ => None,
    }
}

fn number_change(name: &str, value: &str) -> Option<Change>
    ensures { result ≡ said.number_with (said.setting_of name.now) (numbers.number_of value.now) }
{
    let setting = setting_of(name)?;
    let value = number_of(value)?;
    Some(Change::Number(setting, value))
}

fn forward_of(word: &str) -> Option<ForwardPolicy>
    ensures { result ≡ said.forward_of word.now }
{
    match word {
        "disabled" => Some(ForwardPolicy::Disabled),
        "voters" => Some(ForwardPolicy::SilentVoters),
        "leader" => Some(ForwardPolicy::SilentLeader),
        _ => None,
    }
}

fn track_change(value: &str) -> Option<Change>
    ensures { result ≡ option_map (λ it. changes.Track it) (names.verdict_of value.now) }
{
    let value = verdict_of(value)?;
    Some(Change::Track(value))
}

fn handoff_change(value: &str) -> Option<Change>
    ensures { result ≡ option_map (λ it. changes.Handoff it) (names.verdict_of value.now) }
{
    let value = verdict_of(value)?;
    Some(Change::Handoff(value))
}

fn forward_change(value: &str) -> Option<Change>
    ensures { result ≡ option_map (λ it. changes.Forward it) (said.forward_of value.now) }
{
    let value = forward_of(value)?;
    Some(Change::Forward(value))
}

/// What a name and a value set.
pub(crate) fn change_of(name: &str, value: &str) -> Option<Change>
    ensures { result ≡ said.change_of name.now value.now }
{
    match name {
        "track" => track_change(value),
        "handoff" => handoff_change(value),
        "forward" => forward_change(value),
        _ => number_change(name, value),
    }
}

// Sets an item that is a number.
fn set_number(setup: &mut Setup, setting: Setting, value: u64)
    ensures { setup.new ≡ said.with_number setup.old setting value }
{
    match setting {
        Setting::Epoch => setup.epoch = value,
        Setting::KeyBase => setup.key_base = value,
        Setting::Term => setup.term = value,
        Setting::Lookahead => setup.lookahead = value,
        Setting::LeaderTimeout => setup.leader_timeout = value,
        Setting::CertificationTimeout => setup.certification_timeout = value,
        Setting::Retry => setup.retry = value,
        Setting::Stall => setup.stall = Some(value),
        Setting::Retention => setup.retention = value,
        Setting::Mailbox => setup.mailbox = value,
        Setting::FetchTimeout => setup.fetch_timeout = value,
        Setting::FetchRetry => setup.fetch_retry = value,
    }
}

/// Changes the setup.
pub(crate) fn change(setup: &mut Setup, change: Change)
    ensures { setup.new ≡ said.changed setup.old change }
{
    match change {
        Change::Number(setting, value) => set_number(setup, setting, value),
        Change::Track(value) => setup.track = value,
        Change::Handoff(value) => setup.handoff = value,
        Change::Forward(value) => setup.forward = value,
    }
}
