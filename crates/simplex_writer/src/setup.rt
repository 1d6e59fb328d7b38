//! Writes a setup: an object of eighteen members, in four parts.
ghost use Rattle.std.specs.Prelude.{◌≡◌, IfOk, string_bytes};
ghost use Rattle.simplex_writer.specs.Setups as setups;

use crate::list::{Written, written_list};
use crate::names::{flag_name, forward_name};
use simplex_transcript::{MemberKind, Setup, SetupRound};
use simplex_types::{SkipBudget, SkipPolicy};
use std::alloc::{AllocError, Global};

impl Written for MemberKind {
    ghost text_of = { setups.kind_text };

    fn written(&self, alloc: Global) -> Result<String, AllocError> {
        match self {
            MemberKind::Honest => String::from_str(alloc, "\"honest\""),
            MemberKind::Silent => String::from_str(alloc, "\"silent\""),
            MemberKind::Conflicter => String::from_str(alloc, "\"conflicter\""),
            MemberKind::Equivocator => String::from_str(alloc, "\"equivocator\""),
            MemberKind::Impersonator => String::from_str(alloc, "\"impersonator\""),
            MemberKind::Nuller => String::from_str(alloc, "\"nuller\""),
            MemberKind::NullifyOnly => String::from_str(alloc, "\"nullify_only\""),
            MemberKind::Outdated(views) => format!(in alloc; "{{\"outdated\":{views}}}"),
            MemberKind::Reconfigurer => String::from_str(alloc, "\"reconfigurer\""),
            MemberKind::Corrupt => String::from_str(alloc, "\"corrupt\""),
            MemberKind::Unrecovering => String::from_str(alloc, "\"unrecovering\""),
            MemberKind::Twin => String::from_str(alloc, "\"twin\""),
        }
    }
}

impl Written for SetupRound {
    ghost text_of = { setups.round_text };

    fn written(&self, alloc: Global) -> Result<String, AllocError> {
        let leader = self.leader;
        let primary = self.primary;
        let secondary = self.secondary;
        format!(in alloc; "{{\"leader\":{leader},\"primary\":{primary},\"secondary\":{secondary}}}")
    }
}

// A number, or null.
fn limit_text(alloc: Global, limit: Option<u64>) -> Result<String, AllocError>
    ensures { IfOk result (λ text. string_bytes text ≡ setups.limit_text limit) }
{
    match limit {
        None => String::from_str(alloc, "null"),
        Some(limit) => format!(in alloc; "{limit}"),
    }
}

fn budget_text(alloc: Global, budget: &SkipBudget) -> Result<String, AllocError>
    ensures { IfOk result (λ text. string_bytes text ≡ setups.budget_text budget.now) }
{
    match budget {
        SkipBudget::Fixed(views) => format!(in alloc; "{views}"),
        SkipBudget::Participants => String::from_str(alloc, "\"participants\""),
    }
}

fn skip_text(alloc: Global, skip: &SkipPolicy) -> Result<String, AllocError>
    ensures { IfOk result (λ text. string_bytes text ≡ setups.skip_text skip.now) }
{
    match skip {
        SkipPolicy::Disabled => String::from_str(alloc, "null"),
        SkipPolicy::Enabled { timeout, budget } => {
            let budget = budget_text(alloc, budget)?;
            let budget = budget.as_str();
            format!(in alloc; "{{\"timeout\":{timeout},\"budget\":{budget}}}")
        }
    }
}

// Who takes part, and in which terms, by the text of the members.
fn committee_of(alloc: Global, setup: &Setup, members: &str) -> Result<String, AllocError>
    ensures { IfOk result (λ text. string_bytes text ≡ setups.committee_of setup.now members.now) }
{
    let epoch = setup.epoch;
    let key_base = setup.key_base;
    let term = setup.term;
    let lookahead = setup.lookahead;
    format!(in alloc;
        "\"epoch\":{epoch},\"key_base\":{key_base},\"members\":{members},\"term\":{term},\"lookahead\":{lookahead}"
    )
}

// Who takes part, and in which terms.
fn committee_text(alloc: Global, setup: &Setup) -> Result<String, AllocError>
    ensures { IfOk result (λ text. string_bytes text ≡ setups.committee_text setup.now) }
{
    let members = written_list(alloc, ",", setup.members.as_slice())?;
    committee_of(alloc, setup, members.as_str())
}

// How long things last.
fn timing_text(alloc: Global, setup: &Setup) -> Result<String, AllocError>
    ensures { IfOk result (λ text. string_bytes text ≡ setups.timing_text setup.now) }
{
    let leader = setup.leader_timeout;
    let certification = setup.certification_timeout;
    let retry = setup.retry;
    let stall = limit_text(alloc, setup.stall)?;
    let stall = stall.as_str();
    let retention = setup.retention;
    format!(in alloc;
        "\"leader_timeout\":{leader},\"certification_timeout\":{certification},\"retry\":{retry},\"stall\":{stall},\"retention\":{retention}"
    )
}

// What a member does beyond the rules.
fn policies_text(alloc: Global, setup: &Setup) -> Result<String, AllocError>
    ensures { IfOk result (λ text. string_bytes text ≡ setups.policies_text setup.now) }
{
    let skip = skip_text(alloc, &setup.skip)?;
    let skip = skip.as_str();
    let forward = forward_name(setup.forward);
    let mailbox = setup.mailbox;
    let track = flag_name(setup.track);
    let handoff = flag_name(setup.handoff);
    format!(in alloc;
        "\"skip\":{skip},\"forward\":\"{forward}\",\"mailbox\":{mailbox},\"track\":{track},\"handoff\":{handoff}"
    )
}

// Fetching, and the scripted rounds.
fn fetching_text(alloc: Global, setup: &Setup) -> Result<String, AllocError>
    ensures { IfOk result (λ text. string_bytes text ≡ setups.fetching_text setup.now) }
{
    let timeout = setup.fetch_timeout;
    let retry = setup.fetch_retry;
    let scenario = written_list(alloc, ",", setup.scenario.as_slice())?;
    let scenario = scenario.as_str();
    format!(in alloc; "\"fetch_timeout\":{timeout},\"fetch_retry\":{retry},\"scenario\":{scenario}")
}

/// A setup.
pub(crate) fn setup_text(alloc: Global, setup: &Setup) -> Result<String, AllocError>
    ensures { IfOk result (λ text. string_bytes text ≡ setups.setup_text setup.now) }
{
    let committee = committee_text(alloc, setup)?;
    let committee = committee.as_str();
    let timing = timing_text(alloc, setup)?;
    let timing = timing.as_str();
    let policies = policies_text(alloc, setup)?;
    let policies = policies.as_str();
    let fetching = fetching_text(alloc, setup)?;
    let fetching = fetching.as_str();
    format!(in alloc; "{{{committee},{timing},{policies},{fetching}}}")
}
