//! When the current view expires, and what makes a view expire.
#![tactic(auto, unfolding(crate::specs::Opened::expiries))]

ghost use Rattle.std.specs.Option.{option_map_or};
ghost use Rattle.std.specs.Prelude.{◌≡◌, ◌<◌, ◌^◌, ◌∷◌, ◌++◌, true, List, OnOk};
ghost use Rattle.model_rules.specs.Known.{Made, Fact, Expired, Failed};
ghost use Rattle.model_rules.specs.Deadline.{is_inactivity, is_failure, expires, fails, triggered, deadline_of, sooner, own_moment, stall_moment, expiry_of};
ghost use Rattle.model_rules.specs.Views.{current_of};
ghost use Rattle.simplex_state.specs.Rounds.{round_of};
ghost use Rattle.model_rules.specs.Calls.{TriggerTimeout, VerificationFailed};
ghost use Rattle.simplex_state.specs.Stands.{StandsFor, Takes, Answers, Keeps};

use crate::rounds::{RoundRecord, put_round, round_at};
use crate::state::State;
use simplex_types::elector::Elector;
use simplex_values::{TimeoutReason, View};
use simplex_wire::Scheme;
use std::alloc::AllocError;

impl<S: Scheme + Drop, L: Elector + Drop> State<S, L> {
    /// Lets the view expire where it is current, or later where it failed ahead of time.
    pub fn trigger_timeout(
        &mut self,
        view: View,
        reason: TimeoutReason,
        now: u64,
    ) -> Result<(), AllocError>
        requires clock { now < 2 ^ 63 }
        ensures stands { OnOk result (Takes self.old self.new (TriggerTimeout view reason now)) }
    {
        self.trigger(view, reason, now)?;
        Ok(())
    }

    /// Takes it that the application did not verify the view's proposal.
    pub fn verification_failed(
        &mut self,
        view: View,
        reason: TimeoutReason,
        now: u64,
    ) -> Result<(), AllocError>
        requires clock { now < 2 ^ 63 }
        ensures stands { OnOk result (Takes self.old self.new
            (VerificationFailed view reason now)) }
    {
        self.trigger(view, reason, now)?;
        Ok(())
    }

    /// When the current view expires or its nullify is repeated, and why. Sums stop at the greatest u64,
    /// which the limits keep away.
    #[tactic(auto, unfolding(crate::specs::Opened::slots, model_rules::specs::Deadline::deadline_of, model_rules::specs::Deadline::first_deadline))]
    pub fn next_timeout(&self) -> (u64, TimeoutReason)
        ensures answer { Answers self.now (λ made known. deadline_of made known) result }
    {
        if let Some(at) = self.published {
            return (
                at.saturating_add(self.settings.timeout_retry),
                TimeoutReason::LeaderTimeout,
            );
        }
        let round = round_at(&self.rounds, self.progress.current.0);
        let timely = self.timely(&round);
        match self.expiry(&round) {
            None => timely,
            Some(expiry) => sooner(expiry, timely),
        }
    }

    /// The moment when the view expires in time: for want of a proposal, a certificate or a final view.
    #[tactic(auto, unfolding(crate::specs::Opened::slots, model_rules::specs::Deadline::own_moment, model_rules::specs::Deadline::stall_moment))]
    fn timely(&self, round: &RoundRecord) -> (u64, TimeoutReason)
        ensures { (made : Made) (known : List Fact)
            → Keeps self.now made known → round.now ≡ round_of known (current_of made known)
            → result ≡ option_map_or (sooner (own_moment made known)) (stall_moment made known)
            (own_moment made known) }
    {
        let entered = self.progress.entered;
        let own = match round.slot() {
            Some(_) => (
                entered.saturating_add(self.settings.certification_timeout),
                TimeoutReason::CertificationTimeout,
            ),
            None => (
                entered.saturating_add(self.settings.leader_timeout),
                TimeoutReason::LeaderTimeout,
            ),
        };
        match self.settings.terms.stall_timeout {
            None => own,
            Some(stall) => {
                let since = self.progress.term_entered.max(self.progress.finalized_at);
                sooner(
                    own,
                    (since.saturating_add(stall), TimeoutReason::StallTimeout),
                )
            }
        }
    }

    /// The expiry of the current view: as it happened, or on entry where the view had failed before.
    #[tactic(auto, unfolding(crate::specs::Opened::slots, model_rules::specs::Deadline::expiry_of))]
    fn expiry(&self, round: &RoundRecord) -> Option<(u64, TimeoutReason)>
        ensures { (made : Made) (known : List Fact) → Keeps self.now made known
            → round.now ≡ round_of known (current_of made known) → result ≡ expiry_of made known }
    {
        match round.expired {
            Some(expiry) => Some(expiry),
            None => match round.failed {
                Some(reason) => Some((self.progress.entered, reason)),
                None => None,
            },
        }
    }

    /// Lets the view expire, now or later.
    #[tactic(auto, unfolding(model_rules::specs::Deadline::triggered))]
    pub(crate) fn trigger(
        &mut self,
        view: View,
        reason: TimeoutReason,
        now: u64,
    ) -> Result<(), AllocError>
        ensures { OnOk result ((made : Made) (known : List Fact) → Keeps self.old made known
            → Keeps self.new made (triggered made known view reason now ++ known)) }
    {
        if self.expires(view, reason) {
            self.expire(view, reason, now)?;
        } else if self.fails(view, reason) {
            self.fail(view, reason)?;
        }
        Ok(())
    }

    /// Whether a trigger expires the view now.
    fn expires(&self, view: View, reason: TimeoutReason) -> bool
        ensures { (made : Made) (known : List Fact) → Keeps self.now made known
            → result ≡ expires made known view reason }
    {
        if view != self.progress.current {
            return false;
        }
        let round = round_at(&self.rounds, self.progress.current.0);
        if round.expired.is_some() || round.failed.is_some() {
            return false;
        }
        !is_inactivity(reason)
            || (round.slot().is_none() && self.progress.skipped < self.settings.skip_budget)
    }

    /// Whether a trigger expires the view later, as it becomes current.
    fn fails(&self, view: View, reason: TimeoutReason) -> bool
        ensures { (made : Made) (known : List Fact) → Keeps self.now made known
            → result ≡ fails made known view reason }
    {
        self.progress.current < view && is_failure(reason)
    }

    /// The view expires now. [first-expiry]
    fn expire(&mut self, view: View, reason: TimeoutReason, now: u64) -> Result<(), AllocError>
        ensures { OnOk result ((made : Made) (known : List Fact) → Keeps self.old made known
            → expires made known view reason ≡ true
            → Keeps self.new made (Expired view reason now ∷ known)) }
    {
        let mut round = round_at(&self.rounds, view.0);
        round.expired = round.expired.or(Some((now, reason)));
        put_round(&mut self.rounds, view.0, round)?;
        self.progress
            .skip(is_inactivity(reason), self.settings.skip_budget);
        Ok(())
    }

    /// The view expires as it becomes current.
    fn fail(&mut self, view: View, reason: TimeoutReason) -> Result<(), AllocError>
        ensures { OnOk result ((made : Made) (known : List Fact) → Keeps self.old made known
            → Keeps self.new made (Failed view reason ∷ known)) }
    {
        let mut round = round_at(&self.rounds, view.0);
        round.failed = round.failed.or(Some(reason));
        put_round(&mut self.rounds, view.0, round)
    }
}

/// The sooner moment, and the first where they tie.
fn sooner(a: (u64, TimeoutReason), b: (u64, TimeoutReason)) -> (u64, TimeoutReason)
    ensures { result ≡ sooner a b }
{
    if a.0 <= b.0 { a } else { b }
}

/// Whether the leader seems to be gone.
fn is_inactivity(reason: TimeoutReason) -> bool
    ensures { result ≡ is_inactivity reason }
{
    matches!(reason, TimeoutReason::Inactivity)
}

/// Whether the view itself failed, which counts ahead of time.
fn is_failure(reason: TimeoutReason) -> bool
    ensures { result ≡ is_failure reason }
{
    matches!(
        reason,
        TimeoutReason::MissingProposal
            | TimeoutReason::IgnoredProposal
            | TimeoutReason::InvalidProposal
            | TimeoutReason::FailedCertification
    )
}
