//! What one node knows, and which views matter to it.
#![tactic(auto, unfolding(crate::specs::Opened::views))]

ghost use Rattle.std.specs.Prelude.{◌≡◌, []};
ghost use Rattle.model_rules.specs.Known.{Made, has_nullified};
ghost use Rattle.model_rules.specs.Views.{last_finalized, current_of, least_active, admits_certificate, admits_vote};
ghost use Rattle.simplex_known.specs.Knows.{Knows, Answers, AreRulesOf};

use crate::covers::Covers;
use crate::proposals::{Proposals, no_proposals};
use crate::rounds::RoundRecord;
use crate::rules::Rules;
use simplex_state::Ranges;
use simplex_values::View;
use simplex_values::maps::empty_map;
use std::alloc::Global;
use std::collections::BTreeMap;

/// What one node knows since its start, as far as votes rest on it.
#[derive(Drop)]
pub struct Known {
    pub(crate) rules: Rules,
    /// The greatest view that is known to be final, or 0.
    pub(crate) last_finalized: View,
    /// The view that the node is in.
    pub(crate) current: View,
    /// What is known of each view.
    pub(crate) rounds: BTreeMap<u64, RoundRecord>,
    /// The views that the node gave up.
    pub(crate) given_up: Ranges,
    /// The views that nullifications cover.
    pub(crate) covers: Covers,
    /// The proposals that the node made itself.
    pub(crate) answered: Proposals,
    /// The proposals that the application verified.
    pub(crate) approved: Proposals,
}

impl Known {
    /// Of no facts.
    pub fn new(alloc: Global, rules: &Rules) -> Known
        ensures { (made : Made) → AreRulesOf made rules.now → Knows result made [] }
    {
        Known {
            rules: *rules,
            last_finalized: View(0),
            current: View(1),
            rounds: empty_map(alloc),
            given_up: Ranges::new(alloc),
            covers: Covers::new(alloc, rules.lookahead.length),
            answered: no_proposals(alloc),
            approved: no_proposals(alloc),
        }
    }

    /// The greatest view that is known to be final, or 0.
    pub fn last_finalized(&self) -> View
        ensures { Answers self.now (λ made known. last_finalized known) result }
    {
        self.last_finalized
    }

    /// The view that the node is in.
    pub fn current(&self) -> View
        ensures { Answers self.now current_of result }
    {
        self.current
    }

    /// The least view whose certificates are still added.
    pub fn least_active(&self) -> View
        ensures { Answers self.now least_active result }
    {
        self.last_finalized.saturating_sub(self.rules.retention)
    }

    /// Whether a certificate of the view is of use.
    pub fn admits_certificate(&self, view: View) -> bool
        ensures { Answers self.now (λ made known. admits_certificate made known view) result }
    {
        self.least_active() <= view
    }

    /// Whether a vote of the view is of use.
    pub fn admits_vote(&self, view: View) -> bool
        ensures { Answers self.now (λ made known. admits_vote made known view) result }
    {
        self.admits_certificate(view) && self.rules.lookahead.admits(self.current, view)
    }

    /// Whether the node gave the view up.
    pub fn has_nullified(&self, view: View) -> bool
        ensures { Answers self.now (λ made known. has_nullified known view) result }
    {
        self.given_up.contains(view.0)
    }
}
