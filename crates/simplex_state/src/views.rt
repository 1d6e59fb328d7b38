//! A state of which nothing is known yet, and the views that one is in, keeps and admits.
#![tactic(auto, unfolding(crate::specs::Opened::nothing_known))]

ghost use Rattle.std.specs.Prelude.{◌≡◌, ◌<◌, ◌^◌, [], IfOk};
ghost use Rattle.model_rules.specs.Views.{last_finalized, current_of, least_active, admits_certificate, admits_vote};
ghost use Rattle.model_rules.specs.Requests.{leader_of};
ghost use Rattle.simplex_state.specs.Stands.{StandsFor, Answers, IsConfigured, made_of};

use crate::config::StateConfig;
use crate::missing::Missing;
use crate::progress::Progress;
use crate::ranges::Ranges;
use crate::settings::Settings;
use crate::state::State;
use simplex_types::elector::Elector;
use simplex_values::maps::{empty_map, empty_set};
use simplex_values::{Lookahead, Participant, Round, TermLength, View};
use simplex_wire::Scheme;
use std::alloc::{AllocError, Global};

impl<S: Scheme + Drop, L: Elector + Drop> State<S, L> {
    /// Nothing is known yet.
    pub fn new(
        alloc: Global,
        config: StateConfig<S, L>,
        now: u64,
    ) -> Result<State<S, L>, AllocError>
        requires limits { IsConfigured S.members L.built_for L.cuts config }
        requires clock { now < 2 ^ 63 }
        ensures { IfOk result
            (λ state. StandsFor state (made_of S.attests S.member L.elects L.cuts config now) []) }
    {
        let settings = Settings {
            me: config.scheme.me(),
            terms: config.elector.terms(),
            epoch: config.epoch,
            view_retention: config.view_retention,
            leader_timeout: config.leader_timeout,
            certification_timeout: config.certification_timeout,
            timeout_retry: config.timeout_retry,
            skip_budget: config.skip_budget,
            handoff: config.handoff,
            genesis: config.genesis,
        };
        Ok(State {
            alloc,
            scheme: config.scheme,
            elector: config.elector,
            settings,
            progress: Progress::new(now),
            rounds: empty_map(alloc),
            gave_up: false,
            published: None,
            nullified: Ranges::new(alloc),
            failed: Ranges::new(alloc),
            certified: empty_set(alloc),
            covered: empty_map(alloc),
            whole: Ranges::new(alloc),
            waiting: empty_set(alloc),
            missing: Missing::new(alloc),
            notarizations: empty_map(alloc),
            nullifications: empty_map(alloc),
            finalizations: empty_map(alloc),
        })
    }

    /// The greatest view that is known to be final, or 0.
    pub fn last_finalized(&self) -> View
        ensures { Answers self.now (λ made known. last_finalized known) result }
    {
        self.progress.last_finalized
    }

    /// The view that the member is in.
    pub fn current_view(&self) -> View
        ensures { Answers self.now (λ made known. current_of made known) result }
    {
        self.progress.current
    }

    /// The least view whose certificates are still added.
    pub fn min_active(&self) -> View
        ensures { Answers self.now (λ made known. least_active made known) result }
    {
        self.progress
            .last_finalized
            .saturating_sub(self.settings.view_retention)
    }

    /// Whether a certificate of the view is of use.
    #[tactic(auto, unfolding(crate::specs::Stands::StandsFor, crate::specs::Progress::progress_of, model_rules::specs::Views::admits_certificate, model_rules::specs::Views::least_active))]
    pub fn admits_certificate(&self, view: View) -> bool
        ensures { Answers self.now (λ made known. admits_certificate made known view) result }
    {
        self.min_active() <= view
    }

    /// Whether a vote of the view is of use.
    #[tactic(auto, unfolding(crate::specs::Stands::StandsFor, crate::specs::Progress::progress_of, model_rules::specs::Views::admits_vote))]
    pub fn admits_vote(&self, view: View) -> bool
        ensures { Answers self.now (λ made known. admits_vote made known view) result }
    {
        self.admits_certificate(view) && self.lookahead().admits(self.progress.current, view)
    }

    /// The leader of the view.
    #[tactic(auto, unfolding(crate::specs::Stands::StandsFor, crate::specs::Progress::progress_of, model_rules::specs::Requests::leader_of))]
    pub fn leader_index(&self, view: View) -> Participant
        ensures { Answers self.now (λ made known. leader_of made view) result }
    {
        self.elector.elect(Round {
            epoch: self.settings.epoch,
            view,
        })
    }

    /// How many views a term has.
    pub(crate) fn term_length(&self) -> TermLength
        ensures { result ≡ self.now.settings.terms.length }
    {
        self.settings.terms.length
    }

    /// How far ahead the member works.
    pub(crate) fn lookahead(&self) -> Lookahead
        ensures length { result.length ≡ self.now.settings.terms.length }
        ensures views { result.views ≡ self.now.settings.terms.lookahead }
    {
        Lookahead::new(&self.settings.terms)
    }
}
