//! What the sources of a crew's steps hold.
#![tactic(auto, unfolding(crate::specs::Stands::CrewStands))]

ghost use Rattle.std.specs.Prelude.{◌≡◌, Bool, Some};
ghost use Rattle.model_resolver.specs.Views.{least_of};
ghost use Rattle.model_resolver.specs.Resolver.{deadline_after};
ghost use Rattle.model_steps.specs.VoterLife.{place_of};
ghost use Rattle.simplex_voter.specs.Stands.{due_at};
ghost use Rattle.simplex_engine.specs.Holding.{holds};
ghost use Rattle.simplex_engine.specs.Stands.{CrewAnswersAs, TellsAs};

use crate::crew::Crew;
use simplex_journal::Journal;
use simplex_messages::VoterInput;
use simplex_transcript::StepSource;
use simplex_types::Scheme;
use simplex_types::elector::Elector;

impl<S: Scheme + Drop, L: Elector + Drop, J: Journal + Drop> Crew<S, L, J> {
    /// Whether the source holds something at this clock.
    pub(crate) fn holds(&self, source: StepSource, now: u64) -> bool
        ensures { (told : Bool)
            → CrewAnswersAs told self.now (λ made past. holds made past source now) result }
    {
        match source {
            StepSource::Batcher => !self.boxes.batcher.is_empty(),
            StepSource::Voter => !self.boxes.voter.is_empty(),
            StepSource::Timer => self.voter.holds(&VoterInput::Timer, now),
            StepSource::Propose => self.voter.holds(&VoterInput::Propose, now),
            StepSource::Verify => self.voter.holds(&VoterInput::Verify, now),
            StepSource::Certify => self.voter.holds(&VoterInput::Certify, now),
            StepSource::Resolver => !self.boxes.resolver.is_empty(),
            StepSource::Handler => self.resolver.holds_handler(),
            StepSource::Fetch => self.is_fetch_due(now),
        }
    }
    /// When a step of the timer is due.
    fn voter_deadline(&self) -> u64
        ensures { (told : Bool) → TellsAs told self.now (λ parts. due_at parts.voter.rules
            (place_of parts.voter parts.given).standing.desk.known) result }
    {
        self.voter.next_deadline()
    }

    /// When a step of the fetcher is due, if one is.
    fn fetch_deadline(&self) -> Option<u64>
        ensures { (told : Bool) → TellsAs told self.now
            (λ parts. deadline_after parts.resolver parts.asked) result }
    {
        self.resolver.next_deadline()
    }

    /// When a step of the timer or of the fetcher is due next.
    pub(crate) fn next_deadline(&self) -> u64
        ensures { (told : Bool) → TellsAs told self.now (λ parts. least_of
            (Some (due_at parts.voter.rules
            (place_of parts.voter parts.given).standing.desk.known))
            (deadline_after parts.resolver parts.asked)) (Some result) }
    {
        earliest(self.voter_deadline(), self.fetch_deadline())
    }
}

/// The earlier of the two, where there is another one.
fn earliest(deadline: u64, other: Option<u64>) -> u64
    ensures { Some result ≡ least_of (Some deadline) other }
{
    match other {
        None => deadline,
        Some(other) => deadline.min(other),
    }
}
