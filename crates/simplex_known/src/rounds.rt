//! What is kept of each view.
#![tactic(auto, unfolding(crate::specs::Rounds::round_in, crate::specs::Rounds::slot_in, simplex_values::specs::Maps::found))]

ghost use Rattle.std.specs.Prelude.{◌≡◌, ℕ, ◌==◌, OnOk, if◌then◌else◌};
ghost use Rattle.simplex_known.specs.Rounds.{round_in, slot_in};

use simplex_values::Proposal;
use simplex_values::maps::put;
use std::alloc::AllocError;
use std::collections::BTreeMap;

/// What is known of a view.
#[derive(Clone, Copy, Debug, PartialEq, Eq)]
pub(crate) struct RoundRecord {
    /// The proposal of the notarization.
    pub(crate) notarized: Option<Proposal>,
    /// The proposal of the finalization.
    pub(crate) finalized: Option<Proposal>,
    /// Whether the view has a nullification.
    pub(crate) nullified: bool,
    /// The proposal of the own notarize.
    pub(crate) voted: Option<Proposal>,
    /// The first proposal that was taken or answered.
    pub(crate) proposed: Option<Proposal>,
    /// Whether the node voted for finality.
    pub(crate) voted_final: bool,
    /// The verdict on the notarization.
    pub(crate) verdict: Option<bool>,
}

impl RoundRecord {
    /// Nothing is known.
    pub(crate) const BLANK: RoundRecord = RoundRecord {
        notarized: None,
        finalized: None,
        nullified: false,
        voted: None,
        proposed: None,
        voted_final: false,
        verdict: None,
    };

    /// The view's proposal: the notarized one, else the finalized one, else that of the own vote, else the
    /// first that was taken or answered.
    pub(crate) fn slot(&self) -> Option<Proposal>
        ensures { result ≡ slot_in self.now }
    {
        self.notarized
            .or(self.finalized)
            .or(self.voted)
            .or(self.proposed)
    }
}

/// The record of a view, blank where there is none.
pub(crate) fn round_at(rounds: &BTreeMap<u64, RoundRecord>, view: u64) -> RoundRecord
    ensures { result ≡ round_in rounds.now view }
{
    match rounds.get(&view) {
        Some(round) => *round,
        None => RoundRecord::BLANK,
    }
}

/// Makes this the record of a view.
pub(crate) fn put_round(
    rounds: &mut BTreeMap<u64, RoundRecord>,
    view: u64,
    round: RoundRecord,
) -> Result<(), AllocError>
    ensures { OnOk result ((q : ℕ)
        → round_in rounds.new q ≡ (if view == q then round else round_in rounds.old q)) }
{
    // The proof of the move wants the types of the parts named.
    let (_, _): (Option<Proposal>, Option<bool>) = (round.proposed, round.verdict);
    put(rounds, view, round)
}
