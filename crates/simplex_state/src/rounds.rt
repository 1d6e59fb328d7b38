//! What a member keeps of each view.
#![tactic(auto, unfolding(crate::specs::Opened::rounds))]

ghost use Rattle.std.specs.Prelude.{◌≡◌, ◌≤◌, ◌<◌, ℕ, ◌==◌, IfSome, IfNone, false, if◌then◌else◌, OnOk};
ghost use Rattle.simplex_state.specs.Rounds.{round_in, blank, slot_in, is_vouched_in, is_checked_in, is_named, own_slot_in, is_open};
ghost use Rattle.simplex_state.specs.Verifying.{wants_in};

use simplex_values::maps::{drop_below, first_between, put};
use simplex_values::{Digest, Proposal, TimeoutReason, View};
use std::alloc::AllocError;
use std::collections::BTreeMap;

/// What is known of a view, but for its certificates.
#[derive(Clone, Copy, Debug, PartialEq, Eq)]
pub(crate) struct RoundRecord {
    /// The payload, where the view is the floor's.
    pub(crate) floor: Option<Digest>,
    /// The proposal of the notarization.
    pub(crate) notarized: Option<Proposal>,
    /// The proposal of the finalization.
    pub(crate) finalized: Option<Proposal>,
    /// The proposal of the own notarize.
    pub(crate) voted: Option<Proposal>,
    /// The first proposal that was taken or answered.
    pub(crate) proposed: Option<Proposal>,
    /// Whether the application answered a proposal.
    pub(crate) answered: bool,
    /// The proposal that the application was asked to verify.
    pub(crate) asked: Option<Proposal>,
    /// Whether the application verified it.
    pub(crate) approved: bool,
    /// Whether the member voted for finality.
    pub(crate) voted_final: bool,
    /// The verdict on the notarization.
    pub(crate) verdict: Option<bool>,
    /// When the view expired, and why.
    pub(crate) expired: Option<(u64, TimeoutReason)>,
    /// Why the view will expire as it becomes current.
    pub(crate) failed: Option<TimeoutReason>,
    /// Whether a proposal was asked for.
    pub(crate) proposal_asked: bool,
    /// Whether the verdict was asked for.
    pub(crate) certify_asked: bool,
    /// Whether the parent's notarization was asked for.
    pub(crate) parent_asked: bool,
}

impl RoundRecord {
    /// Nothing is known.
    pub(crate) const BLANK: RoundRecord = RoundRecord {
        floor: None,
        notarized: None,
        finalized: None,
        voted: None,
        proposed: None,
        answered: false,
        asked: None,
        approved: false,
        voted_final: false,
        verdict: None,
        expired: None,
        failed: None,
        proposal_asked: false,
        certify_asked: false,
        parent_asked: false,
    };

    /// The view's proposal: the notarized one, else the finalized one, else that of the own vote, else the
    /// first that was taken or answered.
    pub(crate) fn slot(&self) -> Option<Proposal>
        ensures { result ≡ slot_in self.now }
    {
        self.notarized
            .or(self.finalized)
            .or(self.voted)
            .or(self.proposed)
    }

    /// Whether the member vouches for the proposal.
    fn is_vouched(&self, proposal: &Proposal) -> bool
        ensures { result ≡ is_vouched_in self.now proposal.now }
    {
        names(&self.voted, proposal)
            || (self.answered && names(&self.proposed, proposal))
            || (self.approved && names(&self.asked, proposal))
    }

    /// Whether the slot is the application's own answer.
    pub(crate) fn has_own_slot(&self) -> bool
        ensures { result ≡ own_slot_in self.now }
    {
        match self.slot() {
            None => false,
            Some(proposal) => self.answered && names(&self.proposed, &proposal),
        }
    }

    /// Whether the slot waits to be verified: another's, in a view without own notarize or certificate.
    pub(crate) fn wants_verify(&self) -> bool
        ensures { result ≡ wants_in self.now }
    {
        self.slot().is_some()
            && !self.has_own_slot()
            && self.asked.is_none()
            && self.voted.is_none()
            && self.notarized.is_none()
            && self.finalized.is_none()
    }

    /// Whether the notarization waits for its verdict, and the application was not asked for it.
    pub(crate) fn is_open(&self) -> bool
        ensures { result ≡ is_open self.now }
    {
        self.verdict.is_none() && !self.certify_asked
    }

    /// Whether the slot's proposal is checked.
    pub(crate) fn is_checked(&self) -> bool
        ensures { result ≡ is_checked_in self.now }
    {
        match self.slot() {
            None => false,
            Some(proposal) => {
                self.is_vouched(&proposal)
                    && (self.notarized.is_none() || names(&self.notarized, &proposal))
                    && (self.finalized.is_none() || names(&self.finalized, &proposal))
            }
        }
    }
}

/// Whether it is this proposal.
pub(crate) fn names(slot: &Option<Proposal>, proposal: &Proposal) -> bool
    ensures { result ≡ is_named slot.now proposal.now }
{
    match slot {
        None => false,
        Some(own) => own.is_same(proposal),
    }
}

/// The record of a view, blank where there is none.
pub(crate) fn round_at(rounds: &BTreeMap<u64, RoundRecord>, view: u64) -> RoundRecord
    ensures { result ≡ round_in rounds.now view }
{
    match rounds.get(&view) {
        Some(round) => *round,
        None => RoundRecord::BLANK,
    }
}

/// Makes this the record of a view.
pub(crate) fn put_round(
    rounds: &mut BTreeMap<u64, RoundRecord>,
    view: u64,
    round: RoundRecord,
) -> Result<(), AllocError>
    ensures { OnOk result ((q : ℕ)
        → round_in rounds.new q ≡ (if view == q then round else round_in rounds.old q)) }
{
    // The proof of the move wants the types of the parts named.
    let (_, _): (Option<Proposal>, Option<Digest>) = (round.proposed, round.floor);
    put(rounds, view, round)
}

/// Lets a proposal of a view be asked for again.
pub(crate) fn free_proposal(rounds: &mut BTreeMap<u64, RoundRecord>, view: u64)
    ensures { (q : ℕ) → round_in rounds.new q ≡ (if view == q then record
        (round_in rounds.old q) { proposal_asked = false } else round_in rounds.old q) }
{
    if let Some(round) = rounds.get_mut(&view) {
        round.proposal_asked = false;
    }
}

/// The least view from one to another that has a record.
pub(crate) fn first_round(
    rounds: &BTreeMap<u64, RoundRecord>,
    first: View,
    last: View,
) -> Option<View>
    ensures bounds { IfSome result (λ view. (first ≤ view) × (view ≤ last)) }
    ensures least { IfSome result (λ view. (q : ℕ) → first ≤ q → q < view
        → round_in rounds.now q ≡ blank) }
    ensures none { IfNone result ((q : ℕ) → first ≤ q → q ≤ last → round_in rounds.now q ≡ blank) }
{
    Some(View(first_between(rounds, first.0, last.0)?))
}

/// Drops the records below a view.
pub(crate) fn drop_rounds(rounds: &mut BTreeMap<u64, RoundRecord>, least: u64)
    ensures { (q : ℕ) → least ≤ q → round_in rounds.new q ≡ round_in rounds.old q }
{
    drop_below(rounds, least);
}
