//! Sets of proposals.
#![tactic(auto, unfolding(crate::specs::Proposals::has_proposal), using(crate::proofs::Keys::key_at))]

ghost use Rattle.std.specs.Prelude.{◌≡◌, ◌||◌, false, OnOk};
ghost use Rattle.simplex_values.specs.declared.proposal.Proposal.{Proposal};
ghost use Rattle.simplex_values.specs.Proposal.{is_same_proposal};
ghost use Rattle.simplex_known.specs.Proposals.{has_proposal};

use simplex_values::Proposal;
use std::alloc::{AllocError, Global};
use std::collections::BTreeSet;

/// Proposals: the epoch, the view, the parent and the payload of each.
pub(crate) type Proposals = BTreeSet<(u64, u64, u64, [u8; 32])>;

/// No proposals.
pub(crate) fn no_proposals(alloc: Global) -> Proposals
    ensures { (q : Proposal) → has_proposal result q ≡ false }
{
    BTreeSet::new(alloc)
}

/// Whether the proposal is among them.
pub(crate) fn holds_proposal(proposals: &Proposals, p: &Proposal) -> bool
    ensures { result ≡ has_proposal proposals.now p.now }
{
    proposals.contains(&(p.round.epoch.0, p.round.view.0, p.parent.0, p.payload.0))
}

/// Puts the proposal among them.
pub(crate) fn add_proposal(proposals: &mut Proposals, p: &Proposal) -> Result<(), AllocError>
    ensures { OnOk result ((q : Proposal)
        → has_proposal proposals.new q
        ≡ (is_same_proposal p.now q || has_proposal proposals.old q)) }
{
    proposals.insert((p.round.epoch.0, p.round.view.0, p.parent.0, p.payload.0))?;
    Ok(())
}
