//! The votes that were recorded.
ghost use Rattle.std.specs.Prelude.{◌∷◌, [], List, IfOk, OnOk, OnErr};
ghost use Rattle.simplex_types.specs.declared.activity.Activity.{Activity};
ghost use Rattle.simplex_recording.specs.Recording.{is_notarize_at, is_nullify_at, is_finalize_at};
ghost use Rattle.simplex_recording.specs.Stands.{VotesOf, Signed};

use crate::casts::{Casts, Pairs, add_cast, add_pair, no_casts, no_pairs, signers_at, signers_of};
use simplex_types::{Activity, Digest, Participant, View};
use std::alloc::{AllocError, Global};

/// Who voted for what, by the kinds of votes.
#[derive(Debug, Drop)]
pub(crate) struct Votes {
    notarizes: Casts,
    nullifies: Pairs,
    finalizes: Casts,
}

impl Votes {
    /// No votes.
    pub(crate) fn new(alloc: Global) -> Votes
        ensures { VotesOf result [] }
    {
        Votes {
            notarizes: no_casts(alloc),
            nullifies: no_pairs(alloc),
            finalizes: no_casts(alloc),
        }
    }

    /// The activity was recorded.
    pub(crate) fn enter(&mut self, activity: &Activity) -> Result<(), AllocError>
        ensures ok { OnOk result ((all : List Activity) → VotesOf self.old all
            → VotesOf self.new (activity.now ∷ all)) }
        ensures err { OnErr result ((all : List Activity) → VotesOf self.old all
            → VotesOf self.new all) }
    {
        match activity {
            Activity::Notarize(it) => {
                add_cast(&mut self.notarizes, &it.proposal, it.attestation.signer)
            }
            Activity::Nullify(it) => {
                add_pair(&mut self.nullifies, it.round.view, it.attestation.signer)
            }
            Activity::Finalize(it) => {
                add_cast(&mut self.finalizes, &it.proposal, it.attestation.signer)
            }
            _ => Ok(()),
        }
    }

    /// Who notarized the payload in the view.
    pub(crate) fn notarizes(
        &self,
        alloc: Global,
        n: u32,
        view: View,
        payload: &Digest,
    ) -> Result<Vec<Participant>, AllocError>
        ensures { IfOk result
            (λ signers. Signed self.now n (is_notarize_at view payload.now) signers.items) }
    {
        signers_of(alloc, &self.notarizes, n, view, payload)
    }

    /// Who gave the view up.
    pub(crate) fn nullifies(
        &self,
        alloc: Global,
        n: u32,
        view: View,
    ) -> Result<Vec<Participant>, AllocError>
        ensures { IfOk result (λ signers. Signed self.now n (is_nullify_at view) signers.items) }
    {
        signers_at(alloc, &self.nullifies, n, view)
    }

    /// Who finalized the payload in the view.
    pub(crate) fn finalizes(
        &self,
        alloc: Global,
        n: u32,
        view: View,
        payload: &Digest,
    ) -> Result<Vec<Participant>, AllocError>
        ensures { IfOk result
            (λ signers. Signed self.now n (is_finalize_at view payload.now) signers.items) }
    {
        signers_of(alloc, &self.finalizes, n, view, payload)
    }
}
