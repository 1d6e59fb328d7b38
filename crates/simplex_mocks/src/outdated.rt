//! A member that votes for what was proposed some views before.
#![tactic(auto, unfolding(crate::specs::Remembering::StandsFor, model_faults::specs::Outdated::stored_at, model_faults::specs::Outdated::outdated_sends))]

ghost use Rattle.std.specs.Prelude.{◌≡◌, ◌∷◌, ◌-◌, [], ℕ, List, Option, IfOk, OnOk, Some};
ghost use Rattle.simplex_values.specs.declared.proposal.Subject.{Subject};
ghost use Rattle.simplex_wire.specs.declared.attestation.Attestation.{Attestation};
ghost use Rattle.model_faults.specs.Heard.{Heard};
ghost use Rattle.model_faults.specs.Outdated.{if_view, outdated_sends};
ghost use Rattle.simplex_mocks.specs.Hearing.{bytes_heard};
ghost use Rattle.simplex_mocks.specs.Remembering.{StandsFor, stored_in};

use crate::hearing::heard_subject;
use crate::sending::votes_to_all;
use crate::stored::Stored;
use model_faults::Sent;
use rand_chacha::ChaCha8Rng;
use simplex_types::{Channel, Proposal, Scheme, Sequence, Subject, ViewDelta};
use std::alloc::{AllocError, Global};

/// What an outdated member is made with.
#[derive(Debug, Drop)]
pub struct Config<S> {
    /// Signs its votes.
    pub scheme: S,
    /// Is not asked.
    pub random: ChaCha8Rng,
    /// How many views it is behind.
    pub view_delta: ViewDelta,
}

/// A member that votes, in the kind that it hears, for the last proposal that it heard of so many views before.
#[derive(Drop)]
pub struct Outdated<S> {
    scheme: S,
    view_delta: ViewDelta,
    stored: Stored,
}

impl<S: Scheme> Outdated<S> {
    /// An outdated member that heard nothing.
    pub fn new(alloc: Global, config: Config<S>) -> Outdated<S>
        ensures { StandsFor S.attests result (S.attests config.scheme) config.view_delta [] }
    {
        Outdated {
            scheme: config.scheme,
            view_delta: config.view_delta,
            stored: Stored::new(alloc),
        }
    }

    /// Keeps the proposal, and gives that of so many views before.
    fn exchange(&mut self, proposal: Proposal) -> Result<Option<Proposal>, AllocError>
        ensures old { IfOk result (λ old. old
            ≡ stored_in self.new.stored (proposal.round.view - self.old.view_delta)) }
        ensures stored { OnOk result ((view : ℕ)
            → stored_in self.new.stored view
            ≡ if_view view (Some proposal) (stored_in self.old.stored view)) }
        ensures scheme { self.new.scheme ≡ self.old.scheme }
        ensures view_delta { self.new.view_delta ≡ self.old.view_delta }
    {
        let view = proposal.view().saturating_sub(self.view_delta);
        self.stored.insert(proposal)?;
        Ok(self.stored.get(view))
    }

    /// What it sends on hearing the bytes.
    pub fn hear(
        &mut self,
        alloc: Global,
        channel: Channel,
        bytes: &[u8],
    ) -> Result<Sequence<Sent>, AllocError>
        // The votes of the definition.
        ensures sends { (attests : Subject → Option Attestation) (delta : ℕ) (before : List Heard)
            → StandsFor S.attests self.old attests delta before
            → IfOk result (λ sent. sent
            ≡ outdated_sends attests delta before (bytes_heard channel bytes.now)) }
        // It has heard this too.
        ensures stands { (attests : Subject → Option Attestation) (delta : ℕ) (before : List Heard)
            → StandsFor S.attests self.old attests delta before
            → OnOk result (StandsFor S.attests self.new attests delta
            (bytes_heard channel bytes.now ∷ before)) }
    {
        let old = match heard_subject(channel, bytes) {
            Some(Subject::Notarize(proposal)) => self.exchange(proposal)?.map(Subject::Notarize),
            Some(Subject::Finalize(proposal)) => self.exchange(proposal)?.map(Subject::Finalize),
            Some(Subject::Nullify(_)) | None => None,
        };
        match old {
            None => votes_to_all(alloc, &self.scheme, &[]),
            Some(subject) => votes_to_all(alloc, &self.scheme, &[subject]),
        }
    }
}
