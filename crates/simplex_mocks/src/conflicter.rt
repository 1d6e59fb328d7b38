//! A member that votes for two proposals.
#![tactic(auto, unfolding(crate::specs::Conflicting::StandsFor, model_faults::specs::Conflicter::conflicter_drew, model_faults::specs::Conflicter::conflicter_sends))]

ghost use Rattle.std.specs.Prelude.{◌≡◌, ◌∷◌, [], List, Option, IfOk, OnOk};
ghost use Rattle.simplex_values.specs.declared.proposal.Subject.{Subject};
ghost use Rattle.simplex_wire.specs.declared.attestation.Attestation.{Attestation};
ghost use Rattle.model_faults.specs.Heard.{Heard};
ghost use Rattle.model_faults.specs.Words.{Words};
ghost use Rattle.model_faults.specs.Conflicter.{drawn_payload, conflicter_subjects, words_for, conflicter_sends};
ghost use Rattle.simplex_mocks.specs.Conflicting.{StandsFor, pair_list};
ghost use Rattle.simplex_mocks.specs.Drawing.{words_left, IsDrawn, Uses};
ghost use Rattle.simplex_mocks.specs.Hearing.{bytes_heard};

use crate::drawing::draw_payload;
use crate::hearing::heard_subject;
use crate::sending::votes_to_all;
use model_faults::Sent;
use rand_chacha::ChaCha8Rng;
use rand_core::Rng;
use simplex_types::{Channel, Proposal, Scheme, Sequence, Subject};
use std::alloc::{AllocError, Global};

/// What a conflicter is made with.
#[derive(Debug, Drop)]
pub struct Config<S> {
    /// Signs its votes.
    pub scheme: S,
    /// Gives it payloads.
    pub random: ChaCha8Rng,
}

/// A member that votes for two proposals: the same with a payload of random bytes, and then what was heard.
#[derive(Debug, Drop)]
pub struct Conflicter<S> {
    scheme: S,
    random: ChaCha8Rng,
}

/// What it votes for: nothing, or twice.
fn conflict<R: Rng>(random: &mut R, heard: Option<Subject>) -> Option<(Subject, Subject)>
    ensures value { IsDrawn (R.stream random.old)
        (λ words from. conflicter_subjects (drawn_payload words from) heard) (pair_list result) }
    ensures later { Uses (R.stream random.old) (R.stream random.new) (words_for heard) }
{
    match heard {
        Some(Subject::Notarize(proposal)) => {
            let payload = draw_payload(random);
            let other = Proposal {
                payload,
                ..proposal
            };
            Some((Subject::Notarize(other), Subject::Notarize(proposal)))
        }
        Some(Subject::Finalize(proposal)) => {
            let payload = draw_payload(random);
            let other = Proposal {
                payload,
                ..proposal
            };
            Some((Subject::Finalize(other), Subject::Finalize(proposal)))
        }
        Some(Subject::Nullify(_)) | None => None,
    }
}

impl<S: Scheme> Conflicter<S> {
    /// A conflicter that heard nothing.
    #[tactic(auto, unfolding(crate::specs::Conflicting::StandsFor, model_faults::specs::Conflicter::conflicter_drew), using(crate::proofs::Words::left_draws))]
    pub fn new(config: Config<S>) -> Conflicter<S>
        ensures { StandsFor S.attests result (S.attests config.scheme)
            (words_left config.random) [] }
    {
        Conflicter {
            scheme: config.scheme,
            random: config.random,
        }
    }

    /// What it sends on hearing the bytes.
    #[tactic(auto, unfolding(crate::specs::Opened::conflicts), using(crate::proofs::VotesToAll::votes_none))]
    pub fn hear(
        &mut self,
        alloc: Global,
        channel: Channel,
        bytes: &[u8],
    ) -> Result<Sequence<Sent>, AllocError>
        // The votes of the definition.
        ensures sends { (attests : Subject → Option Attestation) (words : Words) (before : List Heard)
            → StandsFor S.attests self.old attests words before
            → IfOk result (λ sent. sent
            ≡ conflicter_sends attests words before (bytes_heard channel bytes.now)) }
        // It has heard this too.
        ensures stands { (attests : Subject → Option Attestation) (words : Words) (before : List Heard)
            → StandsFor S.attests self.old attests words before
            → OnOk result (StandsFor S.attests self.new attests words
            (bytes_heard channel bytes.now ∷ before)) }
    {
        match conflict(&mut self.random, heard_subject(channel, bytes)) {
            None => votes_to_all(alloc, &self.scheme, &[]),
            Some((other, heard)) => votes_to_all(alloc, &self.scheme, &[other, heard]),
        }
    }
}
