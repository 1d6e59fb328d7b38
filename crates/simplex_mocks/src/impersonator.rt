//! A member that votes under another member's number.
#![tactic(auto, unfolding(model_faults::specs::Impersonator::impersonator_sends))]

ghost use Rattle.std.specs.Prelude.{◌≡◌, ◌∷◌, [], IfOk, option_map};
ghost use Rattle.model_faults.specs.Heard.{own_vote, votes_to_all};
ghost use Rattle.model_faults.specs.Impersonator.{another_number, as_another, impersonator_sends};
ghost use Rattle.simplex_mocks.specs.Hearing.{bytes_heard};

use crate::hearing::heard_subject;
use crate::sending::{send, vote_with};
use model_faults::Sent;
use rand_chacha::ChaCha8Rng;
use simplex_types::{
    Attestation, Channel, Participant, Recipients, Scheme, Sequence, Subject, Vote,
};
use std::alloc::{AllocError, Global};
use std::marker::Model;

/// What an impersonator is made with.
#[derive(Debug, Drop)]
pub struct Config<S> {
    /// Signs its votes.
    pub scheme: S,
    /// Is not asked.
    pub random: ChaCha8Rng,
}

/// A member that answers a notarize or finalize with its own vote on the same, under another's number. It remembers
/// nothing, and contracts see its scheme alone.
#[derive(Debug, Drop)]
pub struct Impersonator<S> {
    scheme: S,
}

impl<S> Model for Impersonator<S> {
    ghost Value = { S };

    ghost view = { λ member. member.scheme };
}

/// Member 0, or 1 in place of it.
fn another(member: Participant) -> Participant
    ensures { result ≡ another_number member }
{
    if member == Participant(0) {
        Participant(1)
    } else {
        Participant(0)
    }
}

/// The own vote on the subject under another's number, where the scheme signs it.
#[tactic(auto, unfolding(model_faults::specs::Heard::own_vote))]
fn disguised<S: Scheme>(scheme: &S, subject: &Subject) -> Option<Vote>
    ensures { result ≡ own_vote
        (λ subject. option_map as_another (S.attests scheme.now subject)) subject.now }
{
    let attestation = scheme.sign(subject)?;
    let signer = another(attestation.signer);
    Some(vote_with(
        subject,
        Attestation {
            signer,
            ..attestation
        },
    ))
}

/// That vote, to all.
#[tactic(auto, using(crate::proofs::VotesToAll::one))]
fn impersonate<S: Scheme>(
    alloc: Global,
    scheme: &S,
    subject: &Subject,
) -> Result<Sequence<Sent>, AllocError>
    ensures { IfOk result (λ sent. sent ≡ votes_to_all
        (λ subject. option_map as_another (S.attests scheme.now subject)) (subject.now ∷ [])) }
{
    let mut sent = Sequence::new(alloc);
    send(
        alloc,
        disguised(scheme, subject),
        Recipients::All,
        &mut sent,
    )?;
    Ok(sent)
}

impl<S: Scheme> Impersonator<S> {
    /// An impersonator that signs by this scheme.
    pub fn new(config: Config<S>) -> Impersonator<S>
        ensures { result ≡ config.scheme }
    {
        Impersonator {
            scheme: config.scheme,
        }
    }

    /// What it sends on hearing the bytes.
    #[tactic(auto, unfolding(model_faults::specs::Impersonator::impersonator_sends), using(crate::proofs::VotesToAll::votes_none))]
    pub fn hear(
        &mut self,
        alloc: Global,
        channel: Channel,
        bytes: &[u8],
    ) -> Result<Sequence<Sent>, AllocError>
        ensures sends { IfOk result (λ sent. sent
            ≡ impersonator_sends (S.attests self.old) (bytes_heard channel bytes.now)) }
        ensures same { self.new ≡ self.old }
    {
        match heard_subject(channel, bytes) {
            Some(Subject::Notarize(proposal)) => {
                impersonate(alloc, &self.scheme, &Subject::Notarize(proposal))
            }
            Some(Subject::Finalize(proposal)) => {
                impersonate(alloc, &self.scheme, &Subject::Finalize(proposal))
            }
            Some(Subject::Nullify(_)) | None => Ok(Sequence::new(alloc)),
        }
    }
}
