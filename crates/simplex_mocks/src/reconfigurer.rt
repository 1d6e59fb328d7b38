//! A member that votes in the next epoch.
#![tactic(auto, unfolding(model_faults::specs::Reconfigurer::reconfigurer_sends))]

ghost use Rattle.std.specs.Prelude.{◌≡◌, ◌^◌, ◌-◌, [], nat_lt, IfOk, Some, None, if◌then◌else◌};
ghost use Rattle.std.specs.Option.{option_to_list};
ghost use Rattle.model_faults.specs.Reconfigurer.{in_next_epoch, reconfigurer_subjects, reconfigurer_sends};
ghost use Rattle.simplex_mocks.specs.Hearing.{bytes_heard};

use crate::hearing::heard_subject;
use crate::sending::votes_to_all;
use model_faults::Sent;
use rand_chacha::ChaCha8Rng;
use simplex_types::{Channel, Epoch, Proposal, Round, Scheme, Sequence, Subject};
use std::alloc::{AllocError, Global};
use std::marker::Model;

/// What a reconfigurer is made with.
#[derive(Debug, Drop)]
pub struct Config<S> {
    /// Signs its votes.
    pub scheme: S,
    /// Is not asked.
    pub random: ChaCha8Rng,
}

/// A member that answers each vote with the same of the next epoch. It remembers nothing, and contracts see its scheme
/// alone.
#[derive(Debug, Drop)]
pub struct Reconfigurer<S> {
    scheme: S,
}

impl<S> Model for Reconfigurer<S> {
    ghost Value = { S };

    ghost view = { λ member. member.scheme };
}

/// The same view of the next epoch, if there is one.
fn in_next_epoch(round: Round) -> Option<Round>
    ensures { result ≡ (if nat_lt round.epoch (2 ^ 64 - 1) then Some
        (in_next_epoch round) else None) }
{
    Some(Round {
        epoch: Epoch(round.epoch.0.checked_add(1)?),
        view: round.view,
    })
}

/// The proposal for that round, if there is one.
fn proposal_in_next_epoch(proposal: Proposal) -> Option<Proposal>
    ensures { result ≡ (if nat_lt proposal.round.epoch (2 ^ 64 - 1)
        then Some (record proposal { round = in_next_epoch proposal.round }) else None) }
{
    let round = in_next_epoch(proposal.round)?;
    Some(Proposal { round, ..proposal })
}

/// What it votes for.
fn reconfigured(heard: Option<Subject>) -> Option<Subject>
    ensures { option_to_list result ≡ reconfigurer_subjects heard }
{
    match heard? {
        Subject::Notarize(proposal) => Some(Subject::Notarize(proposal_in_next_epoch(proposal)?)),
        Subject::Nullify(round) => Some(Subject::Nullify(in_next_epoch(round)?)),
        Subject::Finalize(proposal) => Some(Subject::Finalize(proposal_in_next_epoch(proposal)?)),
    }
}

impl<S: Scheme> Reconfigurer<S> {
    /// A reconfigurer that signs by this scheme.
    pub fn new(config: Config<S>) -> Reconfigurer<S>
        ensures { result ≡ config.scheme }
    {
        Reconfigurer {
            scheme: config.scheme,
        }
    }

    /// What it sends on hearing the bytes.
    pub fn hear(
        &mut self,
        alloc: Global,
        channel: Channel,
        bytes: &[u8],
    ) -> Result<Sequence<Sent>, AllocError>
        ensures sends { IfOk result (λ sent. sent
            ≡ reconfigurer_sends (S.attests self.old) (bytes_heard channel bytes.now)) }
        ensures same { self.new ≡ self.old }
    {
        match reconfigured(heard_subject(channel, bytes)) {
            None => votes_to_all(alloc, &self.scheme, &[]),
            Some(subject) => votes_to_all(alloc, &self.scheme, &[subject]),
        }
    }
}
