//! A member that nullifies each view, and does nothing else.
#![tactic(auto, unfolding(model_faults::specs::NullifyOnly::nullify_only_sends))]

ghost use Rattle.std.specs.Prelude.{◌≡◌, IfOk};
ghost use Rattle.model_faults.specs.NullifyOnly.{nullify_only_sends};
ghost use Rattle.simplex_mocks.specs.Hearing.{bytes_heard};

use crate::hearing::heard_subject;
use crate::sending::votes_to_all;
use model_faults::Sent;
use rand_chacha::ChaCha8Rng;
use simplex_types::{Channel, Scheme, Sequence, Subject};
use std::alloc::{AllocError, Global};
use std::marker::Model;

/// What such a member is made with.
#[derive(Debug, Drop)]
pub struct Config<S> {
    /// Signs its votes.
    pub scheme: S,
    /// Is not asked.
    pub random: ChaCha8Rng,
}

/// A member that answers a notarize with a nullify of its round. It remembers nothing, and contracts see its scheme
/// alone.
#[derive(Debug, Drop)]
pub struct NullifyOnly<S> {
    scheme: S,
}

impl<S> Model for NullifyOnly<S> {
    ghost Value = { S };

    ghost view = { λ member. member.scheme };
}

impl<S: Scheme> NullifyOnly<S> {
    /// A member that signs by this scheme.
    pub fn new(config: Config<S>) -> NullifyOnly<S>
        ensures { result ≡ config.scheme }
    {
        NullifyOnly {
            scheme: config.scheme,
        }
    }

    /// What it sends on hearing the bytes.
    pub fn hear(
        &mut self,
        alloc: Global,
        channel: Channel,
        bytes: &[u8],
    ) -> Result<Sequence<Sent>, AllocError>
        ensures sends { IfOk result (λ sent. sent
            ≡ nullify_only_sends (S.attests self.old) (bytes_heard channel bytes.now)) }
        ensures same { self.new ≡ self.old }
    {
        match heard_subject(channel, bytes) {
            Some(Subject::Notarize(proposal)) => {
                votes_to_all(alloc, &self.scheme, &[Subject::Nullify(proposal.round)])
            }
            Some(Subject::Nullify(_) | Subject::Finalize(_)) | None => {
                votes_to_all(alloc, &self.scheme, &[])
            }
        }
    }
}
