//! A member that nullifies a view and finalizes its proposal.
#![tactic(auto, unfolding(model_faults::specs::Nuller::nuller_sends))]

ghost use Rattle.std.specs.Prelude.{◌≡◌, IfOk};
ghost use Rattle.model_faults.specs.Nuller.{nuller_sends};
ghost use Rattle.simplex_mocks.specs.Hearing.{bytes_heard};

use crate::hearing::heard_subject;
use crate::sending::votes_to_all;
use model_faults::Sent;
use rand_chacha::ChaCha8Rng;
use simplex_types::{Channel, Scheme, Sequence, Subject};
use std::alloc::{AllocError, Global};
use std::marker::Model;

/// What a nuller is made with.
#[derive(Debug, Drop)]
pub struct Config<S> {
    /// Signs its votes.
    pub scheme: S,
    /// Is not asked.
    pub random: ChaCha8Rng,
}

/// A member that answers a notarize with a nullify of its round and a finalize of its proposal. It remembers nothing,
/// and contracts see its scheme alone.
#[derive(Debug, Drop)]
pub struct Nuller<S> {
    scheme: S,
}

impl<S> Model for Nuller<S> {
    ghost Value = { S };

    ghost view = { λ nuller. nuller.scheme };
}

impl<S: Scheme> Nuller<S> {
    /// A nuller that signs by this scheme.
    pub fn new(config: Config<S>) -> Nuller<S>
        ensures { result ≡ config.scheme }
    {
        Nuller {
            scheme: config.scheme,
        }
    }

    /// What it sends on hearing the bytes.
    pub fn hear(
        &mut self,
        alloc: Global,
        channel: Channel,
        bytes: &[u8],
    ) -> Result<Sequence<Sent>, AllocError>
        ensures sends { IfOk result (λ sent. sent
            ≡ nuller_sends (S.attests self.old) (bytes_heard channel bytes.now)) }
        ensures same { self.new ≡ self.old }
    {
        match heard_subject(channel, bytes) {
            Some(Subject::Notarize(proposal)) => {
                let nullify = Subject::Nullify(proposal.round);
                votes_to_all(alloc, &self.scheme, &[nullify, Subject::Finalize(proposal)])
            }
            Some(Subject::Nullify(_) | Subject::Finalize(_)) | None => {
                votes_to_all(alloc, &self.scheme, &[])
            }
        }
    }
}
