//! What is heard.
ghost use Rattle.std.specs.Prelude.{◌≡◌, IfOk};
ghost use Rattle.model_faults.specs.Heard.{subject_heard, certificate_heard};
ghost use Rattle.model_faults.specs.Equivocator.{proposal_in};
ghost use Rattle.simplex_mocks.specs.Hearing.{bytes_heard};

use simplex_types::{Certificate, Channel, DecodeError, Proposal, Subject, Vote};
use std::alloc::{AllocError, Global};

/// What the vote that was heard is about. Nothing where the bytes are no vote, or came on another channel.
#[tactic(auto, unfolding(model_faults::specs::Heard::subject_heard))]
pub(crate) fn heard_subject(channel: Channel, bytes: &[u8]) -> Option<Subject>
    ensures { result ≡ subject_heard (bytes_heard channel bytes.now) }
{
    match channel {
        Channel::Vote => match Vote::decode(bytes) {
            Ok(vote) => Some(vote.subject()),
            Err(_) => None,
        },
        Channel::Certificate | Channel::Resolver => None,
    }
}

/// The proposal of the notarization or finalization that was heard. Nothing where the bytes are neither, or came on
/// another channel.
#[tactic(auto, unfolding(model_faults::specs::Heard::certificate_heard))]
pub(crate) fn heard_proposal(
    alloc: Global,
    channel: Channel,
    bytes: &[u8],
) -> Result<Option<Proposal>, AllocError>
    ensures { IfOk result (λ found. found
        ≡ proposal_in (certificate_heard (bytes_heard channel bytes.now))) }
{
    match channel {
        Channel::Certificate => match Certificate::decode(alloc, bytes) {
            Ok(Certificate::Notarization(it)) => Ok(Some(it.proposal)),
            Ok(Certificate::Finalization(it)) => Ok(Some(it.proposal)),
            Ok(Certificate::Nullification(_)) => Ok(None),
            Err(DecodeError::Fault { .. }) => Ok(None),
            Err(DecodeError::Memory) => Err(AllocError),
        },
        Channel::Vote | Channel::Resolver => Ok(None),
    }
}
