//! What a packet holds. Votes are of view 1 in epoch 0, where nothing else is said; certificates are signed by members 0, 1 and 2 of
//! four, stand on genesis, and are for payload 09.
use simplex_types::{
    Attestation, Bytes, Digest, Epoch, Notarize, Participant, Proposal, ResolverBody, Round,
    Sequence, Subject, View, Vote,
};
use std::alloc::{AllocError, Global};
use test_support::papers::{self, Paper, message, noise};
use test_support::reading::{member, number, payload};
use test_support::signing::{KEYS, signed_vote};

/// A packet that a line tells.
#[derive(Clone, Copy)]
pub(super) enum Load {
    /// No message.
    Noise,
    /// A certificate.
    Paper(Paper),
    /// A vote of the member on the subject.
    Vote(Participant, Subject),
    /// A notarize with a signature that is not the signer's.
    Forged(Participant, Subject),
    /// An answer to the last request of the engine, with a certificate.
    Answer(Paper),
    /// An answer to it that says nothing.
    NoAnswer,
}

fn round(epoch: u64) -> Round {
    Round {
        epoch: Epoch(epoch),
        view: View(1),
    }
}

fn proposal(epoch: u64, payload: Digest) -> Proposal {
    Proposal {
        round: round(epoch),
        parent: View(0),
        payload,
    }
}

/// The certificate that the words tell.
fn paper(words: &[&str]) -> Option<Paper> {
    match words {
        ["notarization", view] => Some(Paper::Notarized(number(view)?)),
        ["nullification", view] => Some(Paper::Nullified(number(view)?)),
        ["nullification", view, "by", "two"] => Some(Paper::Thin(number(view)?)),
        _ => None,
    }
}

fn notarize(byte: &str, epoch: u64) -> Option<Subject> {
    Some(Subject::Notarize(proposal(epoch, payload(byte)?)))
}

impl Load {
    /// What the words of a line tell.
    pub(super) fn read(words: &[&str]) -> Option<Load> {
        match words {
            ["noise"] => Some(Load::Noise),
            ["notarize", byte, "by", who] => Some(Load::Vote(member(who)?, notarize(byte, 0)?)),
            ["notarize", byte, "by", who, "in", "epoch", epoch] => {
                Some(Load::Vote(member(who)?, notarize(byte, number(epoch)?)?))
            }
            ["forged", "notarize", byte, "by", who] => {
                Some(Load::Forged(member(who)?, notarize(byte, 0)?))
            }
            ["nullify", "by", who] => Some(Load::Vote(member(who)?, Subject::Nullify(round(0)))),
            ["finalize", byte, "by", who] => {
                let subject = Subject::Finalize(proposal(0, payload(byte)?));
                Some(Load::Vote(member(who)?, subject))
            }
            ["answer", "noise"] => Some(Load::NoAnswer),
            ["answer", words @ ..] => Some(Load::Answer(paper(words)?)),
            words => Some(Load::Paper(paper(words)?)),
        }
    }
}

/// The vote, with no signature of its signer.
fn unsigned(vote: Vote) -> Vote {
    match vote {
        Vote::Notarize(
            Notarize {
                proposal,
                attestation,
            },
        ) => Vote::Notarize(Notarize {
            proposal,
            attestation: Attestation {
                signer: attestation.signer,
                signature: [0; 32],
            },
        }),
        other => other,
    }
}

fn answer(alloc: Global, id: u64, bytes: Bytes) -> Result<Bytes, AllocError> {
    message(alloc, id, ResolverBody::Response { bytes })
}

/// The bytes of the packet to an engine of so many members whose last request has this number. Who is not of them signs nothing.
pub(super) fn bytes_of(
    alloc: Global,
    members: u32,
    asked: u64,
    load: Load,
) -> Result<Bytes, AllocError> {
    match load {
        Load::Noise => noise(alloc),
        Load::Paper(paper) => papers::bytes_of(alloc, paper),
        Load::Vote(signer, subject) => match signed_vote(alloc, KEYS, members, signer, &subject)? {
            Some(vote) => Ok(Sequence::from_vec(vote.encode(alloc)?)),
            None => noise(alloc),
        },
        Load::Forged(signer, subject) => {
            match signed_vote(alloc, KEYS, members, signer, &subject)? {
                Some(vote) => Ok(Sequence::from_vec(unsigned(vote).encode(alloc)?)),
                None => noise(alloc),
            }
        }
        Load::Answer(paper) => answer(alloc, asked, papers::bytes_of(alloc, paper)?),
        Load::NoAnswer => answer(alloc, asked, noise(alloc)?),
    }
}
