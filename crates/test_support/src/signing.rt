//! Votes that members sign with keys of a base.
ghost use Rattle.std.specs.Prelude.{◌<◌};

use simplex_types::Keyed;
use simplex_values::{Participant, Subject};
use simplex_wire::{Attestation, Finalize, Notarize, Nullify, Scheme, Vote};
use std::alloc::{AllocError, Global};

/// The base of the members' keys.
pub const KEYS: u64 = 7;

/// The base of keys that are not the members'.
pub const OTHER_KEYS: u64 = 8;

/// What one of so many members signs with its key from the base on, if it is one of them.
pub fn attested(
    alloc: Global,
    key_base: u64,
    members: u32,
    signer: Participant,
    subject: &Subject,
) -> Result<Option<Attestation>, AllocError> {
    if signer.0 >= members {
        return Ok(None);
    }
    let scheme = Keyed::new(alloc, key_base, members, Some(signer))?;
    Ok(scheme.sign(subject))
}

fn vote_on(subject: &Subject, attestation: Attestation) -> Vote {
    match *subject {
        Subject::Notarize(proposal) => Vote::Notarize(Notarize {
            proposal,
            attestation,
        }),
        Subject::Nullify(round) => Vote::Nullify(Nullify { round, attestation }),
        Subject::Finalize(proposal) => Vote::Finalize(Finalize {
            proposal,
            attestation,
        }),
    }
}

/// The vote of one of so many members, signed with its key from the base on, if it is one of them.
pub fn signed_vote(
    alloc: Global,
    key_base: u64,
    members: u32,
    signer: Participant,
    subject: &Subject,
) -> Result<Option<Vote>, AllocError> {
    match attested(alloc, key_base, members, signer, subject)? {
        Some(attestation) => Ok(Some(vote_on(subject, attestation))),
        None => Ok(None),
    }
}
