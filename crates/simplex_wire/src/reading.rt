//! Reading from left to right.
//!
//! A reading answers the value alone, or the first fault and its place.
ghost use Rattle.std.specs.Prelude.{◌≡◌, ◌-◌, ◌<◌, ◌≤◌, ◌^◌, ◌==◌, ℕ, IfOk, IfSome, None, Ok, length};
ghost use Rattle.simplex_wire.specs.Format.{Gives, GivesBy, GivesUnlessMemory, GivesItemsUnlessMemory, fault_at, raw, byte};
ghost use Rattle.simplex_wire.specs.Number.{IsLimit, number_from, number32, number64};
ghost use Rattle.simplex_wire.specs.Artifact.{flag, artifact};
ghost use Rattle.simplex_wire.specs.ResolverMessage.{wide, counted, body, resolver_message};
ghost use Rattle.simplex_wire.specs.Message.{round, proposal, attestation, notarize, nullify, finalize, vote, attestation_from, attestations_from, signatures, notarization, nullification, finalization, certificate};

use crate::artifact::Artifact;
use crate::attestation::Attestation;
use crate::certificate::{Certificate, Finalization, Notarization, Nullification};
use crate::error::{DecodeCause, DecodeError};
use crate::resolver::{ResolverBody, ResolverMessage};
use crate::signatures::Signatures;
use crate::vote::{Finalize, Notarize, Nullify, Vote};
use simplex_values::{Bytes, Digest, Epoch, Participant, Proposal, Round, View};
use std::alloc::Global;
use std::marker::Model;

/// What is left to read of a message, from left to right.
#[derive(Drop)]
pub struct Reader<'a> {
    bytes: &'a [u8],
    end: usize,
}

impl<'a> Model for Reader<'a> {
    ghost use Rattle.std.specs.Prelude.{◌≤◌, length};
    ghost use Rattle.simplex_wire.specs.Format.{Left};

    ghost Value = { Left };

    ghost view = { λ r. record { end = r.end; bytes = r.bytes.now } };

    ghost invariant = { λ r. length r.bytes.now ≤ r.end };
}

/// The number of at most `most` at the front, whose fault is at `place`.
#[tactic(auto, unfolding(crate::specs::Number::number_from), using(crate::proofs::Numbers::limit_above))]
fn number_at(place: u64, most: u64, bytes: &[u8]) -> Result<(u64, &[u8]), DecodeError>
    requires { IsLimit most }
    ensures read { GivesBy (λ x. (x.0, x.1.now)) result (number_from place most bytes.now) }
    ensures bound { IfOk result (λ x. x.0 ≤ most) }
    ensures shorter { IfOk result (λ x. length x.1.now ≤ length bytes.now) }
{
    let long = DecodeError::Fault {
        cause: DecodeCause::LongNumber,
        place,
    };
    let [byte, rest @ ..] = bytes else {
        return Err(DecodeError::Fault {
            cause: DecodeCause::Short,
            place,
        });
    };
    let byte = *byte;
    if byte < 128 {
        let value = u64::from(byte);
        return if most < value {
            Err(long)
        } else {
            Ok((value, rest))
        };
    }
    if most < 128 {
        return Err(long);
    }
    let (high, rest) = number_at(place, most / 128, rest)?;
    if high == 0 {
        return Err(long);
    }
    Ok((u64::from(byte - 128) + 128 * high, rest))
}

impl<'a> Reader<'a> {
    /// A reader with all of these bytes before it.
    pub fn new(bytes: &'a [u8]) -> Reader<'a>
        ensures { result ≡ record { end = length bytes.now; bytes = bytes.now } }
    {
        Reader {
            bytes,
            end: bytes.len(),
        }
    }

    /// The offset of the first byte that is left.
    fn place(&self) -> u64
        ensures { result ≡ self.now.end - length self.now.bytes }
    {
        (self.end - self.bytes.len()) as u64
    }

    /// The error that says this cause at the byte that would be read next.
    pub fn fault(&self, cause: DecodeCause) -> DecodeError
        ensures { result ≡ fault_at cause self.now }
    {
        DecodeError::Fault {
            cause,
            place: self.place(),
        }
    }

    /// The number at the front, if it has one byte or two, as most numbers have: what `number_at` would read.
    /// [one-spelling]
    #[tactic(auto, unfolding(crate::specs::Number::number_from))]
    fn short_number(&mut self) -> Option<u64>
        ensures read { IfSome result (λ n. (place most : ℕ) → 2 ^ 14 ≤ most
            → number_from place most self.old.bytes ≡ Ok (n, self.new.bytes)) }
        ensures bound { IfSome result (λ n. n < 2 ^ 14) }
        ensures end { self.new.end ≡ self.old.end }
        ensures none { result ≡ None → self.new ≡ self.old }
    {
        match self.bytes {
            [byte, rest @ ..] if *byte < 128 => {
                self.bytes = rest;
                Some(u64::from(*byte))
            }
            [low, high, rest @ ..] if 0 < *high && *high < 128 => {
                self.bytes = rest;
                Some(u64::from(*low - 128) + 128 * u64::from(*high))
            }
            _ => None,
        }
    }

    /// The number below 2^64 at the front, seven bits a byte, the lowest first. One that is cut off, longer than it need be or too
    /// great is an error.
    #[tactic(auto, using(crate::proofs::Numbers::limit64))]
    pub fn u64(&mut self) -> Result<u64, DecodeError>
        ensures { Gives self.new result (number64.reading self.old) }
    {
        if let Some(value) = self.short_number() {
            return Ok(value);
        }
        let (value, rest) = number_at(self.place(), u64::MAX, self.bytes)?;
        self.bytes = rest;
        Ok(value)
    }

    /// As [`Reader::u64`], of a number below 2^32.
    #[tactic(auto, using(crate::proofs::Numbers::limit32))]
    pub fn u32(&mut self) -> Result<u32, DecodeError>
        ensures { Gives self.new result (number32.reading self.old) }
    {
        if let Some(value) = self.short_number() {
            return Ok(value as u32);
        }
        let (value, rest) = number_at(self.place(), u64::from(u32::MAX), self.bytes)?;
        self.bytes = rest;
        Ok(value as u32)
    }

    /// The 32 bytes at the front, where they lie. [lent-digests]
    fn bytes32(&mut self) -> Result<&'a [u8; 32], DecodeError>
        ensures { GivesBy (λ x. (x.now, self.new)) result ((raw 32).reading self.old) }
    {
        let Some((front, rest)) = self.bytes.split_first_chunk() else {
            return Err(self.fault(DecodeCause::Short));
        };
        self.bytes = rest;
        Ok(front)
    }

    #[tactic(auto, unfolding(crate::specs::Message::round))]
    fn round(&mut self) -> Result<Round, DecodeError>
        ensures { Gives self.new result (round.reading self.old) }
    {
        let epoch = Epoch(self.u64()?);
        let view = View(self.u64()?);
        Ok(Round { epoch, view })
    }

    #[tactic(auto, unfolding(crate::specs::Message::proposal))]
    fn proposal(&mut self) -> Result<Proposal, DecodeError>
        ensures { Gives self.new result (proposal.reading self.old) }
    {
        let round = self.round()?;
        let parent = View(self.u64()?);
        let payload = Digest(*self.bytes32()?);
        Ok(Proposal {
            round,
            parent,
            payload,
        })
    }

    #[tactic(auto, unfolding(crate::specs::Message::attestation))]
    fn attestation(&mut self) -> Result<Attestation, DecodeError>
        ensures { Gives self.new result (attestation.reading self.old) }
    {
        let signer = Participant(self.u32()?);
        let signature = *self.bytes32()?;
        Ok(Attestation { signer, signature })
    }

    fn byte(&mut self) -> Result<u8, DecodeError>
        ensures { Gives self.new result (byte.reading self.old) }
    {
        let [first, rest @ ..] = self.bytes else {
            return Err(self.fault(DecodeCause::Short));
        };
        self.bytes = rest;
        Ok(*first)
    }

    #[tactic(auto, unfolding(crate::specs::Message::notarize))]
    fn notarize(&mut self) -> Result<Notarize, DecodeError>
        ensures { Gives self.new result (notarize.reading self.old) }
    {
        let proposal = self.proposal()?;
        let attestation = self.attestation()?;
        Ok(Notarize {
            proposal,
            attestation,
        })
    }

    #[tactic(auto, unfolding(crate::specs::Message::nullify))]
    fn nullify(&mut self) -> Result<Nullify, DecodeError>
        ensures { Gives self.new result (nullify.reading self.old) }
    {
        let round = self.round()?;
        let attestation = self.attestation()?;
        Ok(Nullify { round, attestation })
    }

    #[tactic(auto, unfolding(crate::specs::Message::finalize))]
    fn finalize(&mut self) -> Result<Finalize, DecodeError>
        ensures { Gives self.new result (finalize.reading self.old) }
    {
        let proposal = self.proposal()?;
        let attestation = self.attestation()?;
        Ok(Finalize {
            proposal,
            attestation,
        })
    }

    #[tactic(auto, unfolding(crate::specs::Message::vote))]
    pub(crate) fn vote(&mut self) -> Result<Vote, DecodeError>
        ensures { Gives self.new result (vote.reading self.old) }
    {
        let unknown = self.fault(DecodeCause::Tag);
        match self.byte()? {
            0 => Ok(Vote::Notarize(self.notarize()?)),
            1 => Ok(Vote::Nullify(self.nullify()?)),
            2 => Ok(Vote::Finalize(self.finalize()?)),
            _ => Err(unknown),
        }
    }

    /// The attestation at the front, whose signer is to be at least this. [one-spelling]
    #[tactic(auto, unfolding(crate::specs::Message::attestation_from))]
    fn attestation_from(&mut self, least: u64) -> Result<Attestation, DecodeError>
        ensures { Gives self.new result (attestation_from least self.old) }
    {
        let misplaced = self.fault(DecodeCause::Order);
        let signer = self.u32()?;
        if u64::from(signer) < least {
            return Err(misplaced);
        }
        let signature = *self.bytes32()?;
        Ok(Attestation {
            signer: Participant(signer),
            signature,
        })
    }

    fn attestations(&mut self, alloc: Global, count: u32) -> Result<Vec<Attestation>, DecodeError>
        ensures { GivesItemsUnlessMemory self.new result (attestations_from count 0 self.old) }
    {
        // Each takes 33 bytes or more, so that a count takes no room that the bytes left do not fill.
        let room = (count as usize).min(self.bytes.len() / 33);
        let Ok(mut attestations) = Vec::with_capacity(alloc, room) else {
            return Err(DecodeError::Memory);
        };
        let mut least = 0;
        for _ in 0..count {
            let attestation = self.attestation_from(least)?;
            least = u64::from(attestation.signer.0) + 1;
            attestations.push(attestation)?;
        }
        Ok(attestations)
    }

    #[tactic(auto, unfolding(crate::specs::Message::signatures))]
    fn signatures(&mut self, alloc: Global) -> Result<Signatures, DecodeError>
        ensures { GivesUnlessMemory self.new result (signatures.reading self.old) }
    {
        let count = self.u32()?;
        let attestations = self.attestations(alloc, count)?;
        Ok(Signatures::new(attestations))
    }

    #[tactic(auto, unfolding(crate::specs::Message::notarization))]
    fn notarization(&mut self, alloc: Global) -> Result<Notarization, DecodeError>
        ensures { GivesUnlessMemory self.new result (notarization.reading self.old) }
    {
        let proposal = self.proposal()?;
        let certificate = self.signatures(alloc)?;
        Ok(Notarization {
            proposal,
            certificate,
        })
    }

    #[tactic(auto, unfolding(crate::specs::Message::nullification))]
    fn nullification(&mut self, alloc: Global) -> Result<Nullification, DecodeError>
        ensures { GivesUnlessMemory self.new result (nullification.reading self.old) }
    {
        let round = self.round()?;
        let certificate = self.signatures(alloc)?;
        Ok(Nullification { round, certificate })
    }

    #[tactic(auto, unfolding(crate::specs::Message::finalization))]
    fn finalization(&mut self, alloc: Global) -> Result<Finalization, DecodeError>
        ensures { GivesUnlessMemory self.new result (finalization.reading self.old) }
    {
        let proposal = self.proposal()?;
        let certificate = self.signatures(alloc)?;
        Ok(Finalization {
            proposal,
            certificate,
        })
    }

    #[tactic(auto, unfolding(crate::specs::Message::certificate))]
    pub(crate) fn certificate(&mut self, alloc: Global) -> Result<Certificate, DecodeError>
        ensures { GivesUnlessMemory self.new result (certificate.reading self.old) }
    {
        let unknown = self.fault(DecodeCause::Tag);
        match self.byte()? {
            0 => Ok(Certificate::Notarization(self.notarization(alloc)?)),
            1 => Ok(Certificate::Nullification(self.nullification(alloc)?)),
            2 => Ok(Certificate::Finalization(self.finalization(alloc)?)),
            _ => Err(unknown),
        }
    }

    #[tactic(auto, unfolding(crate::specs::Artifact::flag))]
    fn flag(&mut self) -> Result<bool, DecodeError>
        ensures { Gives self.new result (flag.reading self.old) }
    {
        let unknown = self.fault(DecodeCause::Tag);
        match self.byte()? {
            0 => Ok(false),
            1 => Ok(true),
            _ => Err(unknown),
        }
    }

    #[tactic(auto, unfolding(crate::specs::Artifact::artifact, crate::specs::Artifact::certification))]
    pub(crate) fn artifact(&mut self, alloc: Global) -> Result<Artifact, DecodeError>
        ensures { GivesUnlessMemory self.new result (artifact.reading self.old) }
    {
        let unknown = self.fault(DecodeCause::Tag);
        match self.byte()? {
            0 => Ok(Artifact::Notarize(self.notarize()?)),
            1 => Ok(Artifact::Notarization(self.notarization(alloc)?)),
            2 => {
                let round = self.round()?;
                Ok(Artifact::Certification(round, self.flag()?))
            }
            3 => Ok(Artifact::Nullify(self.nullify()?)),
            4 => Ok(Artifact::Nullification(self.nullification(alloc)?)),
            5 => Ok(Artifact::Finalize(self.finalize()?)),
            6 => Ok(Artifact::Finalization(self.finalization(alloc)?)),
            _ => Err(unknown),
        }
    }

    /// Eight bytes, the highest first. [long-responses]
    fn wide(&mut self) -> Result<u64, DecodeError>
        ensures { Gives self.new result (wide.reading self.old) }
    {
        if self.bytes.len() < 8 {
            return Err(self.fault(DecodeCause::Short));
        }
        let (front, rest) = self.bytes.split_at(8);
        let mut array = [0; 8];
        array.copy_from_slice(front);
        self.bytes = rest;
        Ok(u64::from_be_bytes(array))
    }

    /// A length, and so many bytes.
    fn counted(&mut self, alloc: Global) -> Result<Bytes, DecodeError>
        ensures { GivesUnlessMemory self.new result (counted.reading self.old) }
    {
        let count = self.u32()? as usize;
        if self.bytes.len() < count {
            return Err(self.fault(DecodeCause::Short));
        }
        let (front, rest) = self.bytes.split_at(count);
        let bytes = match Vec::from_slice(alloc, front) {
            Ok(bytes) => bytes,
            Err(_) => return Err(DecodeError::Memory),
        };
        self.bytes = rest;
        Ok(Bytes::from_vec(bytes))
    }

    #[tactic(auto, unfolding(crate::specs::ResolverMessage::body))]
    fn body(&mut self, alloc: Global) -> Result<ResolverBody, DecodeError>
        ensures { GivesUnlessMemory self.new result (body.reading self.old) }
    {
        let unknown = self.fault(DecodeCause::Tag);
        match self.byte()? {
            0 => Ok(ResolverBody::Request {
                view: View(self.wide()?),
            }),
            1 => Ok(ResolverBody::Response {
                bytes: self.counted(alloc)?,
            }),
            2 => Ok(ResolverBody::Error),
            _ => Err(unknown),
        }
    }

    #[tactic(auto, unfolding(crate::specs::ResolverMessage::resolver_message))]
    pub(crate) fn resolver_message(&mut self, alloc: Global) -> Result<ResolverMessage, DecodeError>
        ensures { GivesUnlessMemory self.new result (resolver_message.reading self.old) }
    {
        let id = self.wide()?;
        let body = self.body(alloc)?;
        Ok(ResolverMessage { id, body })
    }

    /// Whether all has been read.
    pub fn is_empty(&self) -> bool
        ensures { result ≡ (length self.now.bytes == 0) }
    {
        self.bytes.is_empty()
    }
}
