//! The messages as bytes: `encode` and `decode`.
ghost use Rattle.std.specs.Prelude.{◌≡◌, ◌<◌, ◌≤◌, ◌^◌, List, ℕ, IfOk, Ok, Err, length};
ghost use Rattle.simplex_wire.specs.Format.{whole, IsUnlessMemory, NoneBeginsAnother};
ghost use Rattle.simplex_wire.specs.Fits.{FitsVote, FitsCertificate};
ghost use Rattle.simplex_wire.specs.Message.{vote, certificate};
ghost use Rattle.simplex_wire.specs.Artifact.{artifact, FitsArtifact};
ghost use Rattle.simplex_wire.specs.ResolverMessage.{resolver_message, FitsResolverMessage, response_length};
ghost use Rattle.simplex_wire.specs.declared.vote.Vote.{Vote};
ghost use Rattle.simplex_wire.specs.declared.certificate.Certificate.{Certificate};
ghost use Rattle.simplex_wire.specs.declared.artifact.Artifact.{Artifact};
ghost use Rattle.simplex_wire.specs.declared.resolver.ResolverMessage.{ResolverMessage};
ghost use Rattle.simplex_wire.specs.declared.resolver.ResolverBody.TheVariants.{Response};
ghost use Rattle.simplex_wire.specs.declared.error.DecodeError.TheVariants.{Fault};
ghost use Rattle.simplex_wire.specs.declared.error.DecodeCause.TheVariants.{LongNumber};

use crate::artifact::Artifact;
use crate::certificate::Certificate;
use crate::error::{DecodeCause, DecodeError};
use crate::reading::Reader;
use crate::resolver::ResolverMessage;
use crate::vote::Vote;
use std::alloc::{AllocError, Global};

/// The room that is taken before anything is written: the most bytes that a vote or its record may need, which is
/// also more than stands in a certificate before its signatures. A tag, three numbers of 64 bits, a payload, a
/// signer's number and a signature. [room-at-once]
const ROOM: usize = 1 + 3 * 10 + 32 + 5 + 32;

fn whole_vote(bytes: &[u8]) -> Result<Vote, DecodeError>
    ensures { result ≡ whole vote bytes.now }
{
    let mut reader = Reader::new(bytes);
    let vote = reader.vote()?;
    if !reader.is_empty() {
        return Err(reader.fault(DecodeCause::Rest));
    }
    Ok(vote)
}

impl Vote {
    /// The vote's one spelling.
    pub fn encode(&self, alloc: Global) -> Result<Vec<u8>, AllocError>
        ensures spelled { IfOk result (λ bytes. bytes.items ≡ vote.spelling self.now) }
        // It is read again.
        ensures again { IfOk result (λ bytes. whole vote bytes.items ≡ Ok self.now) }
    {
        let mut out = Vec::with_capacity(alloc, ROOM)?;
        self.push(&mut out)?;
        Ok(out)
    }

    /// The vote that the bytes spell, all of the bytes. Takes no memory.
    pub fn decode(bytes: &[u8]) -> Result<Vote, DecodeError>
        // What is read is spelled so.
        ensures found { IfOk result (λ v. FitsVote v × (bytes.now ≡ vote.spelling v)) }
        // What is spelled so is read.
        ensures only { (v : Vote) → FitsVote v → bytes.now ≡ vote.spelling v → result ≡ Ok v }
        // Which fault it is, and where.
        ensures exact { result ≡ whole vote bytes.now }
    {
        whole_vote(bytes)
    }
}

fn whole_certificate(alloc: Global, bytes: &[u8]) -> Result<Certificate, DecodeError>
    ensures { IsUnlessMemory result (whole certificate bytes.now) }
{
    let mut reader = Reader::new(bytes);
    let certificate = reader.certificate(alloc)?;
    if !reader.is_empty() {
        return Err(reader.fault(DecodeCause::Rest));
    }
    Ok(certificate)
}

impl Certificate {
    /// The certificate's one spelling.
    pub fn encode(&self, alloc: Global) -> Result<Vec<u8>, AllocError>
        ensures spelled { IfOk result (λ bytes. bytes.items ≡ certificate.spelling self.now) }
        // It is read again.
        ensures again { IfOk result (λ bytes. whole certificate bytes.items ≡ Ok self.now) }
    {
        let mut out = Vec::with_capacity(alloc, ROOM)?;
        self.push(&mut out)?;
        Ok(out)
    }

    /// The certificate that the bytes spell, all of the bytes.
    pub fn decode(alloc: Global, bytes: &[u8]) -> Result<Certificate, DecodeError>
        // What is read is spelled so.
        ensures found { IfOk result (λ it. FitsCertificate it
            × (bytes.now ≡ certificate.spelling it)) }
        // What is spelled so is read, unless memory runs out.
        ensures only { (it : Certificate) → FitsCertificate it
            → bytes.now ≡ certificate.spelling it → IsUnlessMemory result (Ok it) }
        // Which fault it is, and where.
        ensures exact { IsUnlessMemory result (whole certificate bytes.now) }
    {
        whole_certificate(alloc, bytes)
    }
}

fn whole_artifact(alloc: Global, bytes: &[u8]) -> Result<Artifact, DecodeError>
    ensures { IsUnlessMemory result (whole artifact bytes.now) }
{
    let mut reader = Reader::new(bytes);
    let artifact = reader.artifact(alloc)?;
    if !reader.is_empty() {
        return Err(reader.fault(DecodeCause::Rest));
    }
    Ok(artifact)
}

impl Artifact {
    /// The record's one spelling.
    pub fn encode(&self, alloc: Global) -> Result<Vec<u8>, AllocError>
        ensures spelled { IfOk result (λ bytes. bytes.items ≡ artifact.spelling self.now) }
        // It is read again.
        ensures again { IfOk result (λ bytes. whole artifact bytes.items ≡ Ok self.now) }
    {
        let mut out = Vec::with_capacity(alloc, ROOM)?;
        self.push(&mut out)?;
        Ok(out)
    }

    /// The record that the bytes spell, all of the bytes.
    pub fn decode(alloc: Global, bytes: &[u8]) -> Result<Artifact, DecodeError>
        // What is read is spelled so.
        ensures found { IfOk result (λ it. FitsArtifact it × (bytes.now ≡ artifact.spelling it)) }
        // What is spelled so is read, unless memory runs out.
        ensures only { (it : Artifact) → FitsArtifact it → bytes.now ≡ artifact.spelling it
            → IsUnlessMemory result (Ok it) }
        // Which fault it is, and where.
        ensures exact { IsUnlessMemory result (whole artifact bytes.now) }
    {
        whole_artifact(alloc, bytes)
    }
}

fn whole_resolver_message(alloc: Global, bytes: &[u8]) -> Result<ResolverMessage, DecodeError>
    ensures { IsUnlessMemory result (whole resolver_message bytes.now) }
{
    let mut reader = Reader::new(bytes);
    let message = reader.resolver_message(alloc)?;
    if !reader.is_empty() {
        return Err(reader.fault(DecodeCause::Rest));
    }
    Ok(message)
}

impl ResolverMessage {
    /// The message's one spelling. The length of a response is written in full, also where it is 2^32 or more,
    /// and then `decode` answers `LongNumber` there.
    pub fn encode(&self, alloc: Global) -> Result<Vec<u8>, AllocError>
        ensures spelled { IfOk result (λ bytes. bytes.items ≡ resolver_message.spelling self.now) }
        // It is read again, where a response has fewer than 2^32 bytes.
        ensures again { IfOk result (λ bytes. response_length self.now < 2 ^ 32
            → whole resolver_message bytes.items ≡ Ok self.now) }
    {
        let mut out = Vec::new(alloc);
        self.push(&mut out)?;
        Ok(out)
    }

    /// The message that the bytes spell, all of the bytes.
    pub fn decode(alloc: Global, bytes: &[u8]) -> Result<ResolverMessage, DecodeError>
        // What is read is spelled so.
        ensures found { IfOk result (λ it. FitsResolverMessage it
            × (bytes.now ≡ resolver_message.spelling it)) }
        // What is spelled so is read, unless memory runs out.
        ensures only { (it : ResolverMessage) → FitsResolverMessage it
            → bytes.now ≡ resolver_message.spelling it → IsUnlessMemory result (Ok it) }
        // Which fault it is, and where.
        ensures exact { IsUnlessMemory result (whole resolver_message bytes.now) }
    {
        whole_resolver_message(alloc, bytes)
    }
}

/// No spelling of a vote begins another.
pub fn no_vote_begins_another()
    ensures { NoneBeginsAnother FitsVote vote }
{}

/// No spelling of a certificate begins another.
pub fn no_certificate_begins_another()
    ensures { NoneBeginsAnother FitsCertificate certificate }
{}

/// No spelling of a journal record begins another.
pub fn no_artifact_begins_another()
    ensures { NoneBeginsAnother FitsArtifact artifact }
{}

/// No spelling of a resolver message begins another.
pub fn no_resolver_message_begins_another()
    ensures { NoneBeginsAnother FitsResolverMessage resolver_message }
{}

/// What is written of a response of 2^32 bytes or more is not read: its length is a number that is too large,
/// at byte 9.
pub fn no_long_response_is_read()
    ensures { (id : ℕ) (bytes : List ℕ) → id < 2 ^ 64 → 2 ^ 32 ≤ length bytes → whole resolver_message
        (resolver_message.spelling (record { id = id; body = Response bytes }))
        ≡ Err (Fault LongNumber 9) }
{}
