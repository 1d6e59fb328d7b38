//! The votes that honest members sent, and what is forged.
#![tactic(auto, unfolding(crate::specs::Votes::has_vote, crate::specs::Forgeries::is_unsent, model_run::specs::Forged::signed_in))]

ghost use Rattle.std.specs.Prelude.{◌≡◌, ◌==◌, ◌&&◌, ◌||◌, ◌<◌, ◌^◌, ◌∷◌, ℕ, [], false, length, map, IfOk, OnOk, filter_map, if◌then◌else◌};
ghost use Rattle.std.specs.List.{list_any};
ghost use Rattle.simplex_values.specs.declared.proposal.Subject.{Subject};
ghost use Rattle.simplex_wire.specs.Format.{whole};
ghost use Rattle.simplex_wire.specs.Message as format;
ghost use Rattle.simplex_wire.specs.ResolverMessage.{resolver_message};
ghost use Rattle.model_run.specs.Kinds.{are_honest};
ghost use Rattle.model_run.specs.Forged as forged;
ghost use Rattle.model_run.specs.Forged.{signed};
ghost use Rattle.simplex_records.specs.Votes.{vote_in, is_on, has_vote, IndexStands};
ghost use Rattle.simplex_records.specs.Forgeries.{is_unsent, first_unsent};

use crate::forgery::Forgery;
use crate::kinds::{is_faulty_member, is_honest};
use crate::reading::{certificate_in, message_in, vote_in};
use crate::subjects::Subjects;
use simplex_transcript::{Packet, Setup};
use simplex_types::{Attestation, Certificate, Channel, Keyed, ResolverBody, Scheme, Subject};
use std::alloc::{AllocError, Global};

/// For each member the subjects that it voted for, where it is honest, and how its signatures are verified.
/// [sent-votes-where-needed]
#[derive(Drop)]
pub struct SentVotes {
    pub(crate) scheme: Keyed,
    pub(crate) members: Vec<Subjects>,
}

impl SentVotes {
    /// None, of the members of the setup.
    pub fn new(alloc: Global, setup: &Setup) -> Result<SentVotes, AllocError>
        requires some { are_honest setup.now ≡ false }
        requires few { length setup.now.members < 2 ^ 32 }
        ensures { IfOk result (λ votes. IndexStands votes setup.now []) }
    {
        let members = setup.members.len();
        Ok(SentVotes {
            scheme: Keyed::new(alloc, setup.key_base, members as u32, None)?,
            members: blank_members(alloc, members)?,
        })
    }

    /// Takes in the votes among the packets of a member.
    pub fn add(&mut self, alloc: Global, member: u64, packets: &[Packet]) -> Result<(), AllocError>
        ensures scheme { self.new.scheme ≡ self.old.scheme }
        ensures count { length self.new.members.items ≡ length self.old.members.items }
        ensures votes { OnOk result (member < length self.old.members.items → (at : ℕ) (s : Subject)
            → has_vote self.new.members.items at s
            ≡ (if member == at then list_any (is_on s) (filter_map vote_in packets.now)
            || has_vote self.old.members.items at s
            else has_vote self.old.members.items at s)) }
    {
        let at = member as usize;
        if at < self.members.len() {
            self.members[at].add(alloc, packets)?;
        }
        Ok(())
    }

    /// The first attestation in packets of faulty members that is forged. [forged]
    pub fn first_forged(
        &self,
        alloc: Global,
        setup: &Setup,
        packets: &[Packet],
    ) -> Result<Option<Forgery>, AllocError>
        ensures { IfOk result (λ found. found
            ≡ first_unsent self.now setup.now (forged.signed_by_faulty setup.now packets.now)) }
    {
        for packet in packets {
            if let Some(found) = self.forged_in(alloc, setup, packet)? {
                return Ok(Some(found));
            }
        }
        Ok(None)
    }

    // The first in a packet, where it is a faulty member's.
    fn forged_in(
        &self,
        alloc: Global,
        setup: &Setup,
        packet: &Packet,
    ) -> Result<Option<Forgery>, AllocError>
        ensures { IfOk result (λ found. found
            ≡ first_unsent self.now setup.now
            (forged.signed_by_faulty setup.now (packet.now ∷ []))) }
    {
        if !is_faulty_member(setup, packet.from.member) {
            return Ok(None);
        }
        self.forged_bytes(alloc, setup, packet.channel, packet.bytes.as_slice())
    }

    // The first in the bytes of a packet.
    fn forged_bytes(
        &self,
        alloc: Global,
        setup: &Setup,
        channel: Channel,
        bytes: &[u8],
    ) -> Result<Option<Forgery>, AllocError>
        ensures { IfOk result (λ found. found
            ≡ first_unsent self.now setup.now (forged.signed_in channel bytes.now)) }
    {
        match channel {
            Channel::Vote => Ok(self.forged_vote(setup, bytes)),
            Channel::Certificate => self.forged_certificate(alloc, setup, bytes),
            Channel::Resolver => self.forged_message(alloc, setup, bytes),
        }
    }

    fn forged_vote(&self, setup: &Setup, bytes: &[u8]) -> Option<Forgery>
        ensures { result ≡ first_unsent self.now setup.now (forged.signed_in_vote
            (whole format.vote bytes.now)) }
    {
        let vote = vote_in(bytes)?;
        self.forged_by(setup, &vote.subject(), vote.attestation())
    }

    fn forged_certificate(
        &self,
        alloc: Global,
        setup: &Setup,
        bytes: &[u8],
    ) -> Result<Option<Forgery>, AllocError>
        ensures { IfOk result (λ found. found
            ≡ first_unsent self.now setup.now
            (forged.signed_in_certificate (whole format.certificate bytes.now))) }
    {
        match certificate_in(alloc, bytes)? {
            None => Ok(None),
            Some(certificate) => Ok(self.forged_among(
                setup,
                &certificate.subject(),
                certificate.signatures().as_slice(),
            )),
        }
    }

    fn forged_message(
        &self,
        alloc: Global,
        setup: &Setup,
        bytes: &[u8],
    ) -> Result<Option<Forgery>, AllocError>
        ensures { IfOk result (λ found. found
            ≡ first_unsent self.now setup.now
            (forged.signed_in_message (whole resolver_message bytes.now))) }
    {
        match message_in(alloc, bytes)? {
            None => Ok(None),
            Some(message) => self.forged_body(alloc, setup, &message.body),
        }
    }

    fn forged_body(
        &self,
        alloc: Global,
        setup: &Setup,
        body: &ResolverBody,
    ) -> Result<Option<Forgery>, AllocError>
        ensures { IfOk result (λ found. found
            ≡ first_unsent self.now setup.now (forged.signed_in_body body.now)) }
    {
        match body {
            ResolverBody::Response { bytes } => {
                self.forged_certificate(alloc, setup, bytes.as_slice())
            }
            ResolverBody::Request { .. } | ResolverBody::Error => Ok(None),
        }
    }

    // The first of these attestations on the subject.
    fn forged_among(
        &self,
        setup: &Setup,
        subject: &Subject,
        attestations: &[Attestation],
    ) -> Option<Forgery>
        ensures { result ≡ first_unsent self.now setup.now (map
            (signed subject.now) attestations.now) }
    {
        for attestation in attestations {
            if let Some(found) = self.forged_by(setup, subject, attestation) {
                return Some(found);
            }
        }
        None
    }

    // What is told of the attestation, where it is forged.
    fn forged_by(
        &self,
        setup: &Setup,
        subject: &Subject,
        attestation: &Attestation,
    ) -> Option<Forgery>
        ensures { result ≡ first_unsent self.now setup.now
            (signed subject.now attestation.now ∷ []) }
    {
        let member = u64::from(attestation.signer.0);
        if self.is_unsent(setup, member, subject, attestation) {
            Some(Forgery {
                member,
                subject: *subject,
            })
        } else {
            None
        }
    }

    // Whether the honest member did not send it, and it verifies. What was sent is looked up first: a signature is
    // dear.
    fn is_unsent(
        &self,
        setup: &Setup,
        member: u64,
        subject: &Subject,
        attestation: &Attestation,
    ) -> bool
        requires { member ≡ attestation.now.signer }
        ensures { result ≡ is_unsent self.now setup.now (signed subject.now attestation.now) }
    {
        is_honest(setup, member)
            && !self.contains(member, subject)
            && self.scheme.verify_attestation(subject, attestation)
    }

    // Whether the member voted for the subject.
    fn contains(&self, member: u64, subject: &Subject) -> bool
        ensures { result ≡ has_vote self.now.members.items member subject.now }
    {
        match self.members.get(member as usize) {
            None => false,
            Some(subjects) => subjects.contains(subject),
        }
    }
}

// Of so many members, none of which voted.
fn blank_members(alloc: Global, count: usize) -> Result<Vec<Subjects>, AllocError>
    ensures count { IfOk result (λ members. length members.items ≡ count) }
    ensures blank { IfOk result (λ members. (at : ℕ) (s : Subject)
        → has_vote members.items at s ≡ false) }
{
    let mut members = Vec::new(alloc);
    for _ in 0..count {
        members.push(Subjects::new(alloc))?;
    }
    Ok(members)
}
