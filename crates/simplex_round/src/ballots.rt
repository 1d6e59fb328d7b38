//! The accepted votes among which a member has one at most.
ghost use Rattle.std.specs.Prelude.{◌≡◌, [], None, OnOk, OnErr, IfOk, length, filter, map, not, IsTrue, nat_le};
ghost use Rattle.std.specs.Map.{values_of};
ghost use Rattle.simplex_wire.specs.Fields.{vote_attestation};
ghost use Rattle.simplex_round.specs.Votes.{vote_signer};
ghost use Rattle.simplex_round.specs.Known.{ballot_of};
ghost use Rattle.simplex_round.specs.Acceptance.{placed};
ghost use Rattle.simplex_round.specs.Ballots.{marked};
ghost use Rattle.simplex_wire.specs.Signatures.{rises_from};
ghost use Rattle.simplex_round.specs.Assembly.{is_candidate, is_unchecked, valid_on, scheme_by};

use crate::ballot::Ballot;
use crate::findings::Findings;
use simplex_values::{Participant, Subject};
use simplex_wire::{Scheme, Vote};
use std::alloc::{AllocError, Global};
use std::collections::BTreeMap;
use std::marker::Model;

/// Accepted votes by signer. Contracts see them as a list, in rising order of signer.
#[derive(Debug, Drop)]
pub struct Ballots {
    by_signer: BTreeMap<u32, Ballot>,
}

impl Model for Ballots {
    ghost use Rattle.std.specs.Prelude.{List};
    ghost use Rattle.std.specs.Map.{values_of};
    ghost use Rattle.simplex_round.specs.declared.ballot.Ballot.{Ballot};
    ghost use Rattle.simplex_round.specs.Ballots.{AtSigners};

    ghost Value = { List Ballot };

    ghost view = { λ b. values_of b.by_signer.entries };

    ghost invariant = { λ b. AtSigners b.by_signer.entries };
}

impl Ballots {
    /// No votes.
    pub fn new(alloc: Global) -> Ballots
        ensures { result ≡ [] }
    {
        Ballots {
            by_signer: BTreeMap::new(alloc),
        }
    }

    /// The vote of the member.
    #[tactic(auto, unfolding(crate::specs::Known::ballot_of), using(crate::proofs::Placed::found_at_signer))]
    pub fn get(&self, signer: Participant) -> Option<Ballot>
        ensures { result ≡ ballot_of self.now signer }
    {
        self.by_signer.get(&signer.0).copied()
    }

    /// Puts the vote in its place. Its signer has none yet.
    #[tactic(auto, using(crate::proofs::Placed::placed_values, crate::proofs::Placed::placed_at_signers))]
    pub fn accept(&mut self, vote: Vote) -> Result<(), AllocError>
        requires { ballot_of self.old (vote_signer vote) ≡ None }
        ensures ok { OnOk result (self.new
            ≡ placed (record { vote = vote; found = None }) self.old) }
        ensures err { OnErr result (self.new ≡ self.old) }
    {
        let signer = vote.signer();
        self.by_signer
            .insert(signer.0, Ballot { vote, found: None })?;
        Ok(())
    }

    /// Whether so many candidates stand on the subject.
    #[tactic(auto, using(crate::proofs::Counts::passing_fit))]
    pub fn has_candidates(&self, count: usize, subject: &Subject) -> bool
        ensures { result ≡ nat_le count (length (filter (is_candidate subject.now) self.now)) }
    {
        self.by_signer.len() >= count && self.candidates(subject) >= count
    }

    fn candidates(&self, subject: &Subject) -> usize
        ensures { result ≡ length (filter (is_candidate subject.now) self.now) }
    {
        self.by_signer
            .values()
            .filter(|ballot| ballot.is_candidate(subject))
            .count()
    }

    /// What checking the candidates finds that were not checked. Changes nothing.
    #[tactic(auto, unfolding(crate::specs::Assembly::valid_on))]
    pub fn findings<S: Scheme>(
        &self,
        alloc: Global,
        scheme: &S,
        subject: &Subject,
    ) -> Result<Findings, AllocError>
        ensures found { IfOk result (λ f. f.found.items
            ≡ map (λ b. S.verifies scheme.now subject.now (vote_attestation b.vote))
            (filter (is_unchecked subject.now) self.now)) }
        ensures invalid { IfOk result (λ f. f.invalid ≡ map (λ b. vote_signer b.vote)
            (filter (λ b. not (S.verifies scheme.now subject.now (vote_attestation b.vote)))
            (filter (is_unchecked subject.now) self.now))) }
        ensures valid { IfOk result (λ f. f.valid.items
            ≡ valid_on (scheme_by S.verifies S.recovers S.members scheme.now) subject.now self.now) }
        ensures rises { IfOk result (λ f. IsTrue (rises_from 0 f.valid.items)) }
    {
        let mut findings = Findings::new(alloc);
        for ballot in self.by_signer.values() {
            findings.take(scheme, subject, ballot)?;
        }
        Ok(findings)
    }

    /// Notes what was found of the candidates that were not checked, in their order.
    pub fn mark(&mut self, subject: &Subject, found: &[bool])
        ensures { self.new ≡ marked subject.now self.old found.now }
    {
        let mut left = found;
        self.by_signer.retain(|_, ballot| {
            left = ballot.note(subject, left);
            true
        });
    }
}
