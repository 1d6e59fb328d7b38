//! What checking votes finds.
ghost use Rattle.std.specs.Prelude.{◌≡◌, ◌++◌, ◌∷◌, [], OnOk, not, ◌&&◌, if◌then◌else◌};
ghost use Rattle.simplex_wire.specs.Fields.{vote_attestation};
ghost use Rattle.simplex_round.specs.Votes.{vote_signer};
ghost use Rattle.simplex_round.specs.Assembly.{is_unchecked, is_valid, checked, scheme_by};

use crate::ballot::Ballot;
use simplex_values::{Participant, Sequence, Subject};
use simplex_wire::{Attestation, Scheme};
use std::alloc::{AllocError, Global};

/// What checking the votes on a subject finds, in their order.
#[derive(Debug, Drop)]
pub struct Findings {
    /// Of each vote that was not checked before, whether it is valid.
    pub found: Vec<bool>,
    /// The signers of those that are not.
    pub invalid: Sequence<Participant>,
    /// The attestations of the valid ones, those checked before too.
    pub valid: Vec<Attestation>,
}

impl Findings {
    /// Nothing yet.
    pub fn new(alloc: Global) -> Findings
        ensures found { result.found.items ≡ [] }
        ensures invalid { result.invalid ≡ [] }
        ensures valid { result.valid.items ≡ [] }
    {
        Findings {
            found: Vec::new(alloc),
            invalid: Sequence::new(alloc),
            valid: Vec::new(alloc),
        }
    }

    /// Adds what checking this vote finds, if it is on the subject.
    #[tactic(auto, unfolding(crate::specs::Assembly::is_unchecked, crate::specs::Assembly::is_valid, crate::specs::Assembly::checked))]
    pub fn take<S: Scheme>(
        &mut self,
        scheme: &S,
        subject: &Subject,
        ballot: &Ballot,
    ) -> Result<(), AllocError>
        ensures found { OnOk result (self.new.found.items ≡ self.old.found.items
            ++ (if is_unchecked subject.now ballot.now
            then S.verifies scheme.now subject.now
            (vote_attestation ballot.now.vote) ∷ [] else [])) }
        ensures invalid { OnOk result (self.new.invalid ≡ self.old.invalid
            ++ (if is_unchecked subject.now ballot.now
            && not (S.verifies scheme.now subject.now (vote_attestation ballot.now.vote))
            then vote_signer ballot.now.vote ∷ [] else [])) }
        ensures valid { OnOk result (self.new.valid.items ≡ self.old.valid.items
            ++ (if is_valid subject.now
            (checked (scheme_by S.verifies S.recovers S.members scheme.now) subject.now ballot.now)
            then vote_attestation ballot.now.vote ∷ [] else [])) }
    {
        let attestation = ballot.vote.attestation();
        if !ballot.is_unchecked(subject) {
            if ballot.is_valid(subject) {
                self.valid.push(*attestation)?;
            }
            return Ok(());
        }
        let is_valid = scheme.verify_attestation(subject, attestation);
        self.found.push(is_valid)?;
        if is_valid {
            self.valid.push(*attestation)?;
        } else {
            self.invalid.push(attestation.signer)?;
        }
        Ok(())
    }
}
