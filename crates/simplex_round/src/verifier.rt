//! The candidates of one kind, checked together.
ghost use Rattle.std.specs.Prelude.{◌≡◌, ◌++◌, ◌∷◌, [], OnOk, OnErr, IfOk, filter};
ghost use Rattle.simplex_round.specs.Verifier.{is_ready, invalid_signers};

use simplex_values::{Participant, Subject};
use simplex_wire::{Attestation, Scheme};
use std::alloc::{AllocError, Global};
use std::marker::Model;

/// The candidates of one kind: those found valid, and those not checked yet.
#[derive(Debug, Drop)]
pub struct Verifier {
    quorum: u32,
    valid: Vec<Attestation>,
    waiting: Vec<Attestation>,
}

impl Model for Verifier {
    ghost use Rattle.simplex_round.specs.Verifier.{Pool};

    ghost Value = { Pool };

    ghost view = { λ v. record { quorum = v.quorum; valid = v.valid.items; waiting = v.waiting.items } };
}

impl Verifier {
    /// No candidates, of whom `q` make a quorum.
    pub fn new(alloc: Global, q: u32) -> Verifier
        ensures { result ≡ record { quorum = q; valid = []; waiting = [] } }
    {
        Verifier {
            quorum: q,
            valid: Vec::new(alloc),
            waiting: Vec::new(alloc),
        }
    }

    /// Takes a candidate.
    pub fn add(&mut self, attestation: Attestation) -> Result<(), AllocError>
        ensures ok { OnOk result (self.new
            ≡ record self.old { waiting = self.old.waiting ++ attestation ∷ [] }) }
        ensures err { OnErr result (self.new ≡ self.old) }
    {
        self.waiting.push(attestation)?;
        Ok(())
    }

    /// Whether so many candidates stand as a quorum has.
    pub fn ready(&self) -> bool
        ensures { result ≡ is_ready self.now }
    {
        self.valid.len() + self.waiting.len() >= self.quorum as usize
    }

    /// Checks those that were not checked: the signers of the invalid ones, which stand no longer.
    pub fn check<S: Scheme>(
        &mut self,
        alloc: Global,
        scheme: &S,
        subject: &Subject,
    ) -> Result<Vec<Participant>, AllocError>
        ensures invalid { IfOk result (λ invalid. invalid.items
            ≡ invalid_signers (S.verifies scheme.now subject.now) self.old.waiting) }
        ensures known { OnOk result (self.new ≡ record self.old {
          valid = self.old.valid ++ filter (S.verifies scheme.now subject.now) self.old.waiting;
          waiting = [];
        }) }
        ensures err { OnErr result (self.new ≡ self.old) }
    {
        let mut checked = Checked {
            valid: Vec::from_slice(alloc, &self.valid)?,
            invalid: Vec::new(alloc),
        };
        checked.take_all(scheme, subject, &self.waiting)?;
        self.valid = checked.valid;
        self.waiting.clear();
        Ok(checked.invalid)
    }
}

/// What checking finds.
#[derive(Drop)]
struct Checked {
    valid: Vec<Attestation>,
    invalid: Vec<Participant>,
}

impl Checked {
    fn take_all<S: Scheme>(
        &mut self,
        scheme: &S,
        subject: &Subject,
        waiting: &[Attestation],
    ) -> Result<(), AllocError>
        ensures valid { OnOk result (self.new.valid.items
            ≡ self.old.valid.items ++ filter (S.verifies scheme.now subject.now) waiting.now) }
        ensures invalid { OnOk result (self.new.invalid.items
            ≡ self.old.invalid.items
            ++ invalid_signers (S.verifies scheme.now subject.now) waiting.now) }
    {
        for attestation in waiting {
            if scheme.verify_attestation(subject, attestation) {
                self.valid.push(*attestation)?;
            } else {
                self.invalid.push(attestation.signer)?;
            }
        }
        Ok(())
    }
}
