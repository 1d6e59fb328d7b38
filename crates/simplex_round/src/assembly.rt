//! Certificates from attestations.
ghost use Rattle.std.specs.Prelude.{◌≡◌, IfOk, IsTrue, None, nat_le, length, if◌then◌else◌};
ghost use Rattle.std.specs.Option.{option_map};
ghost use Rattle.std.specs.Result.{result_ok};
ghost use Rattle.simplex_wire.specs.Certified.{assembled};
ghost use Rattle.simplex_wire.specs.Signatures.{rises_from};
ghost use Rattle.simplex_round.specs.Votes as votes;

use crate::votes::certificate_on;
use simplex_values::Subject;
use simplex_wire::{AssemblyError, Attestation, Certificate, Scheme};
use std::alloc::{AllocError, Global};

/// The certificate of these attestations, where they are a quorum and the scheme makes one of them. There is
/// no memory for one of 2^32 attestations.
pub fn assemble<S: Scheme>(
    alloc: Global,
    scheme: &S,
    subject: &Subject,
    quorum: usize,
    valid: &[Attestation],
) -> Result<Option<Certificate>, AllocError>
    requires { IsTrue (rises_from 0 valid.now) }
    ensures { IfOk result (λ certificate. certificate ≡ (if nat_le quorum (length valid.now)
        then option_map (votes.certificate_on subject.now)
        (result_ok (assembled (S.recovers scheme.now)
        (S.members scheme.now) valid.now)) else None)) }
{
    if valid.len() < quorum {
        return Ok(None);
    }
    if valid.len() > u32::MAX as usize {
        return Err(AllocError);
    }
    match scheme.assemble(alloc, valid) {
        Ok(certificate) => Ok(Some(certificate_on(subject, certificate))),
        Err(AssemblyError::Memory) => Err(AllocError),
        Err(_) => Ok(None),
    }
}
