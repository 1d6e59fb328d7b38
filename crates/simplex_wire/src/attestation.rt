//! Attestations.
use simplex_values::{Keep, Participant};
use std::alloc::{AllocError, Global};

/// A signature, and whose it is.
#[derive(Clone, Copy, Debug, PartialEq, Eq)]
pub struct Attestation {
    /// The member that signed.
    pub signer: Participant,
    /// Its signature.
    pub signature: [u8; 32],
}

impl Keep for Attestation {
    fn keep(&self, _alloc: Global) -> Result<Attestation, AllocError> {
        Ok(*self)
    }

    fn keep_all(items: &[Attestation], alloc: Global) -> Result<Vec<Attestation>, AllocError> {
        Vec::from_slice(alloc, items)
    }
}
