//! Votes, certificates and the other messages: as values, as bytes, and as signed by a scheme.
//!
//! Each message has one spelling. Reading takes all bytes, and answers the first fault and its place.
#![tactic(auto)]

mod artifact;
mod attestation;
mod certificate;
mod codec;
mod error;
mod reading;
mod resolver;
mod samples;
mod scheme;
mod signatures;
mod signing;
mod vote;
mod writing;

pub use artifact::Artifact;
pub use attestation::Attestation;
pub use certificate::{Certificate, CertificateKind, Finalization, Notarization, Nullification};
pub use codec::{
    no_artifact_begins_another, no_certificate_begins_another, no_long_response_is_read,
    no_resolver_message_begins_another, no_vote_begins_another,
};
pub use error::{DecodeCause, DecodeError};
pub use reading::Reader;
pub use resolver::{ResolverBody, ResolverMessage};
pub use samples::{numbers_come_out, quorums_come_out};
pub use scheme::{AssemblyError, Scheme, a_verifying_quorum_certifies};
pub use signatures::Signatures;
pub use vote::{Finalize, Notarize, Nullify, Vote};
pub use writing::push_number;
