//! The certificate that a packet holds.
ghost use Rattle.std.specs.Prelude.{◌≡◌, IfOk};
ghost use Rattle.std.specs.Option.{option_to_list};
ghost use Rattle.simplex_wire.specs.Format.{whole};
ghost use Rattle.simplex_wire.specs.Message as format;
ghost use Rattle.simplex_wire.specs.ResolverMessage.{resolver_message};
ghost use Rattle.law_run.specs.Backed as backed;

use simplex_types::{Certificate, Channel, DecodeError, ResolverBody, ResolverMessage};
use std::alloc::{AllocError, Global};

/// The certificate that bytes on the channel are, or that a response among them carries.
pub(crate) fn certificate_on(
    alloc: Global,
    channel: Channel,
    bytes: &[u8],
) -> Result<Option<Certificate>, AllocError>
    ensures { IfOk result (λ certificate. option_to_list certificate
        ≡ backed.certificate_on channel bytes.now) }
{
    match channel {
        Channel::Vote => Ok(None),
        Channel::Certificate => certificate_in(alloc, bytes),
        Channel::Resolver => certificate_in_message(alloc, bytes),
    }
}

// The certificate that the bytes are.
fn certificate_in(alloc: Global, bytes: &[u8]) -> Result<Option<Certificate>, AllocError>
    ensures { IfOk result (λ certificate. option_to_list certificate
        ≡ backed.read_certificate (whole format.certificate bytes.now)) }
{
    match Certificate::decode(alloc, bytes) {
        Ok(certificate) => Ok(Some(certificate)),
        Err(DecodeError::Fault { .. }) => Ok(None),
        Err(DecodeError::Memory) => Err(AllocError),
    }
}

// The certificate of a response that the bytes are.
fn certificate_in_message(alloc: Global, bytes: &[u8]) -> Result<Option<Certificate>, AllocError>
    ensures { IfOk result (λ certificate. option_to_list certificate
        ≡ backed.in_response (whole resolver_message bytes.now)) }
{
    match ResolverMessage::decode(alloc, bytes) {
        Ok(message) => certificate_in_body(alloc, &message.body),
        Err(DecodeError::Fault { .. }) => Ok(None),
        Err(DecodeError::Memory) => Err(AllocError),
    }
}

// The certificate of a response.
fn certificate_in_body(
    alloc: Global,
    body: &ResolverBody,
) -> Result<Option<Certificate>, AllocError>
    ensures { IfOk result (λ certificate. option_to_list certificate ≡ backed.in_body body.now) }
{
    match body {
        ResolverBody::Response { bytes } => certificate_in(alloc, bytes.as_slice()),
        ResolverBody::Request { .. } | ResolverBody::Error => Ok(None),
    }
}
