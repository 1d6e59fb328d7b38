//! What bytes are, where they are a message as a whole.
ghost use Rattle.std.specs.Prelude.{◌≡◌, IfOk};
ghost use Rattle.std.specs.Result.{result_ok};
ghost use Rattle.simplex_wire.specs.Format.{whole};
ghost use Rattle.simplex_wire.specs.Message as format;
ghost use Rattle.simplex_wire.specs.ResolverMessage.{resolver_message};

use simplex_types::{Certificate, DecodeError, ResolverMessage, Vote};
use std::alloc::{AllocError, Global};

/// The vote that the bytes are.
pub(crate) fn vote_in(bytes: &[u8]) -> Option<Vote>
    ensures { result ≡ result_ok (whole format.vote bytes.now) }
{
    Vote::decode(bytes).ok()
}

/// The certificate that the bytes are.
pub(crate) fn certificate_in(alloc: Global, bytes: &[u8]) -> Result<Option<Certificate>, AllocError>
    ensures { IfOk result (λ certificate. certificate
        ≡ result_ok (whole format.certificate bytes.now)) }
{
    match Certificate::decode(alloc, bytes) {
        Ok(certificate) => Ok(Some(certificate)),
        Err(DecodeError::Fault { .. }) => Ok(None),
        Err(DecodeError::Memory) => Err(AllocError),
    }
}

/// The message of the resolver channel that the bytes are.
pub(crate) fn message_in(alloc: Global, bytes: &[u8]) -> Result<Option<ResolverMessage>, AllocError>
    ensures { IfOk result (λ message. message ≡ result_ok (whole resolver_message bytes.now)) }
{
    match ResolverMessage::decode(alloc, bytes) {
        Ok(message) => Ok(Some(message)),
        Err(DecodeError::Fault { .. }) => Ok(None),
        Err(DecodeError::Memory) => Err(AllocError),
    }
}
