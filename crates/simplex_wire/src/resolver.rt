//! What members ask each other for, and answer.
use simplex_values::{Bytes, Keep, View};
use std::alloc::{AllocError, Global};

/// A message of the resolver channel.
#[derive(Debug, PartialEq, Eq, Drop)]
pub struct ResolverMessage {
    /// The number of the request, which the answer repeats.
    pub id: u64,
    /// What it says.
    pub body: ResolverBody,
}

/// A request, or one of its answers.
#[derive(Debug, PartialEq, Eq, Drop)]
pub enum ResolverBody {
    /// A certificate for the view is asked for.
    Request { view: View },
    /// The bytes of a certificate.
    Response { bytes: Bytes },
    /// There is none.
    Error,
}

impl Keep for ResolverBody {
    fn keep(&self, alloc: Global) -> Result<ResolverBody, AllocError> {
        match self {
            ResolverBody::Request { view } => Ok(ResolverBody::Request { view: *view }),
            ResolverBody::Response { bytes } => Ok(ResolverBody::Response {
                bytes: bytes.keep(alloc)?,
            }),
            ResolverBody::Error => Ok(ResolverBody::Error),
        }
    }
}

impl Keep for ResolverMessage {
    fn keep(&self, alloc: Global) -> Result<ResolverMessage, AllocError> {
        Ok(ResolverMessage {
            id: self.id,
            body: self.body.keep(alloc)?,
        })
    }
}
