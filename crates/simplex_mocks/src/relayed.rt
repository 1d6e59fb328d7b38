//! Payloads on their way.
use simplex_types::{Bytes, Digest};

/// A payload with its contents.
#[derive(Debug, PartialEq, Eq, Drop)]
pub struct Relayed {
    /// Its digest.
    pub payload: Digest,
    /// The bytes that it stands for.
    pub contents: Bytes,
}
