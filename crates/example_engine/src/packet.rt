//! What one engine sends another.
use simplex::types::{Bytes, Channel, Participant};

/// Bytes on their way, with the member that sent them: whoever delivers a packet answers for that.
#[derive(Drop)]
pub(crate) struct Packet {
    pub(crate) from: Participant,
    pub(crate) channel: Channel,
    pub(crate) bytes: Bytes,
}
