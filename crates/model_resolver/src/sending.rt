//! What a resolver sends to one member.
ghost use Rattle.std.specs.Prelude.{◌≡◌, IfOk};
ghost use Rattle.model_resolver.specs.Sends.{asked_in, view_of_body, sending, send_call};

use simplex_messages::Call;
use simplex_types::{
    Bytes, Channel, DecodeError, Participant, Recipients, ResolverBody, ResolverMessage,
};
use std::alloc::{AllocError, Global};

/// Bytes for a member.
#[derive(Drop)]
pub struct Sending {
    /// The view that they ask for.
    pub view: u64,
    /// The member.
    pub to: Participant,
    /// The message, as bytes.
    pub bytes: Bytes,
}

impl Sending {
    /// The bytes for the member.
    pub fn new(alloc: Global, to: Participant, bytes: Bytes) -> Result<Sending, AllocError>
        ensures { IfOk result (λ sent. sent ≡ sending to bytes) }
    {
        let view = asked_in(alloc, bytes.as_slice())?;
        Ok(Sending { view, to, bytes })
    }

    /// As a call on the resolver channel.
    pub fn into_call(self) -> Call
        ensures { result ≡ send_call self }
    {
        let Sending { to, bytes, .. } = self;
        Call::Send {
            channel: Channel::Resolver,
            recipients: Recipients::One(to),
            bytes,
        }
    }
}

/// The view that the bytes ask for; an answer asks for none, and counts as view 0.
#[tactic(auto, unfolding(crate::specs::Sends::asked_in))]
fn asked_in(alloc: Global, bytes: &[u8]) -> Result<u64, AllocError>
    ensures { IfOk result (λ view. view ≡ asked_in bytes.now) }
{
    match ResolverMessage::decode(alloc, bytes) {
        Ok(message) => Ok(view_of(&message.body)),
        Err(DecodeError::Fault { .. }) => Ok(0),
        Err(DecodeError::Memory) => Err(AllocError),
    }
}

/// The view that the body asks for, or 0.
fn view_of(body: &ResolverBody) -> u64
    ensures { result ≡ view_of_body body.now }
{
    match body {
        ResolverBody::Request { view } => view.0,
        ResolverBody::Response { .. } | ResolverBody::Error => 0,
    }
}
