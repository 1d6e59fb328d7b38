//! What a step gave, in words.
use simplex_messages::{Call, StepOut};
use simplex_types::{Channel, ResolverBody, ResolverMessage};
use std::alloc::Global;
use std::test::Fail;

/// A message of the resolver channel.
fn body_word(alloc: Global, bytes: &[u8]) -> &'static str {
    match ResolverMessage::decode(alloc, bytes) {
        Ok(message) => match message.body {
            ResolverBody::Request { .. } => "request ",
            ResolverBody::Response { .. } => "response ",
            ResolverBody::Error => "error ",
        },
        Err(_) => "noise ",
    }
}

fn call_word(alloc: Global, call: &Call) -> &'static str {
    match call {
        Call::Append(_, _) => "append ",
        Call::Sync(_) => "sync ",
        Call::Prune(_) => "prune ",
        Call::Send { channel, bytes, .. } => match channel {
            Channel::Vote => "vote ",
            Channel::Certificate => "certificate ",
            Channel::Resolver => body_word(alloc, bytes.as_slice()),
        },
        Call::Report(_) => "report ",
        Call::Relay { .. } => "relay ",
        Call::Block(..) => "block ",
    }
}

/// A word for each call of the step, and then for each other thing that it gave: an empty one gave nothing.
pub(super) fn told(alloc: Global, out: &StepOut) -> Result<String, Fail> {
    let mut words = String::new(alloc);
    for call in out.calls.as_slice() {
        words.push_str(call_word(alloc, call))?;
    }
    for _ in out.handed.as_slice() {
        words.push_str("hand ")?;
    }
    for _ in out.asked.as_slice() {
        words.push_str("ask ")?;
    }
    for _ in out.dropped.as_slice() {
        words.push_str("drop ")?;
    }
    for _ in out.added.as_slice() {
        words.push_str("add ")?;
    }
    Ok(words)
}
