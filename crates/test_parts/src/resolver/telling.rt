//! What a resolver's step does, in words.
use crate::fetcher::{request_text, tell_deadline};
use crate::mail::certificate_text;
use simplex_messages::resolver::HandlerMessage;
use simplex_messages::{Call, Handed, StepOut, voter};
use simplex_types::{Ask, Channel, Kind, Recipients, Until};
use std::alloc::{AllocError, Global};
use test_support::Told;

fn call_text(alloc: Global, call: &Call) -> Result<String, AllocError> {
    match call {
        Call::Send {
            channel: Channel::Resolver,
            recipients: Recipients::One(to),
            bytes,
        } => request_text(alloc, to, bytes.as_slice()),
        Call::Block(member, cause) => format!(in alloc; "{member} is blocked: {cause:?}"),
        call => format!(in alloc; "{call:?}"),
    }
}

fn ask_words(ask: &Ask) -> &'static str {
    match (ask.kind, ask.until) {
        (Kind::Nullification, Until::Floor) => "nullification until floor",
        (Kind::Nullification, Until::Finalized) => "nullification until final",
        (Kind::Notarization, Until::Floor) => "notarization until floor",
        (Kind::Notarization, Until::Finalized) => "notarization until final",
    }
}

/// What was asked for, in the order in which it was.
fn asks_text(alloc: Global, asks: &[Ask]) -> Result<String, AllocError> {
    let mut text = String::new(alloc);
    for ask in asks {
        if !text.is_empty() {
            text.push_str(", ")?;
        }
        text.push_str(ask_words(ask))?;
    }
    Ok(text)
}

fn handed_text(alloc: Global, handed: &Handed) -> Result<String, AllocError> {
    match handed {
        Handed::Handler(HandlerMessage::Deliver { id, view, asks, .. }) => {
            let asks = asks_text(alloc, asks.as_slice())?;
            format!(in alloc; "to the handler: request {id} is answered, of view {view}: {asks}")
        }
        Handed::Voter(voter::Message::Verified { certificate }) => {
            let certificate = certificate_text(alloc, certificate)?;
            format!(in alloc; "to the voter: {certificate}")
        }
        handed => format!(in alloc; "{handed:?}"),
    }
}

/// Tells the calls, the messages, and the next deadline where it is another than before.
pub(super) fn tell(
    out: &StepOut,
    before: Option<u64>,
    after: Option<u64>,
    told: &mut Told,
) -> Result<(), AllocError> {
    let alloc = told.alloc();
    if out.calls.is_empty() && out.handed.is_empty() && before == after {
        return told.says("nothing");
    }
    for call in out.calls.as_slice() {
        told.says(call_text(alloc, call)?.as_str())?;
    }
    for handed in out.handed.as_slice() {
        told.says(handed_text(alloc, handed)?.as_str())?;
    }
    tell_deadline(before, after, told)
}
