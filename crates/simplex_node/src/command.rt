//! What a host tells a member.
use crate::time::Time;
use crate::words::{answer_of, words_in};
use simplex_names::{channel_of, number_of};
use simplex_types::{Answer, Bytes, Channel, Participant, Sequence};
use std::alloc::{AllocError, Global};

/// What a host tells a member.
#[derive(Debug, PartialEq, Eq, Drop)]
pub enum Command {
    /// The clock, which never goes back.
    Now(Time),
    /// A packet that came from this member. The host owes that it did.
    Packet {
        from: Participant,
        channel: Channel,
        bytes: Bytes,
    },
    /// The application's answer to a request.
    Answer {
        request: u64,
        answer: Answer,
    },
}

fn packet(
    alloc: Global,
    from: &str,
    channel: &str,
    bytes: &str,
) -> Result<Option<Command>, AllocError> {
    let (Some(from), Some(channel)) = (number_of(from), channel_of(channel)) else {
        return Ok(None);
    };
    let Ok(from) = u32::try_from(from) else {
        return Ok(None);
    };
    let Ok(bytes) = hex::decode(alloc, bytes) else {
        return Ok(None);
    };
    Ok(Some(Command::Packet {
        from: Participant(from),
        channel,
        bytes: Sequence::from_vec(bytes),
    }))
}

fn answered(request: &str, words: &[&str]) -> Option<Command> {
    let request = number_of(request)?;
    let answer = answer_of(words)?;
    Some(Command::Answer { request, answer })
}

fn clock(ms: &str) -> Option<Command> {
    Some(Command::Now(Time::new(number_of(ms)?)?))
}

/// The command that a line says, if it says one:
///
/// ```text
/// now MS
/// packet FROM vote|certificate|resolver HEX
/// answer REQUEST payload HEX|true|false|wait|stage HEX|vote HEX|closed
/// ```
pub fn command_of(alloc: Global, line: &str) -> Result<Option<Command>, AllocError> {
    let words = words_in(alloc, line)?;
    match words.as_slice() {
        ["now", ms] => Ok(clock(ms)),
        ["packet", from, channel, bytes] => packet(alloc, from, channel, bytes),
        ["answer", request, answer @ ..] => Ok(answered(request, answer)),
        _ => Ok(None),
    }
}
