//! The words of commands.
use simplex_form::read_digest;
use simplex_types::{Answer, Handoff};
use std::alloc::{AllocError, Global};

/// The words of a line, which one blank each separates.
pub(crate) fn words_in(alloc: Global, line: &str) -> Result<Vec<&str>, AllocError> {
    let mut words = Vec::new(alloc);
    for word in line.split(' ') {
        words.push(word)?;
    }
    Ok(words)
}

/// The answer that these words say, if they say one.
pub(crate) fn answer_of(words: &[&str]) -> Option<Answer> {
    match words {
        ["payload", hex] => Some(Answer::Payload(read_digest(hex)?)),
        ["true"] => Some(Answer::Verdict(true)),
        ["false"] => Some(Answer::Verdict(false)),
        ["wait"] => Some(Answer::Handoff(Handoff::Wait)),
        ["stage", hex] => Some(Answer::Handoff(Handoff::Stage(read_digest(hex)?))),
        ["vote", hex] => Some(Answer::Handoff(Handoff::Vote(read_digest(hex)?))),
        ["closed"] => Some(Answer::Closed),
        _ => None,
    }
}
