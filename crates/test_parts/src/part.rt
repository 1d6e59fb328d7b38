//! A script with what came out.
use crate::{engine, fetcher, mail, network, resolver, state, verifier};
use std::alloc::{AllocError, Global};
use test_support::{Script, Told, words_in};

/// Tells the script of a part with what came out. Its first line names the part, and tells how it is made. Whether there is such a part.
fn tell_part(first: &str, script: &Script, told: &mut Told) -> Result<bool, AllocError> {
    told.line(first)?;
    let words = words_in(told.alloc(), first)?;
    match words.as_slice() {
        ["engine", ..] => engine::tell(script, &words, told)?,
        ["fetcher", how @ ..] => fetcher::run(how, script, told)?,
        ["mailbox", "of", how @ ..] => mail::run(how, script, told)?,
        ["resolver", how @ ..] => resolver::run(how, script, told)?,
        ["state", how @ ..] => state::run(how, script, told)?,
        ["verifier", ..] => verifier::tell(script, &words, told)?,
        _ => return Ok(false),
    }
    Ok(true)
}

/// The script with what came out, of a part or of a whole network; or none where its first line names neither.
pub fn told(alloc: Global, script: &Script) -> Result<Option<Told>, AllocError> {
    let Some(first) = script.lines.first() else {
        return Ok(None);
    };
    let mut told = Told::new(alloc);
    if first.as_str().starts_with("network ") {
        network::run(script, &mut told)?;
        return Ok(Some(told));
    }
    if tell_part(first.as_str(), script, &mut told)? {
        Ok(Some(told))
    } else {
        Ok(None)
    }
}
