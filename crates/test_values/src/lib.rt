//! Scripts about values, or about what keeps them, each with what came out: a program that reads scripts asks [`told`] of each.
//!
//! It owes nothing but that it is safe and ends.
#![tactic(auto)]

mod certificates;
mod form;
mod journal;
mod log;
mod mocks;
mod plain;
mod recording;
mod report;
mod schemes;
mod signed;
mod twins;
mod views;
mod wire;

use crate::form::play_form;
use crate::mocks::Mocks;
use std::alloc::{AllocError, Global};
use test_support::{Script, Told, play, words_in};

/// The script with what came out. Its first line names the part, and tells how it is made; None where it names none of this library.
pub fn told(alloc: Global, script: &Script) -> Result<Option<Told>, AllocError> {
    let mut told = Told::new(alloc);
    let Some(first) = script.lines.first() else {
        return Ok(None);
    };
    told.line(first.as_str())?;
    let words = words_in(alloc, first.as_str())?;
    match words.as_slice() {
        ["bytes"] => wire::run(script, &mut told)?,
        ["form"] => play_form(script, &mut told)?,
        ["journal"] => journal::run(script, &mut told)?,
        ["log"] => log::run(script, &mut told)?,
        ["mocks"] => play(&mut Mocks::new(alloc), script, &mut told)?,
        ["recording"] => recording::run(script, &mut told)?,
        ["reporters"] => report::run(script, &mut told)?,
        ["scheme", how @ ..] => schemes::run(how, script, &mut told)?,
        ["twins", how @ ..] => twins::run(how, script, &mut told)?,
        ["values"] => plain::run(script, &mut told)?,
        ["views", how @ ..] => views::run(how, script, &mut told)?,
        ["votes", "of", "four", "members"] => certificates::run(script, &mut told)?,
        _ => return Ok(None),
    }
    Ok(Some(told))
}
