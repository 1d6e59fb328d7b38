//! An engine without a network. `engine 3 of 4` is the one of member 3 of four, with keyed signatures, leaders in turn and no deadlines
//! but those of its fetcher, 1000 and 100 milliseconds. Behind it may stand `term N`, how many views a term has.
mod packets;
mod seat;
mod setup;
mod words;

use crate::engine::seat::Seat;
use crate::engine::setup::Setup;
use simplex_journal::MemoryJournal;
use std::alloc::AllocError;
use test_support::{Script, Told, play};

/// Tells the script of an engine.
pub(crate) fn tell(script: &Script, words: &[&str], told: &mut Told) -> Result<(), AllocError> {
    let Some(setup) = Setup::read(words) else {
        return told.says("not a command");
    };
    let alloc = told.alloc();
    match Seat::new(alloc, setup, MemoryJournal::new(alloc))? {
        Some(mut seat) => play(&mut seat, script, told),
        None => told.says("not allowed: no engine is made so"),
    }
}
