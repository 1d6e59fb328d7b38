//! A round in its place.
ghost use Rattle.std.specs.Prelude.{◌≡◌, IfOk};

use simplex_round::Round;
use std::alloc::{AllocError, Global};
use std::marker::Model;

/// A round that lies apart from what holds it, so that it is moved as one word. Contracts see the round.
#[derive(Drop)]
pub(crate) struct Kept {
    pub(crate) round: Box<Round>,
}

impl Model for Kept {
    ghost use Rattle.simplex_round.specs.Known.{Standing};

    ghost Value = { Standing };

    ghost view = { λ kept. kept.round.value };
}

impl Kept {
    /// The round, from now on in its place.
    pub(crate) fn new(alloc: Global, round: Round) -> Result<Kept, AllocError>
        ensures { IfOk result (λ kept. kept ≡ round) }
    {
        Ok(Kept {
            round: Box::new(alloc, round)?,
        })
    }
}
