//! Letters: where there is no room one waits behind the others.
ghost use Rattle.std.specs.Prelude.{false};
ghost use Rattle.simplex_mailbox.specs.Waiting.{put_last};

use simplex_mailbox::{Pending, Policy, Requested};
use simplex_values::Keep;
use std::alloc::{AllocError, Global};

/// A letter of a writer, who numbers them.
#[derive(Clone, Copy, Debug, PartialEq, Eq)]
pub struct Letter {
    /// Who wrote it.
    pub writer: u32,
    /// Which of the writer's it is.
    pub number: u64,
}

impl Requested for Letter {
    ghost is_skipped = { λ letter. false };

    ghost leave = { λ id letter. letter };

    fn is_skipped(&self) -> bool {
        false
    }

    fn leave(&mut self, _id: u64) {}
}

impl Policy for Letter {
    type Overflow = Pending<Letter>;

    ghost handle = { put_last };

    fn handle(pending: &mut Pending<Letter>, letter: Letter) -> Result<(), AllocError> {
        pending.push(letter)
    }
}

impl Keep for Letter {
    fn keep(&self, _alloc: Global) -> Result<Letter, AllocError> {
        Ok(*self)
    }
}
