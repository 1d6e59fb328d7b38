//! Why bytes say nothing.
ghost use Rattle.std.specs.Prelude.{◌≡◌};
ghost use Rattle.simplex_form.specs.declared.fault.InputFault.TheVariants.{Memory};

use std::alloc::AllocError;
use thiserror::Error;

/// Why bytes are not read.
#[derive(Clone, Copy, Debug, PartialEq, Eq, Error)]
pub enum InputFault {
    /// The first part that is not of the form has this place.
    #[error("bad input at {0}")]
    At(u64),
    /// Want of memory.
    #[error("out of memory")]
    Memory,
}

impl From<AllocError> for InputFault {
    ghost from_gives = { λ _ e. e ≡ Memory };

    fn from(_e: AllocError) -> InputFault {
        InputFault::Memory
    }
}
