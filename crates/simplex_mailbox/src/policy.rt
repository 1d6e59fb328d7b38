//! What becomes of a message for which there is no room.
ghost use Rattle.std.specs.Prelude.{◌≡◌, OnOk, OnErr};
ghost use Rattle.simplex_mailbox.specs.Waiting.{Waiting};

use crate::overflow::Overflow;
use crate::requested::Requested;
use std::alloc::AllocError;

/// A message that says what becomes of it where a mailbox has no room.
pub trait Policy: Requested {
    /// What waits for room.
    type Overflow: Overflow<Self>;

    ghost handle: { Waiting Self → Self → Waiting Self };

    /// Takes a message for which there is no room: it waits, takes the place of others, or is dropped.
    /// For want of memory what waits stays as it was.
    fn handle(overflow: &mut Self::Overflow, message: Self) -> Result<(), AllocError>
        ensures ok { OnOk result (Self.Overflow.waiting overflow.new
            ≡ handle (Self.Overflow.waiting overflow.old) message) }
        ensures err { OnErr result (Self.Overflow.waiting overflow.new
            ≡ Self.Overflow.waiting overflow.old) };
}
