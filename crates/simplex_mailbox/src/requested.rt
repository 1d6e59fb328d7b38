//! Messages whose requester may leave.
ghost use Rattle.std.specs.Prelude.{◌≡◌, ℕ, Bool, map};

/// A message that may stand for a requester, which may leave.
pub trait Requested: Drop {
    ghost is_skipped: { Self → Bool };

    ghost leave: { ℕ → Self → Self };

    /// Whether it is skipped when it is its turn.
    fn is_skipped(&self) -> bool
        ensures { result ≡ is_skipped self.now };

    /// The requester of this number left.
    fn leave(&mut self, id: u64)
        ensures { self.new ≡ leave id self.old };
}

/// Tells each message that the requester of this number left.
pub(crate) fn leave_each<M: Requested>(messages: &mut [M], id: u64)
    ensures { messages.new ≡ map (M.leave id) messages.old }
{
    for message in messages {
        message.leave(id);
    }
}
