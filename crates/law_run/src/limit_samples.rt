//! Whose packets have no limit.
ghost use Rattle.std.specs.Prelude.{[], ◌∷◌};
ghost use Rattle.law_run.specs.BackingSamples.{with_silent};
ghost use Rattle.law_run.specs.LimitSamples.{shouts, BreaksTheLimit};

/// A faulty member may send more: among four members no honest one sends more than 230 bytes, and a silent one can be
/// made to send 231.
pub fn faulty_members_may_send_more()
    ensures { BreaksTheLimit with_silent (shouts ∷ []) }
{}
