//! When a member came to know what its votes rest on.
ghost use Rattle.std.specs.Prelude.{ℕ, ◌<◌, List, Contains};
ghost use Rattle.simplex_transcript.specs.declared.setup.Setup.{Setup};
ghost use Rattle.model_run.specs.Life.{Noted};
ghost use Rattle.model_run.specs.Members.{members_of};
ghost use Rattle.law_run.specs.Faulty.{faulty_of};
ghost use Rattle.law_run.specs.InTime.{AreSentInTime};
ghost use Rattle.law_run.specs.WellSent.{AllWellSent};

/// Where votes are in order behind each entry, those of each honest member are one list in order, and what it knew at a vote
/// had come to its node in the entry that sends the vote, or before, whatever entries these are.
pub fn votes_are_in_time()
    ensures { (setup : Setup) (noted : List Noted) (member : ℕ) → AllWellSent setup noted → member < members_of setup
        → ¬ (Contains (faulty_of setup) member) → AreSentInTime setup noted member }
{}
