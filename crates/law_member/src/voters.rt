//! Evidence comes from batchers alone.
ghost use Rattle.std.specs.Prelude.{ℕ, ◌≡◌, List, Some};
ghost use Rattle.simplex_wire.specs.declared.artifact.Artifact.{Artifact};
ghost use Rattle.simplex_types.specs.declared.floor.Floor.{Floor};
ghost use Rattle.simplex_messages.specs.declared.voter.VoterInput.{VoterInput};
ghost use Rattle.model_rules.specs.Known.{Made};
ghost use Rattle.model_steps.specs.Desk.{Doing};
ghost use Rattle.model_steps.specs.Voter.{Standing, stepped, started};
ghost use Rattle.law_member.specs.Evidence.{BlameNot};

use crate::certificates_that_go_out_were_added;

/// A voter reports no evidence against anyone, in a step or in a start.
pub fn voters_blame_nobody()
    ensures steps { (made : Made) (now : ℕ) (input : VoterInput) (standing : Standing) (doing : Doing) (member : ℕ)
        → stepped made now standing input ≡ Some doing
        → BlameNot member doing.calls }
    ensures starts { (made : Made) (now : ℕ) (floor : Floor) (records : List Artifact) (member : ℕ)
        → BlameNot member (started made now floor records).calls }
{
    certificates_that_go_out_were_added();
}
