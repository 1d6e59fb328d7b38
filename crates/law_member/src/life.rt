//! What a voter does, read as the life of a member.
ghost use Rattle.std.specs.Prelude.{ℕ, ◌≡◌, ◌<◌, List, Some};
ghost use Rattle.simplex_values.specs.Terms.{greatest_view};
ghost use Rattle.simplex_types.specs.declared.floor.Floor.{Floor};
ghost use Rattle.simplex_journal.specs.Journal.{Section, replayed, crashed};
ghost use Rattle.simplex_messages.specs.declared.step.Stop.{Stop};
ghost use Rattle.simplex_messages.specs.declared.voter.VoterInput.{VoterInput};
ghost use Rattle.model_rules.specs.Known.{Made, Fact};
ghost use Rattle.model_rules.specs.Views.{current_of};
ghost use Rattle.model_steps.specs.Desk.{Doing};
ghost use Rattle.model_steps.specs.Voter.{Standing, stepped, started};
ghost use Rattle.model_steps.specs.VoterLife.{start_performed};
ghost use Rattle.model_steps.specs.Performed.{performed};
ghost use Rattle.law_agreement.specs.Member.{Member, Crash, happens};
ghost use Rattle.law_member.specs.Life.{IsFloor, IsRunning, IsStopped, IsLived, IsBegun};

/// Whatever a step takes and wherever a stop ends it, the member lives it by legal calls.
pub fn steps_are_lived()
    ensures { (made : Made) (now : ℕ) (input : VoterInput) (stop : Stop)
        (standing : Standing) (sections : List Section) (doing : Doing) (m : Member)
        → current_of made standing.desk.known < greatest_view
        → IsRunning made standing.desk.known sections m
        → stepped made now standing input ≡ Some doing
        → IsLived made doing.desk.known (performed stop doing sections) m }
{}

/// So it does a start, at genesis or at a floor, over whatever its journal holds.
pub fn starts_are_lived()
    ensures { (made : Made) (now : ℕ) (floor : Floor) (stop : Stop) (sections : List Section) (m : Member)
        → IsFloor floor → IsStopped made sections m
        → let doing = started made now floor (replayed sections) in
        IsBegun made floor doing.desk.known (start_performed stop floor doing sections) m }
{}

/// A crash between two steps leaves the member stopped, with the journal that the crash leaves.
pub fn crashes_are_lived()
    ensures { (made : Made) (keep : ℕ) (known : List Fact) (sections : List Section) (m : Member)
        → IsRunning made known sections m
        → IsStopped made (crashed keep sections) (happens m (Crash (λ view. keep))) }
{}
