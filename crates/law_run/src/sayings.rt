//! A voter says no certificate that it was not given.
ghost use Rattle.std.specs.Prelude.{ℕ, ◌≡◌, Bool, List, Some};
ghost use Rattle.simplex_wire.specs.declared.certificate.Certificate.{Certificate};
ghost use Rattle.simplex_types.specs.declared.floor.Floor.{Floor};
ghost use Rattle.model_rules.specs.Known.{Made};
ghost use Rattle.simplex_journal.specs.Journal.{Section, replayed};
ghost use Rattle.simplex_messages.specs.declared.step.Stop.{Stop};
ghost use Rattle.simplex_messages.specs.declared.voter.VoterInput.{VoterInput};
ghost use Rattle.model_steps.specs.Desk.{Doing};
ghost use Rattle.model_steps.specs.Voter.{Standing, stepped, started};
ghost use Rattle.model_steps.specs.VoterLife.{start_performed};
ghost use Rattle.model_steps.specs.Performed.{performed};
ghost use Rattle.law_run.specs.Sayings.{Passes, AllSaid, InInput, InFloor, InKnown, InRecords};

/// A test that each certificate passes which a voter knows, and the one that it takes, is passed by each that its
/// step says: in its calls, among what it added, and in what it hands on.
pub fn steps_say_what_was_given()
    ensures { (good : Certificate → Bool) (made : Made) (now : ℕ)
        (input : VoterInput) (stop : Stop) (standing : Standing) (sections : List Section) (doing : Doing)
        → InInput (Passes good) input → InKnown (Passes good) standing.desk.known
        → stepped made now standing input ≡ Some doing
        → AllSaid (Passes good) (performed stop doing sections).out }
{}

/// A test that the floor of a start passes, and each certificate in its journal, is passed by each that it says.
pub fn starts_say_what_was_given()
    ensures { (good : Certificate → Bool) (made : Made) (now : ℕ)
        (floor : Floor) (stop : Stop) (sections : List Section)
        → InFloor (Passes good) floor → InRecords (Passes good) (replayed sections)
        → AllSaid (Passes good)
        (start_performed stop floor (started made now floor (replayed sections)) sections).out }
{}
