//! What holds of every run.
ghost use Rattle.std.specs.Prelude.{◌≡◌, ℕ, Bool, true, List, Contains};
ghost use Rattle.simplex_values.specs.declared.proposal.Proposal.{Proposal};
ghost use Rattle.simplex_values.specs.declared.proposal.Subject.TheVariants as subjects;
ghost use Rattle.simplex_transcript.specs.declared.node.Node.{Node};
ghost use Rattle.model_run.specs.Setting.{Setting};
ghost use Rattle.model_run.specs.Kinds.{runs_engine};
ghost use Rattle.model_run.specs.Life.{Noted};
ghost use Rattle.law_member.specs.Life.{voted};
ghost use Rattle.law_run.specs.Histories.{IsRun, AreFloors, calls_of};
ghost use Rattle.law_run.specs.Answered.{AllAnswersPass};
ghost use Rattle.law_run.specs.Rooted.{AreRooted};

/// A node appends a notarize only of a payload that an answer stands for, which was given to it before: what holds of each
/// of these holds of the payload of each of its notarizes.
pub fn notarized_payloads_were_answered()
    ensures { (setting : Setting) (noted : List Noted) (node : Node) (test : List ℕ → Bool) (p : Proposal)
        → IsRun setting noted → AreFloors noted → runs_engine setting.setup node.member ≡ true
        → AllAnswersPass test node noted
        → Contains (voted (calls_of node noted)) (subjects.Notarize p)
        → test p.payload ≡ true }
{}

/// Each request whose parent is view 0 names the genesis digest, where no start is at view 0.
pub fn requests_name_the_genesis()
    ensures { (setting : Setting) (noted : List Noted) → IsRun setting noted
        → AreFloors noted → AreRooted setting.genesis noted }
{}
