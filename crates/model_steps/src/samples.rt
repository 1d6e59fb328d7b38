//! Steps that come out as the rules mean them. Each clause is computed.
#![tactic(auto, unfolding(crate::specs::Computed::voter_steps))]

ghost use Rattle.std.specs.Prelude.{◌≡◌, [], length};
ghost use Rattle.model_steps.specs.Samples.{at_start, at_proposal, at_notarization, at_verdict, at_finalization};

/// One member alone, through its first view.
pub fn one_member_alone()
    ensures begins { length at_start.desk.asked ≡ 1 }
    ensures quiet { at_start.calls ≡ [] }
    ensures proposes { length at_proposal.calls ≡ 4 }
    ensures hands_its_vote { length at_proposal.handed ≡ 1 }
    ensures notarized { length at_notarization.calls ≡ 4 }
    ensures asks_the_verdict { length at_notarization.desk.asked ≡ 1 }
    ensures certified { length at_verdict.calls ≡ 5 }
    ensures goes_on { length at_verdict.desk.asked ≡ 1 }
    ensures finalized { length at_finalization.calls ≡ 4 }
{}
