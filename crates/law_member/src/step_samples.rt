//! Why the laws say no more. Each clause is computed.

ghost use Rattle.std.specs.Prelude.{◌≡◌, ◌+◌, ℕ, true, [], ◌∷◌};
ghost use Rattle.simplex_values.specs.declared.ask.Kind.TheVariants as kinds;
ghost use Rattle.simplex_wire.specs.declared.artifact.Artifact.{Artifact};
ghost use Rattle.model_rules.specs.Repair.{is_settled};
ghost use Rattle.simplex_journal.specs.Journal.{replayed};
ghost use Rattle.model_steps.specs.Resolving.{request, last_out};
ghost use Rattle.law_member.specs.Journal.{Append, Sync, Prune, Stop, after};
ghost use Rattle.law_member.specs.StepSamples.{settled_by_an_answer, left_by_an_answer};

/// A stop may lose a record that was not synced, and a prune drops one that was.
#[tactic(auto, unfolding(simplex_journal::specs::Computed::sections, crate::specs::Journal::after, crate::specs::Journal::after_call, simplex_journal::specs::Journal::pruned))]
pub fn what_was_not_synced_may_be_lost()
    ensures is_lost { (artifact : Artifact)
        → replayed (after [] (Stop 0 ∷ Append 1 artifact ∷ [])) ≡ [] }
    ensures is_kept { (artifact : Artifact)
        → replayed (after [] (Stop 1 ∷ Append 1 artifact ∷ [])) ≡ artifact ∷ [] }
    ensures is_synced { (artifact : Artifact)
        → replayed (after [] (Stop 0 ∷ Sync 1 ∷ Append 1 artifact ∷ [])) ≡ artifact ∷ [] }
    ensures is_pruned { (artifact : Artifact)
        → replayed (after [] (Prune 2 ∷ Sync 1 ∷ Append 1 artifact ∷ [])) ≡ [] }
{}

/// A member answers the ask for the nullification of view 6 with a finalization of view 7, and in the meantime the
/// notarization of view 6 is asked for. The answer settles both, and in the same step view 6 is asked for once more, since the
/// fetcher hears of the verdict before it hears of what is settled. Behind the step no ask is left.
#[tactic(auto, unfolding(model_steps::specs::Computed::resolver_steps))]
pub fn settled_views_may_be_requested_once_more()
    ensures asks_once_more { (last_out settled_by_an_answer).calls ≡ request 2 1 6 ∷ [] }
    ensures is_settled { is_settled 5 left_by_an_answer.held 6 kinds.Notarization ≡ true }
    ensures asks_no_more { left_by_an_answer.fetcher.views ≡ [] }
{}
