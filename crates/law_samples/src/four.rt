//! Four members of whom the second leads.
#![tactic(auto, unfolding(crate::specs::Computed::samples))]

ghost use Rattle.std.specs.Prelude.{◌≡◌, [], ◌∷◌};
ghost use Rattle.simplex_transcript.specs.declared.setup.MemberKind.TheVariants as kinds;
ghost use Rattle.model_run.specs.Run.{Run};
ghost use Rattle.law_samples.specs.Lists.{with_last, at, and_tell};
ghost use Rattle.law_samples.specs.Shown.{Proposed, Verified, Notarization, Report, Notarize, calls_behind, handed_behind};

/// The fourth member hears three votes for one proposal. The leader's tells it the proposal; the third makes a
/// notarization of the same signers in whatever order they came; a vote that comes again does nothing.
pub fn four_members_notarize()
    ensures handed { handed_behind 17 (Run (with_last kinds.Honest) (and_tell (at 16 0) (at 11 0)))
        ≡ [] ∷ (Proposed 1 ∷ []) ∷ [] ∷ (Verified Notarization (0 ∷ 1 ∷ 2 ∷ []) ∷ []) ∷ [] }
    ensures in_other_order { handed_behind 17 (Run (with_last kinds.Honest) (and_tell (at 11 0) (at 16 0)))
        ≡ [] ∷ (Proposed 1 ∷ []) ∷ [] ∷ (Verified Notarization (0 ∷ 1 ∷ 2 ∷ []) ∷ []) ∷ [] }
    ensures calls { calls_behind 17 (Run (with_last kinds.Honest) (and_tell (at 16 0) (at 11 0)))
        ≡ (Report Notarize ∷ []) ∷ (Report Notarize ∷ []) ∷ [] ∷ (Report Notarize ∷ []) ∷ [] }
{}
