//! What a vote says of what its member knew.
ghost use Rattle.std.specs.Prelude.{◌≡◌, ℕ, Bool, List, Some};
ghost use Rattle.simplex_wire.specs.declared.vote.Notarize.{Notarize};
ghost use Rattle.simplex_wire.specs.declared.vote.Nullify.{Nullify};
ghost use Rattle.simplex_wire.specs.declared.vote.Finalize.{Finalize};
ghost use Rattle.model_rules.specs.Known.{Made, Fact, view_of};
ghost use Rattle.model_rules.specs.Views.{current_of};
ghost use Rattle.model_rules.specs.Votes.{notarize_at, finalize_at};
ghost use Rattle.model_rules.specs.Calls.{construct_nullify_answer};
ghost use Rattle.law_member.specs.RuleVotes.{IsUntouched, IsOpen, IsGivenUp};

/// A member votes for a proposal once in a view, not where it gave the view up, and not where a view from it on is final.
pub fn notarizes_are_untouched()
    ensures { (made : Made) (known : List Fact) (view : ℕ) (vote : Notarize) → notarize_at made known view ≡ Some vote
        → (view_of vote.proposal ≡ view) × IsUntouched known view }
{}

/// A member votes for the finality of a certified view, and not behind a view of its term that it gave up since the
/// last final one.
pub fn finalizes_are_open()
    ensures { (made : Made) (known : List Fact) (view : ℕ) (vote : Finalize) → finalize_at made known view ≡ Some vote
        → (view_of vote.proposal ≡ view) × IsOpen made known view }
{}

/// The nullify of the view that the member is in gives that view up, which is above each final one and each with a
/// true verdict.
pub fn nullifies_are_current()
    ensures { (made : Made) (known : List Fact) (repeated : Bool) (vote : Nullify)
        → construct_nullify_answer made known (current_of made known) ≡ Some (repeated, vote)
        → IsGivenUp made known repeated vote }
{}
