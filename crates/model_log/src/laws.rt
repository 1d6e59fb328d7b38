//! What follows from the definitions alone, for any activities.
ghost use Rattle.std.specs.Prelude.{◌≡◌, ◌↔◌, ◌++◌, ◌∷◌, [], ℕ, Bool, List, Option, None};
ghost use Rattle.simplex_types.specs.declared.activity.Activity.{Activity};
ghost use Rattle.simplex_values.specs.declared.proposal.Proposal.{Proposal};
ghost use Rattle.model_log.specs.Ends.{end_in, end_behind, IsNewLink};
ghost use Rattle.model_log.specs.Fronts.{AreConsistent, AreFronts};
ghost use Rattle.model_log.specs.Log.{log_of, tip_of};
ghost use Rattle.model_log.specs.Observing.{clash_of, with_next};

/// Where all that two lists name is of one chain, one log begins the other.
pub fn consistent_logs_are_fronts()
    ensures { (verifies : Activity → Bool) (a b : List Activity)
        → AreConsistent verifies (a ++ b) → AreFronts (log_of verifies a) (log_of verifies b) }
{}

/// What is named of one chain does not clash.
pub fn consistent_links_do_not_clash()
    ensures { (verifies : Activity → Bool) (taken : List Activity) (activity : Activity)
        → AreConsistent verifies (with_next taken activity)
        → clash_of verifies taken activity ≡ None }
{}

/// As more is reported, the log is the same exactly where its tip is, whether or not there are clashes.
pub fn log_changes_with_its_tip()
    ensures { (verifies : Activity → Bool) (taken later : List Activity)
        → (tip_of verifies (taken ++ later) ≡ tip_of verifies taken)
        ↔ (log_of verifies (taken ++ later) ≡ log_of verifies taken) }
{}

/// One more link, the first of its view, moves the ends of just those walks that ended at its view: they end where its parent's
/// walk ends.
pub fn a_link_moves_ends()
    ensures { (links : List Proposal) (p : Proposal) (view : ℕ)
        → IsNewLink links p → end_in (links ++ p ∷ []) view ≡ end_behind links p view }
{}
