//! What the reports of a run give.
ghost use Rattle.std.specs.Prelude.{◌≡◌, ◌++◌, ℕ, List, ◌∷◌, Option, None, take};
ghost use Rattle.simplex_types.specs.declared.activity.Activity.{Activity};
ghost use Rattle.simplex_transcript.specs.declared.node.Node.{Node};
ghost use Rattle.model_run.specs.Setting.{Setting};
ghost use Rattle.model_run.specs.Life.{Noted};
ghost use Rattle.model_log.specs.Fronts.{AreConsistent, AreFronts};
ghost use Rattle.model_log.specs.Observing.{clash_of};
ghost use Rattle.law_run.specs.Safe.{IsSafe};
ghost use Rattle.law_log.specs.Logs.{verified_by, log_at};
ghost use Rattle.law_log.specs.Reports.{entries_of, reported, AreReported};

/// Whatever a safe run reported, at whichever nodes, is of one chain.
pub fn reports_are_of_one_chain()
    ensures consistent { (setting : Setting) (noted : List Noted) (activities : List Activity)
        → IsSafe setting noted → AreReported noted activities
        → AreConsistent (verified_by setting.setup) activities }
    ensures reported { (noted : List Noted) (node : Node) (i : ℕ)
        → AreReported noted (reported (take i (entries_of noted)) node) }
{}

/// Of the logs of any two nodes of a safe run, at any two points, one begins the other.
pub fn logs_of_a_run_are_fronts()
    ensures { (setting : Setting) (noted : List Noted) (a b : Node) (i j : ℕ) → IsSafe setting noted
        → AreFronts (log_at setting.setup (take i (entries_of noted)) a)
        (log_at setting.setup (take j (entries_of noted)) b) }
{}

/// What a node of a safe run reports clashes with nothing that it reported before.
pub fn reports_do_not_clash()
    ensures { (setting : Setting) (noted : List Noted) (node : Node) (taken later : List Activity) (activity : Activity)
        → IsSafe setting noted
        → reported (entries_of noted) node ≡ taken ++ activity ∷ later
        → clash_of (verified_by setting.setup) taken activity ≡ None }
{}
