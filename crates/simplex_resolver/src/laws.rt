//! What follows from the definitions alone.
ghost use Rattle.std.specs.Prelude.{◌≡◌, ◌∷◌, ℕ, true, false, List};
ghost use Rattle.model_rules.specs.Repair.{RepairCall, is_gap, effects_of};
ghost use Rattle.model_resolver.specs.Asks.{same_ask};
ghost use Rattle.model_resolver.specs.Views.{entry_at};
ghost use Rattle.model_resolver.specs.Resolver.{Made, Given, Doing, backfill, with_effects, standing_after};
ghost use Rattle.simplex_fetch.specs.Index.{has_ask};
ghost use Rattle.simplex_resolver.specs.Laws.{HandlesTaken};

/// Where a view becomes a gap by a call, what follows from the call leaves an open ask for it.
pub fn new_gaps_are_asked_for()
    ensures { (length : ℕ) (held : List RepairCall) (call : RepairCall) (now : ℕ) (doing : Doing) (view : ℕ)
        → is_gap length (call
        ∷ held) view ≡ true → is_gap length held view ≡ false
        → has_ask (same_ask (backfill view).ask) (entry_at
        (with_effects now (effects_of length held call) doing).standing.fetcher.views view) ≡ true }
{}

/// Whatever came, where each message that was handled had been taken from the handler's mailbox: each gap has an
/// open ask for its nullification. Before the journal was read there are no gaps.
pub fn each_gap_has_an_open_ask()
    ensures { (made : Made) (past : List Given) (view : ℕ)
        → HandlesTaken made past → is_gap made.term (standing_after made past).held view ≡ true
        → has_ask (same_ask (backfill view).ask)
        (entry_at (standing_after made past).fetcher.views view) ≡ true }
{}
