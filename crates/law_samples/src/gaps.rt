//! Views that lack a nullification. Each clause is computed.
#![tactic(auto, unfolding(model_resolver::specs::Computed::resolver, simplex_resolver::specs::Laws::HandlesTaken, simplex_resolver::specs::Laws::WasTaken))]

ghost use Rattle.std.specs.Prelude.{◌≡◌, true, false, [], ◌∷◌};
ghost use Rattle.simplex_messages.specs.declared.resolver.ResolverInput.TheVariants as inputs;
ghost use Rattle.model_rules.specs.Repair.{Replayed, is_gap, gaps_of};
ghost use Rattle.model_resolver.specs.Asks.{same_ask};
ghost use Rattle.model_resolver.specs.Views.{entry_at};
ghost use Rattle.model_resolver.specs.Resolver.{Stepped, backfill, standing_after};
ghost use Rattle.simplex_fetch.specs.Index.{has_ask};
ghost use Rattle.simplex_resolver.specs.Laws.{HandlesTaken};
ghost use Rattle.law_samples.specs.Gaps.{resolver, is_told, peer_asks, lacks};

/// What a law asks of a call can be met: a call makes view 1 a gap.
pub fn gaps_can_open()
    ensures now { is_gap resolver.term (Replayed ∷ is_told ∷ []) 1 ≡ true }
    ensures before { is_gap resolver.term (is_told ∷ []) 1 ≡ false }
{}

/// What a law asks of a history can be met: each message that was handled had been taken, and in both terms the first
/// view is a gap. A message that nobody sent is none that was taken.
pub fn gaps_can_stand()
    ensures handles_taken { HandlesTaken resolver lacks }
    ensures not_taken { HandlesTaken resolver (Stepped (inputs.Handler peer_asks) 0 ∷ []) → ⊥ }
    ensures gaps { gaps_of resolver.term (standing_after resolver lacks).held ≡ 1 ∷ 3 ∷ [] }
    ensures first { is_gap resolver.term (standing_after resolver lacks).held 1 ≡ true }
    ensures asked { has_ask (same_ask (backfill 1).ask) (entry_at (standing_after resolver lacks).fetcher.views 1)
        ≡ true }
{}
