//! Cases that come out as the definitions mean them. Each clause is computed.
#![tactic(auto, unfolding(crate::specs::Computed::logs))]

ghost use Rattle.std.specs.Prelude.{◌≡◌, true, false, [], ◌∷◌, Ok, Err, Some, None};
ghost use Rattle.model_log.specs.declared.entry.LogError.TheVariants.{Clash};
ghost use Rattle.model_log.specs.Log.{log_of, gap_of};
ghost use Rattle.model_log.specs.Observing.{observed};
ghost use Rattle.model_log.specs.Samples.{anything, block, notarized, finalized, nullified, line};

/// A finalization without its links gives no log, and the log comes with them.
pub fn logs_come_out()
    ensures nothing { log_of anything [] ≡ [] }
    ensures no_gap { gap_of anything [] ≡ None }
    ensures alone { log_of anything (finalized (block 1 0 7) ∷ []) ≡ line 1 0 7 ∷ [] }
    ensures not_final { log_of anything (notarized (block 1 0 7) ∷ []) ≡ [] }
    ensures not_verified { log_of (λ _. false) (finalized (block 1 0 7) ∷ []) ≡ [] }
    ensures unlinked { log_of anything (finalized (block 2 1 8) ∷ []) ≡ [] }
    ensures unlinked_gap { gap_of anything (finalized (block 2 1 8) ∷ []) ≡ Some 1 }
    ensures linked { log_of anything (finalized (block 2 1 8) ∷ notarized (block 1 0 7) ∷ [])
        ≡ line 1 0 7 ∷ line 2 1 8 ∷ [] }
    ensures linked_gap { gap_of anything (finalized (block 2 1 8)
        ∷ notarized (block 1 0 7) ∷ []) ≡ None }
    // The greatest whole one counts, and the gap is that of the greatest.
    ensures lower { log_of anything (finalized (block 1 0 7) ∷ finalized (block 5 4 8)
        ∷ []) ≡ line 1 0 7 ∷ [] }
    ensures lower_gap { gap_of anything (finalized (block 1 0 7)
        ∷ finalized (block 5 4 8) ∷ []) ≡ Some 4 }
    ensures skipped { log_of anything (nullified 2 ∷ notarized (block 1 0 7) ∷ finalized (block 3 1 9) ∷ [])
        ≡ line 1 0 7 ∷ line 3 1 9 ∷ [] }
    // A proposal whose parent is not below it is no link.
    ensures not_below { log_of anything (finalized (block 2 2 8) ∷ []) ≡ [] }
    ensures not_below_gap { gap_of anything (finalized (block 2 2 8) ∷ []) ≡ Some 2 }
{}

/// Whether the log is another, and the clash with a link that is held.
pub fn clashes_come_out()
    ensures unlinked { observed anything [] (finalized (block 2 1 8)) ≡ Ok false }
    ensures linked { observed anything (finalized (block 2 1 8)
        ∷ []) (notarized (block 1 0 7)) ≡ Ok true }
    ensures again { observed anything (finalized (block 2 1 8) ∷ notarized (block 1 0 7) ∷ []) (notarized (block 1 0 7))
        ≡ Ok false }
    ensures nullification { observed anything (finalized (block 1 0 7)
        ∷ []) (nullified 1) ≡ Ok false }
    ensures clash { observed anything (finalized (block 2 1 8) ∷ notarized (block 1 0 7) ∷ []) (notarized (block 1 0 9))
        ≡ Err (Clash (block 1 0 7) (block 1 0 9)) }
    // Also one that is no link clashes with a link, and none clashes with one that is no link.
    ensures no_link { observed anything (notarized (block 1 0 7) ∷ []) (notarized (block 1 1 7))
        ≡ Err (Clash (block 1 0 7) (block 1 1 7)) }
    ensures with_no_link { observed anything (notarized (block 1 1 7)
        ∷ []) (notarized (block 1 0 7)) ≡ Ok false }
    ensures not_verified { observed (λ _. false) (notarized (block 1 0 7)
        ∷ []) (notarized (block 1 0 9)) ≡ Ok false }
{}
