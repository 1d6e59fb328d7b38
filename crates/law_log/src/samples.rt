//! Reports that come out as they are meant. Each clause is computed.
#![tactic(auto, unfolding(crate::specs::Reports::reported))]

ghost use Rattle.std.specs.Prelude.{◌≡◌, [], ◌∷◌, Some, None};
ghost use Rattle.model_run.specs.Entries.{node_of};
ghost use Rattle.model_log.specs.Samples.{block, notarized, finalized, nullified};
ghost use Rattle.law_log.specs.Logs.{honest_from};
ghost use Rattle.law_log.specs.Reports.{reported};
ghost use Rattle.law_log.specs.Samples.{entry_with};
ghost use Rattle.simplex_transcript.specs.declared.setup.MemberKind.TheVariants as kinds;

/// A node's reports in order, without those of others.
pub fn reports_come_out()
    ensures own { reported (entry_with (Some (node_of 0)) (notarized (block 1 0 7)) (finalized (block 1 0 7))
        ∷ entry_with (Some (node_of 1)) (nullified 1) (nullified 2)
        ∷ entry_with (Some (node_of 0)) (nullified 3) (nullified 4) ∷ []) (node_of 0)
        ≡ notarized (block 1 0 7) ∷ finalized (block 1 0 7) ∷ nullified 3 ∷ nullified 4 ∷ [] }
    ensures nobody { reported (entry_with None (nullified 1) (nullified 2) ∷ []) (node_of 0) ≡ [] }
    ensures honest { honest_from 0 (kinds.Twin ∷ kinds.Honest ∷ kinds.Silent ∷ kinds.Honest ∷ [])
        ≡ node_of 1 ∷ node_of 3 ∷ [] }
{}
