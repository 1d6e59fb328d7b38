//! Sums that come out as they are meant to. Each clause is computed.
#![tactic(auto, unfolding(crate::specs::Summary::finalized_in, crate::specs::Summary::greatest_in, crate::specs::Summary::evidence_in, crate::specs::Summary::stops_in))]

ghost use Rattle.std.specs.Prelude.{◌≡◌, [], ◌∷◌, None, Some};
ghost use Rattle.simplex_transcript.specs.declared.event.Event.TheVariants as events;
ghost use Rattle.model_run.specs.Kinds.{node_of};
ghost use Rattle.model_run.specs.Entries.{blank_entry};
ghost use Rattle.simplex_generator.specs.Summary.{finalized_in, greatest_in, evidence_in, stops_in};

/// What a run comes to.
pub fn sums_come_out()
    ensures finalized { finalized_in (blank_entry 1 None ∷ []) ≡ 0 }
    ensures greatest { greatest_in (blank_entry 1 None ∷ []) ≡ 0 }
    ensures evidence { evidence_in (blank_entry 1 None ∷ []) ≡ 0 }
    ensures stopped { stops_in (events.Tick 50 ∷ events.Crash (node_of 0) ∷ [])
        (blank_entry 1 None ∷ blank_entry 2 (Some (node_of 0)) ∷ []) ≡ 1 }
{}
