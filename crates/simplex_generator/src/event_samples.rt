//! Drawn events that come out as they are meant to. Each clause is computed.
#![tactic(auto, unfolding(crate::specs::Drawing::next_event, crate::specs::Generated::event_behind, crate::specs::Generated::events_behind, crate::specs::Generated::generated))]

ghost use Rattle.std.specs.Prelude.{◌≡◌, []};
ghost use Rattle.simplex_transcript.specs.declared.event.Event.TheVariants as events;
ghost use Rattle.model_run.specs.Kinds.{node_of};
ghost use Rattle.simplex_generator.specs.Setup.{twin_half};
ghost use Rattle.simplex_generator.specs.Drawing.{started, without_words};
ghost use Rattle.simplex_generator.specs.Generated.{event_behind, generated};
ghost use Rattle.simplex_generator.specs.Samples.{pauses};

/// Starts, and crashes in turn.
pub fn events_come_out()
    ensures first { event_behind 7 [] 0 ≡ without_words (started (node_of 0)) }
    ensures last_start { event_behind 7 (pauses 6) 0 ≡ without_words (started twin_half) }
    ensures crashes { event_behind 7 (pauses 599) 0 ≡ without_words (events.Crash (node_of 1)) }
    ensures starts_again { event_behind 7 (pauses 600) 0 ≡ without_words (started (node_of 1)) }
    ensures in_turn { event_behind 7 (pauses 2999) 0 ≡ without_words (events.Crash (node_of 0)) }
    ensures none { generated 7 0 ≡ [] }
{}
