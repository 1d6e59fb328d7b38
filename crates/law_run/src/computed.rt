//! A run that meets the premises, computed.
#![tactic(auto, unfolding(model_run::specs::Computed::run))]

ghost use Rattle.std.specs.Prelude.{◌≡◌, [], ◌∷◌, true};
ghost use Rattle.model_run.specs.Run.{Run};
ghost use Rattle.model_run.specs.Samples.{alone, at, starts};
ghost use Rattle.law_run.specs.Quiet.{is_quiet_run};

/// The start of the one honest member makes a transcript, in which no own vote stands and no packet.
pub fn a_start_is_quiet()
    ensures { is_quiet_run (Run alone (starts at ∷ [])) ≡ true }
{}
