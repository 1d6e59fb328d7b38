//! What a step gives that no stop ended.
ghost use Rattle.std.specs.Prelude.{◌≡◌, List};
ghost use Rattle.simplex_journal.specs.Journal.{Section};
ghost use Rattle.simplex_messages.specs.declared.step.Outcome.TheVariants as outcomes;
ghost use Rattle.simplex_messages.specs.declared.step.Stop.{Stop};
ghost use Rattle.model_steps.specs.Desk.{Doing};
ghost use Rattle.model_steps.specs.Performed.{performed, whole};

/// A step whose outcome is that it is done gives all its calls and all its messages: the laws of what a step does
/// are laws of what it gives.
pub fn done_steps_give_all()
    ensures { (stop : Stop) (doing : Doing) (sections : List Section) → (performed stop doing sections).outcome
        ≡ outcomes.Done → performed stop doing sections ≡ whole doing sections }
{}
