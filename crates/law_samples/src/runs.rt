//! Setups and events that have a run.
ghost use Rattle.std.specs.Prelude.{[], ◌∷◌};
ghost use Rattle.simplex_values.specs.declared.plan.Channel.TheVariants as channels;
ghost use Rattle.simplex_transcript.specs.declared.setup.MemberKind.TheVariants as kinds;
ghost use Rattle.model_run.specs.Setting.{at_epoch_genesis};
ghost use Rattle.law_run.specs.Complete.{IsPossible};
ghost use Rattle.law_samples.specs.Faulty.{shows};
ghost use Rattle.law_samples.specs.Lists.{alone, finalizes, with_last, node, at, hears};

use crate::{deliveries_come_out, one_member_finalizes};
use law_run::{possible_events_run, runs_are_possible};

/// What a law asks of a setup and events can be met: those by which a member alone finalizes view 1. A packet that comes
/// to a member that was not started does not meet it.
pub fn events_can_be_possible()
    ensures possible { IsPossible (at_epoch_genesis alone) finalizes }
    ensures impossible { IsPossible (at_epoch_genesis (with_last kinds.Silent))
        (shows channels.Vote (node 0 ∷ []) (7 ∷ []) ∷ hears 0 (at 1 0) ∷ []) → ⊥ }
{
    one_member_finalizes();
    runs_are_possible();
    deliveries_come_out();
    possible_events_run();
}
