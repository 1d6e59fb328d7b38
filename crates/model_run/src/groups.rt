//! A run in groups is the run.
ghost use Rattle.std.specs.Prelude.{◌≡◌, ◌+◌, ◌++◌, List, length};
ghost use Rattle.simplex_transcript.specs.declared.event.Event.{Event};
ghost use Rattle.model_run.specs.Setting.{Setting};
ghost use Rattle.model_run.specs.Entries.{entry_of};
ghost use Rattle.model_run.specs.Life.{Noted};
ghost use Rattle.model_run.specs.Run.{run};
ghost use Rattle.model_run.specs.Groups.{put_at, AreApart, StandsBefore, run_in_groups};

/// An event that comes behind the others of its group makes the entry that it makes on the entries before the group, but for
/// the number, or is refused for the same reason.
pub fn steps_of_a_group_stand_apart()
    ensures { (setting : Setting) (before made : List Noted) (event : Event)
        → AreApart setting.setup event made → StandsBefore before event
        → entry_of setting (made ++ before) event
        ≡ put_at (length (made ++ before) + 1) (entry_of setting before event) }
{}

/// A run in groups gives the entries of the run one by one, or the same refusal at the same event.
pub fn groups_change_nothing()
    ensures { (setting : Setting) (before : List Noted) (events : List Event)
        → run_in_groups setting before events ≡ run setting before events }
{}
