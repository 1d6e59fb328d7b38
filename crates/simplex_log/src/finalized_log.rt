//! The finalized log.
#![tactic(auto, unfolding(crate::specs::Stands::StandsFor, crate::specs::Kept::log_to, model_log::specs::Log::log_of, model_log::specs::Log::gap_of))]

ghost use Rattle.std.specs.Prelude.{[], Bool, List, OnOk, OnErr};
ghost use Rattle.simplex_types.specs.declared.activity.Activity.{Activity};
ghost use Rattle.simplex_types.specs.Evidence.{activity_verifies};
ghost use Rattle.model_log.specs.Log.{log_of, gap_of};
ghost use Rattle.model_log.specs.Observing.{observed, with_next};
ghost use Rattle.simplex_log.specs.Stands.{StandsFor, IsUnlessMemory, Answers};

use crate::kept::Kept;
use model_log::{LogEntry, LogError};
use simplex_types::{Activity, Scheme, View};
use std::alloc::Global;

/// The log of what was reported, which grows as certificates come, in any order.
///
/// Its entries are the walk of the greatest final view whose walk comes to genesis. What clashes with what it holds is not
/// taken. A call costs a few look-ups and what the new entries cost, whatever the log has.
#[derive(Debug, Drop)]
pub struct FinalizedLog<S> {
    alloc: Global,
    scheme: S,
    kept: Kept,
}

impl<S: Scheme> FinalizedLog<S> {
    /// The log of nothing. The scheme verifies what is reported.
    pub fn new(alloc: Global, scheme: S) -> FinalizedLog<S>
        ensures { StandsFor S.verifies S.members result (activity_verifies (S.verifies scheme)
            (S.members scheme)) [] }
    {
        FinalizedLog {
            alloc,
            scheme,
            kept: Kept::new(alloc),
        }
    }

    /// Takes what was reported: whether the log is another than before. A certificate that verifies, with another proposal than the
    /// link that is held of its view, is a clash; it is not taken. Nor is what memory is wanting for.
    pub fn observe(&mut self, activity: &Activity) -> Result<bool, LogError>
        ensures answer { (verifies : Activity → Bool) (taken : List Activity)
            → StandsFor S.verifies S.members self.old verifies taken
            → IsUnlessMemory result (observed verifies taken activity.now) }
        ensures taken { OnOk result ((verifies : Activity → Bool) (taken : List Activity)
            → StandsFor S.verifies S.members self.old verifies taken
            → StandsFor S.verifies S.members self.new verifies (with_next taken activity.now)) }
        ensures same { OnErr result ((verifies : Activity → Bool) (taken : List Activity)
            → StandsFor S.verifies S.members self.old verifies taken
            → StandsFor S.verifies S.members self.new verifies taken) }
    {
        if !activity.verify(&self.scheme) {
            return Ok(false);
        }
        self.kept.take(self.alloc, activity)
    }

    /// The log: the walk from the lowest view up.
    pub fn entries(&self) -> &[LogEntry]
        ensures { Answers S.verifies S.members self.now log_of result.now }
    {
        self.kept.finals.entries.as_slice()
    }

    /// The view without a link at which the walk of the greatest final view ends. None where it comes to genesis, or nothing is
    /// final.
    pub fn gap(&self) -> Option<View>
        ensures { Answers S.verifies S.members self.now gap_of result }
    {
        if self.kept.end == 0 {
            None
        } else {
            Some(View(self.kept.end))
        }
    }
}
