//! The views of finalizations.
#![tactic(auto, unfolding(crate::specs::Recording::views_seen, crate::specs::Recording::latest_seen))]

ghost use Rattle.std.specs.Prelude.{◌≡◌, ◌<◌, ◌∷◌, [], List, drop, OnOk, vec_len, vec_capacity};
ghost use Rattle.simplex_types.specs.declared.activity.Activity.{Activity};
ghost use Rattle.simplex_recording.specs.Recording.{views_seen, latest_seen};
ghost use Rattle.simplex_recording.specs.Stands.{SeenOf};

use simplex_types::{Activity, View};
use std::alloc::{AllocError, Global};

/// The views of the finalizations in order of report, and the last of them, or genesis.
#[derive(Debug, Drop)]
pub(crate) struct Seen {
    views: Vec<View>,
    latest: View,
}

impl Seen {
    /// No finalizations.
    pub(crate) fn new(alloc: Global) -> Seen
        ensures { SeenOf result [] }
    {
        Seen {
            views: Vec::new(alloc),
            latest: View(0),
        }
    }

    /// Makes room for one view more.
    pub(crate) fn make_room(&mut self) -> Result<(), AllocError>
        ensures room { OnOk result (vec_len self.new.views < vec_capacity self.new.views) }
        ensures same { (all : List Activity) → SeenOf self.old all → SeenOf self.new all }
    {
        self.views.reserve(1)
    }

    /// The activity was recorded.
    pub(crate) fn enter(&mut self, activity: &Activity)
        requires { vec_len self.old.views < vec_capacity self.old.views }
        ensures { (all : List Activity) → SeenOf self.old all
            → SeenOf self.new (activity.now ∷ all) }
    {
        if let Activity::Finalization(it) = activity {
            let view = it.proposal.round.view;
            self.views.push(view).unwrap();
            self.latest = view;
        }
    }

    /// The view of the last finalization, or genesis.
    pub(crate) fn latest(&self) -> View
        ensures kept { result ≡ self.now.latest }
        ensures seen { (all : List Activity) → SeenOf self.now all → result ≡ latest_seen all }
    {
        self.latest
    }

    /// The views of the finalizations behind the first `cursor`.
    pub(crate) fn from(&self, cursor: u64) -> &[View]
        ensures { (all : List Activity) → SeenOf self.now all
            → result.now ≡ drop cursor (views_seen all) }
    {
        let views = self.views.as_slice();
        let start = usize::try_from(cursor).unwrap_or(usize::MAX);
        views.get(start..).unwrap_or(&[])
    }
}
