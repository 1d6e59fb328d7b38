//! What was recorded.
ghost use Rattle.std.specs.Prelude.{◌≡◌, [], true, OnOk, OnErr};
ghost use Rattle.simplex_types.specs.Evidence.{was_verified};
ghost use Rattle.simplex_recording.specs.Recording.{Made};
ghost use Rattle.simplex_recording.specs.Stands.{RecordOf, Records, Keeps};

use crate::certificates::Certificates;
use crate::faults::{Faults, against};
use crate::seen::Seen;
use crate::unlocked::Unlocked;
use crate::votes::Votes;
use simplex_types::Activity;
use simplex_types::elector::Elector;
use std::alloc::{AllocError, Global};

/// Activities that verified.
#[derive(Debug, Drop)]
pub(crate) struct Record {
    pub votes: Votes,
    pub certificates: Certificates,
    pub unlocked: Unlocked,
    pub seen: Seen,
    pub faults: Faults,
}

impl Record {
    /// Nothing was recorded.
    pub(crate) fn new(alloc: Global) -> Record
        ensures { (made : Made) → RecordOf result made [] }
    {
        Record {
            votes: Votes::new(alloc),
            certificates: Certificates::new(alloc),
            unlocked: Unlocked::new(alloc),
            seen: Seen::new(alloc),
            faults: Faults::new(alloc),
        }
    }

    /// Records the certificate: all that may want memory comes first.
    fn certify<L: Elector>(&mut self, elector: &L, activity: Activity) -> Result<(), AllocError>
        requires { was_verified activity ≡ true }
        ensures ok { OnOk result (Records L.elects L.cuts elector.now self.old self.new activity) }
        ensures err { OnErr result (Keeps self.old self.new) }
    {
        self.certificates.make_room(activity.view())?;
        self.seen.make_room()?;
        self.unlocked.enter(elector, &activity)?;
        self.seen.enter(&activity);
        self.certificates.enter(activity);
        Ok(())
    }

    /// Records the activity, or leaves the record as it reads.
    pub(crate) fn enter<L: Elector>(
        &mut self,
        alloc: Global,
        elector: &L,
        activity: Activity,
    ) -> Result<(), AllocError>
        ensures ok { OnOk result (Records L.elects L.cuts elector.now self.old self.new activity) }
        ensures err { OnErr result (Keeps self.old self.new) }
    {
        if activity.verified() {
            return self.certify(elector, activity);
        }
        match against(&activity) {
            None => self.votes.enter(&activity),
            Some(member) => self.faults.enter(alloc, member, activity),
        }
    }
}
