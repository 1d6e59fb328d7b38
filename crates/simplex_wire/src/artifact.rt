//! What a journal keeps.
ghost use Rattle.std.specs.Prelude.{◌≡◌};
ghost use Rattle.simplex_wire.specs.Fields.{artifact_round};

use crate::certificate::{Finalization, Notarization, Nullification};
use crate::vote::{Finalize, Notarize, Nullify};
use simplex_values::{Epoch, Keep, Round, View};
use std::alloc::{AllocError, Global};

/// A record of a journal.
#[derive(Debug, PartialEq, Eq, Drop)]
pub enum Artifact {
    /// An own vote.
    Notarize(Notarize),
    /// A notarization that the member knows.
    Notarization(Notarization),
    /// The application's verdict on the notarization of a round.
    Certification(Round, bool),
    /// An own vote.
    Nullify(Nullify),
    /// A nullification that the member knows.
    Nullification(Nullification),
    /// An own vote.
    Finalize(Finalize),
    /// A finalization that the member knows.
    Finalization(Finalization),
}

impl Artifact {
    /// The round that it is about.
    pub fn round(&self) -> Round
        ensures { result ≡ artifact_round self.now }
    {
        match self {
            Artifact::Notarize(it) => it.proposal.round,
            Artifact::Notarization(it) => it.proposal.round,
            Artifact::Certification(round, _) => *round,
            Artifact::Nullify(it) => it.round,
            Artifact::Nullification(it) => it.round,
            Artifact::Finalize(it) => it.proposal.round,
            Artifact::Finalization(it) => it.proposal.round,
        }
    }

    /// The view that it is about.
    pub fn view(&self) -> View
        ensures { result ≡ (artifact_round self.now).view }
    {
        self.round().view
    }

    /// The epoch that it is about.
    pub fn epoch(&self) -> Epoch
        ensures { result ≡ (artifact_round self.now).epoch }
    {
        self.round().epoch
    }
}

impl Keep for Artifact {
    fn keep(&self, alloc: Global) -> Result<Artifact, AllocError> {
        match self {
            Artifact::Notarize(it) => Ok(Artifact::Notarize(*it)),
            Artifact::Notarization(it) => Ok(Artifact::Notarization(it.keep(alloc)?)),
            Artifact::Certification(round, verdict) => {
                Ok(Artifact::Certification(*round, *verdict))
            }
            Artifact::Nullify(it) => Ok(Artifact::Nullify(*it)),
            Artifact::Nullification(it) => Ok(Artifact::Nullification(it.keep(alloc)?)),
            Artifact::Finalize(it) => Ok(Artifact::Finalize(*it)),
            Artifact::Finalization(it) => Ok(Artifact::Finalization(it.keep(alloc)?)),
        }
    }
}
