//! The judge of entries, one by one.
ghost use Rattle.std.specs.Prelude.{◌≡◌, [], IsNone, IfOk};
ghost use Rattle.model_run.specs.Setting.{Setting};
ghost use Rattle.model_run.specs.Setups as setups;
ghost use Rattle.simplex_judge.specs.Judging.{JudgeStands, Judges};

use crate::followers::Followers;
use model_audit::{AuditEntry, AuditFault};
use simplex_case::Case;
use simplex_conflicts::Standing;
use simplex_transcript::{Event, Setup};
use std::alloc::{AllocError, Global};

/// What is kept of the entries of a record so far: what later events may name, what nodes know and store, and which certificates
/// verify. No entry is gone over again.
#[derive(Drop)]
pub struct Judge {
    pub(crate) case: Case,
    pub(crate) followers: Followers,
    pub(crate) standing: Standing,
}

impl Judge {
    /// Before any entry.
    #[tactic(auto, using(simplex_members::proofs::Good::good))]
    pub fn new(alloc: Global, setup: &Setup) -> Result<Judge, AllocError>
        requires good { IsNone (setups.first_bad setup.now) }
        ensures { IfOk result (λ judge. (setting : Setting) → setting.setup ≡ setup.now
            → JudgeStands judge setting [] []) }
    {
        Ok(Judge {
            case: Case::new(alloc, setup)?,
            followers: Followers::new(alloc, setup)?,
            standing: Standing::new(alloc, setup)?,
        })
    }

    /// The first fault of the next entry, if it has one. Behind a fault nothing is told of what is kept.
    #[tactic(auto, using(simplex_members::proofs::Good::good))]
    pub fn judge(
        &mut self,
        alloc: Global,
        setup: &Setup,
        prior: &[AuditEntry],
        event: &Event,
        entry: &AuditEntry,
    ) -> Result<Option<AuditFault>, AllocError>
        requires good { IsNone (setups.first_bad setup.now) }
        ensures { IfOk result (λ fault. (setting : Setting) → setting.setup ≡ setup.now
            → Judges self.old self.new setting prior.now event.now entry.now fault) }
    {
        if !self.case.fits(setup, prior, event, entry) {
            return Ok(Some(AuditFault::Entry));
        }
        let at_end = self.followers.is_at_end(setup, event);
        if !self.case.allows(setup, prior, event, at_end) {
            return Ok(Some(AuditFault::Condition));
        }
        if !self.case.is_genuine(alloc, setup, entry)? {
            return Ok(Some(AuditFault::Forged));
        }
        if !self.followers.store_first(alloc, setup, event, entry)? {
            return Ok(Some(AuditFault::Order));
        }
        if !self.followers.follow(alloc, setup, prior, event, entry)? {
            return Ok(Some(AuditFault::Votes));
        }
        if self.standing.take(alloc, entry)? {
            return Ok(Some(AuditFault::Conflict));
        }
        self.case.take(alloc, setup, prior, event, entry)?;
        Ok(None)
    }
}
