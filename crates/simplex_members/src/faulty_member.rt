//! Faulty members without an engine.
ghost use Rattle.std.specs.Prelude.{◌≡◌, ◌<◌, ◌∷◌, [], length, true, false, IsNone, IfOk, OnOk};
ghost use Rattle.model_run.specs.Kinds as kinds;
ghost use Rattle.model_run.specs.Members.{kind_of};
ghost use Rattle.model_run.specs.Mocks.{heard_by};
ghost use Rattle.model_run.specs.Setups as setups;
ghost use Rattle.simplex_members.specs.FaultyMember.{FaultyStands, OfItsPast, is_impersonator};
ghost use Rattle.simplex_mocks.specs.Hearing.{bytes_heard};

use crate::electors::{NodeElector, elector_of};
use crate::schemes::{kind_of, random_of, scheme_of};
use model_faults::Sent;
use simplex_mocks::conflicter::{self, Conflicter};
use simplex_mocks::equivocator::{self, Equivocator};
use simplex_mocks::impersonator::{self, Impersonator};
use simplex_mocks::nuller::{self, Nuller};
use simplex_mocks::nullify_only::{self, NullifyOnly};
use simplex_mocks::outdated::{self, Outdated};
use simplex_mocks::reconfigurer::{self, Reconfigurer};
use simplex_transcript::{MemberKind, Setup};
use simplex_types::{Channel, Epoch, Keyed, Participant, Sequence, ViewDelta};
use std::alloc::{AllocError, Global};

/// A faulty member without an engine: it only answers what it hears.
#[derive(Drop)]
pub enum FaultyMember {
    /// Sends nothing.
    Silent,
    /// Votes for two proposals.
    Conflicter(Conflicter<Keyed>),
    /// Proposes two payloads to different members.
    Equivocator(Equivocator<Keyed, NodeElector>),
    /// Votes under another member's number.
    Impersonator(Impersonator<Keyed>),
    /// Nullifies and finalizes a view.
    Nuller(Nuller<Keyed>),
    /// Nullifies each view.
    NullifyOnly(NullifyOnly<Keyed>),
    /// Votes for what was proposed some views before.
    Outdated(Outdated<Keyed>),
    /// Votes in the next epoch.
    Reconfigurer(Reconfigurer<Keyed>),
}

impl FaultyMember {
    /// A member of the setup, which has heard nothing.
    pub fn new(
        alloc: Global,
        setup: &Setup,
        member: Participant,
    ) -> Result<FaultyMember, AllocError>
        requires good { IsNone (setups.first_bad setup.now) }
        requires below { member < length setup.now.members }
        requires without_engine { kinds.runs_engine setup.now member ≡ false }
        ensures { IfOk result (λ made. FaultyStands made setup.now member []) }
    {
        let scheme = scheme_of(alloc, setup, member)?;
        let random = random_of(setup, member);
        match kind_of(setup, member) {
            MemberKind::Silent => Ok(FaultyMember::Silent),
            MemberKind::Conflicter => {
                let config = conflicter::Config { scheme, random };
                Ok(FaultyMember::Conflicter(Conflicter::new(config)))
            }
            MemberKind::Equivocator => {
                let config = equivocator::Config {
                    scheme,
                    elector: elector_of(alloc, setup)?,
                    epoch: Epoch(setup.epoch),
                    random,
                };
                Ok(FaultyMember::Equivocator(Equivocator::new(alloc, config)))
            }
            MemberKind::Impersonator => {
                let config = impersonator::Config { scheme, random };
                Ok(FaultyMember::Impersonator(Impersonator::new(config)))
            }
            MemberKind::Nuller => {
                let config = nuller::Config { scheme, random };
                Ok(FaultyMember::Nuller(Nuller::new(config)))
            }
            MemberKind::NullifyOnly => {
                let config = nullify_only::Config { scheme, random };
                Ok(FaultyMember::NullifyOnly(NullifyOnly::new(config)))
            }
            MemberKind::Outdated(delta) => {
                let config = outdated::Config {
                    scheme,
                    random,
                    view_delta: ViewDelta(delta),
                };
                Ok(FaultyMember::Outdated(Outdated::new(alloc, config)))
            }
            MemberKind::Reconfigurer => {
                let config = reconfigurer::Config { scheme, random };
                Ok(FaultyMember::Reconfigurer(Reconfigurer::new(config)))
            }
            MemberKind::Honest
            | MemberKind::Corrupt
            | MemberKind::Unrecovering
            | MemberKind::Twin => unreachable!(),
        }
    }

    /// What it sends on hearing the bytes.
    pub fn hear(
        &mut self,
        alloc: Global,
        channel: Channel,
        bytes: &[u8],
    ) -> Result<Sequence<Sent>, AllocError>
        // The messages of the definition.
        ensures sends { OfItsPast self.old (λ setup member past. IfOk result
            (λ sent. sent ≡ heard_by setup member (kind_of setup member) past
            (bytes_heard channel bytes.now))) }
        // It has heard this too.
        ensures stands { OfItsPast self.old (λ setup member past. OnOk result
            (FaultyStands self.new setup member (bytes_heard channel bytes.now ∷ past))) }
        // Nothing that an impersonator hears changes it.
        ensures unmoved { OfItsPast self.old (λ setup member past.
            is_impersonator (kind_of setup member) ≡ true
            → OnOk result (FaultyStands self.new setup member past)) }
    {
        match self {
            FaultyMember::Silent => Ok(Sequence::new(alloc)),
            FaultyMember::Conflicter(member) => member.hear(alloc, channel, bytes),
            FaultyMember::Equivocator(member) => member.hear(alloc, channel, bytes),
            FaultyMember::Impersonator(member) => member.hear(alloc, channel, bytes),
            FaultyMember::Nuller(member) => member.hear(alloc, channel, bytes),
            FaultyMember::NullifyOnly(member) => member.hear(alloc, channel, bytes),
            FaultyMember::Outdated(member) => member.hear(alloc, channel, bytes),
            FaultyMember::Reconfigurer(member) => member.hear(alloc, channel, bytes),
        }
    }
}
