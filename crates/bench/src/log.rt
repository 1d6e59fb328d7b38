//! A finalized log that is told of certificates of one member.
ghost use Rattle.std.specs.Prelude.{◌<◌};

use simplex_log::{FinalizedLog, LogError};
use simplex_types::{
    Activity, Digest, Epoch, Finalization, Keyed, Notarization, Participant, Proposal, Round,
    Scheme, Signatures, Subject, View,
};
use std::alloc::{AllocError, Global};

/// In which order certificates of a chain come.
#[derive(Clone, Copy)]
pub enum Work {
    /// Finalizations from the first view up.
    Rise,
    /// The last view's finalization, then the links below it from above.
    Fall,
    /// Finalizations from the second view up: the first never comes.
    Wait,
}

/// What comes at a place.
#[derive(Clone, Copy)]
struct Step {
    view: u64,
    is_final: bool,
}

/// The step at this place, from 0, of so many.
fn step_at(work: Work, size: u32, place: u32) -> Step
    requires { place < size }
{
    match work {
        Work::Rise => Step {
            view: u64::from(place) + 1,
            is_final: true,
        },
        Work::Fall => Step {
            view: u64::from(size - place),
            is_final: place == 0,
        },
        Work::Wait => Step {
            view: u64::from(place) + 2,
            is_final: true,
        },
    }
}

/// The proposal of the view, on the one before.
fn block(view: u64) -> Proposal {
    Proposal {
        round: Round {
            epoch: Epoch(0),
            view: View(view),
        },
        parent: View(view.saturating_sub(1)),
        payload: Digest([17; 32]),
    }
}

/// The member's signature on the subject.
fn signed(alloc: Global, signer: &Keyed, subject: &Subject) -> Result<Signatures, AllocError> {
    let mut list = Vec::new(alloc);
    if let Some(attestation) = signer.sign(subject) {
        list.push(attestation)?;
    }
    Ok(Signatures::new(list))
}

/// The certificate that comes.
fn certificate(alloc: Global, signer: &Keyed, step: Step) -> Result<Activity, AllocError> {
    if step.is_final {
        let subject = Subject::Finalize(block(step.view));
        let certificate = signed(alloc, signer, &subject)?;
        Ok(Activity::Finalization(Finalization {
            proposal: block(step.view),
            certificate,
        }))
    } else {
        let subject = Subject::Notarize(block(step.view));
        let certificate = signed(alloc, signer, &subject)?;
        Ok(Activity::Notarization(Notarization {
            proposal: block(step.view),
            certificate,
        }))
    }
}

fn keyed(alloc: Global) -> Result<Keyed, AllocError> {
    Keyed::new(alloc, 1, 1, Some(Participant(0)))
}

/// The log is told; nothing clashes.
fn tell(log: &mut FinalizedLog<Keyed>, activity: &Activity) -> Result<(), AllocError> {
    match log.observe(activity) {
        Ok(_) | Err(LogError::Clash { .. }) => Ok(()),
        Err(LogError::Memory) => Err(AllocError),
    }
}

/// One log is told of so many certificates: how many entries it has.
fn filled(alloc: Global, work: Work, size: u32) -> Result<u64, AllocError> {
    let signer = keyed(alloc)?;
    let mut log = FinalizedLog::new(alloc, keyed(alloc)?);
    for place in 0..size {
        let activity = certificate(alloc, &signer, step_at(work, size, place))?;
        tell(&mut log, &activity)?;
    }
    Ok(log.entries().len() as u64)
}

/// So many logs.
pub fn turns(alloc: Global, work: Work, size: u32, times: u32) -> Result<u64, AllocError> {
    let mut entries = 0u64;
    for _ in 0..times {
        entries = entries.saturating_add(filled(alloc, work, size)?);
    }
    Ok(entries)
}
