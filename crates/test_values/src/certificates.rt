//! Scripts about votes of four members, what they make, and which of them are evidence.
ghost use Rattle.std.specs.Prelude.{◌≡◌, ◌<◌, IfOk};

use simplex_types::{
    Activity, AssemblyError, ConflictingFinalize, ConflictingNotarize, Digest, Epoch, Finalization,
    Finalize, Floor, Hidden, Keep, Keyed, Notarization, Notarize, Nullification, Nullify,
    NullifyFinalize, Participant, Proposal, Round, Scheme, View,
};
use std::alloc::{AllocError, Global};
use test_support::{Part, Script, Told, play};

/// The base of the keys.
const BASE: u64 = 1;

/// How many members there are.
const MEMBERS: u32 = 4;

/// The scheme that nobody signs by, with keys that prove who signed and with such that do not.
#[derive(Drop)]
struct Desk {
    alloc: Global,
    keyed: Keyed,
    hidden: Hidden,
}

/// Plays a script whose first line is `votes of four members`.
pub(crate) fn run(script: &Script, told: &mut Told) -> Result<(), AllocError> {
    let alloc = told.alloc();
    let mut desk = Desk {
        alloc,
        keyed: Keyed::new(alloc, BASE, MEMBERS, None)?,
        hidden: Hidden::new(alloc, BASE, MEMBERS, None)?,
    };
    play(&mut desk, script, told)
}

fn round_at(epoch: u64, view: u64) -> Round {
    Round {
        epoch: Epoch(epoch),
        view: View(view),
    }
}

/// A block of 3.300.
fn block_of(payload: u8) -> Proposal {
    Proposal {
        round: round_at(3, 300),
        parent: View(299),
        payload: Digest([payload; 32]),
    }
}

/// The member's notarize of the proposal.
#[tactic(auto, unfolding(simplex_types::specs::Keyed::keyed_attests))]
fn notarize(alloc: Global, member: u32, about: &Proposal) -> Result<Notarize, AssemblyError>
    requires { member < 4 }
    ensures about { IfOk result (λ v. v.proposal ≡ about.now) }
    ensures signer { IfOk result (λ v. v.attestation.signer ≡ member) }
{
    let scheme = Keyed::new(alloc, BASE, MEMBERS, Some(Participant(member)))?;
    Notarize::sign(&scheme, *about).ok_or(AssemblyError::RecoveryFailed)
}

/// The member's nullify of the round.
#[tactic(auto, unfolding(simplex_types::specs::Keyed::keyed_attests))]
fn nullify(alloc: Global, member: u32, round: &Round) -> Result<Nullify, AssemblyError>
    requires { member < 4 }
    ensures about { IfOk result (λ v. v.round ≡ round.now) }
    ensures signer { IfOk result (λ v. v.attestation.signer ≡ member) }
{
    let scheme = Keyed::new(alloc, BASE, MEMBERS, Some(Participant(member)))?;
    Nullify::sign(&scheme, *round).ok_or(AssemblyError::RecoveryFailed)
}

/// The member's finalize of the proposal.
#[tactic(auto, unfolding(simplex_types::specs::Keyed::keyed_attests))]
fn finalize(alloc: Global, member: u32, about: &Proposal) -> Result<Finalize, AssemblyError>
    requires { member < 4 }
    ensures about { IfOk result (λ v. v.proposal ≡ about.now) }
    ensures signer { IfOk result (λ v. v.attestation.signer ≡ member) }
{
    let scheme = Keyed::new(alloc, BASE, MEMBERS, Some(Participant(member)))?;
    Finalize::sign(&scheme, *about).ok_or(AssemblyError::RecoveryFailed)
}

/// The notarization of the proposal by members 0, 2 and 3.
fn notarization(
    alloc: Global,
    scheme: &Keyed,
    about: &Proposal,
) -> Result<Notarization, AssemblyError> {
    let votes = [
        notarize(alloc, 0, about)?,
        notarize(alloc, 2, about)?,
        notarize(alloc, 3, about)?,
    ];
    Notarization::from_notarizes(alloc, scheme, &votes)
}

/// The nullification of the round by members 1, 2 and 3.
fn nullification(
    alloc: Global,
    scheme: &Hidden,
    round: &Round,
) -> Result<Nullification, AssemblyError> {
    let votes = [
        nullify(alloc, 1, round)?,
        nullify(alloc, 2, round)?,
        nullify(alloc, 3, round)?,
    ];
    Nullification::from_nullifies(alloc, scheme, &votes)
}

/// The finalization of the proposal by members 0, 1 and 2.
fn finalization(
    alloc: Global,
    scheme: &Hidden,
    about: &Proposal,
) -> Result<Finalization, AssemblyError> {
    let votes = [
        finalize(alloc, 0, about)?,
        finalize(alloc, 1, about)?,
        finalize(alloc, 2, about)?,
    ];
    Finalization::from_finalizes(alloc, scheme, &votes)
}

/// Why there is no certificate, in words.
fn or_why(alloc: Global, made: Result<String, AssemblyError>) -> Result<String, AllocError> {
    match made {
        Ok(text) => Ok(text),
        Err(AssemblyError::Memory) => Err(AllocError),
        Err(why) => format!(in alloc; "{why}"),
    }
}

/// What a report tells: whether it was verified, and whether it verifies.
fn reported<S: Scheme>(
    alloc: Global,
    scheme: &S,
    activity: &Activity,
) -> Result<String, AllocError> {
    let (was, verifies) = (activity.verified(), activity.verify(scheme));
    let epoch = activity.epoch();
    let same = activity.keep(alloc)? == *activity;
    format!(in alloc;
        "reported in epoch {epoch}: verified before {was}, verifies {verifies}, its copy is the same {same}"
    )
}

/// Whether evidence shows that its signer voted twice in its round, as it is and as it is reported.
fn evidence_text(
    alloc: Global,
    signer: Participant,
    round: Round,
    verifies: bool,
    reported: &str,
) -> Result<String, AllocError> {
    format!(in alloc; "against {signer} in {round}: {verifies}; {reported}")
}

/// Two notarizes of member 1 for two blocks.
fn notarizes_text(alloc: Global, scheme: &Keyed) -> Result<String, AssemblyError> {
    let it = ConflictingNotarize {
        first: notarize(alloc, 1, &block_of(17))?,
        second: notarize(alloc, 1, &block_of(18))?,
    };
    let (signer, round, verifies) = (it.signer(), it.round(), it.verify(scheme));
    let reported = reported(alloc, scheme, &Activity::ConflictingNotarize(it))?;
    Ok(evidence_text(alloc, signer, round, verifies, reported.as_str())?)
}

/// Two finalizes of member 1 for two blocks.
fn finalizes_text(alloc: Global, scheme: &Keyed) -> Result<String, AssemblyError> {
    let it = ConflictingFinalize {
        first: finalize(alloc, 1, &block_of(17))?,
        second: finalize(alloc, 1, &block_of(18))?,
    };
    let (signer, round, verifies) = (it.signer(), it.round(), it.verify(scheme));
    let reported = reported(alloc, scheme, &Activity::ConflictingFinalize(it))?;
    Ok(evidence_text(alloc, signer, round, verifies, reported.as_str())?)
}

/// A nullify and a finalize of member 1.
fn both_ways_text(alloc: Global, scheme: &Keyed) -> Result<String, AssemblyError> {
    let it = NullifyFinalize {
        nullify: nullify(alloc, 1, &round_at(3, 300))?,
        finalize: finalize(alloc, 1, &block_of(17))?,
    };
    let (signer, round, verifies) = (it.signer(), it.round(), it.verify(scheme));
    let reported = reported(alloc, scheme, &Activity::NullifyFinalize(it))?;
    Ok(evidence_text(alloc, signer, round, verifies, reported.as_str())?)
}

fn notarization_text(
    alloc: Global,
    scheme: &Keyed,
    made: &Notarization,
) -> Result<String, AllocError> {
    let verifies = made.verify(scheme);
    let round = made.proposal.round;
    let activity = Activity::Certification(made.keep(alloc)?);
    let reported = reported(alloc, scheme, &activity)?;
    format!(in alloc; "of {round}: verifies {verifies}; {}", reported.as_str())
}

/// A nullification: with its keys, with others, and moved into another epoch.
fn nullification_text(
    alloc: Global,
    scheme: &Hidden,
    made: &Nullification,
) -> Result<String, AllocError> {
    let others = Keyed::new(alloc, BASE + 1, MEMBERS, None)?;
    let (verifies, with_others) = (made.verify(scheme), made.verify(&others));
    let moved = Nullification {
        round: round_at(4, 300),
        certificate: made.certificate.keep(alloc)?,
    };
    let is_moved = moved.verify(scheme);
    let reported = reported(alloc, scheme, &Activity::Nullification(moved))?;
    format!(in alloc;
        "verifies {verifies}, with other keys {with_others}, moved to 4.300 {is_moved}; {}",
        reported.as_str()
    )
}

/// A finalization: among four, among seven, and as a floor.
fn finalization_text(
    alloc: Global,
    scheme: &Hidden,
    made: Finalization,
) -> Result<String, AllocError> {
    let seven = Keyed::new(alloc, BASE, 7, None)?;
    let (verifies, of_seven) = (made.verify(scheme), made.verify(&seven));
    let floor = Floor::Finalized(made);
    let same = floor.keep(alloc)? == floor;
    format!(in alloc;
        "verifies {verifies}, among seven {of_seven}; as a floor its copy is the same {same}"
    )
}

impl Desk {
    /// A certificate of the block of 3.300 or of its round, by these members.
    fn certificate(&self, words: &[&str]) -> Result<String, AssemblyError> {
        let (alloc, about) = (self.alloc, block_of(17));
        let text = match words {
            ["notarization", "by", "0", "2", "3"] => {
                let made = notarization(alloc, &self.keyed, &about)?;
                notarization_text(alloc, &self.keyed, &made)?
            }
            ["nullification", "by", "1", "2", "3"] => {
                let made = nullification(alloc, &self.hidden, &about.round)?;
                nullification_text(alloc, &self.hidden, &made)?
            }
            ["finalization", "by", "0", "1", "2"] => {
                let made = finalization(alloc, &self.hidden, &about)?;
                finalization_text(alloc, &self.hidden, made)?
            }
            _ => String::from_str(alloc, "not a command")?,
        };
        Ok(text)
    }

    fn evidence(&self, words: &[&str]) -> Result<String, AssemblyError> {
        match words {
            ["two-notarizes", "1", "block", "1", "rival"] => {
                notarizes_text(self.alloc, &self.keyed)
            }
            ["two-finalizes", "1", "block", "1", "rival"] => {
                finalizes_text(self.alloc, &self.keyed)
            }
            ["nullify-and-finalize", "1", "block", "1", "block"] => {
                both_ways_text(self.alloc, &self.keyed)
            }
            _ => Ok(String::from_str(self.alloc, "not a command")?),
        }
    }
}

impl Part for Desk {
    fn take(&mut self, words: &[&str], told: &mut Told) -> Result<(), AllocError> {
        let made = match words {
            ["evidence", words @ ..] => self.evidence(words),
            _ => self.certificate(words),
        };
        told.says(or_why(self.alloc, made)?.as_str())
    }
}
