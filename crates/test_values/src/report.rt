//! Scripts about reporters: answers combined, what others can be shown, whom two reporters tell, and what a run's reports tell.
mod counting;

use crate::report::counting::{Counting, Listing, told_by};
use simplex_messages::{Call, Outcome};
use simplex_report::{
    AttributableReporter, Pair, Reporters, combine, hand_reports, max_payload_size,
};
use simplex_transcript::Entry;
use simplex_types::{
    Activity, Digest, Epoch, Feedback, Hidden, Keyed, Notarization, Notarize, Participant,
    Proposal, Reporter, Round, Scheme, Sequence, Signatures, View,
};
use std::alloc::{AllocError, Global};
use test_support::{Part, Script, Told, member, play};

/// A reporter that keeps what it is told.
#[derive(Drop)]
struct Desk {
    alloc: Global,
    listing: Listing,
}

/// Plays a script whose first line is `reporters`.
pub(crate) fn run(script: &Script, told: &mut Told) -> Result<(), AllocError> {
    let alloc = told.alloc();
    let mut desk = Desk {
        alloc,
        listing: Listing::new(alloc),
    };
    play(&mut desk, script, told)
}

fn feedback_of(word: &str) -> Option<Feedback> {
    match word {
        "Ok" => Some(Feedback::Ok),
        "Backoff" => Some(Feedback::Backoff),
        "Closed" => Some(Feedback::Closed),
        _ => None,
    }
}

/// A block of view 1.
fn block() -> Proposal {
    Proposal {
        round: Round {
            epoch: Epoch(0),
            view: View(1),
        },
        parent: View(0),
        payload: Digest([17; 32]),
    }
}

/// The scheme of member 0 of four, with keys of this base.
fn keyed(alloc: Global, base: u64) -> Result<Keyed, AllocError> {
    Keyed::new(alloc, base, 4, Some(Participant(0)))
}

/// A notarization that nobody signed.
fn unsigned(alloc: Global) -> Notarization {
    Notarization {
        proposal: block(),
        certificate: Signatures::new(Vec::new(alloc)),
    }
}

/// What is reported: `notarize`, by keys that verify or by others, or a certificate that nobody signed.
fn activity_of(alloc: Global, word: &str) -> Result<Option<Activity>, AllocError> {
    let base = match word {
        "certification" => return Ok(Some(Activity::Certification(unsigned(alloc)))),
        "notarization" => return Ok(Some(Activity::Notarization(unsigned(alloc)))),
        "notarize" => 1,
        "foreign-notarize" => 2,
        _ => return Ok(None),
    };
    let vote = Notarize::sign(&keyed(alloc, base)?, block());
    Ok(vote.map(|vote| Activity::Notarize(vote)))
}

/// What the reporter, which answers `Backoff`, is told of the activity.
fn passes<S: Scheme + Drop>(
    alloc: Global,
    scheme: S,
    verify: bool,
    activity: Activity,
) -> Result<String, AllocError> {
    let inside = Counting::answering(Feedback::Backoff);
    let mut reporter = AttributableReporter::new(scheme, inside, verify);
    let answer = reporter.report(activity)?;
    let told = reporter.reporter.told;
    format!(in alloc; "{answer:?}, told {told}")
}

/// `SCHEME verifying|trusting WHAT`.
fn shown(alloc: Global, scheme: &str, verify: &str, what: &str) -> Result<String, AllocError> {
    let verify = verify == "verifying";
    let Some(activity) = activity_of(alloc, what)? else {
        return String::from_str(alloc, "not a command");
    };
    let inner = keyed(alloc, 1)?;
    match scheme {
        "keyed" => passes(alloc, inner, verify, activity),
        "hidden" => passes(alloc, Hidden { inner }, verify, activity),
        _ => String::from_str(alloc, "not a command"),
    }
}

/// A pair of reporters that answer so; where the word is none, there is none.
fn pair_of(first: &str, second: &str) -> Pair<Counting, Counting> {
    let first = feedback_of(first).map(|answer| Counting::answering(answer));
    let second = feedback_of(second).map(|answer| Counting::answering(answer));
    match (first, second) {
        (Some(first), Some(second)) => Pair::from((first, second)),
        (Some(first), None) => Pair::from((first, None)),
        (None, Some(second)) => Pair::from((None, second)),
        (None, None) => Pair::from((None, None)),
    }
}

/// What two reporters answer, and how much each was told.
fn pair_text(
    alloc: Global,
    reporters: &mut Reporters<Counting, Counting>,
) -> Result<String, AllocError> {
    let answer = reporters.report(Activity::Notarization(unsigned(alloc)))?;
    let (first, second) = (
        told_by(&reporters.pair.first),
        told_by(&reporters.pair.second),
    );
    format!(in alloc; "{answer:?}, told {first} and {second}")
}

fn both(alloc: Global, first: &str, second: &str) -> Result<String, AllocError> {
    let mut reporters = Reporters::new(alloc, pair_of(first, second));
    pair_text(alloc, &mut reporters)
}

/// Two reports, and calls that are none.
fn handed_calls(alloc: Global) -> Result<Vec<Call>, AllocError> {
    let scheme = keyed(alloc, 1)?;
    let mut calls = vec![in alloc; Call::Sync(1)]?;
    if let Some(vote) = Notarize::sign(&scheme, block()) {
        calls.push(Call::Report(Activity::Notarize(vote)))?;
    }
    calls.push(Call::Prune(1))?;
    calls.push(Call::Report(Activity::Notarization(unsigned(alloc))))?;
    Ok(calls)
}

/// An entry of these calls, which did nothing else.
fn entry_of(alloc: Global, calls: Vec<Call>) -> Entry {
    Entry {
        event: 1,
        who: None,
        took: None,
        added: Sequence::new(alloc),
        asked: Sequence::new(alloc),
        dropped: Sequence::new(alloc),
        handed: Sequence::new(alloc),
        calls: Sequence::from_vec(calls),
        packets: Sequence::new(alloc),
        outcome: Outcome::Done,
    }
}

fn combined(alloc: Global, first: &str, second: &str) -> Result<String, AllocError> {
    match (feedback_of(first), feedback_of(second)) {
        (Some(first), Some(second)) => format!(in alloc; "{:?}", combine(first, second)),
        _ => String::from_str(alloc, "not a command"),
    }
}

fn longest(alloc: Global, word: &str) -> Result<String, AllocError> {
    match member(word) {
        Some(n) if n <= 1024 => format!(in alloc; "{}", max_payload_size(n)),
        _ => String::from_str(alloc, "not allowed: there are at most 1024 members"),
    }
}

impl Desk {
    /// Hands the reports of an entry to the reporter that keeps them, and tells all that it keeps.
    fn hand(&mut self) -> Result<String, AllocError> {
        let entry = entry_of(self.alloc, handed_calls(self.alloc)?);
        let answer = hand_reports(self.alloc, &entry, &mut self.listing)?;
        let told = self.listing.text(self.alloc)?;
        format!(in self.alloc; "{answer:?}, told so far: {}", told.as_str())
    }
}

impl Part for Desk {
    fn take(&mut self, words: &[&str], told: &mut Told) -> Result<(), AllocError> {
        let alloc = self.alloc;
        let text = match words {
            ["combine", first, second] => combined(alloc, first, second)?,
            ["pair", first, second] => both(alloc, first, second)?,
            ["hand", "sync", "notarize", "prune", "notarization"] => self.hand()?,
            ["longest", "payload", "of", n, "members"] => longest(alloc, n)?,
            [scheme, verify, what] => shown(alloc, scheme, verify, what)?,
            _ => String::from_str(alloc, "not a command")?,
        };
        told.says(text.as_str())
    }
}
