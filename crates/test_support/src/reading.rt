//! What the words of a script stand for.
use simplex_values::{Digest, Epoch, Participant, Proposal, Round, Subject, TimeoutReason, View};

/// The number that a word is.
pub fn number(word: &str) -> Option<u64> {
    word.parse::<u64>().ok()
}

/// The view of this number.
pub fn view(word: &str) -> Option<View> {
    Some(View(number(word)?))
}

/// The member of this number.
pub fn member(word: &str) -> Option<Participant> {
    let number = word.parse::<u32>().ok()?;
    Some(Participant(number))
}

fn digit(letter: u8) -> Option<u8> {
    match letter {
        b'0'..=b'9' => Some(letter - b'0'),
        b'a'..=b'f' => Some(letter - b'a' + 10),
        _ => None,
    }
}

/// The payload that two digits of base 16 name: it is this byte 32 times.
pub fn payload(word: &str) -> Option<Digest> {
    let [high, low] = word.as_bytes() else {
        return None;
    };
    let byte = digit(*high)?.checked_mul(16)?.checked_add(digit(*low)?)?;
    Some(Digest([byte; 32]))
}

/// The round of this view, of epoch 0.
fn round(word: &str) -> Option<Round> {
    Some(Round {
        epoch: Epoch(0),
        view: view(word)?,
    })
}

/// The proposal of a view and a payload, `3 aa`, on genesis; or on another view, `3 aa on 2`.
fn proposal(words: &[&str]) -> Option<Proposal> {
    let (number, name, parent) = match words {
        [number, name] => (number, name, View(0)),
        [number, name, "on", parent] => (number, name, view(parent)?),
        _ => return None,
    };
    Some(Proposal {
        round: round(number)?,
        parent,
        payload: payload(name)?,
    })
}

/// What a certificate is for: `notarization 3 aa`, `nullification 3` or `finalization 3 aa`.
pub fn certified(words: &[&str]) -> Option<Subject> {
    match words {
        ["notarization", what @ ..] => Some(Subject::Notarize(proposal(what)?)),
        ["nullification", number] => Some(Subject::Nullify(round(number)?)),
        ["finalization", what @ ..] => Some(Subject::Finalize(proposal(what)?)),
        _ => None,
    }
}

/// Why a view expires.
pub fn reason(words: &[&str]) -> Option<TimeoutReason> {
    match words {
        ["leader", "timeout"] => Some(TimeoutReason::LeaderTimeout),
        ["certification", "timeout"] => Some(TimeoutReason::CertificationTimeout),
        ["stall", "timeout"] => Some(TimeoutReason::StallTimeout),
        ["leader", "nullify"] => Some(TimeoutReason::LeaderNullify),
        ["inactivity"] => Some(TimeoutReason::Inactivity),
        ["missing", "proposal"] => Some(TimeoutReason::MissingProposal),
        ["ignored", "proposal"] => Some(TimeoutReason::IgnoredProposal),
        ["invalid", "proposal"] => Some(TimeoutReason::InvalidProposal),
        ["failed", "certification"] => Some(TimeoutReason::FailedCertification),
        _ => None,
    }
}
