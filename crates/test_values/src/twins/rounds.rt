//! The words for rounds: masks as lists of places, and whom a message reaches.
use simplex_twins::RoundScenario;
use simplex_types::{Participant, SplitTarget};
use std::alloc::{AllocError, Global};

/// The mask of places below 64, each behind a comma; a dash for none.
pub(super) fn mask_of(word: &str) -> Option<u64> {
    let mut mask = 0u64;
    if word == "-" {
        return Some(mask);
    }
    for place in word.split(',') {
        let place = place.parse::<u32>().ok()?;
        if place >= 64 {
            return None;
        }
        mask |= 1 << place;
    }
    Some(mask)
}

/// Whether the mask has the place.
fn has(mask: u64, place: usize) -> bool {
    let mut rest = mask;
    for _ in 0..place {
        rest /= 2;
    }
    rest % 2 == 1
}

/// The places of a mask, each behind a comma; a dash for none.
fn mask_text(alloc: Global, mask: u64) -> Result<String, AllocError> {
    let mut text = String::new(alloc);
    for place in 0..64usize {
        if has(mask, place) {
            if !text.is_empty() {
                text.push_str(",")?;
            }
            text.push_str(format!(in alloc; "{place}")?.as_str())?;
        }
    }
    if text.is_empty() {
        text.push_str("-")?;
    }
    Ok(text)
}

/// The leader of a round, and its masks.
pub(super) fn round_text(alloc: Global, round: &RoundScenario) -> Result<String, AllocError> {
    let leader = round.leader();
    let first = mask_text(alloc, round.primary())?;
    let second = mask_text(alloc, round.secondary())?;
    format!(in alloc; "{leader} {} {}", first.as_str(), second.as_str())
}

/// Members, each behind a space.
fn list_text(alloc: Global, word: &str, members: &[Participant]) -> Result<String, AllocError> {
    let mut text = String::from_str(alloc, word)?;
    for member in members {
        text.push_str(format!(in alloc; " {member}")?.as_str())?;
    }
    if members.is_empty() {
        text.push_str(" none")?;
    }
    Ok(text)
}

/// Who talks with each half.
pub(super) fn members_text(
    alloc: Global,
    first: &[Participant],
    second: &[Participant],
) -> Result<String, AllocError> {
    let first = list_text(alloc, "first", first)?;
    let second = list_text(alloc, "second", second)?;
    format!(in alloc; "{}, {}", first.as_str(), second.as_str())
}

/// Whom a message reaches.
pub(super) fn target_word(target: SplitTarget) -> &'static str {
    match target {
        SplitTarget::None => "neither",
        SplitTarget::Primary => "first",
        SplitTarget::Secondary => "second",
        SplitTarget::Both => "both",
    }
}
