//! What a line of a script about a fetcher wants.
use simplex_fetch::Fetch;
use simplex_types::{Ask, Kind, Participant, Until};
use test_support::reading::{member, number, view};

/// A call of a fetcher.
#[derive(Clone, Copy)]
pub(super) enum Command {
    /// `fetch nullification 7 until floor`: what is asked for, of any member.
    Fetch(Fetch),
    /// The same with `of 3` behind it: of this member alone.
    Target(Fetch, Participant),
    /// `expire`: the views whose deadline is reached are looked at.
    Expire,
    /// `block 2`: the member is blocked by others.
    Block(Participant),
}

fn fetch_of(kind: &str, wanted: &str, until: &str) -> Option<Fetch> {
    let (kind, until) = match (kind, until) {
        ("nullification", "floor") => (Kind::Nullification, Until::Floor),
        ("notarization", "final") => (Kind::Notarization, Until::Finalized),
        _ => return None,
    };
    Some(Fetch {
        view: view(wanted)?,
        ask: Ask { kind, until },
    })
}

/// What the words want, if they are a command.
pub(super) fn command_of(words: &[&str]) -> Option<Command> {
    match words {
        ["fetch", kind, view, "until", until] => Some(Command::Fetch(fetch_of(kind, view, until)?)),
        ["fetch", kind, view, "until", until, "of", target] => {
            Some(Command::Target(fetch_of(kind, view, until)?, member(target)?))
        }
        ["block", who] => Some(Command::Block(member(who)?)),
        ["expire"] => Some(Command::Expire),
        _ => None,
    }
}
