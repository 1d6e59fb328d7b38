//! What member 0 of four knows and votes, with terms of five views and work on ten views ahead, told line by line: `state 0 of 4 ahead 10`.
ghost use Rattle.std.specs.Prelude.{◌<◌, ◌^◌};

use simplex_state::{State, StateConfig};
use simplex_types::elector::Config as _;
use simplex_types::{
    Digest, Epoch, Finalization, Keyed, Notarization, Participant, RoundRobin, RoundRobinElector,
    Signatures, Subject, TermLength, Terms, TimeoutReason, View, ViewDelta, Vote,
};
use std::alloc::{AllocError, Global};
use test_support::reading::{certified, number, reason, view};
use test_support::telling::{Items, proposal_text, vote_text};
use test_support::{Part, Script, Told, play_made};

type Member = State<Keyed, RoundRobinElector>;

/// A state, and the clock.
#[derive(Drop)]
struct Table {
    alloc: Global,
    member: Member,
    clock: u64,
}

fn made(alloc: Global) -> Result<Option<Member>, AllocError> {
    let Some(length) = TermLength::new(5) else {
        return Ok(None);
    };
    let terms = Terms {
        length,
        lookahead: 10,
        stall_timeout: Some(5000),
    };
    let config = StateConfig {
        scheme: Keyed::new(alloc, 7, 4, Some(Participant(0)))?,
        elector: RoundRobin::new(terms).build(4),
        epoch: Epoch(0),
        view_retention: ViewDelta(10),
        leader_timeout: 1000,
        certification_timeout: 2000,
        timeout_retry: 500,
        skip_budget: 3,
        handoff: true,
        genesis: Digest([0; 32]),
    };
    Ok(Some(State::new(alloc, config, 100)?))
}

/// Plays a script whose first line is `state`, and these words.
pub(crate) fn run(words: &[&str], script: &Script, told: &mut Told) -> Result<(), AllocError> {
    let alloc = told.alloc();
    let member = match words {
        ["0", "of", "4", "ahead", "10"] => made(alloc)?,
        _ => None,
    };
    let made = member.map(|member| Table {
        alloc,
        member,
        clock: 100,
    });
    play_made(made, script, told)
}

/// What is done with a state, or asked of it.
#[derive(Clone, Copy)]
enum Command {
    /// `at 110`: the clock.
    At(u64),
    /// `notarization 1 aa` or `finalization 1 aa`: the certificate is added.
    Add(Subject),
    /// `certified 1`: the application's verdict.
    Judge(View),
    /// `finalize 1`: the member's vote.
    Finalize(View),
    /// `nullify for leader timeout`: that of its current view.
    Nullify(TimeoutReason),
    /// `where`: the current view, the last final one, and the least that is kept.
    Where,
}

/// What a line says.
fn command_of(words: &[&str]) -> Option<Command> {
    match words {
        ["at", now] => Some(Command::At(number(now)?)),
        ["notarization" | "finalization", ..] => Some(Command::Add(certified(words)?)),
        ["certified", at] => Some(Command::Judge(view(at)?)),
        ["finalize", at] => Some(Command::Finalize(view(at)?)),
        ["nullify", "for", why @ ..] => Some(Command::Nullify(reason(why)?)),
        ["where"] => Some(Command::Where),
        _ => None,
    }
}

impl Table {
    fn add(&mut self, items: &mut Items, subject: Subject, now: u64) -> Result<(), AllocError>
        requires clock { now < 2 ^ 63 }
    {
        let certificate = Signatures::new(Vec::new(self.alloc));
        let (is_new, _blamed) = match subject {
            Subject::Notarize(proposal) => {
                let it = Notarization {
                    proposal,
                    certificate,
                };
                self.member.add_notarization(it, now)?
            }
            Subject::Finalize(proposal) => {
                let it = Finalization {
                    proposal,
                    certificate,
                };
                self.member.add_finalization(it, now)?
            }
            Subject::Nullify(_) => return items.push("not a command"),
        };
        items.push(if is_new { "new" } else { "known" })
    }

    fn judge(&mut self, items: &mut Items, view: View, now: u64) -> Result<(), AllocError>
        requires clock { now < 2 ^ 63 }
    {
        match self.member.certified(view, true, now)? {
            Some(it) => {
                let proposal = proposal_text(self.alloc, &it.proposal)?;
                items.push(&format!(in self.alloc; "judged {}", proposal.as_str())?)
            }
            None => Ok(()),
        }
    }

    fn push_vote(&self, items: &mut Items, vote: &Vote) -> Result<(), AllocError> {
        items.push(&vote_text(self.alloc, vote)?)
    }

    fn finalize(&mut self, items: &mut Items, view: View) -> Result<(), AllocError> {
        match self.member.construct_finalize(view)? {
            Some(vote) => self.push_vote(items, &Vote::Finalize(vote)),
            None => Ok(()),
        }
    }

    fn nullify(
        &mut self,
        items: &mut Items,
        reason: TimeoutReason,
        now: u64,
    ) -> Result<(), AllocError>
        requires clock { now < 2 ^ 63 }
    {
        let view = self.member.current_view();
        match self.member.construct_nullify(view, reason, now) {
            Some((_repeated, vote)) => self.push_vote(items, &Vote::Nullify(vote)),
            None => Ok(()),
        }
    }

    fn stands(&self, items: &mut Items) -> Result<(), AllocError> {
        let (current, last) = (self.member.current_view(), self.member.last_finalized());
        let least = self.member.min_active();
        items.push(&format!(in self.alloc; "in {current}, {last} is final, kept from {least} on")?)
    }

    fn act(&mut self, items: &mut Items, command: Command) -> Result<(), AllocError> {
        let now = self.clock;
        if now >= 1 << 63 {
            return items.push("not allowed: so late a clock");
        }
        match command {
            Command::Add(subject) => self.add(items, subject, now),
            Command::Judge(view) => self.judge(items, view, now),
            Command::Finalize(view) => self.finalize(items, view),
            Command::Nullify(reason) => self.nullify(items, reason, now),
            _ => self.stands(items),
        }
    }
}

impl Part for Table {
    fn take(&mut self, words: &[&str], told: &mut Told) -> Result<(), AllocError> {
        let Some(command) = command_of(words) else {
            return told.says("not a command");
        };
        if let Command::At(clock) = command {
            self.clock = clock;
            return Ok(());
        }
        let mut items = Items::new(told.alloc());
        self.act(&mut items, command)?;
        told.says(items.text())
    }
}
