//! The resolver of member 0 of four, with terms of five views, told line by line: `resolver of 4 terms of 5`.
mod telling;

use crate::resolver::telling::tell;
use simplex_mailbox::Mailbox;
use simplex_messages::resolver::MailboxMessage;
use simplex_messages::{ResolverInput, StepOut, voter};
use simplex_resolver::{Actor, Config};
use simplex_types::{Epoch, Keyed, Participant, ResolverBody, TermLength, View};
use std::alloc::{AllocError, Global};
use test_support::papers::{Paper, bytes_of, certificate, message, notarization};
use test_support::{Part, Script, Told, member, number, play_made, timed};

/// A resolver, and the time.
#[derive(Drop)]
struct Desk {
    alloc: Global,
    actor: Actor<Keyed>,
    now: u64,
}

/// Peers have a second to answer, and a view waits a tenth of one after an attempt that failed.
fn desk_of(alloc: Global) -> Result<Option<Desk>, AllocError> {
    let Some(term_length) = TermLength::new(5) else {
        return Ok(None);
    };
    let config = Config {
        scheme: Keyed::new(alloc, 7, 4, Some(Participant(0)))?,
        epoch: Epoch(0),
        mailbox_size: 16,
        handler_size: 16,
        fetch_timeout: 1000,
        fetch_retry_delay: 100,
        term_length,
    };
    Ok(Some(Desk {
        alloc,
        actor: Actor::new(alloc, config)?,
        now: 0,
    }))
}

/// Plays a script whose first line is `resolver`, and these words.
pub(crate) fn run(words: &[&str], script: &Script, told: &mut Told) -> Result<(), AllocError> {
    match words {
        ["of", "4", "terms", "of", "5"] => play_made(desk_of(told.alloc())?, script, told),
        _ => told.says("not a command"),
    }
}

/// What is done with a resolver, or asked of it.
#[derive(Clone, Copy)]
enum Command {
    /// `replayed`: the voter read its journal.
    Replayed,
    /// `known nullification 4`: the voter knows the certificate.
    Known(Paper),
    /// `failed 5`: the application refused the notarization of the view.
    Failed(u64),
    /// `from 1 answer 2 nullification 4`: the member answers the request of this number.
    Answer(u32, u64, Paper),
    /// `timer`
    Timer,
    /// `handle`: a step with the handler's first message.
    Handle,
    /// `does nullification 4 answer 3`: whether the certificate answers an ask for the view.
    Judge(u64, Paper),
}

fn paper_of(words: &[&str]) -> Option<Paper> {
    match words {
        ["notarization", view] => Some(Paper::Notarized(number(view)?)),
        ["nullification", view] => Some(Paper::Nullified(number(view)?)),
        _ => None,
    }
}

/// What the words want, if they are a command.
fn command_of(words: &[&str]) -> Option<Command> {
    match words {
        ["replayed"] => Some(Command::Replayed),
        ["known", paper @ ..] => Some(Command::Known(paper_of(paper)?)),
        ["failed", view] => Some(Command::Failed(number(view)?)),
        ["from", who, "answer", id, paper @ ..] => {
            Some(Command::Answer(member(who)?, number(id)?, paper_of(paper)?))
        }
        ["timer"] => Some(Command::Timer),
        ["handle"] => Some(Command::Handle),
        ["does", paper @ .., "answer", view] => {
            Some(Command::Judge(number(view)?, paper_of(paper)?))
        }
        _ => None,
    }
}

fn answered(
    alloc: Global,
    sender: u32,
    id: u64,
    paper: Paper,
) -> Result<ResolverInput, AllocError> {
    let bytes = bytes_of(alloc, paper)?;
    Ok(ResolverInput::Packet {
        sender: Participant(sender),
        bytes: message(alloc, id, ResolverBody::Response { bytes })?,
    })
}

/// What a step takes by the command.
fn input(alloc: Global, command: Command) -> Result<ResolverInput, AllocError> {
    match command {
        Command::Known(paper) => Ok(ResolverInput::Mail(MailboxMessage::Updated {
            certificate: certificate(alloc, paper)?,
        })),
        Command::Failed(view) => Ok(ResolverInput::Mail(MailboxMessage::Certified {
            notarization: notarization(alloc, view)?,
            success: false,
        })),
        Command::Answer(sender, id, paper) => answered(alloc, sender, id, paper),
        Command::Replayed => Ok(ResolverInput::Mail(MailboxMessage::Replayed)),
        _ => Ok(ResolverInput::Timer),
    }
}

impl Desk {
    /// A step with the input.
    fn step(&mut self, input: ResolverInput, told: &mut Told) -> Result<(), AllocError> {
        if self.now >= 1 << 63 {
            return told.says("not allowed: the time is at its end");
        }
        let before = self.actor.next_deadline();
        let mut post = Mailbox::<voter::Message>::new(self.alloc, 16)?;
        let mut out = StepOut::new(self.alloc);
        let _outcome = self
            .actor
            .step(input, self.now, &mut post, &mut out)
            .map_err(|_| AllocError)?;
        tell(&out, before, self.actor.next_deadline(), told)
    }

    /// A step with the handler's first message.
    fn handle(&mut self, told: &mut Told) -> Result<(), AllocError> {
        match self.actor.take_handler() {
            None => told.says("nothing waits"),
            Some(message) => self.step(ResolverInput::Handler(message), told),
        }
    }

    /// Whether a certificate's bytes answer an ask for the view.
    fn judge(&self, view: u64, paper: Paper, told: &mut Told) -> Result<(), AllocError> {
        let bytes = bytes_of(self.alloc, paper)?;
        let read = self.actor.validate(View(view), bytes.as_slice())?;
        told.says(if read.is_some() {
            "it answers"
        } else {
            "it does not answer"
        })
    }
}

impl Part for Desk {
    fn take(&mut self, words: &[&str], told: &mut Told) -> Result<(), AllocError> {
        let Some((time, words)) = timed(words, self.now) else {
            return told.says("not a command");
        };
        self.now = time;
        match command_of(words) {
            None => told.says("not a command"),
            Some(Command::Handle) => self.handle(told),
            Some(Command::Judge(view, paper)) => self.judge(view, paper, told),
            Some(command) => {
                let input = input(self.alloc, command)?;
                self.step(input, told)
            }
        }
    }
}
