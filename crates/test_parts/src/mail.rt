//! Scripts about a mailbox of an actor: what a full one drops, changes, and hands out first.
mod batcher;
mod handler;
mod resolver;
mod spelled;
mod voter;

pub(crate) use crate::mail::spelled::certificate_text;
use crate::mail::spelled::{Spelled, read};
use simplex_mailbox::{Mailbox, Policy};
use simplex_messages::resolver::{HandlerMessage, MailboxMessage};
use simplex_messages::{batcher as to_batcher, voter as to_voter};
use std::alloc::{AllocError, Global};
use test_support::{Part, Script, Told, member, number, play_made};

/// So many messages are taken at once at most.
const MANY: u64 = 1_000_000;

/// A mailbox. It is none only while a message is put.
#[derive(Drop)]
struct Desk<M: Policy> {
    alloc: Global,
    mailbox: Option<Mailbox<M>>,
}

/// A mailbox with room for so many messages, where that is more than none.
fn desk_of<M: Policy>(alloc: Global, room: u32) -> Result<Option<Desk<M>>, AllocError> {
    if room == 0 {
        return Ok(None);
    }
    Ok(Some(Desk {
        alloc,
        mailbox: Some(Mailbox::new(alloc, room)?),
    }))
}

fn play<M: Spelled + Policy + Drop>(
    room: u32,
    script: &Script,
    told: &mut Told,
) -> Result<(), AllocError> {
    let desk: Option<Desk<M>> = desk_of(told.alloc(), room)?;
    play_made(desk, script, told)
}

/// Plays a script whose first line is `mailbox of` and these words: the actor, and `room MESSAGES`.
pub(crate) fn run(words: &[&str], script: &Script, told: &mut Told) -> Result<(), AllocError> {
    let (actor, room) = match words {
        [actor, "room", room] => (*actor, member(room).unwrap_or(0)),
        _ => return told.says("not a command"),
    };
    match actor {
        "voter" => play::<to_voter::Message>(room, script, told),
        "batcher" => play::<to_batcher::Message>(room, script, told),
        "resolver" => play::<MailboxMessage>(room, script, told),
        "handler" => play::<HandlerMessage>(room, script, told),
        _ => told.says("not a command"),
    }
}

impl<M: Spelled + Policy + Drop> Desk<M> {
    /// Puts the message, and tells the answer.
    fn put(&mut self, message: M, told: &mut Told) -> Result<(), AllocError> {
        let Some(mailbox) = self.mailbox.take() else {
            return told.says("there is no mailbox");
        };
        let (mailbox, feedback) = message.put_into(mailbox)?;
        self.mailbox = Some(mailbox);
        told.says(format!(in self.alloc; "{feedback:?}")?.as_str())
    }

    /// Takes a message and tells it, if there is one: also where it is another than its words make.
    fn take_one(&mut self, told: &mut Told) -> Result<bool, AllocError> {
        let taken = match &mut self.mailbox {
            Some(mailbox) => mailbox.recv(),
            None => None,
        };
        let Some(message) = taken else {
            return Ok(false);
        };
        let text = message.text(self.alloc)?;
        told.says(text.as_str())?;
        if read(self.alloc, text.as_str())? != Some(message) {
            told.says("it is another than these words make")?;
        }
        Ok(true)
    }

    /// Takes messages until there is none.
    fn take_all(&mut self, told: &mut Told) -> Result<(), AllocError> {
        for _ in 0..MANY {
            if !self.take_one(told)? {
                return Ok(());
            }
        }
        Ok(())
    }

    /// Who asked for it waits no more.
    fn leave(&mut self, id: Option<u64>, told: &mut Told) -> Result<(), AllocError> {
        match (id, &mut self.mailbox) {
            (Some(id), Some(mailbox)) => {
                mailbox.leave(id);
                Ok(())
            }
            _ => told.says("not a command"),
        }
    }
}

impl<M: Spelled + Policy + Drop> Part for Desk<M> {
    fn take(&mut self, words: &[&str], told: &mut Told) -> Result<(), AllocError> {
        match words {
            ["take", "all"] => self.take_all(told),
            ["leave", id] => self.leave(number(id), told),
            _ => match M::of(self.alloc, words) {
                Some(message) => self.put(message, told),
                None => told.says("not a command"),
            },
        }
    }
}
