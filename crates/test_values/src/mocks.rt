//! The part `mocks`: a relay, and schemes and electors that are wrapped.
//!
//! `register MEMBER` gives the member an inbox of the relay, `relay all BYTE` is a payload of member 0 for all, `empty INBOX` tells what
//! an inbox gives, `deregister` closes all. `scheme BEHAVIOR` tells how a wrapped scheme signs and assembles, `elect VIEW..` who leads by
//! a wrapped elector.
mod schemes;

use crate::mocks::schemes::{tell_behavior, tell_elected};
use simplex_mocks::relay::{Inbox, Relay};
use simplex_types::{Digest, Participant, Recipients};
use std::alloc::{AllocError, Global};
use test_support::{Part, Told, payload_text};

/// A relay with the inboxes that were registered.
#[derive(Drop)]
pub(crate) struct Mocks {
    relay: Relay,
    inboxes: Vec<Inbox>,
}

impl Mocks {
    /// No inbox is registered.
    pub(crate) fn new(alloc: Global) -> Mocks {
        Mocks {
            relay: Relay::new(alloc),
            inboxes: Vec::new(alloc),
        }
    }

    /// Registers an inbox of the member, and tells its number.
    fn register(&mut self, member: &str, told: &mut Told) -> Result<(), AllocError> {
        let alloc = told.alloc();
        let Ok(member) = member.parse::<u32>() else {
            return told.says("not a command");
        };
        let inbox = self.relay.register(alloc, Participant(member))?;
        told.says(format!(in alloc; "inbox {}", self.inboxes.len())?.as_str())?;
        self.inboxes.push(inbox)?;
        Ok(())
    }

    /// Member 0 relays to all the payload of this byte, whose contents are that byte three times.
    fn send(&mut self, byte: &str, told: &mut Told) -> Result<(), AllocError> {
        let alloc = told.alloc();
        let Ok(byte) = byte.parse::<u8>() else {
            return told.says("not a command");
        };
        let payload = Digest([byte; 32]);
        self.relay.broadcast(alloc, Participant(0), &Recipients::All, payload, &[byte; 3])
    }

    /// Tells what the inbox shows and gives, until it is empty.
    fn take_all(&mut self, number: &str, told: &mut Told) -> Result<(), AllocError> {
        let alloc = told.alloc();
        let inbox = match number.parse::<usize>() {
            Ok(number) => self.inboxes.get(number).copied(),
            Err(_) => None,
        };
        let Some(inbox) = inbox else {
            return told.says("not a command");
        };
        for _ in 0..100 {
            let shown = self.relay.front(inbox).map(|relayed| relayed.payload);
            let Some((payload, contents)) = self.relay.take(inbox) else {
                return told.says(if shown.is_none() {
                    "empty"
                } else {
                    "shown, not given"
                });
            };
            let same = shown == Some(payload);
            let name = payload_text(alloc, &payload)?;
            let contents = hex::encode(alloc, contents.as_slice())?;
            told.says(format!(in alloc; "{name} with {contents}, shown {same}")?.as_str())?;
        }
        Ok(())
    }
}

impl Part for Mocks {
    fn take(&mut self, words: &[&str], told: &mut Told) -> Result<(), AllocError> {
        match words {
            ["register", member] => self.register(member, told),
            ["relay", "all", byte] => self.send(byte, told),
            ["empty", inbox] => self.take_all(inbox, told),
            ["deregister"] => {
                self.relay.deregister_all();
                Ok(())
            }
            ["scheme", behavior] => tell_behavior(told, behavior),
            ["elect", views @ ..] => tell_elected(told, views),
            _ => told.says("not a command"),
        }
    }
}
