//! A relay of payloads between applications.
ghost use Rattle.std.specs.Prelude.{◌≡◌, ◌≤◌, ◌++◌, [], length, map, take, drop, option_map, IfOk, OnOk, OnErr};
ghost use Rattle.std.specs.Option.{option_copied};
ghost use Rattle.simplex_mocks.specs.Relay.{cleared, registered, deregistered, taken_back, broadcast, front, after_take};

use crate::relayed::Relayed;
use crate::slot::Slot;
use simplex_types::{Bytes, Digest, Participant, Recipients};
use std::alloc::{AllocError, Global};
use std::marker::Model;

/// An inbox by its number.
#[derive(Clone, Copy, Debug, PartialEq, Eq)]
pub struct Inbox(usize);

impl Model for Inbox {
    ghost use Rattle.std.specs.Prelude.{ℕ, ◌<◌, ◌^◌};

    ghost Value = { ℕ };

    ghost view = { λ inbox. inbox.0 };

    ghost invariant = { λ inbox. inbox.0 < 2 ^ 64 };

    ghost inverse = { λ n. record { 0 = n } };
}

/// Inboxes of members, into which payloads are put.
#[derive(Debug, Drop)]
pub struct Relay {
    slots: Vec<Slot>,
}

impl Model for Relay {
    ghost use Rattle.std.specs.Prelude.{List};
    ghost use Rattle.simplex_mocks.specs.Relay.{Place};

    ghost Value = { List Place };

    ghost view = { λ relay. relay.slots.items };
}

/// Empties each.
#[tactic(auto, using(crate::proofs::Slots::all_changed))]
fn clear_each(slots: &mut [Slot])
    ensures { slots.new ≡ map cleared slots.old }
{
    for place in 0..slots.len() {
        slots[place].clear();
    }
}

/// Takes back from each of the first ones its newest, as many as the times that it is named.
fn take_back_each(slots: &mut [Slot], given: usize, sender: Participant, recipients: &Recipients)
    requires { given ≤ length slots.old }
    ensures { slots.new ≡ map (taken_back sender recipients.now) (take given slots.old)
        ++ drop given slots.old }
{
    for place in 0..given {
        slots[place].take_back(sender, recipients);
    }
}

/// Gives the payload to each. Want of memory leaves all as they were: those that have it already give it back.
/// [all-or-nothing]
#[tactic(auto, unfolding(crate::specs::Relay::broadcast), using(crate::proofs::Slots::all_changed))]
fn give_each(
    alloc: Global,
    slots: &mut [Slot],
    sender: Participant,
    recipients: &Recipients,
    payload: Digest,
    contents: &[u8],
) -> Result<(), AllocError>
    ensures ok { OnOk result (slots.new
        ≡ broadcast slots.old sender recipients.now
        (record { payload = payload; contents = contents.now })) }
    ensures err { OnErr result (slots.new ≡ slots.old) }
{
    for place in 0..slots.len() {
        if let Err(error) = slots[place].receive(alloc, sender, recipients, payload, contents) {
            take_back_each(slots, place, sender, recipients);
            return Err(error);
        }
    }
    Ok(())
}

impl Relay {
    /// A relay without inboxes.
    pub fn new(alloc: Global) -> Relay
        ensures { result ≡ [] }
    {
        Relay {
            slots: Vec::new(alloc),
        }
    }

    /// A new inbox of the member, which may have others. Want of memory leaves the relay as it was.
    #[tactic(auto, unfolding(crate::specs::Relay::registered))]
    pub fn register(&mut self, alloc: Global, member: Participant) -> Result<Inbox, AllocError>
        ensures number { IfOk result (λ inbox. inbox ≡ length self.old) }
        ensures ok { OnOk result (self.new ≡ registered self.old member) }
        ensures err { OnErr result (self.new ≡ self.old) }
    {
        let number = self.slots.len();
        self.slots.push(Slot::new(alloc, member))?;
        Ok(Inbox(number))
    }

    /// Empties all inboxes, which are nobody's from then on. Their numbers are not given again.
    #[tactic(auto, unfolding(crate::specs::Relay::deregistered))]
    pub fn deregister_all(&mut self)
        ensures { self.new ≡ deregistered self.old }
    {
        clear_each(self.slots.as_mut_slice());
    }

    /// Puts the payload last into each inbox of each recipient other than the sender, once for each time that it is
    /// named. Want of memory leaves the relay as it was.
    pub fn broadcast(
        &mut self,
        alloc: Global,
        sender: Participant,
        recipients: &Recipients,
        payload: Digest,
        contents: &[u8],
    ) -> Result<(), AllocError>
        ensures ok { OnOk result (self.new ≡ broadcast self.old sender recipients.now
            (record { payload = payload; contents = contents.now })) }
        ensures err { OnErr result (self.new ≡ self.old) }
    {
        let slots = self.slots.as_mut_slice();
        give_each(alloc, slots, sender, recipients, payload, contents)
    }

    /// The oldest payload of the inbox, with its contents.
    #[tactic(auto, unfolding(crate::specs::Relay::front))]
    pub fn front(&self, inbox: Inbox) -> Option<&Relayed>
        ensures { option_copied result ≡ front self.now inbox }
    {
        self.slots.get(inbox.0)?.first()
    }

    /// Takes the oldest payload of the inbox, with its contents.
    #[tactic(auto, unfolding(crate::specs::Relay::front, crate::specs::Relay::after_take))]
    pub fn take(&mut self, inbox: Inbox) -> Option<(Digest, Bytes)>
        ensures first { result
            ≡ option_map (λ relayed. (relayed.payload, relayed.contents)) (front self.old inbox) }
        ensures rest { self.new ≡ after_take self.old inbox }
    {
        let relayed = self.slots.get_mut(inbox.0)?.take()?;
        Some((relayed.payload, relayed.contents))
    }
}
