//! One inbox of a relay.
ghost use Rattle.std.specs.Prelude.{◌≡◌, [], length, filter, replicate, ◌==◌, IfOk, OnOk, OnErr, None, Some};
ghost use Rattle.std.specs.Option.{option_copied};
ghost use Rattle.simplex_mocks.specs.Relay.{cleared, times_named, times_for, with_relayed, taken_back, first_of, rest_of};

use crate::relayed::Relayed;
use simplex_types::{Bytes, Digest, Participant, Recipients};
use std::alloc::{AllocError, Global};
use std::collections::VecDeque;
use std::marker::Model;

/// Whose inbox it is, unless registrations were cleared since, and what it holds, the oldest first.
#[derive(Debug, Drop)]
pub(crate) struct Slot {
    member: Option<Participant>,
    holds: VecDeque<Relayed>,
}

impl Model for Slot {
    ghost use Rattle.simplex_mocks.specs.Relay.{Place};

    ghost Value = { Place };

    ghost view = { λ slot. record { member = slot.member; holds = slot.holds.items } };
}

/// How often the member stands in the list.
fn times_in(members: &[Participant], member: Participant) -> usize
    ensures { result ≡ length (filter (λ m. m == member) members.now) }
{
    members.iter().filter(|named| **named == member).count()
}

/// How often the member is named.
fn times_named(recipients: &Recipients, member: Participant) -> usize
    ensures { result ≡ times_named recipients.now member }
{
    match recipients {
        Recipients::All => 1,
        Recipients::Some(members) => times_in(members.as_slice(), member),
        Recipients::One(named) => usize::from(*named == member),
    }
}

/// So many copies of the payload.
fn copies(
    alloc: Global,
    times: usize,
    payload: Digest,
    contents: &[u8],
) -> Result<VecDeque<Relayed>, AllocError>
    ensures { IfOk result (λ made. made.items
        ≡ replicate times (record { payload = payload; contents = contents.now })) }
{
    let mut made = VecDeque::new(alloc);
    for _ in 0..times {
        made.push_back(Relayed {
            payload,
            contents: Bytes::from_vec(contents.to_vec(alloc)?),
        })?;
    }
    Ok(made)
}

impl Slot {
    /// An empty inbox of the member.
    pub(crate) fn new(alloc: Global, member: Participant) -> Slot
        ensures { result ≡ record { member = Some member; holds = [] } }
    {
        Slot {
            member: Some(member),
            holds: VecDeque::new(alloc),
        }
    }

    /// Empties the inbox, which is nobody's from then on.
    pub(crate) fn clear(&mut self)
        ensures { self.new ≡ cleared self.old }
    {
        self.member = None;
        self.holds.clear();
    }

    /// How often it is named by these recipients of the sender.
    fn times_for(&self, sender: Participant, recipients: &Recipients) -> usize
        ensures { result ≡ times_for sender recipients.now self.now.member }
    {
        match self.member {
            None => 0,
            Some(member) => {
                if member == sender {
                    0
                } else {
                    times_named(recipients, member)
                }
            }
        }
    }

    /// Puts the payload last, once for each time that the inbox is named, or leaves the inbox as it was for want of
    /// memory.
    pub(crate) fn receive(
        &mut self,
        alloc: Global,
        sender: Participant,
        recipients: &Recipients,
        payload: Digest,
        contents: &[u8],
    ) -> Result<(), AllocError>
        ensures ok { OnOk result (self.new ≡ with_relayed sender recipients.now
            (record { payload = payload; contents = contents.now }) self.old) }
        ensures err { OnErr result (self.new ≡ self.old) }
    {
        let times = self.times_for(sender, recipients);
        let mut made = copies(alloc, times, payload, contents)?;
        self.holds.append(&mut made)
    }

    /// Takes back the newest, as many as the times that the inbox is named.
    pub(crate) fn take_back(&mut self, sender: Participant, recipients: &Recipients)
        ensures { self.new ≡ taken_back sender recipients.now self.old }
    {
        let times = self.times_for(sender, recipients);
        let kept = self.holds.len().saturating_sub(times);
        self.holds.truncate(kept);
    }

    /// The oldest.
    pub(crate) fn first(&self) -> Option<&Relayed>
        ensures { option_copied result ≡ first_of self.now.holds }
    {
        self.holds.front()
    }

    /// Takes the oldest.
    pub(crate) fn take(&mut self) -> Option<Relayed>
        ensures first { result ≡ first_of self.old.holds }
        ensures rest { self.new ≡ record self.old { holds = rest_of self.old.holds } }
    {
        self.holds.pop_front()
    }
}
