//! What is kept of the entries, to be looked up by later events.
#![tactic(auto, unfolding(crate::specs::Stands::seats_in))]

ghost use Rattle.std.specs.Prelude.{◌≡◌, ◌+◌, ◌*◌, ◌<◌, ◌^◌, ◌∷◌, ◌&&◌, ◌||◌, [], List, length, IfOk, OnOk};
ghost use Rattle.std.specs.Option.{option_map, is_some};
ghost use Rattle.model_run.specs.Life.{Noted};
ghost use Rattle.model_run.specs.Entries as entries;
ghost use Rattle.model_run.specs.Requests as requests;
ghost use Rattle.model_run.specs.Kinds as kinds;
ghost use Rattle.simplex_records.specs.Seats as seats;
ghost use Rattle.simplex_records.specs.Events as events;
ghost use Rattle.simplex_records.specs.Events.{IsOf, AreFrom};
ghost use Rattle.simplex_wire.specs.declared.certificate.Finalization.{Finalization};
ghost use Rattle.std.specs.List.{list_any};
ghost use Rattle.simplex_records.specs.Reported.{has_reported};
ghost use Rattle.simplex_records.specs.Votes.{VotesStand, IndexStands};
ghost use Rattle.simplex_records.specs.Forgeries.{first_forgery};
ghost use Rattle.simplex_records.specs.Stands.{RecordsStand, DesksStand, Answers, AnswersIn, Enters, TakesIn, TakesInStep, TakesInPackets, PassesBy, Speaks, seats_in};

use crate::entries::{entry_of, idle_entry, spoken_entry};
use crate::forgery::Forgery;
use crate::kinds::{are_honest, is_honest};
use crate::packets::{has_packet, packet_for, packets_of, push_packets};
use crate::reported::Reported;
use crate::requests::Requests;
use crate::seats::seat_of;
use crate::sent_votes::SentVotes;
use simplex_messages::{Outcome, StepOut};
use simplex_transcript::{Entry, Node, Packet, Ref, Setup, Took};
use simplex_types::{Finalization, Sequence};
use std::alloc::{AllocError, Global};

/// The packets of each event, the requests of each node, the finalizations that honest members reported, and, where
/// some member is faulty, the votes that honest members sent.
///
/// Nothing is looked up by going over the entries. Where a call wants memory, nothing is told of what the records keep
/// after it. [looked-up]
#[derive(Drop)]
pub struct Records {
    packets: Vec<Sequence<Packet>>,
    desks: Vec<Requests>,
    reported: Reported,
    votes: Option<SentVotes>,
}

impl Records {
    /// Of no entry, with two seats for each member of the setup.
    pub fn new(alloc: Global, setup: &Setup) -> Result<Records, AllocError>
        requires { length setup.now.members < 2 ^ 32 }
        ensures count { IfOk result (λ records. seats_in records ≡ 2 * length setup.now.members) }
        ensures stands { IfOk result (λ records. RecordsStand records setup.now []) }
    {
        Ok(Records {
            packets: Vec::new(alloc),
            desks: blank_desks(alloc, 2 * setup.members.len())?,
            reported: Reported::new(alloc),
            votes: blank_votes(alloc, setup)?,
        })
    }

    // The number of the next event.
    fn next(&self) -> u64
        ensures { Answers self.now (λ setup before. length before + 1) result }
    {
        self.packets.len() as u64 + 1
    }

    /// The packet at this place, where it may be delivered to the node.
    pub fn packet_for(&self, node: Node, at: Ref) -> Option<&Packet>
        ensures { Answers self.now (λ setup before. requests.packet_for before node at)
            (option_map (λ packet. packet.now) result) }
    {
        packet_for(&self.packets, node, at)
    }

    /// Whether there is a packet at this place, whoever it is for.
    pub fn has_packet(&self, at: Ref) -> bool
        ensures { Answers self.now (λ setup before. is_some (requests.packet_at before at)) result }
    {
        has_packet(&self.packets, at)
    }

    /// The number of the request at this place, where the node asked it since its last start.
    pub fn request_number(&self, node: Node, at: Ref) -> Option<u64>
        requires half { node.half < 2 }
        requires seat { seats.seat_of node < seats_in self.now }
        ensures { Answers self.now (λ setup before. requests.request_number before node at) result }
    {
        let seat = seat_of(node);
        self.desks[seat].number(at)
    }

    /// Where the node's request of this number stands.
    pub fn request_place(&self, node: Node, number: u64) -> Option<Ref>
        requires half { node.half < 2 }
        requires seat { seats.seat_of node < seats_in self.now }
        ensures { Answers self.now
            (λ setup before. requests.request_place before node number) result }
    {
        let seat = seat_of(node);
        self.desks[seat].place(number)
    }

    /// Whether a node may start there: at genesis, or at a finalization that an honest member reported.
    pub fn is_own_floor(&self, floor: &Option<Finalization>) -> bool
        ensures { Answers self.now
            (λ setup before. entries.is_own_floor setup before floor.now) result }
    {
        match floor {
            None => true,
            Some(finalization) => self.reported.contains(finalization),
        }
    }

    /// The first attestation in packets of faulty members that is forged. They are no packets of an entry yet.
    pub fn first_forged(
        &self,
        alloc: Global,
        setup: &Setup,
        packets: &[Packet],
    ) -> Result<Option<Forgery>, AllocError>
        ensures { IfOk result (λ found. AnswersIn self.now setup.now
            (λ before. first_forgery setup.now before packets.now) found) }
    {
        match &self.votes {
            None => Ok(None),
            Some(votes) => {
                let found = votes.first_forged(alloc, setup, packets)?;
                Ok(found)
            }
        }
    }

    /// The entry of what an engine of the node did at an event of the node, which starts it or not. The entry is taken
    /// in.
    pub fn enter(
        &mut self,
        alloc: Global,
        setup: &Setup,
        node: Node,
        starts: bool,
        took: Option<Took>,
        out: StepOut,
        outcome: Outcome,
    ) -> Result<Entry, AllocError>
        requires half { node.half < 2 }
        requires seat { seats.seat_of node < seats_in self.old }
        ensures count { seats_in self.new ≡ seats_in self.old }
        ensures entry { IfOk result
            (λ entry. Enters self.old setup.now node took out outcome entry) }
        ensures stands { IfOk result
            (λ entry. TakesIn self.old self.new setup.now node starts entry) }
    {
        let event = self.next();
        let packets = self.take_in(alloc, setup, node, starts, &out)?;
        Ok(entry_of(event, node, took, out, packets, outcome))
    }

    /// The entry of an event at which no engine did anything, nothing was sent, and that is no start. The entry is
    /// taken in.
    pub fn pass(
        &mut self,
        alloc: Global,
        who: Option<Node>,
        outcome: Outcome,
    ) -> Result<Entry, AllocError>
        ensures count { seats_in self.new ≡ seats_in self.old }
        ensures entry { IfOk result (λ entry. Answers self.old
            (λ setup before. events.idle_entry (length before + 1) who outcome) entry) }
        ensures stands { IfOk result (λ entry. PassesBy self.old self.new entry) }
    {
        let event = self.next();
        push_packets(&mut self.packets, alloc, &[])?;
        Ok(idle_entry(alloc, event, who, outcome))
    }

    /// The entry of packets that no engine made: those of a faulty node that heard something, or bytes that a faulty
    /// member is made to send. The entry is taken in.
    pub fn speak(
        &mut self,
        alloc: Global,
        node: Node,
        took: Option<Took>,
        packets: Sequence<Packet>,
    ) -> Result<Entry, AllocError>
        ensures count { seats_in self.new ≡ seats_in self.old }
        ensures entry { IfOk result (λ entry. Answers self.old
            (λ setup before. events.spoken_entry (length before + 1) node took packets) entry) }
        ensures stands { IfOk result (λ entry. Speaks self.old self.new node packets entry) }
    {
        let event = self.next();
        push_packets(&mut self.packets, alloc, packets.as_slice())?;
        Ok(spoken_entry(alloc, event, node, took, packets))
    }

    // Takes in what an engine did at an event of the node, which starts it or not. Gives its packets.
    fn take_in(
        &mut self,
        alloc: Global,
        setup: &Setup,
        node: Node,
        starts: bool,
        out: &StepOut,
    ) -> Result<Sequence<Packet>, AllocError>
        requires half { node.half < 2 }
        requires seat { seats.seat_of node < seats_in self.old }
        ensures count { seats_in self.new ≡ seats_in self.old }
        ensures packets { IfOk result (λ packets. packets
            ≡ entries.packets_of setup.now node out.now.calls) }
        ensures stands { IfOk result
            (λ packets. TakesInStep self.old self.new setup.now node starts packets out.now) }
    {
        let packets = packets_of(alloc, setup, node, out.calls.as_slice())?;
        self.add(alloc, setup, node, starts, packets.as_slice(), out)?;
        Ok(packets)
    }

    // Takes in what an engine did at an event of the node, which starts it or not, and these packets of it.
    fn add(
        &mut self,
        alloc: Global,
        setup: &Setup,
        node: Node,
        starts: bool,
        packets: &[Packet],
        out: &StepOut,
    ) -> Result<(), AllocError>
        requires half { node.half < 2 }
        requires seat { seats.seat_of node < seats_in self.old }
        ensures count { seats_in self.new ≡ seats_in self.old }
        ensures stands { OnOk result (AreFrom node packets.now
            → TakesInStep self.old self.new setup.now node starts packets.now out.now) }
    {
        let event = self.next();
        let asked = out.asked.len() as u64;
        push_packets(&mut self.packets, alloc, packets)?;
        add_asked(&mut self.desks, alloc, seat_of(node), starts, event, asked)?;
        add_reported(&mut self.reported, alloc, setup, node, out)?;
        add_votes(&mut self.votes, alloc, setup, node, packets)?;
        Ok(())
    }
}

// Of each node, with no request yet.
fn blank_desks(alloc: Global, count: usize) -> Result<Vec<Requests>, AllocError>
    ensures count { IfOk result (λ desks. length desks.items ≡ count) }
    ensures stands { IfOk result (λ desks. DesksStand desks.items []) }
{
    let mut desks = Vec::new(alloc);
    for _ in 0..count {
        desks.push(Requests::new(alloc))?;
    }
    Ok(desks)
}

// Of no vote. Where no member is faulty, none is kept.
fn blank_votes(alloc: Global, setup: &Setup) -> Result<Option<SentVotes>, AllocError>
    requires { length setup.now.members < 2 ^ 32 }
    ensures { IfOk result (λ votes. VotesStand votes setup.now []) }
{
    if are_honest(setup) {
        return Ok(None);
    }
    let votes = SentVotes::new(alloc, setup)?;
    Ok(Some(votes))
}

// Takes in that an event of the node at this seat asked so many requests.
fn add_asked(
    desks: &mut Vec<Requests>,
    alloc: Global,
    seat: usize,
    starts: bool,
    event: u64,
    asked: u64,
) -> Result<(), AllocError>
    requires { seat < length desks.old.items }
    ensures count { length desks.new.items ≡ length desks.old.items }
    ensures stands { OnOk result ((before : List Noted) (noted : Noted) → event ≡ length before + 1
        → asked ≡ length noted.entry.asked → IsOf noted.event seat starts
        → DesksStand desks.old.items before → DesksStand desks.new.items (noted ∷ before)) }
{
    desks[seat].enter(alloc, starts, event, asked)?;
    Ok(())
}

// Takes in what the node reported, where its member is honest.
fn add_reported(
    reported: &mut Reported,
    alloc: Global,
    setup: &Setup,
    node: Node,
    out: &StepOut,
) -> Result<(), AllocError>
    ensures { OnOk result ((f : Finalization) → has_reported reported.new f
        ≡ (kinds.is_honest setup.now node.member && list_any (entries.reports f) out.now.calls
        || has_reported reported.old f)) }
{
    if is_honest(setup, node.member) {
        reported.add(alloc, out.calls.as_slice())?;
    }
    Ok(())
}

// Takes in the votes among the packets of the node, where its member is honest and it is its first half.
fn add_votes(
    votes: &mut Option<SentVotes>,
    alloc: Global,
    setup: &Setup,
    node: Node,
    packets: &[Packet],
) -> Result<(), AllocError>
    ensures { OnOk result (TakesInPackets node packets.now
        (VotesStand votes.old setup.now) (VotesStand votes.new setup.now)) }
{
    match votes {
        None => Ok(()),
        Some(votes) => {
            add_sent(votes, alloc, setup, node, packets)?;
            Ok(())
        }
    }
}

fn add_sent(
    votes: &mut SentVotes,
    alloc: Global,
    setup: &Setup,
    node: Node,
    packets: &[Packet],
) -> Result<(), AllocError>
    ensures { OnOk result (TakesInPackets node packets.now
        (IndexStands votes.old setup.now) (IndexStands votes.new setup.now)) }
{
    if node.half == 0 && is_honest(setup, node.member) {
        votes.add(alloc, node.member, packets)?;
    }
    Ok(())
}
