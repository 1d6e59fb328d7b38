//! The hosts, two seats for each member, and a change of one of them.
ghost use Rattle.std.specs.Prelude.{◌≡◌, ◌<◌, ◌≤◌, ◌*◌, ◌/◌, ◌^◌, ◌∷◌, List, [], length, true, false, IfOk, IfErr, IfSome, OnOk, IsNone};
ghost use Rattle.std.specs.Option.{option_map};
ghost use Rattle.simplex_transcript.specs.declared.node.Node as nodes;
ghost use Rattle.simplex_transcript.specs.declared.setup.Setup as setups;
ghost use Rattle.simplex_messages.specs.Step.{no_out};
ghost use Rattle.simplex_journal.specs.Journal.{crashed};
ghost use Rattle.model_run.specs.Life.{Stopped, sections_in};
ghost use Rattle.model_run.specs.Members.{kind_of};
ghost use Rattle.model_run.specs.Mocks.{Heard, heard_by};
ghost use Rattle.model_run.specs.Setups as rules;
ghost use Rattle.simplex_engine.specs.Config.{first_bad};
ghost use Rattle.simplex_engine.specs.Polled.{is_memory};
ghost use Rattle.simplex_members.specs.NodeEngine.{made_with};
ghost use Rattle.simplex_records.specs.Seats.{seat_of, node_at};
ghost use Rattle.simplex_network.specs.Parts.{Part, Lives, Hears, goes_on, status_in, IsStarted, after_start, changed, first_part};
ghost use Rattle.model_run.specs.Kinds.{is_of_kind};
ghost use Rattle.law_run.specs.EventForging.{is_impersonator};
ghost use Rattle.simplex_network.specs.Stands.{HostsStand, HostStands, OfPartAt, OfLifeAt, LivesOnAt, HasSeat, EngineOf};
ghost use Rattle.simplex_mocks.specs.Hearing.{bytes_heard};

use crate::host::{Host, NodeEngine};
use crate::journal::new_journal;
use crate::status::Status;
use model_faults::Sent;
use simplex_engine::PollError;
use simplex_members::{FaultyMember, NodeConfig, has_engine};
use simplex_messages::{Outcome, StepOut, Stop};
use simplex_records::seat_of;
use simplex_transcript::{Node, Setup};
use simplex_types::{Channel, Participant, Sequence};
use std::alloc::{AllocError, Global};
use std::mem;

/// A host at each seat: two for each member, one a half.
#[derive(Drop)]
pub(crate) struct Hosts {
    pub(crate) list: Vec<Host>,
}

impl Hosts {
    /// All engines are stopped with an empty journal, and nothing was heard.
    pub(crate) fn new(alloc: Global, setup: &Setup) -> Result<Hosts, AllocError>
        requires good { IsNone (rules.first_bad setup.now) }
        ensures count { IfOk result (λ hosts. length hosts.list.items
            ≡ 2 * length setup.now.members) }
        ensures stands { IfOk result
            (λ hosts. HostsStand setup.now hosts.list.items (first_part setup.now)) }
    {
        let mut list = Vec::new(alloc);
        for seat in 0..count_of(setup) {
            list.push(blank_host(alloc, setup, seat)?)?;
        }
        Ok(Hosts { list })
    }

    /// The engine of a node, where one runs.
    pub(crate) fn engine(&self, node: Node) -> Option<&NodeEngine>
        requires { HasSeat self.now.list.items node }
        ensures { OfPartAt self.now.list.items node
            (λ part. EngineOf part (option_map (λ engine. engine.now) result)) }
    {
        self.list[seat_of(node)].engine()
    }

    /// What a node is at.
    pub(crate) fn status(&self, node: Node) -> Status
        requires { HasSeat self.now.list.items node }
        ensures { OfPartAt self.now.list.items node (λ part. goes_on part ≡ true
            → result ≡ status_in part) }
    {
        self.list[seat_of(node)].status()
    }

    /// Where a node sits in the list, and that it does.
    pub(crate) fn seat(&self, node: Node) -> usize
        requires { HasSeat self.now.list.items node }
        ensures seat { result ≡ seat_of node }
        ensures has { HasSeat self.now.list.items node }
    {
        seat_of(node)
    }

    /// Lends the host of a node, which is away then. [lent-host]
    pub(crate) fn lend(&mut self, node: Node) -> Host
        requires { HasSeat self.old.list.items node }
        ensures count { length self.new.list.items ≡ length self.old.list.items }
        ensures host { (setup : setups.Setup) (parts : nodes.Node → Part) → HostsStand setup self.old.list.items parts
            → HostStands setup node.member result (parts node) }
        ensures stands { (setup : setups.Setup) (parts : nodes.Node → Part) → HostsStand setup self.old.list.items parts
            → HostsStand setup self.new.list.items (changed node (Lives (Stopped [])) parts) }
    {
        let at = seat_of(node);
        mem::replace(&mut self.list[at], Host::Away)
    }

    /// Puts the host of a node where it sits.
    pub(crate) fn put(&mut self, node: Node, host: Host)
        requires { HasSeat self.old.list.items node }
        ensures count { length self.new.list.items ≡ length self.old.list.items }
        ensures stands { (setup : setups.Setup) (parts : nodes.Node → Part) (part : Part)
            → HostsStand setup self.old.list.items parts → HostStands setup node.member host part
            → HostsStand setup self.new.list.items (changed node part parts) }
    {
        let at = seat_of(node);
        self.list[at] = host;
    }

    /// Lets a faulty member without an engine hear the bytes at a node, and gives what it sends.
    pub(crate) fn hear(
        &mut self,
        alloc: Global,
        node: Node,
        channel: Channel,
        bytes: &[u8],
    ) -> Result<Sequence<Sent>, AllocError>
        requires { HasSeat self.old.list.items node }
        ensures count { length self.new.list.items ≡ length self.old.list.items }
        ensures sends { IfOk result (λ sent. (setup : setups.Setup) (parts : nodes.Node → Part) (past : List Heard)
            → HostsStand setup self.old.list.items parts → parts node ≡ Hears past
            → sent ≡ heard_by setup node.member (kind_of setup node.member) past
            (bytes_heard channel bytes.now)) }
        ensures stands { OnOk result ((setup : setups.Setup) (parts : nodes.Node → Part) (past : List Heard)
            → HostsStand setup self.old.list.items parts → parts node ≡ Hears past
            → HostsStand setup self.new.list.items
            (changed node (Hears (bytes_heard channel bytes.now ∷ past)) parts)) }
        ensures unmoved { OnOk result ((setup : setups.Setup) (parts : nodes.Node → Part) (past : List Heard)
            → is_of_kind is_impersonator setup node.member ≡ true
            → HostsStand setup self.old.list.items parts
            → parts node ≡ Hears past → HostsStand setup self.new.list.items parts) }
    {
        let at = seat_of(node);
        let sent = self.list[at].hear(alloc, channel, bytes)?;
        Ok(sent)
    }

    /// Starts a node's engine.
    pub(crate) fn start(
        &mut self,
        alloc: Global,
        node: Node,
        config: NodeConfig,
        now: u64,
        stop: &Stop,
        out: &mut StepOut,
    ) -> Result<Outcome, PollError>
        requires seat { HasSeat self.old.list.items node }
        requires built { config.elector.fallback.members ≡ config.scheme.inner.participants }
        requires lookahead { config.elector.fallback.terms.lookahead ≤ 2 ^ 32 }
        requires stall { IfSome config.elector.fallback.terms.stall_timeout
            (λ stall. (config.certification_timeout < stall) × (stall ≤ 2 ^ 62)) }
        requires allowed { first_bad config ≡ None }
        requires clock { now < 2 ^ 63 }
        requires empty { out.old ≡ no_out }
        ensures count { length self.new.list.items ≡ length self.old.list.items }
        ensures gives { IfOk result (λ outcome. OfLifeAt self.old.list.items node
            (λ life. IsStarted
            (made_with config (sections_in life)) now stop.now outcome out.new)) }
        ensures stands { IfOk result (λ _. LivesOnAt self.old.list.items self.new.list.items node
            (λ life. after_start (made_with config (sections_in life)) now stop.now)) }
        ensures memory { IfErr result (λ error. is_memory error ≡ true) }
    {
        let at = seat_of(node);
        let outcome = self.list[at].start(alloc, config, now, stop, out)?;
        Ok(outcome)
    }

    /// Stops a node.
    pub(crate) fn crash(&mut self, alloc: Global, node: Node) -> Result<(), PollError>
        requires { HasSeat self.old.list.items node }
        ensures count { length self.new.list.items ≡ length self.old.list.items }
        ensures stands { OnOk result (LivesOnAt self.old.list.items self.new.list.items node
            (λ life. Stopped (crashed 0 (sections_in life)))) }
    {
        let at = seat_of(node);
        self.list[at].crash(alloc)?;
        Ok(())
    }
}

// How many seats there are.
#[tactic(auto, using(crate::proofs::Places::seats_few))]
fn count_of(setup: &Setup) -> usize
    requires { IsNone (rules.first_bad setup.now) }
    ensures { result ≡ 2 * length setup.now.members }
{
    2 * setup.members.len()
}

// The member whose seat it is.
#[tactic(auto, using(crate::proofs::Places::seats))]
fn member_at(setup: &Setup, seat: usize) -> Participant
    requires good { IsNone (rules.first_bad setup.now) }
    requires below { seat < 2 * length setup.now.members }
    ensures member { result ≡ seat / 2 }
    ensures below { result < length setup.now.members }
{
    // The number of members is asked for its clause: of what lies behind a reference the proof knows what the body
    // reads.
    let _members = setup.members.len();
    Participant((seat / 2) as u32)
}

// What sits there before any event.
fn blank_host(alloc: Global, setup: &Setup, seat: usize) -> Result<Host, AllocError>
    requires good { IsNone (rules.first_bad setup.now) }
    requires below { seat < 2 * length setup.now.members }
    ensures { IfOk result (λ host. HostStands setup.now (node_at seat).member host
        (first_part setup.now (node_at seat))) }
{
    let member = member_at(setup, seat);
    if has_engine(setup, member) {
        Ok(Host::Stopped(new_journal(alloc)?))
    } else {
        Ok(Host::Faulty(FaultyMember::new(alloc, setup, member)?))
    }
}
