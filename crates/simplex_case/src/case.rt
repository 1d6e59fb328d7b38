//! The entries of a record, taken one by one: what later events may name.
ghost use Rattle.std.specs.Prelude.{◌≡◌, ◌<◌, ◌≤◌, ◌^◌, ◌∷◌, ◌++◌, ◌&&◌, ◌||◌, [], List, true, false, not, length, None, Some, OnOk, IfOk, if◌then◌else◌};
ghost use Rattle.std.specs.List.{slice_get};
ghost use Rattle.std.specs.Option.{is_none, option_map, option_map_or};
ghost use Rattle.simplex_transcript.specs.declared.setup.Setup.{Setup};
ghost use Rattle.simplex_wire.specs.declared.certificate.Finalization.{Finalization};
ghost use Rattle.model_run.specs.Forged.{first_forged};
ghost use Rattle.model_run.specs.Life.{Noted};
ghost use Rattle.model_run.specs.Kinds as kinds;
ghost use Rattle.model_run.specs.Setting.{Setting};
ghost use Rattle.model_run.specs.Requests as requests;
ghost use Rattle.model_run.specs.Entries.{is_own_floor};
ghost use Rattle.simplex_records.specs.Seats as seats;
ghost use Rattle.model_audit.specs.Answers as answers;
ghost use Rattle.model_audit.specs.Running.{runs_at, asked_at};
ghost use Rattle.model_audit.specs.declared.record.AuditEntry.{AuditEntry};
ghost use Rattle.model_audit.specs.Conditions as conditions;
ghost use Rattle.model_audit.specs.Fitting as fitting;
ghost use Rattle.model_audit.specs.Rebuilt.{rebuilt, rebuilt_entry};
ghost use Rattle.law_run.specs.Complete.{node_named};
ghost use Rattle.simplex_case.specs.Sources as sources;
ghost use Rattle.simplex_case.specs.Stands.{Answers, CaseStands, IsEndOf};

use crate::all::{both, five, four, three};
use crate::answered::Answered;
use crate::desk::Desk;
use crate::fitting::{
    answer_fits, is_for, is_nothing, is_same, lists_fit, node_named, outcome_fits, source_takes,
};
use crate::items::{asked_at, has_packet_for};
use crate::members::{exist, is_faulty_member, is_node, runs_engine};
use crate::taking::{
    blank_desks, blank_votes, clock_behind, take_answer, take_at_desk, take_reports, take_votes,
};
use model_audit::{AuditEntry, AuditTook};
use model_rules::Asked;
use simplex_messages::Outcome;
use simplex_records::{Reported, SentVotes, seat_of};
use simplex_transcript::{Event, Node, Ref, Setup, StepSource};
use simplex_types::{Answer, Finalization};
use std::alloc::{AllocError, Global};

/// The greatest clock that a run reaches, in milliseconds.
const LAST_CLOCK: u64 = (1 << 63) - 1;

/// The requests of each node and what was dropped and answered of them, which nodes run, the clock, the finalizations that honest
/// members reported, and, where some member is faulty, the votes that honest members sent.
///
/// Packets and requests are looked up in the entries themselves. Nothing is looked up by going over the entries. Where a call
/// wants memory, nothing is told of what is kept after it.
#[derive(Drop)]
pub struct Case {
    clock: u64,
    desks: Vec<Desk>,
    answered: Answered,
    reported: Reported,
    votes: Option<SentVotes>,
}

impl Case {
    /// Of no entry.
    pub fn new(alloc: Global, setup: &Setup) -> Result<Case, AllocError>
        requires few { length setup.now.members < 2 ^ 32 }
        ensures { IfOk result (λ case. CaseStands case setup.now [] []) }
    {
        Ok(Case {
            clock: 0,
            desks: blank_desks(alloc, 2 * setup.members.len())?,
            answered: Answered::new(alloc),
            reported: Reported::new(alloc),
            votes: blank_votes(alloc, setup)?,
        })
    }

    // What is kept of a node, where it exists.
    fn desk_of(&self, setup: &Setup, node: Node) -> Option<&Desk>
        requires few { length setup.now.members < 2 ^ 32 }
        ensures { option_map (λ desk. desk.now) result
            ≡ (if kinds.is_node setup.now node then slice_get self.now.desks.items
            (seats.seat_of node) else None) }
    {
        if is_node(setup, node) {
            self.desks.get(seat_of(node))
        } else {
            None
        }
    }

    // The number of the request at this place, where the node asked it since its last start.
    fn number(&self, setup: &Setup, node: Node, at: Ref) -> Option<u64>
        requires few { length setup.now.members < 2 ^ 32 }
        ensures { (prior : List AuditEntry)
            → Answers self.now setup.now prior
            (λ before. requests.request_number before node at) result }
    {
        self.desk_of(setup, node)?.number(at)
    }

    // Whether the node, which exists and runs an engine, runs.
    fn runs(&self, setup: &Setup, node: Node) -> bool
        requires few { length setup.now.members < 2 ^ 32 }
        ensures { (prior : List AuditEntry) (before : List Noted) → CaseStands self.now setup.now prior before → kinds.is_node setup.now node ≡ true
            → result ≡ runs_at before node }
    {
        match self.desk_of(setup, node) {
            None => false,
            Some(desk) => desk.runs,
        }
    }

    // Whether a request of this number was dropped by the node, which exists, in this event or since.
    fn was_dropped(&self, setup: &Setup, node: Node, event: u64, number: u64) -> bool
        requires few { length setup.now.members < 2 ^ 32 }
        ensures { (prior : List AuditEntry) (before : List Noted) → CaseStands self.now setup.now prior before → kinds.is_node setup.now node ≡ true
            → 0 < event → event ≤ length before
            → result ≡ conditions.was_dropped before node event number }
    {
        match self.desk_of(setup, node) {
            None => false,
            Some(desk) => desk.drops_since(event, number),
        }
    }

    // Whether a node that exists runs: one without an engine always does.
    fn is_running(&self, setup: &Setup, node: Node) -> bool
        requires few { length setup.now.members < 2 ^ 32 }
        ensures { (prior : List AuditEntry) (before : List Noted) → CaseStands self.now setup.now prior before → kinds.is_node setup.now node ≡ true
            → result ≡ (not (kinds.runs_engine setup.now node.member) || runs_at before node) }
    {
        if runs_engine(setup, node.member) {
            self.runs(setup, node)
        } else {
            true
        }
    }

    // Whether a node may start at this floor.
    fn is_own_floor(&self, floor: &Option<Finalization>) -> bool
        ensures { (setup : Setup) (prior : List AuditEntry)
            → Answers self.now setup prior (λ before. is_own_floor setup before floor.now) result }
    {
        match floor {
            None => true,
            Some(finalization) => self.reported.contains(finalization),
        }
    }

    // Whether the request at this place, which has this number, is open and takes the answer.
    fn is_open(
        &self,
        setup: &Setup,
        prior: &[AuditEntry],
        node: Node,
        at: Ref,
        number: u64,
        answer: &Answer,
    ) -> bool
        requires few { length setup.now.members < 2 ^ 32 }
        ensures { (before : List Noted) → CaseStands self.now setup.now prior.now before → kinds.is_node setup.now node ≡ true
            → requests.request_number before node at ≡ Some number
            → result ≡ (not (conditions.was_dropped before node at.event number)
            && not (conditions.was_answered before node at)
            && option_map_or (λ asked. answers.answer_fits asked answer.now)
            (asked_at before at) false) }
    {
        three(
            !self.was_dropped(setup, node, at.event, number),
            !self.answered.contains(at),
            takes(asked_at(prior, at), answer),
        )
    }

    // Whether the node, which exists, waits for this answer to the request at this place.
    fn is_pending(
        &self,
        setup: &Setup,
        prior: &[AuditEntry],
        node: Node,
        at: Ref,
        answer: &Answer,
    ) -> bool
        requires few { length setup.now.members < 2 ^ 32 }
        ensures { (before : List Noted) → CaseStands self.now setup.now prior.now before → kinds.is_node setup.now node ≡ true
            → result ≡ conditions.is_pending before node at answer.now }
    {
        match self.number(setup, node, at) {
            None => false,
            Some(number) => self.is_open(setup, prior, node, at, number, answer),
        }
    }

    /// Whether the event could be taken behind these entries, where `at_end` is whether its node is at its end, if it runs.
    pub fn allows(&self, setup: &Setup, prior: &[AuditEntry], event: &Event, at_end: bool) -> bool
        requires few { length setup.now.members < 2 ^ 32 }
        ensures { (setting : Setting) (before : List Noted) → setting.setup ≡ setup.now → CaseStands self.now setup.now prior.now before
            → IsEndOf setting before at_end (node_named event.now)
            → result ≡ conditions.is_allowed setting before event.now }
    {
        match event {
            Event::Tick { ms } => *ms <= LAST_CLOCK.saturating_sub(self.clock),
            Event::Inject { member, to, .. } => both(
                exist(setup, *member, to.as_slice()),
                is_faulty_member(setup, *member),
            ),
            Event::Start { node, floor, .. } => three(
                is_node(setup, *node),
                !self.is_running(setup, *node),
                self.is_own_floor(floor),
            ),
            Event::Deliver { node, packet } => four(
                is_node(setup, *node),
                self.is_running(setup, *node),
                has_packet_for(prior, *node, *packet),
                goes_on(setup, *node, at_end),
            ),
            Event::Step { node, .. } => three(
                is_node(setup, *node),
                self.is_running(setup, *node),
                goes_on(setup, *node, at_end),
            ),
            Event::Answer {
                node,
                request,
                answer,
            } => four(
                is_node(setup, *node),
                runs_engine(setup, node.member),
                self.runs(setup, *node),
                self.is_pending(setup, prior, *node, *request, answer),
            ),
            Event::Crash { node } => { both(is_node(setup, *node), self.is_running(setup, *node)) }
        }
    }

    // Whether a step of the node took an answer to this request.
    fn request_fits(
        &self,
        setup: &Setup,
        prior: &[AuditEntry],
        node: Node,
        source: StepSource,
        at: Ref,
        answer: &Answer,
    ) -> bool
        requires few { length setup.now.members < 2 ^ 32 }
        ensures { Answers self.now setup.now prior.now
            (λ before. fitting.request_fits before node source at answer.now) result }
    {
        both(
            self.number(setup, node, at).is_some(),
            takes_from(source, asked_at(prior, at), answer),
        )
    }

    // Whether a step of the node from this source took such a thing.
    fn step_took_fits(
        &self,
        setup: &Setup,
        prior: &[AuditEntry],
        node: Node,
        source: StepSource,
        took: &AuditTook,
    ) -> bool
        requires few { length setup.now.members < 2 ^ 32 }
        ensures { Answers self.now setup.now prior.now
            (λ before. fitting.step_took_fits before node source took.now) result }
    {
        match took {
            AuditTook::Request(at, answer) => {
                self.request_fits(setup, prior, node, source, *at, answer)
            }
            other => source_takes(source, other),
        }
    }

    // Whether such an event takes such a thing, where it is not idle.
    fn took_fits(
        &self,
        setup: &Setup,
        prior: &[AuditEntry],
        event: &Event,
        took: &AuditTook,
    ) -> bool
        requires few { length setup.now.members < 2 ^ 32 }
        ensures { Answers self.now setup.now prior.now
            (λ before. fitting.took_fits before event.now took.now) result }
    {
        match event {
            Event::Start { .. } => matches!(took, AuditTook::Floor),
            Event::Deliver { packet, .. } => is_packet(*packet, took),
            Event::Step { node, source, .. } => {
                self.step_took_fits(setup, prior, *node, *source, took)
            }
            Event::Tick { .. }
            | Event::Answer { .. }
            | Event::Crash { .. }
            | Event::Inject { .. } => is_nothing(took),
        }
    }

    /// Whether the entry fits its event, behind these entries.
    pub fn fits(
        &self,
        setup: &Setup,
        prior: &[AuditEntry],
        event: &Event,
        entry: &AuditEntry,
    ) -> bool
        requires few { length setup.now.members < 2 ^ 32 }
        ensures { Answers self.now setup.now prior.now
            (λ before. fitting.fits before event.now entry.now) result }
    {
        let number = prior.len() as u64 + 1;
        five(
            entry.event == number,
            is_same(entry.who, node_named(event)),
            outcome_fits(event, entry.outcome),
            self.took_or_idle(setup, prior, event, entry),
            lists_fit(entry),
        )
    }

    fn took_or_idle(
        &self,
        setup: &Setup,
        prior: &[AuditEntry],
        event: &Event,
        entry: &AuditEntry,
    ) -> bool
        requires few { length setup.now.members < 2 ^ 32 }
        ensures { Answers self.now setup.now prior.now
            (λ before. fitting.took_or_idle before event.now entry.now.outcome entry.now.took) result }
    {
        if matches!(entry.outcome, Outcome::Idle) {
            is_nothing(&entry.took)
        } else {
            self.took_fits(setup, prior, event, &entry.took)
        }
    }

    /// Whether nothing in the packets of the entry is forged.
    pub fn is_genuine(
        &self,
        alloc: Global,
        setup: &Setup,
        entry: &AuditEntry,
    ) -> Result<bool, AllocError>
        ensures { IfOk result (λ genuine. (prior : List AuditEntry) → Answers self.now setup.now prior
            (λ before. is_none (first_forged setup.now before (rebuilt_entry entry.now))) genuine) }
    {
        match &self.votes {
            None => Ok(true),
            Some(votes) => match votes.first_forged(alloc, setup, entry.packets.as_slice()) {
                Err(AllocError) => Err(AllocError),
                Ok(None) => Ok(true),
                Ok(Some(_)) => Ok(false),
            },
        }
    }

    /// Takes in the entry of an event that could be taken behind these entries.
    pub fn take(
        &mut self,
        alloc: Global,
        setup: &Setup,
        prior: &[AuditEntry],
        event: &Event,
        entry: &AuditEntry,
    ) -> Result<(), AllocError>
        requires few { length setup.now.members < 2 ^ 32 }
        ensures { OnOk result ((setting : Setting) (before : List Noted) → setting.setup ≡ setup.now → CaseStands self.old setup.now prior.now before
            → conditions.is_allowed setting before event.now ≡ true
            → CaseStands self.new setup.now (prior.now ++ entry.now ∷ [])
            (rebuilt event.now entry.now ∷ before)) }
    {
        let number = prior.len() as u64 + 1;
        self.clock = clock_behind(self.clock, event);
        take_answer(&mut self.answered, alloc, event)?;
        take_at_desk(&mut self.desks, alloc, setup, number, event, entry)?;
        take_reports(&mut self.reported, alloc, setup, entry)?;
        take_votes(&mut self.votes, alloc, setup, entry.packets.as_slice())
    }
}

// Whether a node goes on, which is at its end or not: one without an engine is at no end.
fn goes_on(setup: &Setup, node: Node, at_end: bool) -> bool
    ensures { result ≡ (not (kinds.runs_engine setup.now node.member) || not at_end) }
{
    !runs_engine(setup, node.member) || !at_end
}

// Whether there is a request that takes such an answer.
fn takes(asked: Option<&Asked>, answer: &Answer) -> bool
    ensures { result ≡ option_map_or (λ request. answers.answer_fits request answer.now) (option_map
        (λ it. it.now) asked.entry) false }
{
    match asked {
        None => false,
        Some(asked) => answer_fits(asked, answer),
    }
}

// Whether there is a request of which a step from this source takes such an answer.
fn takes_from(source: StepSource, asked: Option<&Asked>, answer: &Answer) -> bool
    ensures { result ≡ option_map_or (λ request. fitting.is_for source request
        && answers.answer_fits request answer.now) (option_map (λ it. it.now) asked.entry) false }
{
    match asked {
        None => false,
        Some(asked) => both(is_for(source, asked), answer_fits(asked, answer)),
    }
}

// Whether the packet at this place is what was taken.
fn is_packet(at: Ref, took: &AuditTook) -> bool
    ensures { result ≡ sources.is_packet at took.now }
{
    match took {
        AuditTook::Packet(other) => at == *other,
        _ => false,
    }
}
