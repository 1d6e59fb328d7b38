//! What an application knows, and its rules.
ghost use Rattle.std.specs.Prelude.{◌≡◌, ◌∷◌, ◌++◌, [], IfOk, OnOk, OnErr, Some, filter, not};
ghost use Rattle.simplex_application.specs.Application.{payload_for, keeps, staged, prepared, after_prepare, proposed, after_propose, verified, after_verify, on_broadcast, verdicts_on, after_relayed, if_known, relayed_by, is_valid, waits_for, sent_once, contents_of, verdicts_of};

use crate::app_step::Broadcast;
use crate::known::Known;
use crate::payload::{digest_of, is_asked, payload_contents};
use crate::prepared::Prepared;
use crate::settings::Settings;
use crate::verdict::Verdict;
use crate::waiter::Waiter;
use simplex_mocks::Relayed;
use simplex_mocks::relay::Relay;
use simplex_types::{
    Answer, Bytes, Context, Digest, Handoff, Keep, Participant, Plan, Recipients, Sequence,
};
use std::alloc::{AllocError, Global};
use std::marker::Model;

/// An application without its closures and without its place in the network.
#[derive(Debug, Drop)]
pub(crate) struct State {
    settings: Settings,
    pending: Known,
    seen: Known,
    waiters: Vec<Waiter>,
}

impl Model for State {
    ghost use Rattle.simplex_application.specs.Application.{App};

    ghost Value = { App };

    ghost view = { λ state. record {
      settings = state.settings;
      pending = state.pending;
      seen = state.seen;
      waiters = state.waiters.items;
    } };
}

/// What comes of a payload that was made.
fn staged(handoff: Handoff<()>, payload: Digest) -> Prepared
    ensures { result ≡ staged handoff payload }
{
    match handoff {
        Handoff::Wait => Prepared::Answered(Answer::Handoff(Handoff::Wait)),
        Handoff::Stage(()) => Prepared::Made(Handoff::Stage(payload)),
        Handoff::Vote(()) => Prepared::Made(Handoff::Vote(payload)),
    }
}

/// Whether the contents are a valid payload for the context.
fn is_valid(
    alloc: Global,
    settings: &Settings,
    context: &Context,
    contents: &[u8],
) -> Result<bool, AllocError>
    ensures { IfOk result (λ valid. valid ≡ is_valid settings.now context.now contents.now) }
{
    let asked = is_asked(alloc, context, contents)?;
    Ok(!settings.fails_verification && asked)
}

/// Whether the verification waits for the payload.
fn waits_for(waiter: &Waiter, payload: &Digest) -> bool
    ensures { result ≡ waits_for payload.now waiter.now }
{
    waiter.payload == *payload
}

/// Judges the verification, if it waits for the payload.
fn judge_waiter(
    alloc: Global,
    settings: &Settings,
    waiter: &Waiter,
    relayed: &Relayed,
    verdicts: &mut Sequence<Verdict>,
) -> Result<(), AllocError>
    ensures { OnOk result (verdicts.new
        ≡ verdicts.old ++ verdicts_of settings.now relayed.now (waiter.now ∷ [])) }
{
    if !waits_for(waiter, &relayed.payload) {
        return Ok(());
    }
    let contents = relayed.contents.as_slice();
    let is_valid = is_valid(alloc, settings, &waiter.context, contents)?;
    verdicts.push(Verdict {
        request: waiter.request,
        is_valid,
    })
}

/// Judges each verification that waits for the payload.
fn judge_each(
    alloc: Global,
    settings: &Settings,
    waiters: &[Waiter],
    relayed: &Relayed,
) -> Result<Sequence<Verdict>, AllocError>
    ensures { IfOk result (λ verdicts. verdicts
        ≡ verdicts_of settings.now relayed.now waiters.now) }
{
    let mut verdicts = Sequence::new(alloc);
    for waiter in waiters {
        judge_waiter(alloc, settings, waiter, relayed, &mut verdicts)?;
    }
    Ok(verdicts)
}

/// Drops those that wait for the payload.
fn drop_judged(waiters: &mut Vec<Waiter>, payload: &Digest)
    ensures { waiters.new.items ≡ filter (λ w. not (waits_for payload.now w)) waiters.old.items }
{
    waiters.retain(|waiter| !waits_for(waiter, payload));
}

impl State {
    /// Nothing is known, and it is set to do this.
    pub(crate) fn new(alloc: Global, settings: Settings) -> State
        ensures { result ≡ record { settings = settings; pending = []; seen = []; waiters = [] } }
    {
        State {
            settings,
            pending: Known::new(alloc),
            seen: Known::new(alloc),
            waiters: Vec::new(alloc),
        }
    }

    /// What it is set to do.
    pub(crate) fn settings(&self) -> Settings
        ensures { result ≡ self.now.settings }
    {
        self.settings
    }

    /// Sets it to do this.
    pub(crate) fn set(&mut self, settings: Settings)
        ensures { self.new ≡ record self.old { settings = settings } }
    {
        self.settings = settings;
    }

    /// Makes a payload from the word and keeps it.
    fn make(&mut self, alloc: Global, context: &Context, word: u64) -> Result<Digest, AllocError>
        ensures payload { IfOk result (λ payload. payload ≡ payload_for context.now word) }
        ensures kept { OnOk result (self.new ≡ keeps self.old context.now word) }
    {
        let contents = payload_contents(alloc, &context.round, &context.parent.payload, word)?;
        let payload = digest_of(contents.as_slice());
        self.pending.insert(payload, contents)?;
        Ok(payload)
    }

    /// A request for a payload of the next term.
    #[tactic(auto, unfolding(crate::specs::Application::prepared, crate::specs::Application::after_prepare))]
    pub(crate) fn prepare(
        &mut self,
        alloc: Global,
        context: &Context,
        word: u64,
    ) -> Result<Prepared, AllocError>
        ensures what { IfOk result (λ made. made ≡ prepared self.old context.now word) }
        ensures app { OnOk result (self.new ≡ after_prepare self.old context.now word) }
    {
        let settings = self.settings;
        if settings.handoff.is_wait() {
            return Ok(Prepared::Answered(Answer::Handoff(Handoff::Wait)));
        }
        if settings.stalls_proposals {
            return Ok(Prepared::Open);
        }
        if settings.drops_proposals {
            return Ok(Prepared::Answered(Answer::Closed));
        }
        let payload = self.make(alloc, context, word)?;
        Ok(staged(settings.handoff, payload))
    }

    /// A request for a payload. The answer, unless it is left open.
    #[tactic(auto, unfolding(crate::specs::Application::proposed, crate::specs::Application::after_propose))]
    pub(crate) fn propose(
        &mut self,
        alloc: Global,
        context: &Context,
        word: u64,
    ) -> Result<Option<Answer>, AllocError>
        ensures answer { IfOk result (λ answer. answer ≡ proposed self.old context.now word) }
        ensures app { OnOk result (self.new ≡ after_propose self.old context.now word) }
    {
        let settings = self.settings;
        if settings.stalls_proposals {
            return Ok(None);
        }
        if settings.drops_proposals {
            return Ok(Some(Answer::Closed));
        }
        let payload = self.make(alloc, context, word)?;
        Ok(Some(Answer::Payload(payload)))
    }

    /// The answer to a request for verification, unless the contents were not seen.
    #[tactic(auto, unfolding(crate::specs::Application::verified))]
    fn judge(
        &self,
        alloc: Global,
        context: &Context,
        payload: &Digest,
    ) -> Result<Option<Answer>, AllocError>
        ensures { IfOk result (λ answer. answer ≡ verified self.now context.now payload.now) }
    {
        if self.settings.drops_verifications {
            return Ok(Some(Answer::Closed));
        }
        match self.seen.get(payload) {
            None => Ok(None),
            Some(contents) => {
                let valid = is_valid(alloc, &self.settings, context, contents.as_slice())?;
                Ok(Some(Answer::Verdict(valid)))
            }
        }
    }

    /// A request for verification. The answer, unless it waits for the contents.
    #[tactic(auto, unfolding(crate::specs::Application::after_verify))]
    pub(crate) fn verify(
        &mut self,
        alloc: Global,
        context: Context,
        payload: Digest,
        request: u64,
    ) -> Result<Option<Answer>, AllocError>
        ensures answer { IfOk result (λ answer. answer ≡ verified self.old context payload) }
        ensures app { OnOk result (self.new ≡ after_verify self.old context payload request) }
    {
        let answer = self.judge(alloc, &context, &payload)?;
        if answer.is_none() {
            self.waiters.push(Waiter {
                context,
                payload,
                request,
            })?;
        }
        Ok(answer)
    }

    /// Sends the contents, where there are any, and has seen them then. Want of memory leaves the relay as it was.
    fn send(
        &mut self,
        alloc: Global,
        relay: &mut Relay,
        sender: Participant,
        recipients: &Recipients,
        payload: Digest,
        contents: Option<Bytes>,
    ) -> Result<Broadcast, AllocError>
        ensures outcome { IfOk result (λ outcome. Some outcome
            ≡ (if_known self.old recipients.now payload contents).outcome) }
        ensures app { OnOk result (self.new
            ≡ (if_known self.old recipients.now payload contents).app) }
        ensures relay { OnOk result (relay.new
            ≡ relayed_by relay.old sender
            (if_known self.old recipients.now payload contents).relays) }
        ensures err { OnErr result (relay.new ≡ relay.old) }
    {
        match contents {
            None => Ok(Broadcast::MissingPayload),
            Some(contents) => {
                self.seen.insert(payload, contents.keep(alloc)?)?;
                relay.broadcast(alloc, sender, recipients, payload, contents.as_slice())?;
                Ok(Broadcast::Sent)
            }
        }
    }

    /// The payload is proposed: it is no longer pending, and is sent unless it was seen before. Want of memory leaves the
    /// relay as it was.
    fn send_once(
        &mut self,
        alloc: Global,
        relay: &mut Relay,
        sender: Participant,
        payload: Digest,
    ) -> Result<Broadcast, AllocError>
        ensures outcome { IfOk result (λ outcome. Some outcome
            ≡ (sent_once self.old payload).outcome) }
        ensures app { OnOk result (self.new ≡ (sent_once self.old payload).app) }
        ensures relay { OnOk result (relay.new
            ≡ relayed_by relay.old sender (sent_once self.old payload).relays) }
        ensures err { OnErr result (relay.new ≡ relay.old) }
    {
        if !self.pending.contains(&payload) {
            return Ok(Broadcast::MissingPayload);
        }
        let contents = self.pending.remove(&payload);
        if !self.seen.contains(&payload) {
            return self.send(alloc, relay, sender, &Recipients::All, payload, contents);
        }
        if let Some(contents) = contents {
            self.seen.insert(payload, contents)?;
        }
        Ok(Broadcast::AlreadySent)
    }

    /// A copy of the contents, seen or pending.
    fn copy(&self, alloc: Global, payload: &Digest) -> Result<Option<Bytes>, AllocError>
        ensures { IfOk result (λ contents. contents ≡ contents_of self.now payload.now) }
    {
        match self.seen.copy(alloc, payload)? {
            Some(contents) => Ok(Some(contents)),
            None => self.pending.copy(alloc, payload),
        }
    }

    /// The payload is to be relayed. Want of memory leaves the relay as it was.
    #[tactic(auto, unfolding(crate::specs::Application::on_broadcast))]
    pub(crate) fn broadcast(
        &mut self,
        alloc: Global,
        relay: &mut Relay,
        sender: Participant,
        payload: Digest,
        plan: &Plan,
    ) -> Result<Broadcast, AllocError>
        ensures outcome { IfOk result (λ outcome. Some outcome
            ≡ (on_broadcast self.old payload plan.now).outcome) }
        ensures app { OnOk result (self.new ≡ (on_broadcast self.old payload plan.now).app) }
        ensures relay { OnOk result (relay.new
            ≡ relayed_by relay.old sender (on_broadcast self.old payload plan.now).relays) }
        ensures err { OnErr result (relay.new ≡ relay.old) }
    {
        match plan {
            Plan::Prepare { .. } => {
                let contents = self.pending.copy(alloc, &payload)?;
                self.send(alloc, relay, sender, &Recipients::All, payload, contents)
            }
            Plan::Propose { .. } => self.send_once(alloc, relay, sender, payload),
            Plan::Forward { recipients, .. } => {
                let contents = self.copy(alloc, &payload)?;
                self.send(alloc, relay, sender, recipients, payload, contents)
            }
        }
    }

    /// A payload was relayed.
    #[tactic(auto, unfolding(crate::specs::Application::verdicts_on, crate::specs::Application::after_relayed))]
    pub(crate) fn hear(
        &mut self,
        alloc: Global,
        relayed: &Relayed,
    ) -> Result<Sequence<Verdict>, AllocError>
        ensures verdicts { IfOk result (λ verdicts. verdicts ≡ verdicts_on self.old relayed.now) }
        ensures app { OnOk result (self.new ≡ after_relayed self.old relayed.now) }
    {
        let waiters = self.waiters.as_slice();
        let verdicts = judge_each(alloc, &self.settings, waiters, relayed)?;
        self.seen
            .insert(relayed.payload, relayed.contents.keep(alloc)?)?;
        drop_judged(&mut self.waiters, &relayed.payload);
        Ok(verdicts)
    }
}
