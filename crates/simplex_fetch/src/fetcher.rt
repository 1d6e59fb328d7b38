//! The fetcher.
ghost use Rattle.std.specs.Prelude.{◌≡◌, ◌&&◌, nat_lt, ◌<◌, ◌+◌, ◌^◌, ◌++◌, ◌∷◌, [], map, IfOk, OnOk, None, Some};
ghost use Rattle.std.specs.Option.{option_map};
ghost use Rattle.simplex_values.specs.declared.ask.Outcome.{Outcome};
ghost use Rattle.model_resolver.specs.Asks.{holds_member};
ghost use Rattle.model_resolver.specs.Views.{entry_at, asked_view, next_deadline};
ghost use Rattle.model_resolver.specs.Fetcher.{no_fetches, attempted, attempting, expiring, retiring, peer_of, retrying, of_all, of_target, fetched, noting, adding, attempted_at, retained, retired_at, kept_or_left, heard, heard_body, requested, answered, refused, judged, judged_as, asked_on, served, expired, expired_at, message_bytes, visited, is_done, blocked_by, answer_body, keeping, in_state, once_more, asking, blocking, IsSoundConfig, IsSoundEntry};
ghost use Rattle.model_resolver.specs.declared.entry.State.TheVariants.{Waiting};

use crate::peers::{cyclic, cyclic_other, is_among, pass_over};
use crate::views::Views;
use model_resolver::{Arrivals, Entry, Fetch, FetchConfig, Out, Retire, Serving, State};
use simplex_types::{
    BlockCause, Bytes, DecodeError, Keep, Outcome, Participant, Resolution, ResolverBody,
    ResolverMessage, Sequence, View,
};
use std::alloc::{AllocError, Global};
use std::collections::{BTreeMap, BTreeSet};
use std::marker::Model;

/// The number from which a call draws none.
const ROOM: u64 = 1 << 62;

/// What a member asks its peers for, and what they ask it for.
///
/// After an answer other than Ok a fetcher may only be dropped. [fetcher-is-a-machine]
#[derive(Drop)]
pub struct Fetcher {
    config: FetchConfig,
    views: Views,
    next_id: u64,
    serving: BTreeMap<u64, Serving>,
    next_serve: u64,
    /// The members that are asked nothing.
    blocked: BTreeSet<u32>,
}

impl Model for Fetcher {
    ghost use Rattle.model_resolver.specs.Fetcher.{Machine};

    ghost Value = { Machine };

    ghost view = { λ f. record {
      config = f.config;
      views = f.views;
      next_id = f.next_id;
      serving = f.serving.entries;
      next_serve = f.next_serve;
      blocked = f.blocked.keys;
    } };

    ghost use Rattle.model_resolver.specs.Fetcher.{IsSound};

    ghost invariant = { λ f. IsSound f.config f.next_id f.views };
}

impl Fetcher {
    /// A fetcher that nothing was asked of.
    #[tactic(auto, unfolding(model_resolver::specs::Views::entry_at))]
    pub fn new(alloc: Global, config: FetchConfig) -> Fetcher
        requires { IsSoundConfig config }
        ensures { result ≡ no_fetches config }
    {
        Fetcher {
            config,
            views: Views::new(alloc),
            next_id: 0,
            serving: BTreeMap::new(alloc),
            next_serve: 0,
            blocked: BTreeSet::new(alloc),
        }
    }

    /// The member is asked nothing from now on. [asked-until-the-deadline]
    #[tactic(auto, unfolding(model_resolver::specs::Fetcher::blocking))]
    pub fn block(&mut self, member: Participant) -> Result<(), AllocError>
        ensures { OnOk result (self.new ≡ blocking member self.old) }
    {
        self.blocked.insert(member.0)?;
        Ok(())
    }

    /// Whether the member is asked nothing.
    pub fn is_blocked(&self, member: Participant) -> bool
        ensures { result ≡ holds_member self.now.blocked member }
    {
        is_among(&self.blocked, &member)
    }

    /// Whether numbers are left for each call. [few-requests]
    pub fn has_room(&self) -> bool
        ensures { result ≡ (nat_lt self.now.next_id (2 ^ 62)
            && nat_lt self.now.next_serve (2 ^ 62)) }
    {
        self.next_id < ROOM && self.next_serve < ROOM
    }

    /// Whom the next attempt of the view asks.
    #[tactic(auto, unfolding(model_resolver::specs::Fetcher::peer_of))]
    fn peer_of(
        &self,
        alloc: Global,
        view: u64,
        entry: &Entry,
    ) -> Result<Option<Participant>, AllocError>
        ensures { IfOk result (λ peer. peer
            ≡ peer_of self.now.config self.now.blocked view entry.now) }
    {
        if self.config.n == 1 {
            return Ok(None);
        }
        if !entry.arrivals.is_targeted() {
            return Ok(cyclic_other(&self.config, &self.blocked, view, entry.attempts));
        }
        let mut targets = entry.arrivals.targets(alloc)?;
        pass_over(&mut targets, &self.blocked);
        Ok(cyclic(&targets, entry.attempts))
    }

    /// The next attempt of the view, with this entry, which was taken out.
    #[tactic(auto, unfolding(model_resolver::specs::Fetcher::attempted, model_resolver::specs::Fetcher::asking))]
    fn attempt(
        &mut self,
        alloc: Global,
        view: u64,
        entry: Entry,
        now: u64,
        outs: &mut Vec<Out>,
    ) -> Result<(), AllocError>
        requires absent { entry_at self.old.views view ≡ None }
        requires sound { IsSoundEntry self.old.next_id entry }
        requires early { now < 2 ^ 63 }
        requires ids { self.old.next_id + 1 < 2 ^ 64 }
        ensures fetcher { OnOk result (self.new ≡ (attempted now view entry self.old).fetcher) }
        ensures outs { OnOk result (outs.new.items
            ≡ outs.old.items ++ (attempted now view entry self.old).outs) }
    {
        let Some(peer) = self.peer_of(alloc, view, &entry)? else {
            return self.ask_nobody(view, entry, now);
        };
        let id = self.next_id;
        let body = ResolverBody::Request { view: View(view) };
        let bytes = message_bytes(alloc, id, body)?;
        let mut asked = once_more(entry)?;
        asked.state = State::Asked {
            id,
            peer,
            deadline: now + self.config.fetch_timeout,
        };
        self.next_id += 1;
        self.views.put(view, asked)?;
        outs.push(Out::Send { to: peer, bytes })?;
        Ok(())
    }

    /// The next attempt of the view, with this entry, which was taken out, finds nobody to ask.
    /// [attempts-without-peers]
    #[tactic(auto, unfolding(model_resolver::specs::Fetcher::asking))]
    fn ask_nobody(&mut self, view: u64, entry: Entry, now: u64) -> Result<(), AllocError>
        requires absent { entry_at self.old.views view ≡ None }
        requires sound { IsSoundEntry self.old.next_id entry }
        requires early { now < 2 ^ 63 }
        ensures { OnOk result (self.new ≡ (asking now view entry self.old None).fetcher) }
    {
        if self.config.n == 1 {
            return self.wait(view, entry, None);
        }
        let entry = once_more(entry)?;
        self.retry(view, entry, now)
    }

    /// The next attempt of the view as it stands.
    #[tactic(auto, unfolding(model_resolver::specs::Fetcher::attempting, model_resolver::specs::Fetcher::attempted_at))]
    fn attempt_at(
        &mut self,
        alloc: Global,
        view: u64,
        now: u64,
        outs: &mut Vec<Out>,
    ) -> Result<(), AllocError>
        requires early { now < 2 ^ 63 }
        requires ids { self.old.next_id + 1 < 2 ^ 64 }
        ensures fetcher { OnOk result (self.new ≡ (attempting now view self.old).fetcher) }
        ensures outs { OnOk result (outs.new.items
            ≡ outs.old.items ++ (attempting now view self.old).outs) }
    {
        match self.views.take(view) {
            None => Ok(()),
            Some(entry) => self.attempt(alloc, view, entry, now, outs),
        }
    }

    /// The view as it stands, whose deadline is reached.
    #[tactic(auto, unfolding(model_resolver::specs::Fetcher::expiring, model_resolver::specs::Fetcher::expired_at, model_resolver::specs::Fetcher::expired_as))]
    fn expire_at(
        &mut self,
        alloc: Global,
        view: u64,
        now: u64,
        outs: &mut Vec<Out>,
    ) -> Result<(), AllocError>
        requires early { now < 2 ^ 63 }
        requires ids { self.old.next_id + 1 < 2 ^ 64 }
        ensures fetcher { OnOk result (self.new ≡ (expiring now view self.old).fetcher) }
        ensures outs { OnOk result (outs.new.items
            ≡ outs.old.items ++ (expiring now view self.old).outs) }
    {
        let Some(entry) = self.views.take(view) else {
            return Ok(());
        };
        match &entry.state {
            State::Asked { .. } => self.retry(view, entry, now),
            State::Waiting { .. } => self.attempt(alloc, view, entry, now, outs),
            State::Judged { .. } => self.views.put(view, entry),
        }
    }

    /// The view as it stands without its asks that are done with.
    #[tactic(auto, unfolding(model_resolver::specs::Fetcher::retiring, model_resolver::specs::Fetcher::retired_at, model_resolver::specs::Fetcher::kept_or_left))]
    fn retire_at(
        &mut self,
        view: u64,
        retire: &Retire,
        outs: &mut Vec<Out>,
    ) -> Result<(), AllocError>
        ensures fetcher { OnOk result (self.new ≡ (retiring retire.now view self.old).fetcher) }
        ensures outs { OnOk result (outs.new.items
            ≡ outs.old.items ++ (retiring retire.now view self.old).outs) }
    {
        let Some(mut entry) = self.views.take(view) else {
            return Ok(());
        };
        entry.arrivals.retire(retire);
        if !entry.arrivals.is_empty() {
            return self.views.put(view, entry);
        }
        if let State::Judged { id, .. } = &entry.state {
            outs.push(Out::Left { id: *id })?;
        }
        Ok(())
    }

    /// The view, with this entry, which was taken out, waits.
    fn wait(&mut self, view: u64, entry: Entry, until: Option<u64>) -> Result<(), AllocError>
        requires absent { entry_at self.old.views view ≡ None }
        requires sound { IsSoundEntry self.old.next_id entry }
        ensures { OnOk result (self.new ≡ keeping view (in_state (Waiting until) entry) self.old) }
    {
        let mut entry = entry;
        entry.state = State::Waiting { until };
        self.views.put(view, entry)
    }

    /// The view, with this entry, which was taken out, waits the retry delay. [delay-of-none]
    #[tactic(auto, unfolding(model_resolver::specs::Fetcher::retrying))]
    fn retry(&mut self, view: u64, entry: Entry, now: u64) -> Result<(), AllocError>
        requires absent { entry_at self.old.views view ≡ None }
        requires sound { IsSoundEntry self.old.next_id entry }
        requires early { now < 2 ^ 63 }
        ensures { OnOk result (self.new ≡ retrying now view entry self.old) }
    {
        let until = now + self.config.fetch_retry_delay;
        self.wait(view, entry, Some(until))
    }

    /// One more ask of the view, of this member alone where one is named. A view that was not asked for is new.
    #[tactic(auto, unfolding(model_resolver::specs::Fetcher::adding, model_resolver::specs::Fetcher::noting))]
    fn add(
        &mut self,
        alloc: Global,
        fetch: &Fetch,
        target: Option<Participant>,
        new: &mut BTreeSet<u64>,
    ) -> Result<(), AllocError>
        ensures fetcher { OnOk result (self.new ≡ adding
            (record {
              view = fetch.now.view;
              arrival = record { ask = fetch.now.ask; target = target };
            }) self.old) }
        ensures ids { OnOk result (self.new.next_id ≡ self.old.next_id) }
        ensures new { OnOk result (new.new.keys ≡ noting (record {
          view = fetch.now.view;
          arrival = record { ask = fetch.now.ask; target = target };
        }) self.old new.old.keys) }
    {
        let view = fetch.view.0;
        let ask = fetch.ask;
        let mut entry = match self.views.take(view) {
            Some(entry) => entry,
            None => {
                new.insert(view)?;
                Entry {
                    arrivals: Arrivals::new(alloc),
                    attempts: 0,
                    state: State::Waiting { until: None },
                }
            }
        };
        entry.arrivals.add(ask, target)?;
        self.views.put(view, entry)
    }

    /// The next attempts of the new views.
    fn start(&mut self, alloc: Global, new: BTreeSet<u64>, now: u64) -> Result<Vec<Out>, AllocError>
        requires early { now < 2 ^ 63 }
        requires ids { self.old.next_id < 2 ^ 62 }
        ensures fetcher { OnOk result (self.new
            ≡ (visited (attempting now) new.keys self.old).fetcher) }
        ensures outs { IfOk result (λ outs. outs.items
            ≡ (visited (attempting now) new.keys self.old).outs) }
    {
        let mut views = new;
        let mut outs = Vec::with_capacity(alloc, views.len())?;
        while let Some(view) = views.pop_first() {
            self.attempt_at(alloc, view, now, &mut outs)?;
        }
        Ok(outs)
    }

    /// Asks for what is wanted of the view.
    #[tactic(auto, unfolding(model_resolver::specs::Fetcher::fetched_beside))]
    pub fn fetch(&mut self, alloc: Global, fetch: Fetch, now: u64) -> Result<Vec<Out>, AllocError>
        requires early { now < 2 ^ 63 }
        requires ids { self.old.next_id < 2 ^ 62 }
        ensures fetcher { OnOk result (self.new
            ≡ (fetched (of_all fetch ∷ []) now self.old).fetcher) }
        ensures outs { IfOk result (λ outs. outs.items
            ≡ (fetched (of_all fetch ∷ []) now self.old).outs) }
    {
        let mut new = BTreeSet::new(alloc);
        self.add(alloc, &fetch, None, &mut new)?;
        self.start(alloc, new, now)
    }

    /// Asks for what is wanted of the view, this member alone. [targets-of-a-view]
    #[tactic(auto, unfolding(model_resolver::specs::Fetcher::fetched_beside))]
    pub fn fetch_targeted(
        &mut self,
        alloc: Global,
        fetch: Fetch,
        target: Participant,
        now: u64,
    ) -> Result<Vec<Out>, AllocError>
        requires early { now < 2 ^ 63 }
        requires ids { self.old.next_id < 2 ^ 62 }
        ensures fetcher { OnOk result (self.new
            ≡ (fetched (of_target fetch target ∷ []) now self.old).fetcher) }
        ensures outs { IfOk result (λ outs. outs.items
            ≡ (fetched (of_target fetch target ∷ []) now self.old).outs) }
    {
        let mut new = BTreeSet::new(alloc);
        self.add(alloc, &fetch, Some(target), &mut new)?;
        self.start(alloc, new, now)
    }

    /// Asks for all that is wanted.
    #[tactic(auto, unfolding(model_resolver::specs::Fetcher::fetched_beside))]
    pub fn fetch_all(
        &mut self,
        alloc: Global,
        fetches: Vec<Fetch>,
        now: u64,
    ) -> Result<Vec<Out>, AllocError>
        requires early { now < 2 ^ 63 }
        requires ids { self.old.next_id < 2 ^ 62 }
        ensures fetcher { OnOk result (self.new
            ≡ (fetched (map of_all fetches.items) now self.old).fetcher) }
        ensures outs { IfOk result (λ outs. outs.items
            ≡ (fetched (map of_all fetches.items) now self.old).outs) }
    {
        let mut new = BTreeSet::new(alloc);
        for fetch in &fetches {
            self.add(alloc, fetch, None, &mut new)?;
        }
        self.start(alloc, new, now)
    }

    /// Drops the asks that are done with. A view without asks is forgotten.
    #[tactic(auto, unfolding(model_resolver::specs::Fetcher::retained))]
    pub fn retain(&mut self, alloc: Global, retire: &Retire) -> Result<Vec<Out>, AllocError>
        ensures fetcher { OnOk result (self.new ≡ (retained retire.now self.old).fetcher) }
        ensures outs { IfOk result (λ outs. outs.items ≡ (retained retire.now self.old).outs) }
    {
        let views = self.views.touched(alloc, retire)?;
        let mut outs = Vec::new(alloc);
        for view in &views {
            self.retire_at(*view, retire, &mut outs)?;
        }
        Ok(outs)
    }

    /// Bytes of a peer.
    #[tactic(auto, unfolding(model_resolver::specs::Fetcher::heard, model_resolver::specs::Fetcher::heard_message))]
    pub fn hear(
        &mut self,
        alloc: Global,
        sender: Participant,
        bytes: &[u8],
        now: u64,
    ) -> Result<Vec<Out>, AllocError>
        requires early { now < 2 ^ 63 }
        requires serves { self.old.next_serve < 2 ^ 62 }
        ensures fetcher { OnOk result (self.new ≡ (heard sender bytes.now now self.old).fetcher) }
        ensures outs { IfOk result (λ outs. outs.items
            ≡ (heard sender bytes.now now self.old).outs) }
    {
        match ResolverMessage::decode(alloc, bytes) {
            Ok(message) => self.hear_message(alloc, sender, message, now),
            Err(DecodeError::Fault { .. }) => {
                self.block(sender)?;
                only(alloc, Out::Block(sender, BlockCause::Undecodable))
            }
            Err(DecodeError::Memory) => Err(AllocError),
        }
    }

    /// A message of a peer.
    #[tactic(auto, unfolding(model_resolver::specs::Fetcher::heard_body))]
    fn hear_message(
        &mut self,
        alloc: Global,
        sender: Participant,
        message: ResolverMessage,
        now: u64,
    ) -> Result<Vec<Out>, AllocError>
        requires early { now < 2 ^ 63 }
        requires serves { self.old.next_serve < 2 ^ 62 }
        ensures fetcher { OnOk result (self.new
            ≡ (heard_body sender message.id now self.old message.body).fetcher) }
        ensures outs { IfOk result (λ outs. outs.items
            ≡ (heard_body sender message.id now self.old message.body).outs) }
    {
        let ResolverMessage { id, body } = message;
        match body {
            ResolverBody::Request { view } => self.hear_request(alloc, sender, id, view),
            ResolverBody::Response { bytes } => self.hear_response(alloc, &sender, id, bytes),
            ResolverBody::Error => {
                self.hear_error(&sender, id, now)?;
                Ok(Vec::new(alloc))
            }
        }
    }

    /// A peer's request is to be answered.
    #[tactic(auto, unfolding(model_resolver::specs::Fetcher::requested))]
    fn hear_request(
        &mut self,
        alloc: Global,
        sender: Participant,
        request: u64,
        view: View,
    ) -> Result<Vec<Out>, AllocError>
        requires serves { self.old.next_serve < 2 ^ 62 }
        ensures fetcher { OnOk result (self.new
            ≡ (requested sender request view self.old).fetcher) }
        ensures outs { IfOk result (λ outs. outs.items
            ≡ (requested sender request view self.old).outs) }
    {
        let id = self.next_serve;
        let out = Out::Produce { id, view };
        let serving = Serving { sender, request };
        self.serving.insert(id, serving)?;
        self.next_serve += 1;
        only(alloc, out)
    }

    /// An answer is delivered, where it was asked for.
    #[tactic(auto, unfolding(model_resolver::specs::Fetcher::answered, model_resolver::specs::Fetcher::delivered))]
    fn hear_response(
        &mut self,
        alloc: Global,
        sender: &Participant,
        id: u64,
        bytes: Bytes,
    ) -> Result<Vec<Out>, AllocError>
        ensures fetcher { OnOk result (self.new
            ≡ (answered sender.now id bytes self.old
            (asked_view id sender.now self.old.views)).fetcher) }
        ensures outs { IfOk result (λ outs. outs.items
            ≡ (answered sender.now id bytes self.old
            (asked_view id sender.now self.old.views)).outs) }
    {
        let Some(view) = self.views.asked_view(id, sender) else {
            return Ok(Vec::new(alloc));
        };
        let Some(mut entry) = self.views.take(view) else {
            return Ok(Vec::new(alloc));
        };
        let asks = Sequence::from_vec(entry.arrivals.asks(alloc)?);
        let delivered = asks.keep(alloc)?;
        entry.state = State::Judged {
            id,
            peer: *sender,
            delivered,
        };
        self.views.put(view, entry)?;
        only(
            alloc,
            Out::Deliver {
                id,
                view: View(view),
                bytes,
                asks,
            },
        )
    }

    /// An error of a peer, which has no answer.
    #[tactic(auto, unfolding(model_resolver::specs::Fetcher::refused, model_resolver::specs::Fetcher::retried))]
    fn hear_error(&mut self, sender: &Participant, id: u64, now: u64) -> Result<(), AllocError>
        requires early { now < 2 ^ 63 }
        ensures { OnOk result (self.new
            ≡ refused now self.old (asked_view id sender.now self.old.views)) }
    {
        let Some(view) = self.views.asked_view(id, sender) else {
            return Ok(());
        };
        match self.views.take(view) {
            Some(entry) => self.retry(view, entry, now),
            None => Ok(()),
        }
    }

    /// What became of the answer that was delivered under this number.
    #[tactic(auto, unfolding(model_resolver::specs::Fetcher::judged, model_resolver::specs::Fetcher::judged_at, model_resolver::specs::Fetcher::judged_entry))]
    pub fn verdict(
        &mut self,
        alloc: Global,
        id: u64,
        verdict: Option<Outcome>,
        now: u64,
    ) -> Result<Vec<Out>, AllocError>
        requires early { now < 2 ^ 63 }
        requires ids { self.old.next_id < 2 ^ 62 }
        ensures fetcher { OnOk result (self.new ≡ (judged id verdict now self.old).fetcher) }
        ensures outs { IfOk result (λ outs. outs.items ≡ (judged id verdict now self.old).outs) }
    {
        let mut outs = Vec::new(alloc);
        let Some(view) = self.views.judged_view(id) else {
            return Ok(outs);
        };
        let Some(entry) = self.views.take(view) else {
            return Ok(outs);
        };
        self.judge(alloc, view, entry, &verdict, now, &mut outs)?;
        Ok(outs)
    }

    /// The view, with this entry, which was taken out, after the verdict.
    #[tactic(auto, unfolding(model_resolver::specs::Fetcher::judged_as, model_resolver::specs::Fetcher::asked_on), using(crate::proofs::Taken::without_absent))]
    fn judge(
        &mut self,
        alloc: Global,
        view: u64,
        entry: Entry,
        verdict: &Option<Outcome>,
        now: u64,
        outs: &mut Vec<Out>,
    ) -> Result<(), AllocError>
        requires absent { entry_at self.old.views view ≡ None }
        requires sound { IsSoundEntry self.old.next_id entry }
        requires early { now < 2 ^ 63 }
        requires ids { self.old.next_id < 2 ^ 62 }
        ensures fetcher { OnOk result (self.new
            ≡ (judged_as verdict.now now view entry self.old).fetcher) }
        ensures outs { OnOk result (outs.new.items ≡ outs.old.items
            ++ (judged_as verdict.now now view entry self.old).outs) }
    {
        let mut entry = entry;
        if is_done(verdict) {
            entry.drop_delivered();
            if entry.arrivals.is_empty() {
                return Ok(());
            }
            return self.attempt(alloc, view, entry, now, outs);
        }
        self.block_judged(verdict, &entry.state, outs)?;
        self.retry(view, entry, now)
    }

    /// A peer whose answer is no valid one is blocked.
    fn block_judged(
        &mut self,
        verdict: &Option<Outcome>,
        state: &State,
        outs: &mut Vec<Out>,
    ) -> Result<(), AllocError>
        ensures fetcher { OnOk result (self.new
            ≡ (blocked_by verdict.now state.now self.old).fetcher) }
        ensures outs { OnOk result (outs.new.items ≡ outs.old.items
            ++ (blocked_by verdict.now state.now self.old).outs) }
    {
        if let (Some(Outcome::Invalid), State::Judged { peer, .. }) = (verdict, state) {
            self.block(*peer)?;
            outs.push(Out::Block(*peer, BlockCause::InvalidResponse))?;
        }
        Ok(())
    }

    /// The answer to a peer's request: a certificate's bytes, or that there is none. [served-once]
    #[tactic(auto, unfolding(model_resolver::specs::Fetcher::served, model_resolver::specs::Fetcher::served_as))]
    pub fn serve(
        &mut self,
        alloc: Global,
        id: u64,
        bytes: Option<Vec<u8>>,
    ) -> Result<Vec<Out>, AllocError>
        ensures fetcher { OnOk result (self.new
            ≡ (served id (option_map (λ vector. vector.items) bytes) self.old).fetcher) }
        ensures outs { IfOk result (λ outs. outs.items
            ≡ (served id (option_map (λ vector. vector.items) bytes) self.old).outs) }
    {
        let Some(serving) = self.serving.remove(&id) else {
            return Ok(Vec::new(alloc));
        };
        let body = answer_body(bytes);
        let bytes = message_bytes(alloc, serving.request, body)?;
        only(
            alloc,
            Out::Send {
                to: serving.sender,
                bytes,
            },
        )
    }

    /// When `expire` is to be called next.
    pub fn next_deadline(&self) -> Option<u64>
        ensures { result ≡ next_deadline self.now.views }
    {
        self.views.next_deadline()
    }

    /// Each view whose deadline is reached waits, or makes its next attempt.
    #[tactic(auto, unfolding(model_resolver::specs::Fetcher::expired))]
    pub fn expire(&mut self, alloc: Global, now: u64) -> Result<Vec<Out>, AllocError>
        requires early { now < 2 ^ 63 }
        requires ids { self.old.next_id < 2 ^ 62 }
        ensures fetcher { OnOk result (self.new ≡ (expired now self.old).fetcher) }
        ensures outs { IfOk result (λ outs. outs.items ≡ (expired now self.old).outs) }
    {
        let mut views = self.views.due(alloc, now)?;
        let mut outs = Vec::with_capacity(alloc, views.len())?;
        while let Some(view) = views.pop_first() {
            self.expire_at(alloc, view, now, &mut outs)?;
        }
        Ok(outs)
    }
}

/// This alone.
fn only(alloc: Global, out: Out) -> Result<Vec<Out>, AllocError>
    ensures { IfOk result (λ outs. outs.items ≡ out ∷ []) }
{
    let mut outs = Vec::new(alloc);
    outs.push(out)?;
    Ok(outs)
}

/// Whether the delivered asks are done with.
fn is_done(verdict: &Option<Outcome>) -> bool
    ensures { result ≡ is_done verdict.now }
{
    match verdict {
        None | Some(Outcome::Ignored) | Some(Outcome::Resolved(Resolution::Complete)) => true,
        Some(Outcome::Invalid)
        | Some(Outcome::Unresolved)
        | Some(Outcome::Resolved(Resolution::Partial)) => false,
    }
}

/// The entry after one more attempt. There is no memory for more attempts than a number counts.
fn once_more(entry: Entry) -> Result<Entry, AllocError>
    ensures { IfOk result (λ made. made ≡ once_more entry) }
{
    let mut made = entry;
    made.attempts = made.attempts.checked_add(1).ok_or(AllocError)?;
    Ok(made)
}

/// The body of an answer.
fn answer_body(bytes: Option<Vec<u8>>) -> ResolverBody
    ensures { result ≡ answer_body (option_map (λ vector. vector.items) bytes) }
{
    match bytes {
        Some(bytes) => ResolverBody::Response {
            bytes: Sequence::from_vec(bytes),
        },
        None => ResolverBody::Error,
    }
}

/// The bytes of a request or an answer.
#[tactic(auto, unfolding(model_resolver::specs::Fetcher::message_bytes))]
fn message_bytes(alloc: Global, id: u64, body: ResolverBody) -> Result<Bytes, AllocError>
    ensures { IfOk result (λ bytes. bytes ≡ message_bytes id body) }
{
    let message = ResolverMessage { id, body };
    let bytes = message.encode(alloc)?;
    Ok(Sequence::from_vec(bytes))
}
