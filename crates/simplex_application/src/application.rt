//! An application that makes payloads of random words, and judges those of others.
ghost use Rattle.std.specs.Prelude.{◌≡◌, [], length, Option, Some, None, IfOk, OnOk, OnErr, IfSome, MatchOption, map, true, false};
ghost use Rattle.std.specs.Option.{IsSomeAnd};
ghost use Rattle.simplex_values.specs.declared.answer.Answer.{Answer};
ghost use Rattle.simplex_application.specs.Application.{as_reply, replies_to, prepared, MayAnswer, Shows, Idles, on_prepare, on_propose, on_verify, on_broadcast, on_relayed, relayed_by, set_by};
ghost use Rattle.simplex_application.specs.Handling.{at_first, Handles};
ghost use Rattle.simplex_mocks.specs.declared.certifier.Certifier.TheVariants as certifiers;
ghost use Rattle.simplex_mocks.specs.Certifier.{always, cancels, leaves_open, by_closure, by_controller};
ghost use Rattle.simplex_mocks.specs.Queue.{empty_queue, first_of, after_take};
ghost use Rattle.simplex_mocks.specs.Relay.{registered, front, after_take as after_relay_take};

use crate::app_step::{AppStep, Reply};
use crate::handoff_controller::HandoffController;
use crate::prepared::Prepared;
use crate::propose_observer::ProposeObserver;
use crate::settings::Settings;
use crate::state::State;
use crate::verdict::Verdict;
use crate::verify_observer::VerifyObserver;
use simplex_mocks::application::{Certifier, Mailbox, Message};
use simplex_mocks::relay::{Inbox, Relay};
use simplex_types::{Answer, Context, Digest, Handoff, Participant, Plan, Round, Sequence};
use std::alloc::{AllocError, Global};

/// What an application is made with.
#[derive(Drop)]
pub struct Config {
    /// The member that it is the application of.
    pub me: Participant,
    /// Whether notarized payloads may be certified.
    pub should_certify: Certifier,
}

/// An application: it takes the messages of its mailbox and the payloads that are relayed to it, one at a time.
#[derive(Drop)]
pub struct Application {
    me: Participant,
    inbox: Inbox,
    should_certify: Certifier,
    state: State,
    propose_observer: Option<ProposeObserver>,
    handoff_controller: Option<HandoffController>,
    verify_observer: Option<VerifyObserver>,
}

type Control = Box<dyn Fn(Round, Handoff<Digest>) -> Option<Handoff<Digest>>>;

type Tell = Box<dyn Fn(Context)>;

type TellOf = Box<dyn Fn(Context, Digest)>;

/// The answer to the request, if there is one.
fn answered(alloc: Global, request: u64, answer: Option<Answer>) -> Result<AppStep, AllocError>
    ensures { IfOk result (λ step. step ≡ record {
      replies = replies_to request answer;
      broadcast = None;
      took = true;
    }) }
{
    // A list of answers is carried here, and the checker is told of their type by this line alone.
    let _named: Option<Handoff<Digest>> = None;
    let mut replies = Sequence::new(alloc);
    if let Some(answer) = answer {
        replies.push(Reply { request, answer })?;
    }
    Ok(AppStep {
        replies,
        broadcast: None,
        took: true,
    })
}

/// The answers to the verifications.
fn replies_of(alloc: Global, verdicts: &[Verdict]) -> Result<Sequence<Reply>, AllocError>
    ensures { IfOk result (λ replies. replies ≡ map as_reply verdicts.now) }
{
    // As in `answered`.
    let _named: Option<Handoff<Digest>> = None;
    let mut replies = Sequence::new(alloc);
    for verdict in verdicts {
        replies.push(Reply {
            request: verdict.request,
            answer: Answer::Verdict(verdict.is_valid),
        })?;
    }
    Ok(replies)
}

/// Nothing was there.
fn idle(alloc: Global) -> AppStep
    ensures { result ≡ record { replies = []; broadcast = None; took = false } }
{
    AppStep {
        replies: Sequence::new(alloc),
        broadcast: None,
        took: false,
    }
}

impl Application {
    /// An application that knows nothing, with a new inbox of the relay, and its mailbox. At first no flag is set, the
    /// handoff is `Wait`, and no closure is set. Want of memory leaves the relay as it was.
    pub fn new(
        alloc: Global,
        config: Config,
        relay: &mut Relay,
    ) -> Result<(Application, Mailbox), AllocError>
        ensures application { IfOk result (λ made. made.0 ≡ record {
          me = config.me;
          inbox = length relay.old;
          should_certify = config.should_certify;
          state = at_first;
          propose_observer = None;
          handoff_controller = None;
          verify_observer = None;
        }) }
        ensures mailbox { IfOk result (λ made. made.1 ≡ empty_queue) }
        ensures relay { OnOk result (relay.new ≡ registered relay.old config.me) }
        ensures err { OnErr result (relay.new ≡ relay.old) }
    {
        let inbox = relay.register(alloc, config.me)?;
        let settings = Settings {
            fails_verification: false,
            drops_proposals: false,
            stalls_proposals: false,
            handoff: Handoff::Wait,
            drops_verifications: false,
        };
        let application = Application {
            me: config.me,
            inbox,
            should_certify: config.should_certify,
            state: State::new(alloc, settings),
            propose_observer: None,
            handoff_controller: None,
            verify_observer: None,
        };
        Ok((application, Mailbox::new(alloc)))
    }

    /// Whether every payload is invalid.
    pub fn set_fail_verification(&mut self, fail: bool)
        ensures { self.new ≡ record self.old {
          state = set_by (λ s. record s { fails_verification = fail }) self.old.state;
        } }
    {
        self.state.set(Settings {
            fails_verification: fail,
            ..self.state.settings()
        });
    }

    /// Whether requests for payloads are closed.
    pub fn set_drop_proposals(&mut self, drop: bool)
        ensures { self.new ≡ record self.old {
          state = set_by (λ s. record s { drops_proposals = drop }) self.old.state;
        } }
    {
        self.state.set(Settings {
            drops_proposals: drop,
            ..self.state.settings()
        });
    }

    /// Whether requests for payloads are left open.
    pub fn set_stall_proposals(&mut self, stall: bool)
        ensures { self.new ≡ record self.old {
          state = set_by (λ s. record s { stalls_proposals = stall }) self.old.state;
        } }
    {
        self.state.set(Settings {
            stalls_proposals: stall,
            ..self.state.settings()
        });
    }

    /// What is done with a payload of the next term. `Wait` makes none.
    pub fn set_handoff(&mut self, handoff: Handoff<()>)
        ensures { self.new ≡ record self.old {
          state = set_by (λ s. record s { handoff = handoff }) self.old.state;
        } }
    {
        self.state.set(Settings {
            handoff,
            ..self.state.settings()
        });
    }

    /// Whether requests for verification are closed.
    pub fn set_drop_verifications(&mut self, drop: bool)
        ensures { self.new ≡ record self.old {
          state = set_by (λ s. record s { drops_verifications = drop }) self.old.state;
        } }
    {
        self.state.set(Settings {
            drops_verifications: drop,
            ..self.state.settings()
        });
    }

    /// Who is told of each request for a payload, of the next term too, before it is answered.
    pub fn set_propose_observer(&mut self, observer: Box<dyn Fn(Context)>)
        requires { IsAlwaysCallable observer }
        ensures set { IsSomeAnd self.new.propose_observer (λ by. by.observe ≡ observer) }
        ensures rest { self.new ≡ record self.old { propose_observer = self.new.propose_observer } }
    {
        self.propose_observer = Some(ProposeObserver::new(observer));
    }

    /// Who decides on each payload of the next term that is made. No decision leaves the request open.
    pub fn set_handoff_controller(
        &mut self,
        controller: Box<dyn Fn(Round, Handoff<Digest>) -> Option<Handoff<Digest>>>,
    )
        requires { IsAlwaysCallable controller }
        ensures set { IsSomeAnd self.new.handoff_controller (λ by. by.decide ≡ controller) }
        ensures rest { self.new
            ≡ record self.old { handoff_controller = self.new.handoff_controller } }
    {
        self.handoff_controller = Some(HandoffController::new(controller));
    }

    /// Who is told of each request for verification, before it is answered.
    pub fn set_verify_observer(&mut self, observer: Box<dyn Fn(Context, Digest)>)
        requires { IsAlwaysCallable observer }
        ensures set { IsSomeAnd self.new.verify_observer (λ by. by.observe ≡ observer) }
        ensures rest { self.new ≡ record self.old { verify_observer = self.new.verify_observer } }
    {
        self.verify_observer = Some(VerifyObserver::new(observer));
    }

    /// The answer to a request for a payload of the next term, unless it is left open. [flags-when-answered]
    fn decide(&self, round: Round, prepared: Prepared) -> Option<Answer>
        ensures { MayAnswer (λ by. Control.post by.decide) self.now.handoff_controller round prepared result }
    {
        match prepared {
            Prepared::Answered(answer) => Some(answer),
            Prepared::Open => None,
            Prepared::Made(made) => match &self.handoff_controller {
                None => Some(Answer::Handoff(made)),
                Some(controller) => controller.decide(round, made).map(Answer::Handoff),
            },
        }
    }

    /// Tells the observer of a request for a payload.
    fn observe(&self, context: Context)
        ensures { IfSome self.now.propose_observer (λ by. Tell.post by.observe context result) }
    {
        if let Some(observer) = &self.propose_observer {
            observer.observe(context);
        }
    }

    /// Tells the observer of a request for verification.
    fn observe_payload(&self, context: &Context, payload: &Digest)
        ensures { IfSome self.now.verify_observer
            (λ by. TellOf.post by.observe context.now payload.now result) }
    {
        if let Some(observer) = &self.verify_observer {
            observer.observe(*context, *payload);
        }
    }

    /// A request for a payload of the next term.
    #[tactic(auto, unfolding(crate::specs::Application::on_prepare))]
    fn prepare(
        &mut self,
        alloc: Global,
        context: Context,
        request: u64,
        word: u64,
    ) -> Result<AppStep, AllocError>
        ensures told { IfSome self.old.propose_observer (λ by. Tell.post by.observe context tt) }
        ensures step { IfOk result (λ step. (answer : Option Answer)
            × MayAnswer (λ by. Control.post by.decide) self.old.handoff_controller context.round
            (prepared self.old.state context word) answer
            × Shows (on_prepare self.old.state context request word answer) step self.new.state) }
        ensures rest { self.new ≡ record self.old { state = self.new.state } }
    {
        // As in `answered`.
        let _named: Option<Handoff<Digest>> = None;
        self.observe(context);
        let prepared = self.state.prepare(alloc, &context, word)?;
        answered(alloc, request, self.decide(context.round, prepared))
    }

    /// A request for a payload.
    #[tactic(auto, unfolding(crate::specs::Application::on_propose))]
    fn propose(
        &mut self,
        alloc: Global,
        context: Context,
        request: u64,
        word: u64,
    ) -> Result<AppStep, AllocError>
        ensures told { IfSome self.old.propose_observer (λ by. Tell.post by.observe context tt) }
        ensures step { IfOk result (λ step.
            Shows (on_propose self.old.state context request word) step self.new.state) }
        ensures rest { self.new ≡ record self.old { state = self.new.state } }
    {
        // As in `answered`.
        let _named: Option<Handoff<Digest>> = None;
        self.observe(context);
        let answer = self.state.propose(alloc, &context, word)?;
        answered(alloc, request, answer)
    }

    /// A request for verification.
    #[tactic(auto, unfolding(crate::specs::Application::on_verify))]
    fn verify(
        &mut self,
        alloc: Global,
        context: Context,
        payload: Digest,
        request: u64,
    ) -> Result<AppStep, AllocError>
        ensures told { IfSome self.old.verify_observer
            (λ by. TellOf.post by.observe context payload tt) }
        ensures step { IfOk result (λ step.
            Shows (on_verify self.old.state context payload request) step self.new.state) }
        ensures rest { self.new ≡ record self.old { state = self.new.state } }
    {
        // As in `answered`.
        let _named: Option<Handoff<Digest>> = None;
        self.observe_payload(&context, &payload);
        let answer = self.state.verify(alloc, context, payload, request)?;
        answered(alloc, request, answer)
    }

    /// A payload is to be relayed. Want of memory leaves the relay as it was.
    fn broadcast(
        &mut self,
        alloc: Global,
        relay: &mut Relay,
        payload: Digest,
        plan: &Plan,
    ) -> Result<AppStep, AllocError>
        ensures step { IfOk result
            (λ step. Shows (on_broadcast self.old.state payload plan.now) step self.new.state) }
        ensures relay { OnOk result (relay.new
            ≡ relayed_by relay.old self.old.me
            (on_broadcast self.old.state payload plan.now).relays) }
        ensures err { OnErr result (relay.new ≡ relay.old) }
        ensures rest { self.new ≡ record self.old { state = self.new.state } }
    {
        let outcome = self.state.broadcast(alloc, relay, self.me, payload, plan)?;
        Ok(AppStep {
            replies: Sequence::new(alloc),
            broadcast: Some(outcome),
            took: true,
        })
    }

    /// The answer to a request for certification, unless it is left open.
    fn certify(&self, round: Round, payload: Digest) -> Option<Answer>
        ensures always { self.now.should_certify ≡ certifiers.Always → always round payload result }
        ensures custom { (by : _) → self.now.should_certify ≡ certifiers.Custom by
            → by_closure (⟦<Box<dyn Fn(Round, Digest) -> bool> as Fn(Round, Digest) -> bool>⟧.post by.decide)
            round payload result }
        ensures controlled { (by : _) → self.now.should_certify ≡ certifiers.Controlled by → by_controller
            (⟦<Box<dyn Fn(Round, Digest) -> Option<bool>> as Fn(Round, Digest) -> Option<bool>>⟧.post by.decide)
            round payload result }
        ensures cancel { self.now.should_certify ≡ certifiers.Cancel
            → cancels round payload result }
        ensures pending { self.now.should_certify ≡ certifiers.Pending
            → leaves_open round payload result }
    {
        self.should_certify.certify(round, payload)
    }

    /// Does what the message asks for, with the random word. Want of memory leaves the relay as it was.
    fn handle(
        &mut self,
        alloc: Global,
        relay: &mut Relay,
        word: u64,
        message: &Message,
    ) -> Result<AppStep, AllocError>
        ensures step { IfOk result (λ step. Handles (record {
          controls = MayAnswer (λ by. Control.post by.decide) self.old.handoff_controller;
          certifies = λ round payload answer.
              (self.old.should_certify ≡ certifiers.Always → always round payload answer)
              × ((by : _) → self.old.should_certify ≡ certifiers.Custom by
              → by_closure (⟦<Box<dyn Fn(Round, Digest) -> bool> as Fn(Round, Digest) -> bool>⟧.post by.decide)
              round payload answer)
              × ((by : _) → self.old.should_certify ≡ certifiers.Controlled by → by_controller
              (⟦<Box<dyn Fn(Round, Digest) -> Option<bool>> as Fn(Round, Digest) -> Option<bool>>⟧.post by.decide)
              round payload answer)
              × (self.old.should_certify ≡ certifiers.Cancel → cancels round payload answer)
              × (self.old.should_certify ≡ certifiers.Pending → leaves_open round payload answer);
          told = λ context. IfSome self.old.propose_observer
              (λ by. Tell.post by.observe context tt);
          told_of = λ context payload.
              IfSome self.old.verify_observer (λ by. TellOf.post by.observe context payload tt);
        }) self.old.me self.old.state word relay.old message.now step self.new.state relay.new) }
        ensures err { OnErr result (relay.new ≡ relay.old) }
        ensures rest { self.new ≡ record self.old { state = self.new.state } }
    {
        // As in `answered`.
        let _named: Option<Handoff<Digest>> = None;
        match message {
            Message::Prepare { context, request } => self.prepare(alloc, *context, *request, word),
            Message::Propose { context, request } => self.propose(alloc, *context, *request, word),
            Message::Verify {
                context,
                payload,
                request,
            } => self.verify(alloc, *context, *payload, *request),
            Message::Certify {
                round,
                payload,
                request,
            } => answered(alloc, *request, self.certify(*round, *payload)),
            Message::Broadcast { payload, plan } => self.broadcast(alloc, relay, *payload, plan),
        }
    }

    /// Takes one message of the mailbox, and does what it asks for, with the random word. Want of memory leaves the
    /// mailbox and the relay as they were, and what the application knows may have changed.
    pub fn step(
        &mut self,
        alloc: Global,
        mailbox: &mut Mailbox,
        relay: &mut Relay,
        word: u64,
    ) -> Result<AppStep, AllocError>
        ensures step { IfOk result (λ step. MatchOption (first_of mailbox.old.waiting)
            (Idles self.old.state step self.new.state × (relay.new ≡ relay.old))
            (λ message. Handles (record {
              controls = MayAnswer (λ by. Control.post by.decide) self.old.handoff_controller;
              certifies = λ round payload answer.
                  (self.old.should_certify ≡ certifiers.Always → always round payload answer)
                  × ((by : _) → self.old.should_certify ≡ certifiers.Custom by
                  → by_closure
                  (⟦<Box<dyn Fn(Round, Digest) -> bool> as Fn(Round, Digest) -> bool>⟧.post by.decide)
                  round payload answer)
                  × ((by : _) → self.old.should_certify ≡ certifiers.Controlled by → by_controller
                  (⟦<Box<dyn Fn(Round, Digest) -> Option<bool>> as Fn(Round, Digest) -> Option<bool>>⟧.post by.decide)
                  round payload answer)
                  × (self.old.should_certify ≡ certifiers.Cancel → cancels round payload answer)
                  × (self.old.should_certify ≡ certifiers.Pending
                  → leaves_open round payload answer);
              told = λ context. IfSome self.old.propose_observer
                  (λ by. Tell.post by.observe context tt);
              told_of = λ context payload.
                  IfSome self.old.verify_observer (λ by. TellOf.post by.observe context payload tt);
            }) self.old.me self.old.state word relay.old message step self.new.state relay.new)) }
        ensures mailbox { OnOk result (mailbox.new ≡ after_take mailbox.old) }
        ensures err { OnErr result ((mailbox.new ≡ mailbox.old) × (relay.new ≡ relay.old)) }
        ensures rest { self.new ≡ record self.old { state = self.new.state } }
    {
        // As in `answered`.
        let _named: Option<Handoff<Digest>> = None;
        let step = match mailbox.first() {
            None => return Ok(idle(alloc)),
            Some(message) => self.handle(alloc, relay, word, message)?,
        };
        mailbox.take();
        Ok(step)
    }

    /// Takes one payload that was relayed to it, and answers the verifications that wait for it. Want of memory leaves the
    /// relay as it was, and what the application knows may have changed.
    #[tactic(auto, unfolding(crate::specs::Application::on_relayed))]
    pub fn hear(&mut self, alloc: Global, relay: &mut Relay) -> Result<AppStep, AllocError>
        ensures step { IfOk result (λ step. MatchOption (front relay.old self.old.inbox)
            (Idles self.old.state step self.new.state)
            (λ relayed. Shows (on_relayed self.old.state relayed) step self.new.state)) }
        ensures relay { OnOk result (relay.new ≡ after_relay_take relay.old self.old.inbox) }
        ensures err { OnErr result (relay.new ≡ relay.old) }
        ensures rest { self.new ≡ record self.old { state = self.new.state } }
    {
        let verdicts = match relay.front(self.inbox) {
            None => return Ok(idle(alloc)),
            Some(relayed) => self.state.hear(alloc, relayed)?,
        };
        let replies = replies_of(alloc, verdicts.as_slice())?;
        relay.take(self.inbox);
        Ok(AppStep {
            replies,
            broadcast: None,
            took: true,
        })
    }
}
