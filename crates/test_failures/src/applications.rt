//! Applications, step by step.
use simplex_application::{
    AppStep, Application, Broadcast, Certifier, CertifyFn, Config, ControlFn, Mailbox, Reply,
};
use simplex_mocks::relay::Relay;
use simplex_types::{
    Answer, Automaton, CertifiableAutomaton, Context, Digest, Epoch, Handoff, Parent, Participant,
    Plan, Recipients, Relay as Relaying, Round, View,
};
use std::alloc::{AllocError, Global};
use std::cell::Cell;
use std::process::Abort;
use std::rc::Rc;

/// The SHA-256 of 00 05, 32 bytes 02 and the word 7 in eight bytes.
const MADE: &str = "2e1f4684f5573065d7f231de2a7b74410a8441cc8d415cab38433c6e792253cf";

fn round(view: u64) -> Round {
    Round {
        epoch: Epoch(0),
        view: View(view),
    }
}

fn context(view: u64) -> Context {
    Context {
        round: round(view),
        leader: Participant(1),
        parent: Parent {
            view: View(4),
            payload: Digest([2; 32]),
        },
    }
}

fn made(rt: &impl Abort, alloc: Global) -> Digest {
    let bytes = hex::decode(alloc, MADE).expect(rt, "hex");
    let mut digest = [0; 32];
    assert_eq!(rt; bytes.len(), 32, "its length");
    digest.copy_from_slice(&bytes);
    Digest(digest)
}

fn application(
    rt: &impl Abort,
    alloc: Global,
    relay: &mut Relay,
    me: u32,
) -> (Application, Mailbox) {
    let config = Config {
        me: Participant(me),
        should_certify: Certifier::Always,
    };
    Application::new(alloc, config, relay).expect(rt, "memory")
}

/// The step took something, gave these answers, and this became of a payload.
fn assert_did(
    rt: &impl Abort,
    case: &str,
    step: Result<AppStep, AllocError>,
    replies: &[Reply],
    broadcast: Option<Broadcast>,
) {
    let step = step.expect(rt, "memory");
    assert!(rt; step.took, "{case}");
    assert_eq!(rt; step.broadcast, broadcast, "{case}");
    assert_eq!(rt; step.replies.as_slice(), replies, "{case}");
}

fn reply(request: u64, answer: Answer) -> [Reply; 1] {
    [Reply { request, answer }]
}

/// A payload of the next term is staged and sent, was sent before where it is proposed, and is not there a second time.
#[test]
fn a_staged_payload_is_sent_once(rt: HostRuntime) {
    let alloc = rt.alloc();
    let mut relay = Relay::new(alloc);
    let (mut app, mut mailbox) = application(&rt, alloc, &mut relay, 0);
    let payload = made(&rt, alloc);
    app.set_handoff(Handoff::Stage(()));
    mailbox.prepare(context(5)).expect(&rt, "memory");
    let staged = reply(0, Answer::Handoff(Handoff::Stage(payload)));
    let step = app.step(alloc, &mut mailbox, &mut relay, 7);
    assert_did(&rt, "staged", step, &staged, None);
    let plans = [
        (Plan::Prepare { round: round(5) }, Broadcast::Sent),
        (Plan::Propose { round: round(5) }, Broadcast::AlreadySent),
        (Plan::Propose { round: round(5) }, Broadcast::MissingPayload),
    ];
    for (plan, wanted) in plans {
        mailbox.broadcast(payload, plan).expect(&rt, "memory");
        let step = app.step(alloc, &mut mailbox, &mut relay, 0);
        assert_did(&rt, "a broadcast", step, &[], Some(wanted));
    }
    let step = app
        .step(alloc, &mut mailbox, &mut relay, 0)
        .expect(&rt, "memory");
    assert!(rt; !step.took, "no message is left");
}

/// A verification waits for the contents, and what is heard is judged by its round and parent and by the flags.
#[test]
fn payloads_are_judged(rt: HostRuntime) {
    let alloc = rt.alloc();
    let mut relay = Relay::new(alloc);
    let (mut leader, mut leading) = application(&rt, alloc, &mut relay, 0);
    let (mut app, mut mailbox) = application(&rt, alloc, &mut relay, 1);
    let payload = made(&rt, alloc);
    mailbox.verify(context(5), payload).expect(&rt, "memory");
    let step = app.step(alloc, &mut mailbox, &mut relay, 0);
    assert_did(&rt, "it waits", step, &[], None);
    leading.propose(context(5)).expect(&rt, "memory");
    let step = leader.step(alloc, &mut leading, &mut relay, 7);
    assert_did(
        &rt,
        "proposed",
        step,
        &reply(0, Answer::Payload(payload)),
        None,
    );
    let plan = Plan::Propose { round: round(5) };
    leading.broadcast(payload, plan).expect(&rt, "memory");
    let step = leader.step(alloc, &mut leading, &mut relay, 0);
    assert_did(&rt, "sent", step, &[], Some(Broadcast::Sent));
    let step = app.hear(alloc, &mut relay);
    assert_did(&rt, "heard", step, &reply(0, Answer::Verdict(true)), None);
    let step = app.hear(alloc, &mut relay).expect(&rt, "memory");
    assert!(rt; !step.took, "nothing more is heard");
    let cases = [
        (5, false, false, Answer::Verdict(true)),
        (6, false, false, Answer::Verdict(false)),
        (5, true, false, Answer::Verdict(false)),
        (5, true, true, Answer::Closed),
    ];
    for (view, fail, drop, answer) in cases {
        app.set_fail_verification(fail);
        app.set_drop_verifications(drop);
        let request = mailbox.verify(context(view), payload).expect(&rt, "memory");
        let step = app.step(alloc, &mut mailbox, &mut relay, 0);
        assert_did(&rt, "judged", step, &reply(request, answer), None);
    }
}

/// Contents are forwarded to those that are named, pending or seen, and to nobody where they are not known.
#[test]
fn contents_are_forwarded(rt: HostRuntime) {
    let alloc = rt.alloc();
    let mut relay = Relay::new(alloc);
    let (mut first, mut to_first) = application(&rt, alloc, &mut relay, 0);
    let (mut second, mut to_second) = application(&rt, alloc, &mut relay, 1);
    let (mut third, mut to_third) = application(&rt, alloc, &mut relay, 2);
    let payload = made(&rt, alloc);
    let forward = |to: u32| Plan::Forward {
        round: round(5),
        recipients: Recipients::One(Participant(to)),
    };
    to_first.propose(context(5)).expect(&rt, "memory");
    let step = first.step(alloc, &mut to_first, &mut relay, 7);
    let proposed = reply(0, Answer::Payload(payload));
    assert_did(&rt, "proposed", step, &proposed, None);
    to_first
        .broadcast(payload, forward(1))
        .expect(&rt, "memory");
    let step = first.step(alloc, &mut to_first, &mut relay, 0);
    assert_did(&rt, "pending", step, &[], Some(Broadcast::Sent));
    to_third
        .broadcast(payload, forward(0))
        .expect(&rt, "memory");
    let step = third.step(alloc, &mut to_third, &mut relay, 0);
    assert_did(&rt, "not known", step, &[], Some(Broadcast::MissingPayload));
    let step = third.hear(alloc, &mut relay).expect(&rt, "memory");
    assert!(rt; !step.took, "it was not named");
    let step = second.hear(alloc, &mut relay);
    assert_did(&rt, "heard", step, &[], None);
    to_second
        .broadcast(payload, forward(2))
        .expect(&rt, "memory");
    let step = second.step(alloc, &mut to_second, &mut relay, 0);
    assert_did(&rt, "seen", step, &[], Some(Broadcast::Sent));
    let step = third.hear(alloc, &mut relay);
    assert_did(&rt, "heard at last", step, &[], None);
}

/// Observers are told of each request for a payload, of the next term too, and of each for verification.
#[test]
fn observers_are_told(rt: HostRuntime) {
    let alloc = rt.alloc();
    let mut relay = Relay::new(alloc);
    let (mut app, mut mailbox) = application(&rt, alloc, &mut relay, 0);
    let asked = Rc::new(alloc, Cell::new(0_u64)).expect(&rt, "memory");
    let verified = Rc::new(alloc, Cell::new((0_u64, 0_u8))).expect(&rt, "memory");
    let proposals = Rc::clone(&asked).expect(&rt, "memory");
    let verifications = Rc::clone(&verified).expect(&rt, "memory");
    app.set_propose_observer(Box::new(alloc, move |context: Context| {
        proposals.set(context.round.view.0);
    })
    .expect(&rt, "memory"));
    app.set_verify_observer(Box::new(alloc, move |context: Context, payload: Digest| {
        verifications.set((context.round.view.0, payload.0[0]));
    })
    .expect(&rt, "memory"));
    mailbox.propose(context(5)).expect(&rt, "memory");
    mailbox.prepare(context(6)).expect(&rt, "memory");
    let payload = Digest([30; 32]);
    mailbox.verify(context(7), payload).expect(&rt, "memory");
    for told in [(5, (0, 0)), (6, (0, 0)), (6, (7, 30))] {
        app.step(alloc, &mut mailbox, &mut relay, 7)
            .expect(&rt, "memory");
        assert_eq!(rt; (asked.get(), verified.get()), told, "told");
    }
}

/// Requests for payloads that wait, are closed or are left open, and a controller that votes at once or leaves them open.
#[test]
fn requests_are_answered_as_set(rt: HostRuntime) {
    let alloc = rt.alloc();
    let mut relay = Relay::new(alloc);
    let config = Config {
        me: Participant(0),
        should_certify: Certifier::Controlled(ControlFn::new(Box::new(
            alloc,
            |round: Round, _: Digest| {
                if round.view == View(5) {
                    Some(false)
                } else {
                    None
                }
            },
        )
        .expect(&rt, "memory"))),
    };
    let (mut app, mut mailbox) = Application::new(alloc, config, &mut relay).expect(&rt, "memory");
    let payload = made(&rt, alloc);
    mailbox.certify(round(5), payload).expect(&rt, "memory");
    let step = app.step(alloc, &mut mailbox, &mut relay, 0);
    assert_did(
        &rt,
        "certified",
        step,
        &reply(0, Answer::Verdict(false)),
        None,
    );
    mailbox.certify(round(6), payload).expect(&rt, "memory");
    let step = app.step(alloc, &mut mailbox, &mut relay, 0);
    assert_did(&rt, "left open", step, &[], None);
    mailbox.prepare(context(5)).expect(&rt, "memory");
    let step = app.step(alloc, &mut mailbox, &mut relay, 7);
    let waits = reply(2, Answer::Handoff(Handoff::Wait));
    assert_did(&rt, "it waits", step, &waits, None);
    app.set_handoff(Handoff::Stage(()));
    app.set_handoff_controller(Box::new(alloc, |round: Round, made: Handoff<Digest>| {
        match made {
            Handoff::Stage(payload) if round.view == View(5) => Some(Handoff::Vote(payload)),
            _ => None,
        }
    })
    .expect(&rt, "memory"));
    mailbox.prepare(context(5)).expect(&rt, "memory");
    let step = app.step(alloc, &mut mailbox, &mut relay, 7);
    let voted = reply(3, Answer::Handoff(Handoff::Vote(payload)));
    assert_did(&rt, "controlled", step, &voted, None);
    mailbox.prepare(context(6)).expect(&rt, "memory");
    let step = app.step(alloc, &mut mailbox, &mut relay, 7);
    assert_did(&rt, "left open by the controller", step, &[], None);
    app.set_drop_proposals(true);
    mailbox.propose(context(5)).expect(&rt, "memory");
    let step = app.step(alloc, &mut mailbox, &mut relay, 7);
    assert_did(&rt, "closed", step, &reply(5, Answer::Closed), None);
    app.set_stall_proposals(true);
    mailbox.propose(context(5)).expect(&rt, "memory");
    let step = app.step(alloc, &mut mailbox, &mut relay, 7);
    assert_did(&rt, "stalled", step, &[], None);
}

/// What may be certified is what the closure says of the round and the payload.
#[test]
fn a_closure_certifies(rt: HostRuntime) {
    let alloc = rt.alloc();
    let mut relay = Relay::new(alloc);
    let config = Config {
        me: Participant(0),
        should_certify: Certifier::Custom(CertifyFn::new(Box::new(
            alloc,
            |round: Round, payload: Digest| round.view == View(5) && payload.0[0] == 30,
        )
        .expect(&rt, "memory"))),
    };
    let (mut app, mut mailbox) = Application::new(alloc, config, &mut relay).expect(&rt, "memory");
    for (view, byte, may) in [(5, 30, true), (5, 31, false), (6, 30, false)] {
        let payload = Digest([byte; 32]);
        let request = mailbox.certify(round(view), payload).expect(&rt, "memory");
        let step = app.step(alloc, &mut mailbox, &mut relay, 0);
        let certified = reply(request, Answer::Verdict(may));
        assert_did(&rt, "certified", step, &certified, None);
    }
}
