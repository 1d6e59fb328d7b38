//! A member: its engine, and the application that answers it.
use crate::packet::Packet;
use anyhow::{Result, bail};
use simplex::actors::{Asked, Call, Outcome, StepOut, Stop};
use simplex::elector::Config as _;
use simplex::journal::MemoryJournal;
use simplex::types::{
    Activity, Answer, Digest, Epoch, Floor, ForwardPolicy, Keep, Keyed, Participant, RoundRobin,
    RoundRobinElector, SkipPolicy, TermLength, Terms, View, ViewDelta,
};
use simplex::{Engine, EngineConfig, Input, StepSource};
use std::alloc::Global;
use std::collections::VecDeque;
use std::io::Print;

/// Where an engine may hold something: mail before answers, deadlines last. Any order is safe.
const SOURCES: [StepSource; 9] = [
    StepSource::Voter,
    StepSource::Batcher,
    StepSource::Resolver,
    StepSource::Handler,
    StepSource::Certify,
    StepSource::Verify,
    StepSource::Propose,
    StepSource::Timer,
    StepSource::Fetch,
];

const MEMBERS: u32 = 2;

/// The view whose leader has nothing to propose: its deadline passes, and both members give it up.
const SILENT: View = View(2);

/// The payload of the genesis, which epoch 0 has.
const GENESIS: Digest = Digest([0; 32]);

/// The greatest clock that an engine takes, in milliseconds.
const LAST_CLOCK: u64 = (1 << 63) - 1;

type Live = Engine<Keyed, RoundRobinElector, MemoryJournal>;

/// A member of two.
#[derive(Drop)]
pub(crate) struct Member {
    alloc: Global,
    name: Participant,
    engine: Option<Live>,
    /// How many requests the engine made since its start: they are numbered in this order.
    asked: u64,
    /// Answers that the engine was not given yet, each with its request.
    answers: VecDeque<(u64, Answer)>,
}

/// An engine over what the journal holds. Times are in milliseconds.
fn engine(alloc: Global, me: Participant, journal: MemoryJournal) -> Result<Live> {
    if me.0 >= MEMBERS {
        bail!("there are two members");
    }
    let Some(length) = TermLength::new(1) else {
        bail!("a term has a view");
    };
    let terms = Terms {
        length,
        lookahead: 0,
        stall_timeout: None,
    };
    let config = EngineConfig {
        scheme: Keyed::new(alloc, 7, MEMBERS, Some(me))?,
        elector: RoundRobin::new(terms).build(MEMBERS),
        genesis: GENESIS,
        floor: Floor::Genesis(GENESIS),
        epoch: Epoch(0),
        leader_timeout: 1000,
        certification_timeout: 2000,
        retry: 500,
        retention: ViewDelta(10),
        skip: SkipPolicy::Disabled,
        mailbox: 16,
        fetch_timeout: 1000,
        fetch_retry: 100,
        forward: ForwardPolicy::Disabled,
        track: false,
        handoff: false,
    };
    match Engine::new(alloc, config, journal) {
        Ok(engine) => Ok(engine),
        Err(error) => bail!("no engine: {error}"),
    }
}

/// What the application answers: a payload that repeats the view's number, unless the view is silent; and each payload is valid, and may
/// become final.
fn answer(asked: &Asked) -> Option<Answer> {
    match asked {
        Asked::Prepare(context) | Asked::Propose(context) if context.round.view == SILENT => None,
        Asked::Prepare(context) | Asked::Propose(context) => {
            let byte = context.round.view.0 % 256;
            Some(Answer::Payload(Digest([byte as u8; 32])))
        }
        Asked::Verify(..) | Asked::Certify(..) => Some(Answer::Verdict(true)),
    }
}

impl Member {
    /// A member that was not started, over an empty journal.
    pub(crate) fn new(alloc: Global, name: Participant) -> Result<Member> {
        Ok(Member {
            alloc,
            name,
            engine: Some(engine(alloc, name, MemoryJournal::new(alloc))?),
            asked: 0,
            answers: VecDeque::new(alloc),
        })
    }

    /// When it has to be stepped although nothing came.
    pub(crate) fn next_deadline(&self) -> Option<u64> {
        self.engine.as_ref()?.next_deadline()
    }

    /// Starts the engine, which reads its journal.
    pub(crate) fn start(
        &mut self,
        rt: &impl Print,
        now: u64,
        packets: &mut VecDeque<Packet>,
    ) -> Result<()> {
        let Some(engine) = &mut self.engine else {
            bail!("there is no engine");
        };
        if now > LAST_CLOCK {
            bail!("so late a clock");
        }
        let mut out = StepOut::new(self.alloc);
        match engine.start(now, &Stop::None, &mut out) {
            Ok(Outcome::Journal) => bail!("the journal failed"),
            Ok(_) => self.perform(rt, &out, packets),
            Err(error) => bail!("not started: {error}"),
        }
    }

    /// Takes a packet. It only goes into a mailbox, until the engine steps.
    pub(crate) fn hear(
        &mut self,
        rt: &impl Print,
        packet: Packet,
        now: u64,
        packets: &mut VecDeque<Packet>,
    ) -> Result<()> {
        let Packet {
            from,
            channel,
            bytes,
        } = packet;
        let input = Input::Deliver {
            sender: from,
            channel,
            bytes,
        };
        self.poll(rt, input, now, packets)
    }

    /// Answers a request, or steps on a source that holds something. False where there is nothing to do.
    pub(crate) fn work(
        &mut self,
        rt: &impl Print,
        now: u64,
        packets: &mut VecDeque<Packet>,
    ) -> Result<bool> {
        let input = if let Some((request, answer)) = self.answers.pop_front() {
            Input::Answer { request, answer }
        } else if let Some(source) = self.holding(now) {
            Input::Step(source)
        } else {
            return Ok(false);
        };
        self.poll(rt, input, now, packets)?;
        Ok(true)
    }

    /// Crashes: what the engine knew is gone, and a new one starts over its journal.
    pub(crate) fn restart(
        &mut self,
        rt: &impl Print,
        now: u64,
        packets: &mut VecDeque<Packet>,
    ) -> Result<()> {
        let Some(old) = self.engine.take() else {
            bail!("there is no engine");
        };
        if old.has_failed() {
            bail!("out of memory");
        }
        self.engine = Some(engine(self.alloc, self.name, old.into_journal())?);
        self.asked = 0;
        self.answers.clear();
        self.start(rt, now, packets)
    }

    // The first source that holds something.
    fn holding(&self, now: u64) -> Option<StepSource> {
        let engine = self.engine.as_ref()?;
        for source in SOURCES {
            if engine.holds(source, now) {
                return Some(source);
            }
        }
        None
    }

    // Gives the engine an input.
    fn poll(
        &mut self,
        rt: &impl Print,
        input: Input,
        now: u64,
        packets: &mut VecDeque<Packet>,
    ) -> Result<()> {
        let Some(engine) = &mut self.engine else {
            bail!("there is no engine");
        };
        if now > LAST_CLOCK {
            bail!("so late a clock");
        }
        let mut out = StepOut::new(self.alloc);
        match engine.poll(input, now, &Stop::None, &mut out) {
            Ok(polled) if polled.outcome == Outcome::Journal => bail!("the journal failed"),
            Ok(_) => self.perform(rt, &out, packets),
            Err(error) => bail!("refused: {error}"),
        }
    }

    // Performs what a step did, after it ended: its votes are synced by then, and a packet of a step that is not whole would not be.
    fn perform(
        &mut self,
        rt: &impl Print,
        out: &StepOut,
        packets: &mut VecDeque<Packet>,
    ) -> Result<()> {
        for call in out.calls.as_slice() {
            match call {
                // All others are one other here.
                Call::Send { channel, bytes, .. } => packets.push_back(Packet {
                    from: self.name,
                    channel: *channel,
                    bytes: bytes.keep(self.alloc)?,
                })?,
                Call::Report(activity) => self.report(rt, activity)?,
                // The step itself appended, synced and pruned. Payloads are known to both, so none has to be relayed.
                Call::Append(..) | Call::Sync(_) | Call::Prune(_) => (),
                Call::Relay { .. } | Call::Block(..) => (),
            }
        }
        for asked in out.asked.as_slice() {
            if let Some(answer) = answer(asked) {
                self.answers.push_back((self.asked, answer))?;
            }
            self.asked = self.asked.wrapping_add(1);
        }
        Ok(())
    }

    fn report(&self, rt: &impl Print, activity: &Activity) -> Result<()> {
        let name = self.name;
        match activity {
            Activity::Finalization(it) => {
                let view = it.proposal.round.view;
                println!(rt; "member {name}: view {view} is final")?;
            }
            Activity::Nullification(it) => {
                let view = it.round.view;
                println!(rt; "member {name}: view {view} is given up")?;
            }
            _ => (),
        }
        Ok(())
    }
}
