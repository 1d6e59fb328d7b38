//! A member: its engine, the clock, and what it asked last.
use crate::engine::packets::{Load, bytes_of};
use crate::engine::setup::{Member, Setup};
use crate::engine::words::{NOTHING, is_deadline, items, letter_of, letter_text, records_text};
use simplex_engine::{Input, Polled};
use simplex_journal::{Journal, MemoryJournal};
use simplex_messages::{Outcome, StepOut, Stop};
use simplex_names::{channel_of, source_of, source_word};
use simplex_transcript::StepSource;
use simplex_types::{Answer, Channel, Participant, ResolverBody, ResolverMessage};
use std::alloc::{AllocError, Global};
use test_support::reading::{member, number, payload};
use test_support::telling::Items;
use test_support::{Part, Told};

/// The sources that hold what came from inside.
const INSIDE: [StepSource; 4] = [
    StepSource::Batcher,
    StepSource::Voter,
    StepSource::Resolver,
    StepSource::Handler,
];

/// The clock that no engine comes to.
const NO_CLOCK: u64 = 1 << 63;

/// A member of a script.
#[derive(Drop)]
pub(super) struct Seat {
    alloc: Global,
    setup: Setup,
    /// None once it was let go.
    engine: Option<Member>,
    clock: u64,
    /// How many calls of the engine there were.
    number: u64,
    /// The number of its last request to a peer.
    asked: u64,
}

/// What came of a step behind the words for it, where there are some.
fn behind(alloc: Global, before: &str, items: &str) -> Result<String, AllocError> {
    if before.is_empty() {
        String::from_str(alloc, items)
    } else if items == NOTHING {
        String::from_str(alloc, before)
    } else {
        format!(in alloc; "{before}, {items}")
    }
}

impl Seat {
    /// The member of an engine with this setup, if there is one.
    pub(super) fn new(
        alloc: Global,
        setup: Setup,
        journal: MemoryJournal,
    ) -> Result<Option<Seat>, AllocError> {
        Ok(
            setup.engine(alloc, journal)?.map(|engine| Seat {
                alloc,
                setup,
                engine: Some(engine),
                clock: 0,
                number: 0,
                asked: 0,
            }),
        )
    }

    /// Notes the numbers of its requests.
    fn note(&mut self, out: &StepOut) {
        for call in out.calls.as_slice() {
            let Some(letter) = letter_of(call) else {
                continue;
            };
            if let Ok(
                ResolverMessage {
                    id,
                    body: ResolverBody::Request { .. },
                },
            ) = ResolverMessage::decode(self.alloc, letter.bytes.as_slice())
            {
                self.asked = id;
            }
        }
    }

    /// Tells what came of a call.
    fn tell(
        &mut self,
        before: &str,
        out: StepOut,
        outcome: Outcome,
        told: &mut Told,
    ) -> Result<(), AllocError> {
        self.note(&out);
        let mut letters = Vec::new(self.alloc);
        for call in out.calls.as_slice() {
            if let Some(letter) = letter_of(call) {
                letters.push(letter_text(self.alloc, &letter)?)?;
            }
        }
        let items = items(self.alloc, self.number, out, outcome)?;
        let line = behind(self.alloc, before, items.as_str())?;
        told.says(line.as_str())?;
        for letter in &letters {
            told.says(letter.as_str())?;
        }
        Ok(())
    }

    /// Gives the engine an input. Tells what came of it, unless there was nothing to take and `is_quiet`, and whether there was something.
    fn poll(
        &mut self,
        before: &str,
        input: Input,
        is_quiet: bool,
        told: &mut Told,
    ) -> Result<bool, AllocError> {
        let Some(engine) = &mut self.engine else {
            told.says("not allowed: it was let go")?;
            return Ok(false);
        };
        if self.clock >= NO_CLOCK {
            told.says("not allowed: the clock")?;
            return Ok(false);
        }
        let mut out = StepOut::new(self.alloc);
        self.number = self.number.wrapping_add(1);
        match engine.poll(input, self.clock, &Stop::None, &mut out) {
            Err(error) => {
                let why = format!(in self.alloc; "refused: {error}")?;
                told.says(why.as_str())?;
                Ok(false)
            }
            Ok(
                Polled {
                    outcome: Outcome::Idle,
                    ..
                },
            ) if is_quiet => Ok(false),
            Ok(polled) => {
                let before = if is_deadline(&polled) {
                    "a deadline passed"
                } else {
                    before
                };
                self.tell(before, out, polled.outcome, told)?;
                Ok(true)
            }
        }
    }

    fn start(&mut self, told: &mut Told) -> Result<(), AllocError> {
        let Some(engine) = &mut self.engine else {
            return told.says("not allowed: it was let go");
        };
        if self.clock >= NO_CLOCK {
            return told.says("not allowed: the clock");
        }
        let mut out = StepOut::new(self.alloc);
        self.number = self.number.wrapping_add(1);
        match engine.start(self.clock, &Stop::None, &mut out) {
            Ok(outcome) => self.tell("", out, outcome, told),
            Err(error) => {
                let why = format!(in self.alloc; "refused: {error}")?;
                told.says(why.as_str())
            }
        }
    }

    /// The journal of the engine, which is let go.
    fn journal(&mut self) -> Option<MemoryJournal> {
        let engine = self.engine.take()?;
        if engine.has_failed() {
            return None;
        }
        Some(engine.into_journal())
    }

    /// Another engine over the journal of this one.
    fn again(&mut self, told: &mut Told) -> Result<(), AllocError> {
        let Some(journal) = self.journal() else {
            return told.says("not allowed: it was let go");
        };
        self.engine = self.setup.engine(self.alloc, journal)?;
        Ok(())
    }

    /// Lets the engine go, and tells what its journal holds, and how many calls of it failed.
    fn records(&mut self, told: &mut Told) -> Result<(), AllocError> {
        let Some(mut journal) = self.journal() else {
            return told.says("not allowed: it was let go");
        };
        let faults = format!(in self.alloc; "faults {}", journal.faults())?;
        told.says(faults.as_str())?;
        match journal.replay(self.alloc) {
            Ok(records) => told.says(records_text(self.alloc, records.as_slice())?.text()),
            Err(_) => told.says("the journal cannot be read"),
        }
    }

    /// Steps on what came from inside until there is nothing.
    fn rest(&mut self, told: &mut Told) -> Result<(), AllocError> {
        for _ in 0..100 {
            let mut any = false;
            for source in INSIDE {
                let before = format!(in self.alloc; "step {}", source_word(source))?;
                let held = self.poll(before.as_str(), Input::Step(source), true, told)?;
                any = any || held;
            }
            if !any {
                return Ok(());
            }
        }
        told.says("there is always something")
    }

    /// Tells whom it blocked.
    fn blocked(&self, told: &mut Told) -> Result<(), AllocError> {
        let mut items = Items::new(self.alloc);
        if let Some(engine) = &self.engine {
            for member in 0..self.setup.members {
                if engine.is_blocked(Participant(member)) {
                    let member = format!(in self.alloc; "{member}")?;
                    items.push(member.as_str())?;
                }
            }
        }
        told.says(items.text())
    }

    fn view(&self, told: &mut Told) -> Result<(), AllocError> {
        match &self.engine {
            Some(engine) => {
                let text = format!(in self.alloc; "view {}", engine.current_view())?;
                told.says(text.as_str())
            }
            None => told.says("not allowed: it was let go"),
        }
    }
}

/// What a line tells that is an input of an engine.
enum Deed {
    Hear(Participant, Channel, Load),
    Step(StepSource),
    Answer(u64, Answer),
}

fn deed_of(words: &[&str]) -> Option<Deed> {
    match words {
        ["hear", who, channel, load @ ..] => Some(Deed::Hear(
            member(who)?,
            channel_of(channel)?,
            Load::read(load)?,
        )),
        ["step", source] => Some(Deed::Step(source_of(source)?)),
        ["payload", request, byte] => Some(Deed::Answer(
            number(request)?,
            Answer::Payload(payload(byte)?),
        )),
        ["verdict", request, "yes"] => {
            Some(Deed::Answer(number(request)?, Answer::Verdict(true)))
        }
        _ => None,
    }
}

impl Seat {
    /// What the engine is given.
    fn input(&self, deed: Deed) -> Result<Input, AllocError> {
        match deed {
            Deed::Hear(sender, channel, load) => Ok(Input::Deliver {
                sender,
                channel,
                bytes: bytes_of(self.alloc, self.setup.members, self.asked, load)?,
            }),
            Deed::Step(source) => Ok(Input::Step(source)),
            Deed::Answer(request, answer) => Ok(Input::Answer { request, answer }),
        }
    }

    fn does(&mut self, words: &[&str], told: &mut Told) -> Result<(), AllocError> {
        let Some(deed) = deed_of(words) else {
            return told.says("not a command");
        };
        let input = self.input(deed)?;
        self.poll("", input, false, told)?;
        Ok(())
    }

    fn goes_to(&mut self, ms: &str, told: &mut Told) -> Result<(), AllocError> {
        match number(ms) {
            Some(ms) => self.clock = ms,
            None => told.says("not a command")?,
        }
        Ok(())
    }
}

impl Part for Seat {
    fn take(&mut self, words: &[&str], told: &mut Told) -> Result<(), AllocError> {
        match words {
            ["start"] => self.start(told),
            ["again"] => self.again(told),
            ["at", ms] => self.goes_to(ms, told),
            ["rest"] => self.rest(told),
            ["blocked"] => self.blocked(told),
            ["view"] => self.view(told),
            ["records"] => self.records(told),
            words => self.does(words, told),
        }
    }
}
