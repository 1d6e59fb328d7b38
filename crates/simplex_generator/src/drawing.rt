//! What the events of a list are drawn from, and which is drawn.
#![tactic(auto, unfolding(crate::specs::Drawing::next_event, crate::specs::Drawing::drawn, crate::specs::Drawing::deliveries))]

ghost use Rattle.std.specs.Prelude.{◌≡◌, ◌<◌, ◌%◌, ◌/◌, ◌+◌, ◌-◌, ℕ, [], IfOk, OnOk, List};
ghost use Rattle.std.specs.List.{slice_get};
ghost use Rattle.std.specs.Option.{option_map};
ghost use Rattle.model_faults.specs.Words.{words_of, list_seed};
ghost use Rattle.model_run.specs.Life.{Noted};
ghost use Rattle.simplex_transcript.specs.declared.node.Node as nodes;
ghost use Rattle.simplex_generator.specs.declared.source.Held as helds;
ghost use Rattle.simplex_generator.specs.Setup.{engine_nodes};
ghost use Rattle.simplex_generator.specs.Drawing as drawing;
ghost use Rattle.simplex_generator.specs.Draws.{DrawsBehind, Chooses, Chose, TookIn, chosen, Gives, GoesOn};

use crate::choice::Choice;
use crate::nodes::ENGINE_NODES;
use crate::source::Held;
use crate::unanswered::{Requests, Unanswered};
use crate::undelivered::Undelivered;
use crate::words::{draw, random_of};
use model_rules::Asked;
use rand_chacha::ChaCha8Rng;
use sha2::{Digest as Hash, Sha256};
use simplex_messages::Stop;
use simplex_transcript::{Entry, Event, Node};
use simplex_types::{Answer, Digest, Handoff};
use std::alloc::{AllocError, Global};

/// How long time passes where nothing else is drawn, in milliseconds.
const PAUSE: u64 = 50;

/// How many events it takes from one crash to the next.
const BETWEEN_CRASHES: u64 = 600;

/// What the events of a list are drawn from. It is kept up to date by the entry of each event alone.
#[derive(Drop)]
pub struct Drawing {
    undelivered: Undelivered,
    requests: Requests,
    random: ChaCha8Rng,
    clock: u64,
    /// The number of the next event, from 1.
    next: u64,
}

impl Drawing {
    /// The number's drawing, before any event.
    pub fn new(alloc: Global, number: u64) -> Drawing
        ensures { DrawsBehind result number [] 0 }
    {
        Drawing {
            undelivered: Undelivered::new(alloc),
            requests: Requests::new(alloc),
            random: random_of(number),
            clock: 0,
            next: 1,
        }
    }

    /// How long all ticks took, in milliseconds.
    pub fn clock(&self) -> u64
        ensures { result ≡ self.now.clock }
    {
        self.clock
    }

    /// Chooses what comes next. First all engines start; every 600 events an honest member crashes, and starts again.
    #[tactic(auto, using(crate::proofs::Choosing::chose_drawn), unfolding(crate::specs::Drawing::next_event))]
    pub fn choose(&mut self) -> Choice
        ensures choice { Chooses self.old result }
        ensures later { Chose self.old self.new }
    {
        let event = self.next;
        let crashes = event / BETWEEN_CRASHES;
        if let Some(node) = first_started(event) {
            Choice::Event(started(node))
        } else if event % BETWEEN_CRASHES == 0 {
            Choice::Event(Event::Crash {
                node: in_turn(crashes),
            })
        } else if event % BETWEEN_CRASHES == 1 {
            Choice::Event(started(in_turn(crashes)))
        } else {
            self.drawn()
        }
    }

    // Of eight parts three deliver, three step, one answers, and in the last time passes.
    fn drawn(&mut self) -> Choice
        ensures choice { (running : List nodes.Node) (held : List helds.Held)
            (number : ℕ) (before : List Noted) (at : ℕ) → DrawsBehind self.old number before at
            → chosen running held before result
            ≡ (drawing.drawn running held before (words_of (list_seed number)) at).event }
        ensures later { (running : List nodes.Node) (held : List helds.Held)
            → GoesOn self.old self.new (drawing.drawn running held) }
    {
        let word = draw(&mut self.random);
        let place = word / 8;
        match word % 8 {
            0..=2 => Choice::Delivery(place),
            3..=5 => Choice::Step(place),
            6 => Choice::Event(self.answer(place)),
            _ => Choice::Event(Event::Tick { ms: PAUSE }),
        }
    }

    fn answer(&mut self, place: u64) -> Event
        ensures event { Gives self.old
            (λ before words at. drawing.answer_at before place (words at)) result }
        ensures later { GoesOn self.old self.new
            (λ before words at. drawing.answer_at before place (words at)) }
    {
        match item_at(self.requests.open(), place) {
            Some(it) => {
                let it = *it;
                self.reply(&it)
            }
            None => Event::Tick { ms: PAUSE },
        }
    }

    // Yes; or the digest of the next word, staged where a payload of the next term is asked for.
    fn reply(&mut self, it: &Unanswered) -> Event
        ensures event { Gives self.old
            (λ before words at. drawing.reply it.now (words at) it.now.asked) result }
        ensures later { GoesOn self.old self.new
            (λ before words at. drawing.reply it.now (words at) it.now.asked) }
    {
        let answer = match it.asked {
            Asked::Prepare(_) => {
                Answer::Handoff(Handoff::Stage(digest_of(draw(&mut self.random))))
            }
            Asked::Propose(_) => Answer::Payload(digest_of(draw(&mut self.random))),
            Asked::Verify(..) => Answer::Verdict(true),
            Asked::Certify(..) => Answer::Verdict(true),
        };
        Event::Answer {
            node: it.node,
            request: it.request,
            answer,
        }
    }

    /// The delivery at the place, where these nodes run.
    pub fn delivery_at(
        &self,
        alloc: Global,
        running: &[Node],
        place: u64,
    ) -> Result<Event, AllocError>
        ensures { IfOk result (λ event. (number : ℕ) (before : List Noted) (at : ℕ)
            → DrawsBehind self.now number before at
            → event ≡ drawing.delivery_at running.now before place) }
    {
        let first = self.undelivered.first_for(alloc, running)?;
        match item_at(&first, place) {
            Some(parcel) => Ok(Event::Deliver {
                node: parcel.node,
                packet: parcel.packet,
            }),
            None => Ok(Event::Tick { ms: PAUSE }),
        }
    }

    /// Takes in an event and its entry.
    pub fn take_in(&mut self, event: &Event, entry: &Entry) -> Result<(), AllocError>
        ensures { OnOk result (TookIn self.old self.new event.now entry.now) }
    {
        self.clock = clock_behind(event, self.clock)?;
        self.next = following(self.next)?;
        self.undelivered.take_in(event, entry)?;
        self.requests.take_in(event, entry)?;
        Ok(())
    }
}

// The clock behind an event. No memory has room for so many ticks that it would end.
fn clock_behind(event: &Event, clock: u64) -> Result<u64, AllocError>
    ensures { IfOk result (λ behind. behind ≡ drawing.clock_behind event.now clock) }
{
    match event {
        Event::Tick { ms } => clock.checked_add(*ms).ok_or(AllocError),
        _ => Ok(clock),
    }
}

// The next number. No memory has room for so many events that there would be none.
fn following(number: u64) -> Result<u64, AllocError>
    ensures { IfOk result (λ next. next ≡ number + 1) }
{
    match number.checked_add(1) {
        Some(next) => Ok(next),
        None => Err(AllocError),
    }
}

/// The step at the place of what holds something.
pub fn step_at(held: &[Held], place: u64) -> Event
    ensures { result ≡ drawing.step_at held.now place }
{
    match item_at(held, place) {
        Some(held) => Event::Step {
            node: held.node,
            source: held.source,
            stop: Stop::None,
        },
        None => Event::Tick { ms: PAUSE },
    }
}

// The node that starts at first at the event of this number, if one does.
fn first_started(event: u64) -> Option<Node>
    ensures { 0 < event → result ≡ slice_get engine_nodes (event - 1) }
{
    let place = event.checked_sub(1)?;
    ENGINE_NODES.get(place as usize).copied()
}

fn started(node: Node) -> Event
    ensures { result ≡ drawing.started node }
{
    Event::Start {
        node,
        floor: None,
        stop: Stop::None,
    }
}

// The item at the place, modulo how many there are.
fn item_at<T>(items: &[T], place: u64) -> Option<&T>
    ensures { option_map (λ item. item.now) result ≡ drawing.item_at items.now place }
{
    if items.is_empty() {
        return None;
    }
    items.get((place % items.len() as u64) as usize)
}

// One of the honest members in turn.
fn in_turn(count: u64) -> Node
    ensures { result ≡ drawing.in_turn count }
{
    Node {
        member: count % 5,
        half: 0,
    }
}

// The digest of a word.
fn digest_of(word: u64) -> Digest
    ensures { result ≡ drawing.drawn_digest word }
{
    let mut hasher = Sha256::new();
    hasher.update(word.to_be_bytes());
    Digest(hasher.finalize())
}
