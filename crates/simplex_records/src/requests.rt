//! The requests of a node since its last start.
#![tactic(auto, unfolding(crate::specs::Requests::number_in))]

ghost use Rattle.std.specs.Prelude.{◌≡◌, ◌==◌, ◌&&◌, ◌+◌, ◌++◌, ◌∷◌, nat_lt, ℕ, List, [], true, length, OnOk, Some, None, if◌then◌else◌};
ghost use Rattle.std.specs.List.{slice_get};
ghost use Rattle.std.specs.Ordering.{nat_cmp};
ghost use Rattle.std.specs.BTreeMap as tree;
ghost use Rattle.simplex_transcript.specs.declared.node.Ref.{Ref};
ghost use Rattle.simplex_transcript.specs.declared.node.Node.{Node};
ghost use Rattle.model_run.specs.Life.{Noted, is_of};
ghost use Rattle.model_run.specs.Requests.{is_start};
ghost use Rattle.simplex_records.specs.Requests.{number_in, number_from, places_of, RequestsStand, RequestsRest};

use simplex_transcript::Ref;
use std::alloc::{AllocError, Global};
use std::collections::BTreeMap;

/// The numbers of the requests that one event asked: from the first, up to the end.
#[derive(Clone, Copy)]
pub(crate) struct Span {
    pub(crate) first: u64,
    pub(crate) end: u64,
}

/// Where each request stands, by its number, and which numbers each event gave.
#[derive(Drop)]
pub struct Requests {
    pub(crate) places: Vec<Ref>,
    pub(crate) spans: BTreeMap<u64, Span>,
}

impl Requests {
    /// None.
    pub fn new(alloc: Global) -> Requests
        ensures places { result.places.items ≡ [] }
        ensures numbers { (at : Ref) → number_in result at ≡ None }
    {
        Requests {
            places: Vec::new(alloc),
            spans: BTreeMap::new(alloc),
        }
    }

    /// The number of the request at this place.
    pub fn number(&self, at: Ref) -> Option<u64>
        ensures { result ≡ number_in self.now at }
    {
        let span = self.spans.get(&at.event).copied()?;
        if at.place < span.end.saturating_sub(span.first) {
            Some(span.first + at.place)
        } else {
            None
        }
    }

    /// The place of the request of this number.
    pub fn place(&self, number: u64) -> Option<Ref>
        ensures { result ≡ slice_get self.now.places.items number }
    {
        self.places.get(number as usize).copied()
    }

    /// An event of the node asked so many requests, and is its start or not.
    pub fn enter(
        &mut self,
        alloc: Global,
        starts: bool,
        event: u64,
        count: u64,
    ) -> Result<(), AllocError>
        ensures { OnOk result ((before : List Noted) (noted : Noted) (node : Node) → is_of node noted.event ≡ true
            → is_start noted.event ≡ starts → event ≡ length before + 1
            → count ≡ length noted.entry.asked
            → RequestsStand self.old before node → RequestsStand self.new (noted ∷ before) node) }
    {
        self.restart(alloc, starts);
        self.add(event, count)?;
        Ok(())
    }

    // A start forgets the requests before it.
    fn restart(&mut self, alloc: Global, starts: bool)
        ensures { (before : List Noted) (node : Node) → RequestsStand self.old before node
            → RequestsRest self.new starts before node }
    {
        if starts {
            *self = Requests::new(alloc);
        }
    }

    // An event asked so many requests.
    fn add(&mut self, event: u64, count: u64) -> Result<(), AllocError>
        ensures places { OnOk result (self.new.places.items
            ≡ self.old.places.items ++ places_of event count) }
        ensures numbers { OnOk result ((at : Ref) → number_in self.new at ≡ (if nat_lt 0 count && event == at.event
            then number_from (length self.old.places.items) count at.place
            else number_in self.old at)) }
    {
        if count == 0 {
            return Ok(());
        }
        let first = self.places.len() as u64;
        push_places(&mut self.places, event, count)?;
        let end = self.places.len() as u64;
        put_span(&mut self.spans, event, Span { first, end })?;
        Ok(())
    }
}

// The places of the requests that an event asked.
fn push_places(places: &mut Vec<Ref>, event: u64, count: u64) -> Result<(), AllocError>
    ensures { OnOk result (places.new.items ≡ places.old.items ++ places_of event count) }
{
    for place in 0..count {
        places.push(Ref { event, place })?;
    }
    Ok(())
}

// The event gave these numbers.
fn put_span(spans: &mut BTreeMap<u64, Span>, event: u64, span: Span) -> Result<(), AllocError>
    ensures { OnOk result ((q : ℕ) → tree.get nat_cmp spans.new q
        ≡ (if event == q then Some span else tree.get nat_cmp spans.old q)) }
{
    spans.insert(event, span)?;
    Ok(())
}
