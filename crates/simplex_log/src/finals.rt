//! The final views, and the log of the greatest of them whose walk is whole.
#![tactic(auto, unfolding(simplex_values::specs::Maps::found, crate::specs::Kept::top_in))]

ghost use Rattle.std.specs.Prelude.{◌≡◌, ◌==◌, ◌<◌, [], ℕ, not, max, List, None, OnOk, OnErr, IfOk, if◌then◌else◌};
ghost use Rattle.simplex_values.specs.Maps.{found};
ghost use Rattle.simplex_values.specs.declared.proposal.Proposal.{Proposal};
ghost use Rattle.model_log.specs.Ends.{end_in};
ghost use Rattle.simplex_log.specs.Kept.{top_in, log_to};
ghost use Rattle.simplex_log.specs.Stands.{LinksOf, FinalsOf, Raised, Untouched};

use crate::links::{Branch, Links};
use model_log::LogEntry;
use simplex_values::maps::{empty_map, put};
use std::alloc::{AllocError, Global};
use std::collections::BTreeMap;

/// What is final, as far as the links go.
#[derive(Debug, Drop)]
pub(crate) struct Finals {
    /// For each view but 0 at which walks of final views end: the greatest of these.
    tops: BTreeMap<u64, u64>,
    /// The greatest final view whose walk is whole, or 0.
    pub tip: u64,
    /// Its walk, from its lowest view up.
    pub entries: Vec<LogEntry>,
}

/// The greatest final view that is kept as ending there, or 0.
fn top_in(tops: &BTreeMap<u64, u64>, end: u64) -> u64
    ensures { result ≡ top_in tops.now end }
{
    tops.get(&end).copied().unwrap_or(0)
}

/// Keeps a final view whose walk ends there, where it is the greatest.
fn keep_top(tops: &mut BTreeMap<u64, u64>, end: u64, top: u64) -> Result<(), AllocError>
    ensures ok { OnOk result ((q : ℕ)
        → top_in tops.new q ≡ max (top_in tops.old q) (if end == q then top else 0)) }
    ensures err { OnErr result ((q : ℕ) → top_in tops.new q ≡ top_in tops.old q) }
{
    if top <= top_in(tops, end) {
        return Ok(());
    }
    put(tops, end, top)
}

/// No final view ends there any more.
fn drop_top(tops: &mut BTreeMap<u64, u64>, end: u64)
    ensures { (q : ℕ) → top_in tops.new q ≡ (if end == q then 0 else top_in tops.old q) }
{
    tops.remove(&end);
}

impl Finals {
    /// No final views.
    pub(crate) fn new(alloc: Global) -> Finals
        ensures { FinalsOf result [] [] }
    {
        Finals {
            tops: empty_map(alloc),
            tip: 0,
            entries: Vec::new(alloc),
        }
    }

    /// The greatest final view whose walk ends there, or 0.
    pub(crate) fn top(&self, end: u64) -> u64
        ensures { result ≡ top_in self.now.tops end }
    {
        top_in(&self.tops, end)
    }

    /// The log of a final view above the tip, whose walk is whole.
    fn extend(&mut self, alloc: Global, links: &Links, top: u64) -> Result<(), AllocError>
        ensures tops { self.new.tops ≡ self.old.tops }
        ensures tip { OnOk result (self.new.tip ≡ top) }
        ensures entries { OnOk result ((held : List Proposal) → LinksOf links.now held → end_in held top ≡ 0
            → self.old.entries.items ≡ log_to held self.old.tip
            → self.new.entries.items ≡ log_to held top) }
        ensures err { OnErr result (Untouched self.old self.new) }
    {
        let Branch { mut entries, foot } = links.branch(alloc, top, self.tip)?;
        entries.reverse();
        if foot == self.tip {
            self.entries.append(&mut entries)?;
        } else {
            self.entries = entries;
        }
        self.tip = top;
        Ok(())
    }

    /// Takes a final view, or 0, whose walk ends there. Whether the tip is another then.
    pub(crate) fn raise(
        &mut self,
        alloc: Global,
        links: &Links,
        end: u64,
        top: u64,
    ) -> Result<bool, AllocError>
        ensures ok { OnOk result ((held : List Proposal) → LinksOf links.now held → (end ≡ 0 → end_in held top ≡ 0)
            → Raised held self.old self.new end top) }
        ensures moved { IfOk result (λ moved. moved ≡ not (self.new.tip == self.old.tip)) }
        ensures err { OnErr result (Untouched self.old self.new) }
    {
        if end != 0 {
            keep_top(&mut self.tops, end, top)?;
            return Ok(false);
        }
        if top <= self.tip {
            return Ok(false);
        }
        self.extend(alloc, links, top)?;
        Ok(true)
    }

    /// No final view ends there any more.
    pub(crate) fn leave(&mut self, end: u64)
        ensures tops { (q : ℕ)
            → top_in self.new.tops q ≡ (if end == q then 0 else top_in self.old.tops q) }
        ensures tip { self.new.tip ≡ self.old.tip }
        ensures entries { self.new.entries.items ≡ self.old.entries.items }
    {
        drop_top(&mut self.tops, end);
    }
}
