//! The views that are asked for, and how they are found by deadline, by number and by what they ask for.
ghost use Rattle.std.specs.Prelude.{◌≡◌, ◌<◌, ◌≤◌, map, ◌^◌, ◌&&◌, ◌==◌, if◌then◌else◌, ℕ, [], IfOk, IfSome, IfNone, OnOk, OnErr, None, Some};
ghost use Rattle.std.specs.Option.{option_copied};
ghost use Rattle.std.specs.Ordering.{nat_cmp};
ghost use Rattle.std.specs.declared.ops.Bound.TheVariants.{Included};
ghost use Rattle.std.specs.BTreeMap.Range.{entries_between};
ghost use Rattle.std.specs.Map.{keys_of};
ghost use Rattle.std.specs.List.Sorted.{IsStrictlySortedBy};
ghost use Rattle.model_resolver.specs.declared.entry.Entry.{Entry};
ghost use Rattle.model_resolver.specs.Views.{entry_at, with_entry, without_entry, views_where, id_of, next_deadline, asked_view, judged_view};
ghost use Rattle.simplex_fetch.specs.Index.{IsFree, is_due};
ghost use Rattle.model_resolver.specs.Retirement.{reaches, touches};

use crate::holders::{self, Holders};
use crate::numbers::{self, Numbers};
use crate::timers::{self, Timers};
use model_resolver::{Entry, Retire};
use simplex_types::Participant;
use std::alloc::{AllocError, Global};
use std::collections::{BTreeMap, BTreeSet};
use std::marker::Model;

/// The views that are asked for, in rising order, each with its entry. An entry is changed by being taken
/// and put back, so that its deadline, its number and its asks stay where they are looked for.
#[derive(Drop)]
pub(crate) struct Views {
    entries: BTreeMap<u64, Entry>,
    timers: Timers,
    numbers: Numbers,
    holders: Holders,
}

impl Model for Views {
    ghost use Rattle.std.specs.Prelude.{List, ℕ};
    ghost use Rattle.model_resolver.specs.declared.entry.Entry.{Entry};

    ghost Value = { List (ℕ × Entry) };

    ghost view = { λ views. views.entries.entries };

    ghost use Rattle.simplex_fetch.specs.Index.{IsIndexed, IsHeld};

    ghost invariant = { λ views. IsIndexed views.entries.entries views.timers.keys views.numbers.entries
        × IsHeld views.entries.entries views.holders.nullifications.keys
        views.holders.notarizations.keys views.holders.floors.keys };
}

/// The keys from the first of these to the last.
fn keys_between(
    alloc: Global,
    entries: &BTreeMap<u64, Entry>,
    first: u64,
    last: u64,
) -> Result<Vec<u64>, AllocError>
    requires { first ≤ last }
    ensures { IfOk result (λ keys. keys.items
        ≡ map (λ e. e.0) (entries_between nat_cmp (Included first)
        (Included last) entries.now.entries)) }
{
    entries
        .range(first..=last)
        .map(|(view, _)| *view)
        .collect(alloc)
}

impl Views {
    /// No views.
    pub(crate) fn new(alloc: Global) -> Views
        ensures { result ≡ [] }
    {
        Views {
            entries: BTreeMap::new(alloc),
            timers: BTreeSet::new(alloc),
            numbers: BTreeMap::new(alloc),
            holders: Holders::new(alloc),
        }
    }

    /// The view's entry, if the view is asked for.
    #[tactic(auto, unfolding(model_resolver::specs::Views::entry_at))]
    pub(crate) fn get(&self, view: u64) -> Option<&Entry>
        ensures { option_copied result ≡ entry_at self.now view }
    {
        self.entries.get(&view)
    }

    /// Takes the view's entry out, if the view is asked for.
    #[tactic(auto, unfolding(model_resolver::specs::Views::entry_at, model_resolver::specs::Views::with_entry, model_resolver::specs::Views::without_entry))]
    pub(crate) fn take(&mut self, view: u64) -> Option<Entry>
        ensures entry { result ≡ entry_at self.old view }
        ensures without { self.new ≡ without_entry view self.old }
        ensures at { (q : ℕ) → entry_at self.new q ≡ (if view == q then None
            else entry_at self.old q) }
        ensures free { IfSome result (λ entry. IsFree (id_of entry.state) self.new) }
        ensures none { IfNone result (self.new ≡ self.old) }
        ensures rising { IsStrictlySortedBy nat_cmp (keys_of self.new) }
        // What is put there then is put there.
        ensures put { (entry : Entry)
            → with_entry view entry self.new ≡ with_entry view entry self.old }
        // Where it is put back, all is as before.
        ensures back { IfSome result (λ entry. with_entry view entry self.new ≡ self.old) }
    {
        let entry = self.entries.remove(&view)?;
        timers::clear_timer(&mut self.timers, entry.state.deadline(), view);
        numbers::close(&mut self.numbers, entry.state.id());
        self.holders.forget(view, &entry.arrivals.held());
        Some(entry)
    }

    /// Puts an entry at a view that has none.
    #[tactic(auto, unfolding(model_resolver::specs::Views::entry_at, model_resolver::specs::Views::with_entry))]
    pub(crate) fn put(&mut self, view: u64, entry: Entry) -> Result<(), AllocError>
        requires absent { entry_at self.old view ≡ None }
        requires free { IsFree (id_of entry.state) self.old }
        ensures ok { OnOk result (self.new ≡ with_entry view entry self.old) }
        ensures at { OnOk result ((q : ℕ)
            → entry_at self.new q ≡ (if view == q then Some entry else entry_at self.old q)) }
        ensures rising { IsStrictlySortedBy nat_cmp (keys_of self.new) }
        ensures err { OnErr result (self.new ≡ self.old) }
    {
        let deadline = entry.state.deadline();
        let id = entry.state.id();
        let held = entry.arrivals.held();
        timers::set_timer(&mut self.timers, deadline, view)?;
        if numbers::open(&mut self.numbers, id, view).is_err() {
            timers::clear_timer(&mut self.timers, deadline, view);
            return Err(AllocError);
        }
        if self.holders.note(view, &held).is_err() {
            timers::clear_timer(&mut self.timers, deadline, view);
            numbers::close(&mut self.numbers, id);
            return Err(AllocError);
        }
        if self.entries.insert(view, entry).is_err() {
            timers::clear_timer(&mut self.timers, deadline, view);
            numbers::close(&mut self.numbers, id);
            self.holders.forget(view, &held);
            return Err(AllocError);
        }
        Ok(())
    }

    /// The view that has this request open with this peer.
    pub(crate) fn asked_view(&self, id: u64, sender: &Participant) -> Option<u64>
        ensures { result ≡ asked_view id sender.now self.now }
    {
        let view = *self.numbers.get(&id)?;
        let entry = self.entries.get(&view)?;
        if entry.state.is_asked_as(id, sender) {
            Some(view)
        } else {
            None
        }
    }

    /// The view that is judged under this number.
    pub(crate) fn judged_view(&self, id: u64) -> Option<u64>
        ensures { result ≡ judged_view id self.now }
    {
        let view = *self.numbers.get(&id)?;
        let entry = self.entries.get(&view)?;
        if entry.state.is_judged_as(id) {
            Some(view)
        } else {
            None
        }
    }

    /// The least deadline.
    pub(crate) fn next_deadline(&self) -> Option<u64>
        ensures { result ≡ next_deadline self.now }
    {
        let (deadline, _) = *self.timers.first()?;
        Some(deadline)
    }

    /// The views whose deadline is reached.
    pub(crate) fn due(&self, alloc: Global, now: u64) -> Result<BTreeSet<u64>, AllocError>
        requires { now < 2 ^ 63 }
        ensures { IfOk result (λ views. views.keys
            ≡ views_where (λ view entry. is_due now entry) self.now) }
    {
        timers::reached(alloc, &self.timers, now)
    }

    /// The views with an ask that is done with.
    pub(crate) fn touched(&self, alloc: Global, retire: &Retire) -> Result<Vec<u64>, AllocError>
        ensures { IfOk result (λ views. views.items
            ≡ views_where (λ view entry. reaches retire.now view
            && touches retire.now entry.arrivals) self.now) }
    {
        let (first, last) = retire.reach();
        if last < first {
            return Ok(Vec::new(alloc));
        }
        let holders = &self.holders;
        match retire {
            Retire::Settled { kind, .. } => {
                holders::within(alloc, holders.of_kind(*kind), first, last)
            }
            Retire::Floor(_) => holders::within(alloc, &holders.floors, first, last),
            Retire::Finalized(_) => keys_between(alloc, &self.entries, first, last),
        }
    }
}
