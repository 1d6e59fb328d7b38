//! What certificates are about, of which no two conflict, by views.
#![tactic(auto, unfolding(simplex_values::specs::Maps::found, simplex_values::specs::Maps::has))]

ghost use Rattle.std.specs.Prelude.{◌≡◌, ◌==◌, ◌||◌, ◌∷◌, [], ℕ, Bool, List, Some, false, IfOk, OnOk, if◌then◌else◌};
ghost use Rattle.std.specs.List.{list_any};
ghost use Rattle.simplex_values.specs.declared.proposal.Subject.{Subject};
ghost use Rattle.simplex_values.specs.Maps.{found};
ghost use Rattle.model_audit.specs.Conflicts.{conflicts};
ghost use Rattle.simplex_conflicts.specs.Stairs.{StairsStand, is_between};
ghost use Rattle.simplex_conflicts.specs.Indexes.{Indexes, is_named_rival, is_final_between, is_final_in_term, is_given_up_by, is_named_across};

use crate::stairs::Stairs;
use simplex_values::maps::{add, empty_map, empty_set, first_from, last_up_to, put};
use simplex_values::{Proposal, Subject, TermLength, View};
use std::alloc::{AllocError, Global};
use std::collections::{BTreeMap, BTreeSet};

/// What is looked up of subjects that do not conflict.
#[derive(Drop)]
pub(crate) struct Index {
    /// How many views a term has.
    pub(crate) length: TermLength,
    /// Of each view the proposal that a notarization or a finalization names: there is at most one.
    named: BTreeMap<u64, Proposal>,
    /// The views of finalizations.
    finals: BTreeSet<u64>,
    /// The views of nullifications.
    nullified: BTreeSet<u64>,
    /// The views between those of a named proposal and its parent.
    stairs: Stairs,
}

impl Index {
    /// Of no subjects.
    pub(crate) fn new(alloc: Global, length: TermLength) -> Index
        ensures length { result.length ≡ length }
        ensures stands { Indexes result [] }
    {
        Index {
            length,
            named: empty_map(alloc),
            finals: empty_set(alloc),
            nullified: empty_set(alloc),
            stairs: Stairs::new(alloc),
        }
    }

    /// Takes one more subject, unless it conflicts with one of those that are known. Whether it does.
    pub(crate) fn take(&mut self, subject: &Subject) -> Result<bool, AllocError>
        ensures length { self.new.length ≡ self.old.length }
        ensures answer { IfOk result (λ conflict. (known : List Subject) → Indexes self.old known
            → conflict ≡ list_any (conflicts self.old.length subject.now) known) }
        ensures stands { IfOk result (λ conflict. conflict ≡ false → (known : List Subject) → Indexes self.old known
            → Indexes self.new (subject.now ∷ known)) }
    {
        if self.conflicts(subject) {
            return Ok(true);
        }
        self.add(subject)?;
        Ok(false)
    }

    // Whether the subject conflicts with one of those that are known.
    fn conflicts(&self, subject: &Subject) -> bool
        ensures { (known : List Subject) → Indexes self.now known
            → result ≡ list_any (conflicts self.now.length subject.now) known }
    {
        match subject {
            Subject::Notarize(p) => self.has_rival(p) || self.has_final_between(p),
            Subject::Nullify(round) => self.has_final_in_term(round.view),
            Subject::Finalize(p) => self.is_challenged(p) || self.is_ruled_out(p),
        }
    }

    // Takes one more subject, which does not conflict with those that are known.
    fn add(&mut self, subject: &Subject) -> Result<(), AllocError>
        ensures length { self.new.length ≡ self.old.length }
        ensures stands { OnOk result ((known : List Subject) → Indexes self.old known
            → list_any (conflicts self.old.length subject.now) known ≡ false
            → Indexes self.new (subject.now ∷ known)) }
    {
        match subject {
            Subject::Notarize(p) => self.name(p),
            Subject::Nullify(round) => add(&mut self.nullified, round.view.0),
            Subject::Finalize(p) => {
                self.name(p)?;
                add(&mut self.finals, p.view().0)
            }
        }
    }

    // The proposal is the one of its view.
    fn name(&mut self, p: &Proposal) -> Result<(), AllocError>
        ensures length { self.new.length ≡ self.old.length }
        ensures finals { self.new.finals ≡ self.old.finals }
        ensures nullified { self.new.nullified ≡ self.old.nullified }
        ensures named { OnOk result ((q : ℕ) → found self.new.named q
            ≡ (if p.now.round.view == q then Some p.now else found self.old.named q)) }
        ensures stairs { OnOk result ((spanned : ℕ → Bool) → StairsStand self.old.stairs spanned
            → StairsStand self.new.stairs
            (λ view. is_between p.now.parent p.now.round.view view || spanned view)) }
    {
        put(&mut self.named, p.view().0, *p)?;
        self.stairs.add(p.parent.0, p.view().0)
    }

    // Whether another proposal is named for its view, or one of a later view stands on an earlier one.
    fn is_challenged(&self, p: &Proposal) -> bool
        ensures { (known : List Subject) → Indexes self.now known
            → result ≡ (list_any (is_named_rival p.now) known
            || list_any (is_named_across p.now.round.view) known) }
    {
        self.has_rival(p) || self.is_passed(p.view())
    }

    // Whether a view strictly between its own and its parent's is final, or its own is given up.
    fn is_ruled_out(&self, p: &Proposal) -> bool
        ensures { (known : List Subject) → Indexes self.now known
            → result ≡ (list_any (is_final_between p.now) known
            || list_any (is_given_up_by self.now.length p.now.round.view) known) }
    {
        self.has_final_between(p) || self.is_given_up(p.view())
    }

    // Whether a proposal of a later view stands on an earlier one.
    fn is_passed(&self, view: View) -> bool
        ensures { (known : List Subject) → Indexes self.now known
            → result ≡ list_any (is_named_across view) known }
    {
        self.stairs.spans(view.0)
    }

    // Whether another proposal is named for its view.
    fn has_rival(&self, p: &Proposal) -> bool
        ensures { (known : List Subject) → Indexes self.now known
            → result ≡ list_any (is_named_rival p.now) known }
    {
        match self.named.get(&p.view().0) {
            None => false,
            Some(other) => !p.is_same(other),
        }
    }

    // Whether a view strictly between its own and its parent's is final.
    fn has_final_between(&self, p: &Proposal) -> bool
        ensures { (known : List Subject) → Indexes self.now known
            → result ≡ list_any (is_final_between p.now) known }
    {
        let Some(before) = p.view().previous() else {
            return false;
        };
        match last_up_to(&self.finals, before.0) {
            None => false,
            Some(last) => last > p.parent.0,
        }
    }

    // Whether a view of the term, from this one on, is final.
    fn has_final_in_term(&self, view: View) -> bool
        ensures { (known : List Subject) → Indexes self.now known
            → result ≡ list_any (is_final_in_term self.now.length view) known }
    {
        match first_from(&self.finals, view.0) {
            None => false,
            Some(first) => view.covers(View(first), self.length),
        }
    }

    // Whether a view of the term, up to this one, is nullified.
    fn is_given_up(&self, view: View) -> bool
        ensures { (known : List Subject) → Indexes self.now known
            → result ≡ list_any (is_given_up_by self.now.length view) known }
    {
        match last_up_to(&self.nullified, view.0) {
            None => false,
            Some(last) => View(last).covers(view, self.length),
        }
    }
}
