//! What a member holds for others.
#![tactic(auto, unfolding(crate::specs::Stands::StandsFor))]

ghost use Rattle.std.specs.Prelude.{◌≡◌, ℕ, ◌&&◌, false, [], IfOk, Some, None};
ghost use Rattle.std.specs.Option.{option_map};
ghost use Rattle.simplex_wire.specs.Message as messages;
ghost use Rattle.simplex_wire.specs.declared.certificate.Certificate.TheVariants as certificates;
ghost use Rattle.model_rules.specs.Repair.{is_final, is_nullified, is_settled, is_key_settled, is_uncertifiable, is_failed, final_view, produced};
ghost use Rattle.simplex_values.specs.Maps.{found};
ghost use Rattle.simplex_repair.specs.Stands.{StandsFor, Answers, WhenStands};

use crate::covers::{copy_covering, is_covered};
use crate::taken::Taken;
use simplex_values::maps::{contains, copy_at, empty_map, empty_set};
use simplex_values::{Keep, Kind, TermLength, View};
use simplex_wire::{Certificate, Finalization, Notarization, Nullification};
use std::alloc::{AllocError, Global};
use std::collections::{BTreeMap, BTreeSet};

/// What a member holds for others, and which nullifications it lacks.
///
/// After an answer other than Ok a repair state may only be dropped. [fields-within-the-crate]
#[derive(Drop)]
pub struct RepairState {
    pub(crate) alloc: Global,
    pub(crate) length: TermLength,
    pub(crate) is_replayed: bool,
    /// The greatest finalization.
    pub(crate) finalization: Option<Finalization>,
    /// The greatest view that is final or has a true verdict.
    pub(crate) floor: View,
    /// The view up to which certificates are known to lead.
    pub(crate) top: View,
    /// The views whose notarization was taken, as ranges.
    pub(crate) notarized: Taken,
    /// The views whose nullification was taken, as ranges.
    pub(crate) nullified: Taken,
    /// The views with a false verdict.
    pub(crate) failed: BTreeSet<u64>,
    /// The views with a true verdict, from the last final one on.
    pub(crate) good: BTreeSet<u64>,
    /// The notarizations by view, from the last final one on.
    pub(crate) notarizations: BTreeMap<u64, Notarization>,
    /// Of each term the nullification of the least view, from the last final view's term on.
    pub(crate) nullifications: BTreeMap<u64, Nullification>,
}

impl RepairState {
    /// Nothing is held yet.
    #[tactic(auto, unfolding(crate::specs::Opened::held, crate::specs::Maps::reaching))]
    pub fn new(alloc: Global, length: TermLength) -> RepairState
        ensures { StandsFor result length [] }
    {
        RepairState {
            alloc,
            length,
            is_replayed: false,
            finalization: None,
            floor: View(0),
            top: View(0),
            notarized: Taken::new(alloc),
            nullified: Taken::new(alloc),
            failed: empty_set(alloc),
            good: empty_set(alloc),
            notarizations: empty_map(alloc),
            nullifications: empty_map(alloc),
        }
    }

    /// How many views a term has.
    pub fn term_length(&self) -> TermLength
        ensures { Answers self.now (λ length calls. length) result }
    {
        self.length
    }

    /// Whether an ask of this kind for the view has its answer.
    #[tactic(auto, unfolding(crate::specs::Stands::StandsFor, model_rules::specs::Repair::is_settled))]
    pub fn settled(&self, view: View, kind: Kind) -> bool
        ensures { Answers self.now (λ length calls. is_settled length calls view kind) result }
    {
        if self.is_final(view) {
            return true;
        }
        match kind {
            Kind::Nullification => self.is_nullified(view),
            Kind::Notarization => self.notarized.contains(view.0) || self.is_failed(view),
        }
    }

    /// Whether an ask of either kind for the view has its answer.
    #[tactic(auto, unfolding(model_rules::specs::Repair::is_key_settled))]
    pub fn key_settled(&self, view: View) -> bool
        ensures { Answers self.now (λ length calls. is_key_settled length calls view) result }
    {
        self.settled(view, Kind::Nullification) && self.settled(view, Kind::Notarization)
    }

    /// Whether the view failed, and no later view is final.
    #[tactic(auto, unfolding(model_rules::specs::Repair::is_uncertifiable))]
    pub fn uncertifiable(&self, view: View) -> bool
        ensures { Answers self.now (λ length calls. is_uncertifiable calls view) result }
    {
        self.is_failed(view) && self.final_view() < view
    }

    /// The bytes of the certificate for one who asks for the view: the finalization at or above it, its own
    /// notarization with a true verdict, a nullification that covers it, or the floor's notarization.
    pub fn produce(&self, view: View) -> Result<Option<Vec<u8>>, AllocError>
        ensures { IfOk result (λ bytes. Answers self.now (λ length calls. option_map messages.certificate.spelling
            (produced length calls view)) (option_map (λ it. it.items) bytes)) }
    {
        match self.certificate_for(view)? {
            None => Ok(None),
            Some(certificate) => Ok(Some(certificate.encode(self.alloc)?)),
        }
    }

    /// The certificate for one who asks for the view. [smallest-nullification]
    #[tactic(auto, unfolding(crate::specs::Stands::StandsFor, model_rules::specs::Repair::produced), using(crate::proofs::Held::above_open))]
    fn certificate_for(&self, view: View) -> Result<Option<Certificate>, AllocError>
        ensures { IfOk result (λ it. Answers self.now
            (λ length calls. produced length calls view) it) }
    {
        if self.is_final(view) {
            return self.final_certificate();
        }
        if contains(&self.good, view.0) {
            return self.notarization_of(view);
        }
        if let Some(it) = copy_covering(self.alloc, &self.nullifications, self.length, view)? {
            return Ok(Some(Certificate::Nullification(it)));
        }
        if view <= self.floor && contains(&self.good, self.floor.0) {
            return self.notarization_of(self.floor);
        }
        Ok(None)
    }

    /// The greatest finalization, as a certificate.
    fn final_certificate(&self) -> Result<Option<Certificate>, AllocError>
        ensures { IfOk result (λ it. it
            ≡ option_map certificates.Finalization self.now.finalization) }
    {
        match &self.finalization {
            None => Ok(None),
            Some(it) => Ok(Some(Certificate::Finalization(it.keep(self.alloc)?))),
        }
    }

    /// The notarization of the view, as a certificate.
    fn notarization_of(&self, view: View) -> Result<Option<Certificate>, AllocError>
        ensures { IfOk result (λ it. it
            ≡ option_map certificates.Notarization (found self.now.notarizations view)) }
    {
        match copy_at(self.alloc, &self.notarizations, view.0)? {
            None => Ok(None),
            Some(it) => Ok(Some(Certificate::Notarization(it))),
        }
    }

    /// The view of the greatest finalization, or 0.
    #[tactic(auto, unfolding(crate::specs::Stands::StandsFor, model_rules::specs::Repair::final_view))]
    fn final_view(&self) -> View
        ensures { Answers self.now (λ length calls. final_view calls) result }
    {
        match &self.finalization {
            None => View(0),
            Some(it) => it.view(),
        }
    }

    /// Whether a finalization at or above the view is held.
    #[tactic(auto, unfolding(crate::specs::Stands::StandsFor, model_rules::specs::Repair::is_final))]
    pub(crate) fn is_final(&self, view: View) -> bool
        ensures { Answers self.now (λ length calls. is_final calls view) result }
    {
        match &self.finalization {
            None => false,
            Some(it) => view <= it.view(),
        }
    }

    /// Whether the view has a false verdict.
    pub(crate) fn is_failed(&self, view: View) -> bool
        ensures { Answers self.now (λ length calls. is_failed calls view) result }
    {
        contains(&self.failed, view.0)
    }

    /// Whether a nullification that covers the view is held. What is final need not be known.
    #[tactic(auto, unfolding(crate::specs::Stands::StandsFor), using(crate::proofs::Held::nullified_is))]
    pub(crate) fn is_nullified(&self, view: View) -> bool
        ensures { WhenStands self.now (λ length calls. is_final calls view ≡ false
            → result ≡ is_nullified length calls view) }
    {
        is_covered(&self.nullifications, self.length, view)
    }
}
