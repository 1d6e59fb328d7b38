//! The certificates that were recorded.
#![tactic(auto, unfolding(simplex_values::specs::Maps::found, crate::specs::Kept::kept_at))]

ghost use Rattle.std.specs.Prelude.{◌≡◌, ◌∷◌, [], ℕ, List, OnOk, Option, None, true, MatchOption};
ghost use Rattle.std.specs.Option.{option_copied, is_some};
ghost use Rattle.simplex_values.specs.Maps.{found};
ghost use Rattle.simplex_types.specs.Evidence.{was_verified, activity_round};
ghost use Rattle.simplex_types.specs.declared.activity.Activity.{Activity};
ghost use Rattle.simplex_recording.specs.Kept.{kept_at, nothing};
ghost use Rattle.simplex_recording.specs.Recording.{has_certificate, notarization_at, certification_at, nullification_at, finalization_at, FinalizedBy};
ghost use Rattle.simplex_recording.specs.Stands.{AtViewOf, CertificatesOf, CertificatesAnswer};

use crate::at_view::AtView;
use simplex_types::{Activity, Finalization, Notarization, Nullification, View};
use simplex_values::maps::{empty_map, put};
use std::alloc::{AllocError, Global};
use std::collections::BTreeMap;

/// Certificates by view. A view may stand here without any.
#[derive(Debug, Drop)]
pub(crate) struct Certificates {
    views: BTreeMap<u64, AtView>,
}

impl Certificates {
    /// No certificates.
    pub(crate) fn new(alloc: Global) -> Certificates
        ensures { CertificatesOf result [] }
    {
        Certificates {
            views: empty_map(alloc),
        }
    }

    /// Makes room for certificates of the view. [room-before-change]
    pub(crate) fn make_room(&mut self, view: View) -> Result<(), AllocError>
        ensures room { OnOk result (is_some (found self.new.views view) ≡ true) }
        ensures same { (q : ℕ) → kept_at self.new.views q ≡ kept_at self.old.views q }
    {
        if !self.views.contains_key(&view.0) {
            put(&mut self.views, view.0, AtView::new())?;
        }
        Ok(())
    }

    /// The certificate was recorded.
    pub(crate) fn enter(&mut self, activity: Activity)
        requires certificate { was_verified activity ≡ true }
        requires room { is_some (found self.old.views (activity_round activity).view) ≡ true }
        ensures { (all : List Activity) → CertificatesOf self.old all
            → CertificatesOf self.new (activity ∷ all) }
    {
        let view = activity.view();
        if let Some(kept) = self.views.get_mut(&view.0) {
            kept.enter(activity);
        }
    }

    /// What is kept of the view, if anything.
    fn at(&self, view: View) -> Option<&AtView>
        ensures { (all : List Activity) → CertificatesOf self.now all
            → MatchOption result (AtViewOf nothing all view) (λ kept. AtViewOf kept.now all view) }
    {
        self.views.get(&view.0)
    }

    /// Whether the view has a certificate.
    pub(crate) fn is_certified(&self, view: View) -> bool
        ensures { CertificatesAnswer self.now view has_certificate result }
    {
        match self.at(view) {
            None => false,
            Some(kept) => kept.is_certified(),
        }
    }

    /// The last notarization of the view.
    pub(crate) fn notarization(&self, view: View) -> Option<&Notarization>
        ensures { CertificatesAnswer self.now view notarization_at (option_copied result) }
    {
        self.at(view)?.notarization()
    }

    /// The last certification of the view.
    pub(crate) fn certification(&self, view: View) -> Option<&Notarization>
        ensures { CertificatesAnswer self.now view certification_at (option_copied result) }
    {
        self.at(view)?.certification()
    }

    /// The last nullification of the view.
    pub(crate) fn nullification(&self, view: View) -> Option<&Nullification>
        ensures { CertificatesAnswer self.now view nullification_at (option_copied result) }
    {
        self.at(view)?.nullification()
    }

    /// The first finalization of the view, and how many there were.
    pub(crate) fn finalization(&self, view: View) -> Option<(&Finalization, u64)>
        ensures { (all : List Activity) → CertificatesOf self.now all
            → MatchOption result (finalization_at all view ≡ None)
            (λ kept. FinalizedBy all view kept.0.now kept.1) }
    {
        self.at(view)?.finalization()
    }
}
