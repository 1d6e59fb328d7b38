//! What follows from certificates and verdicts.
ghost use Rattle.std.specs.Prelude.{◌≡◌, ◌<◌, ◌^◌, IfOk, OnOk};
ghost use Rattle.std.specs.List.{filter_map};
ghost use Rattle.model_rules.specs.Repair as calls;
ghost use Rattle.model_resolver.specs.Resolver.{retire_of, fetch_of, retiring_all, with_effects, repairing};
ghost use Rattle.simplex_resolver.specs.Stands.{Does};

use crate::actor::Actor;
use crate::work::Work;
use model_rules::Effect;
use simplex_fetch::{Fetch, Retire};
use simplex_types::{Ask, Certificate, Notarization, Scheme};
use std::alloc::{AllocError, Global};

/// The asks that the effect is the end of.
fn retire_of(effect: &Effect) -> Option<Retire>
    ensures { result ≡ retire_of effect.now }
{
    match effect {
        Effect::Settled { kind, start, end } => Some(Retire::Settled {
            kind: *kind,
            start: *start,
            end: *end,
        }),
        Effect::Finalized(view) => Some(Retire::Finalized(*view)),
        Effect::Raised(view) => Some(Retire::Floor(*view)),
        Effect::Fetch { .. } => None,
    }
}

/// The ask that the effect is the begin of.
fn fetch_of(effect: &Effect) -> Option<Fetch>
    ensures { result ≡ fetch_of effect.now }
{
    match effect {
        Effect::Fetch { view } => Some(Fetch {
            view: *view,
            ask: Ask::backfill(),
        }),
        Effect::Settled { .. } | Effect::Finalized(_) | Effect::Raised(_) => None,
    }
}

/// The asks that the effects are the end of.
fn retires_of(alloc: Global, effects: &[Effect]) -> Result<Vec<Retire>, AllocError>
    ensures { IfOk result (λ retires. retires.items ≡ filter_map retire_of effects.now) }
{
    let mut retires = Vec::new(alloc);
    for effect in effects {
        if let Some(retire) = retire_of(effect) {
            retires.push(retire)?;
        }
    }
    Ok(retires)
}

/// The asks that the effects are the begin of.
fn fetches_of(alloc: Global, effects: &[Effect]) -> Result<Vec<Fetch>, AllocError>
    ensures { IfOk result (λ fetches. fetches.items ≡ filter_map fetch_of effects.now) }
{
    let mut fetches = Vec::new(alloc);
    for effect in effects {
        if let Some(fetch) = fetch_of(effect) {
            fetches.push(fetch)?;
        }
    }
    Ok(fetches)
}

impl<S: Scheme + Drop> Actor<S> {
    /// All these asks are done with.
    #[tactic(auto, unfolding(model_resolver::specs::Resolver::retiring_all))]
    fn retire_each(&mut self, retires: &[Retire], work: &mut Work) -> Result<(), AllocError>
        ensures { OnOk result (Does self.old work.old self.new work.new
            (λ made. retiring_all retires.now)) }
    {
        for retire in retires {
            self.retire(retire, work)?;
        }
        Ok(())
    }

    /// First the retiring, then the fetches.
    #[tactic(auto, unfolding(model_resolver::specs::Resolver::with_effects))]
    pub(crate) fn follow(
        &mut self,
        effects: Vec<Effect>,
        now: u64,
        work: &mut Work,
    ) -> Result<(), AllocError>
        requires clock { now < 2 ^ 63 }
        ensures { OnOk result (Does self.old work.old self.new work.new
            (λ made. with_effects now effects.items)) }
    {
        let retires = retires_of(self.alloc, effects.as_slice())?;
        let fetches = fetches_of(self.alloc, effects.as_slice())?;
        self.retire_each(retires.as_slice(), work)?;
        self.fetch_all(fetches, now, work)?;
        Ok(())
    }

    /// A certificate that the voter knows.
    #[tactic(auto, unfolding(model_resolver::specs::Resolver::repairing))]
    pub(crate) fn take_certificate(
        &mut self,
        certificate: &Certificate,
        now: u64,
        work: &mut Work,
    ) -> Result<(), AllocError>
        requires clock { now < 2 ^ 63 }
        ensures { OnOk result (Does self.old work.old self.new work.new
            (λ made. repairing made now (calls.Updated certificate.now))) }
    {
        let effects = self.repair.updated(certificate)?;
        self.follow(effects, now, work)?;
        Ok(())
    }

    /// The application's verdict on a notarization.
    #[tactic(auto, unfolding(model_resolver::specs::Resolver::repairing))]
    pub(crate) fn take_verdict(
        &mut self,
        notarization: Notarization,
        success: bool,
        now: u64,
        work: &mut Work,
    ) -> Result<(), AllocError>
        requires clock { now < 2 ^ 63 }
        ensures { OnOk result (Does self.old work.old self.new work.new
            (λ made. repairing made now (calls.Certified notarization success))) }
    {
        let effects = self.repair.certified(notarization, success)?;
        self.follow(effects, now, work)?;
        Ok(())
    }

    /// The voter's journal was read.
    #[tactic(auto, unfolding(model_resolver::specs::Resolver::repairing))]
    pub(crate) fn take_replayed(&mut self, now: u64, work: &mut Work) -> Result<(), AllocError>
        requires clock { now < 2 ^ 63 }
        ensures { OnOk result (Does self.old work.old self.new work.new
            (λ made. repairing made now calls.Replayed)) }
    {
        let effects = self.repair.replayed()?;
        self.follow(effects, now, work)?;
        Ok(())
    }
}
