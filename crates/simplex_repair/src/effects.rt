//! What a call leads to.
#![tactic(auto, unfolding(crate::specs::Stands::StandsFor))]

ghost use Rattle.std.specs.Prelude.{◌≡◌, min, nat_lt, ◌++◌, ◌∷◌, [], if◌then◌else◌, true, false, OnOk, IfOk};
ghost use Rattle.simplex_wire.specs.declared.certificate.Certificate.TheVariants as certificates;
ghost use Rattle.simplex_values.specs.declared.ask.Kind.TheVariants as kinds;
ghost use Rattle.model_rules.specs.declared.effect.Effect.TheVariants.{Settled, Raised};
ghost use Rattle.model_rules.specs.Repair.{Updated, Certified, Replayed};
ghost use Rattle.simplex_repair.specs.Stands.{Takes, Causes};

use crate::notes::later;
use crate::repair::RepairState;
use model_rules::Effect;
use simplex_values::{Kind, View};
use simplex_wire::{Certificate, Finalization, Notarization, Nullification};
use std::alloc::AllocError;

impl RepairState {
    /// Takes a certificate. The effects are in this order: asks that are settled, a view that is final, a
    /// floor that rose, and the views that are gaps from now on, in rising order.
    pub fn updated(&mut self, certificate: &Certificate) -> Result<Vec<Effect>, AllocError>
        ensures stands { OnOk result (Takes self.old self.new (Updated certificate.now)) }
        ensures effects { IfOk result
            (λ effects. Causes self.old (Updated certificate.now) effects.items) }
    {
        match certificate {
            Certificate::Notarization(it) => self.take_notarization(it),
            Certificate::Nullification(it) => self.take_nullification(it),
            Certificate::Finalization(it) => self.take_finalization(it),
        }
    }

    /// Takes the application's verdict on a notarized proposal, and the notarization with it.
    pub fn certified(
        &mut self,
        notarization: Notarization,
        good: bool,
    ) -> Result<Vec<Effect>, AllocError>
        ensures stands { OnOk result (Takes self.old self.new (Certified notarization good)) }
        ensures effects { IfOk result
            (λ effects. Causes self.old (Certified notarization good) effects.items) }
    {
        if good {
            self.take_good(notarization)
        } else {
            self.take_failed(notarization)
        }
    }

    /// What was stored before the start is known: from now on gaps are asked for.
    pub fn replayed(&mut self) -> Result<Vec<Effect>, AllocError>
        ensures stands { OnOk result (Takes self.old self.new Replayed) }
        ensures effects { IfOk result (λ effects. Causes self.old Replayed effects.items) }
    {
        let mut effects = Vec::new(self.alloc);
        let was_replayed = self.is_replayed;
        self.note_replayed();
        if was_replayed {
            return Ok(effects);
        }
        self.fetch(self.floor, self.top, &mut effects)?;
        Ok(effects)
    }

    /// Takes a notarization, whose view may be one that nothing led to yet.
    fn take_notarization(&mut self, it: &Notarization) -> Result<Vec<Effect>, AllocError>
        ensures stands { OnOk result (Takes self.old self.new
            (Updated (certificates.Notarization it.now))) }
        ensures effects { IfOk result (λ effects. Causes self.old
            (Updated (certificates.Notarization it.now)) effects.items) }
    {
        let view = it.view();
        let behind = self.asked_to(earlier(self.top, view));
        let mut effects = Vec::new(self.alloc);
        let is_new = !self.notarized.contains(view.0);
        push_if(&mut effects, is_new, notarization_settled(view))?;
        self.note_notarization(it)?;
        self.fetch(behind, view, &mut effects)?;
        Ok(effects)
    }

    /// Takes a nullification, which opens the next term.
    fn take_nullification(&mut self, it: &Nullification) -> Result<Vec<Effect>, AllocError>
        ensures stands { OnOk result (Takes self.old self.new
            (Updated (certificates.Nullification it.now))) }
        ensures effects { IfOk result (λ effects. Causes self.old
            (Updated (certificates.Nullification it.now)) effects.items) }
    {
        let view = it.view();
        let last = view.next_term_start(self.length);
        let behind = self.asked_to(earlier(self.top, last));
        let mut effects = Vec::new(self.alloc);
        let settled = Effect::Settled {
            kind: Kind::Nullification,
            start: view,
            end: view.term_end(self.length),
        };
        let is_new = !self.nullified.contains(view.0);
        push_if(&mut effects, is_new, settled)?;
        self.note_nullification(it)?;
        self.fetch(behind, last, &mut effects)?;
        Ok(effects)
    }

    /// Takes a finalization, behind which a term may go on.
    fn take_finalization(&mut self, it: &Finalization) -> Result<Vec<Effect>, AllocError>
        ensures stands { OnOk result (Takes self.old self.new
            (Updated (certificates.Finalization it.now))) }
        ensures effects { IfOk result (λ effects. Causes self.old
            (Updated (certificates.Finalization it.now)) effects.items) }
    {
        let view = it.view();
        let floor = self.floor;
        let next = later(floor, view).next();
        let behind = self.asked_to(next);
        let mut effects = Vec::new(self.alloc);
        let is_new = !self.is_final(view);
        push_if(&mut effects, is_new, Effect::Finalized(view))?;
        self.note_finalization(it)?;
        self.push_raised(floor, &mut effects)?;
        self.fetch(behind, next, &mut effects)?;
        Ok(effects)
    }

    /// Takes a true verdict, behind which a term may go on.
    fn take_good(&mut self, it: Notarization) -> Result<Vec<Effect>, AllocError>
        ensures stands { OnOk result (Takes self.old self.new (Certified it true)) }
        ensures effects { IfOk result
            (λ effects. Causes self.old (Certified it true) effects.items) }
    {
        let view = it.view();
        let floor = self.floor;
        let next = later(floor, view).next();
        let behind = self.asked_to(next);
        let mut effects = Vec::new(self.alloc);
        let is_new = !self.notarized.contains(view.0);
        push_if(&mut effects, is_new, notarization_settled(view))?;
        self.note_good(it)?;
        self.push_raised(floor, &mut effects)?;
        self.fetch(behind, next, &mut effects)?;
        Ok(effects)
    }

    /// Takes a false verdict, after which the view itself can be a gap.
    fn take_failed(&mut self, it: Notarization) -> Result<Vec<Effect>, AllocError>
        ensures stands { OnOk result (Takes self.old self.new (Certified it false)) }
        ensures effects { IfOk result
            (λ effects. Causes self.old (Certified it false) effects.items) }
    {
        let view = it.view();
        let behind = self.asked_to(earlier(self.top, view));
        let mut effects = Vec::new(self.alloc);
        let is_new = !self.notarized.contains(view.0) || !self.is_failed(view);
        push_if(&mut effects, is_new, notarization_settled(view))?;
        self.note_failed(it)?;
        self.fetch(behind, view, &mut effects)?;
        Ok(effects)
    }

    /// Tells of the floor, where it rose from this view.
    fn push_raised(&self, before: View, effects: &mut Vec<Effect>) -> Result<(), AllocError>
        ensures { OnOk result (effects.new.items ≡ effects.old.items
            ++ (if nat_lt before self.now.floor then Raised self.now.floor ∷ [] else [])) }
    {
        push_if(effects, before < self.floor, Effect::Raised(self.floor))
    }
}

/// The earlier of two views.
fn earlier(one: View, other: View) -> View
    ensures { result ≡ min one other }
{
    View(one.0.min(other.0))
}

/// Asks for the notarization of the view are settled.
fn notarization_settled(view: View) -> Effect
    ensures { result ≡ Settled kinds.Notarization view view }
{
    Effect::Settled {
        kind: Kind::Notarization,
        start: view,
        end: view,
    }
}

/// Adds the effect, where the condition holds.
fn push_if(effects: &mut Vec<Effect>, holds: bool, effect: Effect) -> Result<(), AllocError>
    ensures { OnOk result (effects.new.items
        ≡ effects.old.items ++ (if holds then effect ∷ [] else [])) }
{
    if holds {
        effects.push(effect)?;
    }
    Ok(())
}
