//! What a call adds to what is held.
#![tactic(auto, unfolding(crate::specs::Opened::held))]

ghost use Rattle.std.specs.Prelude.{◌≡◌, max, nat_lt, true, false, OnOk};
ghost use Rattle.std.specs.Option.{option_map_or};
ghost use Rattle.simplex_wire.specs.declared.certificate.Certificate.TheVariants as certificates;
ghost use Rattle.model_rules.specs.Known.{view_of};
ghost use Rattle.model_rules.specs.Repair.{Updated, Certified, Replayed};
ghost use Rattle.simplex_repair.specs.Stands.{Takes};

use crate::covers::cover;
use crate::repair::RepairState;
use crate::taken::hold;
use simplex_values::maps::{add, drop_below, remove_below};
use simplex_values::{Keep, View};
use simplex_wire::{Finalization, Notarization, Nullification};
use std::alloc::AllocError;

impl RepairState {
    /// A notarization is held, where it is its view's first.
    pub(crate) fn note_notarization(&mut self, it: &Notarization) -> Result<(), AllocError>
        ensures { OnOk result (Takes self.old self.new
            (Updated (certificates.Notarization it.now))) }
    {
        let view = it.view();
        let copy = it.keep(self.alloc)?;
        hold(&mut self.notarizations, &mut self.notarized, view.0, copy)?;
        self.top = later(self.top, view);
        Ok(())
    }

    /// A nullification is held, where it is its view's first.
    pub(crate) fn note_nullification(&mut self, it: &Nullification) -> Result<(), AllocError>
        ensures { OnOk result (Takes self.old self.new
            (Updated (certificates.Nullification it.now))) }
    {
        self.nullified.add(it.view().0)?;
        cover(self.alloc, &mut self.nullifications, self.length, it)?;
        self.top = later(self.top, it.view().next_term_start(self.length));
        Ok(())
    }

    /// A finalization is held, where it is the greatest. What cannot be asked for any more is let go.
    pub(crate) fn note_finalization(&mut self, it: &Finalization) -> Result<(), AllocError>
        ensures { OnOk result (Takes self.old self.new
            (Updated (certificates.Finalization it.now))) }
    {
        let view = it.view();
        self.top = later(self.top, view.next());
        if !is_greater(it, &self.finalization) {
            return Ok(());
        }
        self.finalization = Some(it.keep(self.alloc)?);
        self.floor = later(self.floor, view);
        remove_below(&mut self.good, view.0);
        drop_below(&mut self.notarizations, view.0);
        drop_below(&mut self.nullifications, view.term_index(self.length));
        Ok(())
    }

    /// A true verdict is held, with its notarization, where that is its view's first.
    pub(crate) fn note_good(&mut self, it: Notarization) -> Result<(), AllocError>
        ensures { OnOk result (Takes self.old self.new (Certified it true)) }
    {
        let view = it.view();
        hold(&mut self.notarizations, &mut self.notarized, view.0, it)?;
        add(&mut self.good, view.0)?;
        self.top = later(self.top, view.next());
        self.floor = later(self.floor, view);
        Ok(())
    }

    /// A false verdict is held, with its notarization, where that is its view's first.
    pub(crate) fn note_failed(&mut self, it: Notarization) -> Result<(), AllocError>
        ensures { OnOk result (Takes self.old self.new (Certified it false)) }
    {
        let view = it.view();
        hold(&mut self.notarizations, &mut self.notarized, view.0, it)?;
        add(&mut self.failed, view.0)?;
        self.top = later(self.top, view);
        Ok(())
    }

    /// What was stored before the start is known.
    pub(crate) fn note_replayed(&mut self)
        ensures { Takes self.old self.new Replayed }
    {
        self.is_replayed = true;
    }
}

/// The later of two views.
pub(crate) fn later(one: View, other: View) -> View
    ensures { result ≡ max one other }
{
    View(one.0.max(other.0))
}

/// Whether the finalization is of a later view than the held one.
fn is_greater(it: &Finalization, held: &Option<Finalization>) -> bool
    ensures { result ≡ option_map_or
        (λ h. nat_lt (view_of h.proposal) (view_of it.now.proposal)) held.now true }
{
    match held {
        None => true,
        Some(held) => held.view() < it.view(),
    }
}
