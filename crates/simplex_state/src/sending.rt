//! Certificates that are handed out for sending.
#![tactic(auto, unfolding(crate::specs::Stands::StandsFor, model_rules::specs::Calls::known_of, model_rules::specs::Calls::facts_of))]

ghost use Rattle.std.specs.Prelude.{OnOk, IfOk};
ghost use Rattle.model_rules.specs.Calls.{BroadcastNotarization, BroadcastNullification, BroadcastFinalization, unsent_notarization, unsent_nullification, unsent_finalization};
ghost use Rattle.simplex_state.specs.Stands.{Takes, Answers};

use crate::held::{copy_unsent, mark_sent};
use crate::state::State;
use simplex_types::elector::Elector;
use simplex_values::View;
use simplex_wire::{Finalization, Notarization, Nullification, Scheme};
use std::alloc::AllocError;

impl<S: Scheme + Drop, L: Elector + Drop> State<S, L> {
    /// The notarization of the view, where it has still to be sent. From now on it counts as sent.
    pub fn broadcast_notarization(&mut self, view: View) -> Result<Option<Notarization>, AllocError>
        ensures stands { OnOk result (Takes self.old self.new (BroadcastNotarization view)) }
        ensures answer { IfOk result (Answers self.old
            (λ made known. unsent_notarization known view)) }
    {
        let Some(certificate) = copy_unsent(self.alloc, &self.notarizations, view.0)? else {
            return Ok(None);
        };
        mark_sent(&mut self.notarizations, view.0);
        Ok(Some(certificate))
    }

    /// The nullification of the view, where it has still to be sent. From now on it counts as sent.
    pub fn broadcast_nullification(
        &mut self,
        view: View,
    ) -> Result<Option<Nullification>, AllocError>
        ensures stands { OnOk result (Takes self.old self.new (BroadcastNullification view)) }
        ensures answer { IfOk result (Answers self.old
            (λ made known. unsent_nullification known view)) }
    {
        let Some(certificate) = copy_unsent(self.alloc, &self.nullifications, view.0)? else {
            return Ok(None);
        };
        mark_sent(&mut self.nullifications, view.0);
        Ok(Some(certificate))
    }

    /// The finalization of the view, where it has still to be sent. From now on it counts as sent.
    pub fn broadcast_finalization(&mut self, view: View) -> Result<Option<Finalization>, AllocError>
        ensures stands { OnOk result (Takes self.old self.new (BroadcastFinalization view)) }
        ensures answer { IfOk result (Answers self.old
            (λ made known. unsent_finalization known view)) }
    {
        let Some(certificate) = copy_unsent(self.alloc, &self.finalizations, view.0)? else {
            return Ok(None);
        };
        mark_sent(&mut self.finalizations, view.0);
        Ok(Some(certificate))
    }
}
