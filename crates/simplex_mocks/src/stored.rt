//! Proposals by their views.
#![tactic(auto, unfolding(crate::specs::Remembering::stored_in))]

ghost use Rattle.std.specs.Prelude.{◌≡◌, ℕ, None, Some, OnOk};
ghost use Rattle.model_faults.specs.Outdated.{if_view};
ghost use Rattle.simplex_mocks.specs.Remembering.{stored_in};

use simplex_types::{Proposal, View};
use std::alloc::{AllocError, Global};
use std::collections::BTreeMap;

/// The last proposal of each view.
#[derive(Drop)]
pub(crate) struct Stored {
    proposals: BTreeMap<u64, Proposal>,
}

impl Stored {
    /// No proposals.
    pub(crate) fn new(alloc: Global) -> Stored
        ensures { (view : ℕ) → stored_in result view ≡ None }
    {
        Stored {
            proposals: BTreeMap::new(alloc),
        }
    }

    /// Keeps the proposal in place of what its view had.
    pub(crate) fn insert(&mut self, proposal: Proposal) -> Result<(), AllocError>
        ensures { OnOk result ((view : ℕ) → stored_in self.new view
            ≡ if_view view (Some proposal) (stored_in self.old view)) }
    {
        let view = proposal.round.view.0;
        self.proposals.insert(view, proposal)?;
        Ok(())
    }

    /// The proposal of the view.
    pub(crate) fn get(&self, view: View) -> Option<Proposal>
        ensures { result ≡ stored_in self.now view }
    {
        self.proposals.get(&view.0).copied()
    }
}
