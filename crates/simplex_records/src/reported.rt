//! The finalizations that were reported.
#![tactic(auto, unfolding(crate::specs::Reported::at_view, crate::specs::Reported::has_reported))]

ghost use Rattle.std.specs.Prelude.{◌≡◌, ◌==◌, ◌||◌, ◌++◌, ◌∷◌, ℕ, [], OnOk, false, if◌then◌else◌};
ghost use Rattle.std.specs.List.{list_any};
ghost use Rattle.std.specs.Option.{unwrap_or};
ghost use Rattle.std.specs.Ordering.{nat_cmp};
ghost use Rattle.std.specs.BTreeMap as tree;
ghost use Rattle.simplex_wire.specs.declared.certificate.Finalization.{Finalization};
ghost use Rattle.model_run.specs.Entries.{reports};
ghost use Rattle.simplex_records.specs.Reported as reporting;

use simplex_messages::Call;
use simplex_types::{Activity, Finalization, Keep, Sequence};
use std::alloc::{AllocError, Global};
use std::collections::BTreeMap;

/// The finalizations that were reported, by view, each once. [own-floors]
#[derive(Drop)]
pub struct Reported {
    pub(crate) by_view: BTreeMap<u64, Sequence<Finalization>>,
}

impl Reported {
    /// None.
    pub fn new(alloc: Global) -> Reported
        ensures { (f : Finalization) → reporting.has_reported result f ≡ false }
    {
        Reported {
            by_view: BTreeMap::new(alloc),
        }
    }

    /// Whether the finalization was reported.
    pub fn contains(&self, finalization: &Finalization) -> bool
        ensures { result ≡ reporting.has_reported self.now finalization.now }
    {
        match self.by_view.get(&finalization.view().0) {
            None => false,
            Some(finalizations) => holds(finalizations.as_slice(), finalization),
        }
    }

    /// Takes in what the calls report.
    pub fn add(&mut self, alloc: Global, calls: &[Call]) -> Result<(), AllocError>
        ensures { OnOk result ((f : Finalization) → reporting.has_reported self.new f
            ≡ (list_any (reports f) calls.now || reporting.has_reported self.old f)) }
    {
        for call in calls {
            self.add_call(alloc, call)?;
        }
        Ok(())
    }

    fn add_call(&mut self, alloc: Global, call: &Call) -> Result<(), AllocError>
        ensures { OnOk result ((f : Finalization) → reporting.has_reported self.new f
            ≡ (reports f call.now || reporting.has_reported self.old f)) }
    {
        match call {
            Call::Report(Activity::Finalization(finalization)) => {
                self.add_finalization(alloc, finalization)?;
                Ok(())
            }
            _ => Ok(()),
        }
    }

    /// Takes in that the finalization was reported.
    pub fn add_finalization(
        &mut self,
        alloc: Global,
        finalization: &Finalization,
    ) -> Result<(), AllocError>
        ensures { OnOk result ((f : Finalization) → reporting.has_reported self.new f
            ≡ (reporting.is_same f finalization.now || reporting.has_reported self.old f)) }
    {
        if self.contains(finalization) {
            return Ok(());
        }
        let copy = finalization.keep(alloc)?;
        insert(&mut self.by_view, alloc, copy)?;
        Ok(())
    }
}

// Whether it is among these.
fn holds(finalizations: &[Finalization], finalization: &Finalization) -> bool
    ensures { result ≡ list_any (reporting.is_same finalization.now) finalizations.now }
{
    finalizations
        .iter()
        .any(|other| is_same(finalization, other))
}

// Whether they are one finalization, signers and signatures too.
fn is_same(finalization: &Finalization, other: &Finalization) -> bool
    ensures { result ≡ reporting.is_same finalization.now other.now }
{
    finalization == other
}

// Puts the finalization behind those of its view.
fn insert(
    by_view: &mut BTreeMap<u64, Sequence<Finalization>>,
    alloc: Global,
    finalization: Finalization,
) -> Result<(), AllocError>
    ensures { OnOk result ((q : ℕ) → unwrap_or (tree.get nat_cmp by_view.new q) []
        ≡ (if finalization.proposal.round.view == q
        then unwrap_or (tree.get nat_cmp by_view.old q) [] ++ finalization ∷ []
        else unwrap_or (tree.get nat_cmp by_view.old q) [])) }
{
    let view = finalization.view().0;
    let mut finalizations = match by_view.remove(&view) {
        None => Sequence::new(alloc),
        Some(finalizations) => finalizations,
    };
    finalizations.push(finalization)?;
    by_view.insert(view, finalizations)?;
    Ok(())
}
