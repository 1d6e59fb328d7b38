//! What was asked for below proposals that wait to be verified.
#![tactic(auto, unfolding(crate::specs::Missing::has_pair, crate::specs::Missing::is_asked), using(crate::proofs::Pairs::pair_at))]

ghost use Rattle.std.specs.Prelude.{◌≡◌, ◌≤◌, ℕ, ◌==◌, ◌&&◌, ◌||◌, false, OnOk};
ghost use Rattle.simplex_values.specs.declared.ask.Kind as kinds;
ghost use Rattle.model_rules.specs.Requests.{is_kind};
ghost use Rattle.simplex_state.specs.Missing.{has_pair, is_asked};

use simplex_values::{Kind, View};
use std::alloc::{AllocError, Global};
use std::collections::BTreeSet;

/// What was asked for: the views of proposals, each with the view of a missing certificate. [asked-as-missing]
#[derive(Debug, Drop)]
pub(crate) struct Missing {
    notarizations: BTreeSet<(u64, u64)>,
    nullifications: BTreeSet<(u64, u64)>,
}

impl Missing {
    /// Nothing was asked for.
    pub(crate) fn new(alloc: Global) -> Missing
        ensures { (p v : ℕ) (k : kinds.Kind) → is_asked result p v k ≡ false }
    {
        Missing {
            notarizations: BTreeSet::new(alloc),
            nullifications: BTreeSet::new(alloc),
        }
    }

    /// Whether for a proposal of the first view the certificate of this kind of the second was asked for.
    pub(crate) fn is_asked(&self, proposal: View, view: View, kind: Kind) -> bool
        ensures { result ≡ is_asked self.now proposal view kind }
    {
        let pair = (proposal.0, view.0);
        match kind {
            Kind::Notarization => self.notarizations.contains(&pair),
            Kind::Nullification => self.nullifications.contains(&pair),
        }
    }

    /// For a proposal of the first view, the certificate of this kind of the second is asked for.
    pub(crate) fn ask(&mut self, proposal: View, view: View, kind: Kind) -> Result<(), AllocError>
        ensures { OnOk result ((p v : ℕ) (k : kinds.Kind) → is_asked self.new p v k
            ≡ ((proposal == p && view == v && is_kind kind k) || is_asked self.old p v k)) }
    {
        match kind {
            Kind::Notarization => add_pair(&mut self.notarizations, proposal.0, view.0),
            Kind::Nullification => add_pair(&mut self.nullifications, proposal.0, view.0),
        }
    }

    /// Forgets what was asked for below the view.
    pub(crate) fn forget(&mut self, least: View)
        ensures { (p v : ℕ) (k : kinds.Kind) → least ≤ p
            → is_asked self.new p v k ≡ is_asked self.old p v k }
    {
        remove_pairs_below(&mut self.notarizations, least.0);
        remove_pairs_below(&mut self.nullifications, least.0);
    }
}

/// Puts the two views into the set.
fn add_pair(pairs: &mut BTreeSet<(u64, u64)>, first: u64, second: u64) -> Result<(), AllocError>
    ensures { OnOk result ((p v : ℕ)
        → has_pair pairs.new p v ≡ ((first == p && second == v) || has_pair pairs.old p v)) }
{
    pairs.insert((first, second))?;
    Ok(())
}

/// Drops the pairs whose first view is below a view.
fn remove_pairs_below(pairs: &mut BTreeSet<(u64, u64)>, least: u64)
    ensures { (p v : ℕ) → least ≤ p → has_pair pairs.new p v ≡ has_pair pairs.old p v }
{
    while let Some((first, _)) = pairs.first() {
        if *first >= least {
            break;
        }
        pairs.pop_first();
    }
}
