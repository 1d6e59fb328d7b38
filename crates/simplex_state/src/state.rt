//! What one member knows, and what it answers by the rules.
ghost use Rattle.simplex_state.specs.Bound.{Knows};

use crate::held::Held;
use crate::missing::Missing;
use crate::progress::Progress;
use crate::ranges::Ranges;
use crate::rounds::RoundRecord;
use crate::settings::Settings;
use simplex_types::elector::Elector;
use simplex_wire::{Finalization, Notarization, Nullification, Scheme};
use std::alloc::Global;
use std::collections::{BTreeMap, BTreeSet};

/// What one member knows. [fields-within-the-crate]
#[derive(Drop)]
pub struct State<S: Scheme, L: Elector> {
    pub(crate) alloc: Global,
    pub(crate) scheme: S,
    pub(crate) elector: L,
    pub(crate) settings: Settings,
    pub(crate) progress: Progress,
    /// What is known of each view, but for its certificates.
    pub(crate) rounds: BTreeMap<u64, RoundRecord>,
    /// Whether the member gave up the current view. `nullified` has it at the latest when another one opens.
    pub(crate) gave_up: bool,
    /// When the own nullify of the current view last went out.
    pub(crate) published: Option<u64>,
    /// The views that the member gave up, but maybe for the current one.
    pub(crate) nullified: Ranges,
    /// The views with a false verdict.
    pub(crate) failed: Ranges,
    /// The views with a true verdict.
    pub(crate) certified: BTreeSet<u64>,
    /// The least nullified view of each term.
    pub(crate) covered: BTreeMap<u64, u64>,
    /// The terms whose first view is nullified.
    pub(crate) whole: Ranges,
    /// The notarized views that wait for the verdict to be asked for, and maybe some that do not any more.
    pub(crate) waiting: BTreeSet<u64>,
    /// What was asked for below proposals.
    pub(crate) missing: Missing,
    pub(crate) notarizations: BTreeMap<u64, Held<Notarization>>,
    pub(crate) nullifications: BTreeMap<u64, Held<Nullification>>,
    pub(crate) finalizations: BTreeMap<u64, Held<Finalization>>,
    // true of any: contracts read from a state's type what its scheme and its elector do
    ghost by_scheme: { Knows S.members },
    ghost by_elector: { Knows L.built_for },
}
