//! The actors at work, and the mail between them.
ghost use Rattle.simplex_state.specs.Bound.{Knows};

use crate::boxes::Boxes;
use simplex_journal::Journal;
use simplex_types::Scheme;
use simplex_types::elector::Elector;
use std::alloc::Global;
use std::collections::BTreeSet;

/// The actors of a started engine, and the mail between them, for whoever steps each of them itself.
#[derive(Drop)]
pub struct Crew<S: Scheme, L: Elector, J: Journal> {
    /// Where the actors take memory.
    pub alloc: Global,
    /// The voter, with the journal.
    pub voter: simplex_voter::Actor<S, L, J>,
    /// The batcher, with its round states.
    pub batcher: simplex_batcher::Actor<S>,
    /// The resolver, with its fetcher.
    pub resolver: simplex_resolver::Actor<S>,
    /// The mail between them.
    pub boxes: Boxes,
    /// The members that a call blocked since the start. Their packets are refused.
    pub blocked: BTreeSet<u32>,
    // true of any three: contracts read from a crew's type what its scheme, its elector and its journal do [types-know-what-they-do]
    ghost by_scheme: { Knows S.members },
    ghost by_elector: { Knows L.built_for },
    ghost by_journal: { Knows J.fault_count },
}
