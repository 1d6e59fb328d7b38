//! What an engine is made with.
use simplex_engine::{Engine, EngineConfig};
use simplex_journal::MemoryJournal;
use simplex_types::elector::Config as _;
use simplex_types::{
    Digest, Epoch, Floor, ForwardPolicy, Keyed, Participant, RoundRobin, RoundRobinElector,
    SkipPolicy, TermLength, Terms, ViewDelta,
};
use std::alloc::{AllocError, Global};
use test_support::reading::{member, number};
use test_support::signing::KEYS;

/// An engine over a journal in memory.
pub(super) type Member = Engine<Keyed, RoundRobinElector, MemoryJournal>;

/// A time that does not come.
const NEVER: u64 = 1 << 40;

/// What the first line of a script tells.
#[derive(Clone, Copy)]
pub(crate) struct Setup {
    pub(super) me: Participant,
    pub(super) members: u32,
    term: u64,
}

impl Setup {
    /// The setup that the words of the first line tell.
    pub(crate) fn read(words: &[&str]) -> Option<Setup> {
        let (me, members, term) = match words {
            ["engine", me, "of", members] => (me, members, 1),
            ["engine", me, "of", members, "term", term] => (me, members, number(term)?),
            _ => return None,
        };
        Some(Setup {
            me: member(me)?,
            members: member(members)?.0,
            term,
        })
    }

    /// An engine that was not started, if there is one with this setup.
    pub(super) fn engine(
        &self,
        alloc: Global,
        journal: MemoryJournal,
    ) -> Result<Option<Member>, AllocError> {
        let Some(length) = TermLength::new(self.term) else {
            return Ok(None);
        };
        if self.me.0 >= self.members {
            return Ok(None);
        }
        let terms = Terms {
            length,
            lookahead: 0,
            stall_timeout: None,
        };
        let config = EngineConfig {
            scheme: Keyed::new(alloc, KEYS, self.members, Some(self.me))?,
            elector: RoundRobin::new(terms).build(self.members),
            genesis: Digest([0; 32]),
            floor: Floor::Genesis(Digest([0; 32])),
            epoch: Epoch(0),
            leader_timeout: NEVER,
            certification_timeout: NEVER,
            retry: NEVER,
            retention: ViewDelta(10),
            skip: SkipPolicy::Disabled,
            mailbox: 16,
            fetch_timeout: 1000,
            fetch_retry: 100,
            forward: ForwardPolicy::Disabled,
            track: false,
            handoff: false,
        };
        Ok(Engine::new(alloc, config, journal).ok())
    }
}
