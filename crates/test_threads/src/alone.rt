//! The engine of a member: terms of one view, keyed signatures, leaders in turn.

ghost use Rattle.std.specs.Prelude.{◌≡◌, ◌<◌, false, IfOk};
ghost use Rattle.simplex_engine.specs.Stands.{has_failed};

use simplex_engine::{Engine, EngineConfig};
use simplex_journal::Journal;
use simplex_types::elector::Config as _;
use simplex_types::{
    Digest, Epoch, Floor, ForwardPolicy, Keyed, Participant, RoundRobin, RoundRobinElector,
    SkipPolicy, TermLength, Terms, ViewDelta,
};
use std::alloc::Global;
use std::test::Fail;

/// The engine of member 0 of so many over the journal, not started yet.
pub(crate) fn engine<J: Journal + Drop>(
    alloc: Global,
    members: u32,
    journal: J,
) -> Result<Engine<Keyed, RoundRobinElector, J>, Fail>
    requires { 0 < members }
    ensures { IfOk result (λ engine. has_failed engine ≡ false) }
{
    let terms = Terms {
        length: TermLength::ONE,
        lookahead: 0,
        stall_timeout: None,
    };
    let config = EngineConfig {
        scheme: Keyed::new(alloc, 1, members, Some(Participant(0)))?,
        elector: RoundRobin::new(terms).build(members),
        genesis: Digest([0; 32]),
        floor: Floor::Genesis(Digest([0; 32])),
        epoch: Epoch(0),
        leader_timeout: 1000,
        certification_timeout: 2000,
        retry: 500,
        retention: ViewDelta(10),
        skip: SkipPolicy::Disabled,
        mailbox: 16,
        fetch_timeout: 1000,
        fetch_retry: 100,
        forward: ForwardPolicy::Disabled,
        track: false,
        handoff: false,
    };
    let engine = Engine::new(alloc, config, journal).ok().ok_or("an engine")?;
    Ok(engine)
}
