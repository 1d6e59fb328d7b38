//! Who leads.
ghost use Rattle.std.specs.Prelude.{◌≡◌, ◌≤◌, map, length, IsNone, IfOk};
ghost use Rattle.model_run.specs.Setups as setups;
ghost use Rattle.model_run.specs.Twins.{elected};
ghost use Rattle.simplex_members.specs.Leading.{elects, terms_in};

use crate::scripts::script_of;
use simplex_transcript::Setup;
use simplex_twins::{Elector, ElectorState, TwinsError};
use simplex_types::elector::Config;
use simplex_types::{RoundRobin, RoundRobinElector, TermLength, Terms};
use std::alloc::{AllocError, Global};

/// Elects the scripted leaders of a setup, and behind them the members in turn.
pub type NodeElector = ElectorState<RoundRobinElector>;

/// The elector of the setup.
#[tactic(auto, using(crate::proofs::Good::good, crate::proofs::Electing::elected_as_scripted))]
pub(crate) fn elector_of(alloc: Global, setup: &Setup) -> Result<NodeElector, AllocError>
    requires { IsNone (setups.first_bad setup.now) }
    ensures members { IfOk result (λ elector. elector.fallback.members ≡ length setup.now.members) }
    ensures terms { IfOk result (λ elector. elector.fallback.terms ≡ terms_in setup.now) }
    ensures leaders { IfOk result (λ elector. elects elector ≡ elected setup.now) }
{
    Ok(electing(alloc, setup)?.build(setup.members.len() as u32))
}

// What it is built from.
#[tactic(auto, using(crate::proofs::Good::good, crate::proofs::Electing::electing))]
fn electing(alloc: Global, setup: &Setup) -> Result<Elector<RoundRobin>, AllocError>
    requires { IsNone (setups.first_bad setup.now) }
    ensures leaders { IfOk result (λ made. made.leaders
        ≡ map (λ round. round.leader) setup.now.scenario) }
    ensures terms { IfOk result (λ made. made.fallback.terms ≡ terms_in setup.now) }
    ensures members { IfOk result (λ made. made.members ≤ length setup.now.members) }
{
    let turns = RoundRobin::new(terms_of(setup));
    if setup.scenario.is_empty() {
        return Ok(Elector::unscripted(alloc, turns));
    }
    let members = setup.members.len() as u32;
    let script = script_of(alloc, members, setup.scenario.as_slice())?;
    match Elector::new(alloc, turns, &script, members) {
        Ok(scripted) => Ok(scripted),
        Err(TwinsError::Memory) => Err(AllocError),
        Err(_) => unreachable!(),
    }
}

// How views are cut into terms.
#[tactic(auto, using(crate::proofs::Good::good))]
fn terms_of(setup: &Setup) -> Terms
    requires { IsNone (setups.first_bad setup.now) }
    ensures { result ≡ terms_in setup.now }
{
    Terms {
        length: TermLength::new(setup.term).unwrap(),
        lookahead: setup.lookahead,
        stall_timeout: setup.stall,
    }
}
