//! The actors of an engine, each on a thread of its own at once.
ghost use Rattle.std.specs.Prelude.{◌≡◌, ◌<◌, ◌^◌, All, IfOk};
ghost use Rattle.simplex_voter.specs.Actor.{journal_of};
ghost use Rattle.simplex_turns.specs.Threads.{IsInTime, BatcherGoesOn, VoterGoesOn, ResolverGoesOn};
ghost use Rattle.simplex_turns.specs.Team.{BatcherMayRun, ResolverMayRun, VoterMayRun, ShareMailboxes, Records};

use crate::batcher::BatcherThread;
use crate::logs::{Logs, log_of_three, log_of_two};
use crate::mailboxes::Mailboxes;
use crate::resolver::ResolverThread;
use crate::voter::VoterThread;
use simplex_journal::Journal;
use simplex_mailbox::Gate;
use simplex_messages::StepOut;
use simplex_types::Scheme;
use simplex_types::elector::Elector;
use std::alloc::AllocError;
use std::sync::Wait;
use std::thread;
use std::thread::Threads;

/// The actors of an engine between two of their turns, and the mailboxes that they share.
#[derive(Drop)]
pub struct Team<S: Scheme, L: Elector, J: Journal> {
    /// The mailboxes.
    pub boxes: Mailboxes,
    /// The batcher, and what comes to it.
    pub batcher: BatcherThread<S>,
    /// The voter, and what comes to it.
    pub voter: VoterThread<S, L, J>,
    /// The resolver, and what comes to it.
    pub resolver: ResolverThread<S>,
}

/// What the turns of each actor gave.
#[derive(Drop)]
pub struct Outs {
    /// One for each turn of the batcher.
    pub batcher: Vec<StepOut>,
    /// One for each turn of the voter, up to a failed call of its journal.
    pub voter: Vec<StepOut>,
    /// One for each turn of the resolver.
    pub resolver: Vec<StepOut>,
}

impl<S: Scheme + Drop + Send, L: Elector + Drop + Send, J: Journal + Drop + Send> Team<S, L, J> {
    /// Each actor makes so many turns, on a thread of its own. Before its turn t, counted from 1, each passes the gate as
    /// `pass(who, t)`: the batcher is 0, the voter 1, the resolver 2. May wait.
    pub fn run<G: Gate, R: Threads + Wait + Sync>(
        self,
        rt: &R,
        turns: u64,
        gate: &G,
    ) -> Result<(Team<S, L, J>, Outs), AllocError>
        requires clocks { (self.batcher.now < 2 ^ 63) × (self.voter.now < 2 ^ 63) × (self.resolver.now < 2 ^ 63)
            × All IsInTime self.voter.feed.items }
        requires share { ShareMailboxes self }
        ensures boxes { IfOk result (λ ran. ran.0.boxes ≡ self.boxes) }
        ensures share { IfOk result (λ ran. ShareMailboxes ran.0) }
        ensures batcher { IfOk result
            (λ ran. BatcherGoesOn self.batcher ran.0.batcher turns ran.1.batcher.items) }
        ensures voter { IfOk result
            (λ ran. VoterGoesOn self.voter ran.0.voter turns ran.1.voter.items) }
        ensures resolver { IfOk result
            (λ ran. ResolverGoesOn self.resolver ran.0.resolver turns ran.1.resolver.items) }
    {
        let Team {
            boxes,
            batcher,
            voter,
            resolver,
        } = self;
        let shared = &boxes;
        let (batched, (voted, resolved)) = thread::join(
            rt,
            move || -> Result<(BatcherThread<S>, Vec<StepOut>), AllocError>
                requires { BatcherMayRun batcher shared.now }
                ensures { IfOk result (λ ran. BatcherGoesOn batcher ran.0 turns ran.1.items) }
            { batcher.run(rt, shared, turns, gate) },
            move || -> (
                Result<(VoterThread<S, L, J>, Vec<StepOut>), AllocError>,
                Result<(ResolverThread<S>, Vec<StepOut>), AllocError>,
            )
                requires voter { VoterMayRun voter shared.now }
                requires resolver { ResolverMayRun resolver shared.now }
                ensures voter { IfOk result.0 (λ ran. VoterGoesOn voter ran.0 turns ran.1.items) }
                ensures resolver { IfOk result.1
                    (λ ran. ResolverGoesOn resolver ran.0 turns ran.1.items) }
            {
                thread::join(
                    rt,
                    move || -> Result<(VoterThread<S, L, J>, Vec<StepOut>), AllocError>
                        requires { VoterMayRun voter shared.now }
                        ensures { IfOk result (λ ran. VoterGoesOn voter ran.0 turns ran.1.items) }
                    { voter.run(rt, shared, turns, gate) },
                    move || -> Result<(ResolverThread<S>, Vec<StepOut>), AllocError>
                        requires { ResolverMayRun resolver shared.now }
                        ensures { IfOk result
                            (λ ran. ResolverGoesOn resolver ran.0 turns ran.1.items) }
                    { resolver.run(rt, shared, turns, gate) },
                )
            },
        );
        let (batcher, by_batcher) = batched?;
        let (voter, by_voter) = voted?;
        let (resolver, by_resolver) = resolved?;
        let team = Team {
            boxes,
            batcher,
            voter,
            resolver,
        };
        let outs = Outs {
            batcher: by_batcher,
            voter: by_voter,
            resolver: by_resolver,
        };
        Ok((team, outs))
    }

    /// The records of the mailboxes, and the voter's journal. May wait.
    pub fn finish<R: Wait>(self, rt: &R) -> Result<(Logs, J), AllocError>
        requires share { ShareMailboxes self }
        ensures records { IfOk result (λ ended. Records self ended.0) }
        ensures journal { IfOk result (λ ended. ended.1 ≡ journal_of self.voter.actor) }
    {
        let Team {
            boxes,
            batcher,
            voter,
            resolver,
        } = self;
        let alloc = batcher.alloc;
        let logs = Logs {
            batcher: log_of_two(rt, alloc, boxes.batcher, batcher.own, voter.batcher)?,
            voter: log_of_three(
                rt,
                alloc,
                boxes.voter,
                voter.own,
                batcher.voter,
                resolver.voter,
            )?,
            resolver: log_of_two(rt, alloc, boxes.resolver, resolver.own, voter.resolver)?,
        };
        Ok((logs, voter.actor.into_journal()))
    }
}
