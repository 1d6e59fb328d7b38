//! How a run is made.
ghost use Rattle.std.specs.Prelude.{◌≡◌, ◌<◌, [], Ok, Err, IfOk, IfErr, false};
ghost use Rattle.model_run.specs.Setting.{at_epoch_genesis};
ghost use Rattle.model_run.specs.Run.{Run, run};
ghost use Rattle.law_run.specs.Complete.{IsOneEach};
ghost use Rattle.law_run.specs.Limits.{KeepsTheLimit};
ghost use Rattle.law_run.specs.OneChain.{ReportOneChain};
ghost use Rattle.law_run.specs.Safe.{RunsSafely};
ghost use Rattle.law_run.specs.Sayings.{Each};
ghost use Rattle.simplex_network.specs.Answer.{is_memory};
ghost use Rattle.simplex_network.specs.Stands.{MadeBy};

use simplex_par::{OpenGate, run_network_par};
use simplex_run::{Transcript, run_network};
use simplex_transcript::{Event, Refusal, Setup};
use std::alloc::Global;
use std::thread::Threads;

/// How many workers step at once. There is one at least.
#[derive(Clone, Copy)]
pub(crate) struct Workers {
    pub(crate) count: u32,
    ghost some: { 0 < count },
}

/// How a run is made. Both ways make the same run.
#[derive(Clone, Copy)]
pub(crate) enum Making {
    /// One event behind the other.
    OneByOne,
    /// By so many workers, which step at once what stands apart.
    AtOnce(Workers),
}

impl Making {
    /// Runs the events, or tells the first refusal.
    pub(crate) fn run<R: Threads + Sync>(
        self,
        rt: &R,
        alloc: Global,
        setup: &Setup,
        events: &[Event],
    ) -> Result<Transcript, Refusal>
        ensures done { IfOk result (λ transcript. Run setup.now events.now
            ≡ Ok transcript.entries) }
        ensures network { IfOk result (λ transcript. MadeBy transcript.network (at_epoch_genesis setup.now)
            (run (at_epoch_genesis setup.now) [] events.now)) }
        ensures refused { IfErr result (λ refusal. is_memory refusal.error ≡ false
            → Run setup.now events.now ≡ Err refusal) }
        ensures safe { IfOk result
            (λ transcript. RunsSafely (at_epoch_genesis setup.now) events.now) }
        ensures one_chain { IfOk result (λ transcript. ReportOneChain transcript.entries) }
        ensures limit { IfOk result
            (λ transcript. Each (KeepsTheLimit setup.now) transcript.entries) }
        ensures entries { IfOk result (λ transcript. IsOneEach transcript.entries events.now) }
    {
        match self {
            Making::OneByOne => run_network(alloc, setup, events),
            Making::AtOnce(workers) => {
                run_network_par(rt, alloc, setup, events, workers.count, &OpenGate)
            }
        }
    }
}
