//! What an engine is connected to. Each may answer want of memory.
ghost use Rattle.std.specs.Prelude.{◌≡◌, ℕ, List, Result};
ghost use Rattle.std.specs.declared.alloc.AllocError.{AllocError};
ghost use Rattle.simplex_values.specs.declared.round.Context.{Context};
ghost use Rattle.simplex_values.specs.declared.round.Round.{Round};
ghost use Rattle.simplex_values.specs.declared.plan.Plan.{Plan};
ghost use Rattle.simplex_values.specs.declared.feedback.Feedback.{Feedback};
ghost use Rattle.simplex_types.specs.declared.cause.BlockCause.{BlockCause};
ghost use Rattle.simplex_types.specs.Reporting.{if_there};

use crate::cause::BlockCause;
use simplex_values::{Context, Digest, Feedback, Participant, Plan, Round, View};
use std::alloc::AllocError;

/// Is told what an engine saw.
pub trait Reporter {
    type Activity;

    /// What the reporter answers to an activity, and what it is then.
    ghost reports: { Self → Self.Activity → Result Feedback AllocError → Self → Type 0 };

    /// Takes an activity.
    fn report(&mut self, activity: Self::Activity) -> Result<Feedback, AllocError>
        ensures told { reports self.old activity result self.new };
}

impl<R: Reporter<Activity: Drop>> Reporter for Option<R> {
    type Activity = R::Activity;

    ghost reports = { if_there R.reports };

    fn report(&mut self, activity: R::Activity) -> Result<Feedback, AllocError> {
        match self {
            None => Ok(Feedback::Ok),
            Some(reporter) => reporter.report(activity),
        }
    }
}

/// An application that makes and judges payloads. Each call answers the number of the request, under which
/// the answer comes later.
pub trait Automaton {
    /// What the application answers where a payload is asked for, and what it is then.
    ghost proposes: { Self → Context → Result ℕ AllocError → Self → Type 0 };

    /// What it answers where it is asked whether a payload is valid, and what it is then.
    ghost verifies: { Self → Context → List ℕ → Result ℕ AllocError → Self → Type 0 };

    /// Asks for a payload.
    fn propose(&mut self, context: Context) -> Result<u64, AllocError>
        ensures asked { proposes self.old context result self.new };

    /// Asks whether the payload is valid.
    fn verify(&mut self, context: Context, payload: Digest) -> Result<u64, AllocError>
        ensures asked { verifies self.old context payload result self.new };
}

/// An application that also prepares payloads for the next term, and certifies notarized ones.
pub trait CertifiableAutomaton: Automaton {
    /// What the application answers where a payload of the next term is asked for, and what it is then.
    ghost prepares: { Self → Context → Result ℕ AllocError → Self → Type 0 };

    /// What it answers where it is asked whether a notarized payload may be certified, and what it is then.
    ghost certifies: { Self → Round → List ℕ → Result ℕ AllocError → Self → Type 0 };

    /// Asks for a payload of the next term, before its parent is certified.
    fn prepare(&mut self, context: Context) -> Result<u64, AllocError>
        ensures asked { prepares self.old context result self.new };

    /// Asks whether the notarized payload may be certified.
    fn certify(&mut self, round: Round, payload: Digest) -> Result<u64, AllocError>
        ensures asked { certifies self.old round payload result self.new };
}

/// Sends payloads to members.
pub trait Relay {
    /// What the relay answers where a payload is to be sent, and what it is then.
    ghost broadcasts: { Self → List ℕ → Plan → Result Feedback AllocError → Self → Type 0 };

    /// Sends the payload as the plan says.
    fn broadcast(&mut self, payload: Digest, plan: Plan) -> Result<Feedback, AllocError>
        ensures sent { broadcasts self.old payload plan result self.new };
}

/// Keeps members out.
pub trait Blocker {
    /// What the blocker answers where a member is to be kept out, and what it is then.
    ghost blocks: { Self → ℕ → BlockCause → Result (Unit {0}) AllocError → Self → Type 0 };

    /// Blocks the member, for this cause.
    fn block(&mut self, member: Participant, cause: BlockCause) -> Result<(), AllocError>
        ensures blocked { blocks self.old member cause result self.new };
}

/// Tells how far a member is.
pub trait Monitor {
    /// The last view that it reports.
    ghost latest: { Self → ℕ };

    /// The last view that it reports.
    fn latest(&self) -> View
        ensures { result ≡ latest self.now };
}
