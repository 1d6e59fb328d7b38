//! What comes of a step.
ghost use Rattle.std.specs.Prelude.{◌≡◌, true, false, IfOk};
ghost use Rattle.std.specs.Option.{option_map};
ghost use Rattle.simplex_reader.specs.Failing.{is_failed};
ghost use Rattle.simplex_reader.specs.Follows.{TakesStep};

use crate::pruning::ruled_prune;
use crate::reader::Reader;
use crate::sections::take_calls;
use crate::taking::{nothing_due, take_in};
use crate::votes::take_votes;
use model_audit::AuditEntry;
use model_rules::Asked;
use simplex_due::Due;
use simplex_messages::{Outcome, Stop};
use simplex_transcript::StepSource;
use simplex_wire::Scheme;
use std::alloc::{AllocError, Global};

impl Reader {
    /// Takes in the entry of a step of the node, which runs and signs by this scheme, and gives the votes that were due in it.
    /// Where it took an answer to a request, this is the request.
    pub fn take_step<S: Scheme>(
        &mut self,
        alloc: Global,
        scheme: &S,
        source: StepSource,
        stop: Stop,
        entry: &AuditEntry,
        asked: Option<&Asked>,
    ) -> Result<Due, AllocError>
        ensures { IfOk result (λ due. TakesStep self.old self.new (S.attests scheme.now) source stop entry.now
            (option_map (λ asked. asked.now) asked.entry) due) }
    {
        if is_failed(entry.outcome) {
            self.take_failed(alloc, scheme, source, stop, entry, asked)
        } else {
            self.take_made(alloc, scheme, source, stop, entry, asked)
        }
    }

    // Takes in a step in which no call of the journal failed.
    fn take_made<S: Scheme>(
        &mut self,
        alloc: Global,
        scheme: &S,
        source: StepSource,
        stop: Stop,
        entry: &AuditEntry,
        asked: Option<&Asked>,
    ) -> Result<Due, AllocError>
        ensures { IfOk result (λ due. is_failed entry.now.outcome ≡ false
            → TakesStep self.old self.new (S.attests scheme.now) source stop entry.now
            (option_map (λ asked. asked.now) asked.entry) due) }
    {
        let added = entry.added.as_slice();
        let due = take_in(&mut self.known, scheme, added, source, &entry.took, asked)?;
        take_votes(&mut self.known, entry.calls.as_slice())?;
        take_calls(&mut self.stored, alloc, entry, stop, None)?;
        Ok(due)
    }

    // Takes in a step in which a call of the journal failed. The node stops, so what it knows is spent on what the rules make.
    fn take_failed<S: Scheme>(
        &mut self,
        alloc: Global,
        scheme: &S,
        source: StepSource,
        stop: Stop,
        entry: &AuditEntry,
        asked: Option<&Asked>,
    ) -> Result<Due, AllocError>
        ensures { IfOk result (λ due. is_failed entry.now.outcome ≡ true
            → TakesStep self.old self.new (S.attests scheme.now) source stop entry.now
            (option_map (λ asked. asked.now) asked.entry) due) }
    {
        let prune = ruled_prune(&mut self.known, scheme, source, &entry.took, asked)?;
        take_calls(&mut self.stored, alloc, entry, stop, prune)?;
        Ok(nothing_due())
    }
}

// Whether a call of the journal failed.
fn is_failed(outcome: Outcome) -> bool
    ensures { result ≡ is_failed outcome }
{
    matches!(outcome, Outcome::Journal)
}
