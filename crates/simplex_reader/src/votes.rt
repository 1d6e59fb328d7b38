//! The own votes that a step appended.
ghost use Rattle.std.specs.Prelude.{◌∷◌, ◌++◌, [], ℕ, List, OnOk};
ghost use Rattle.std.specs.List.{filter_map};
ghost use Rattle.model_rules.specs.Known.{Made, Fact};
ghost use Rattle.model_audit.specs.Reading.{votes_in};
ghost use Rattle.model_audit.specs.Rebuilt.{call_for};
ghost use Rattle.simplex_known.specs.Knows.{Knows};
ghost use Rattle.simplex_reader.specs.Votes.{vote_facts};

use model_audit::AuditCall;
use simplex_known::Known;
use simplex_wire::{Artifact, Vote};
use std::alloc::AllocError;

/// The own votes among the records that these calls append are known.
pub(crate) fn take_votes(known: &mut Known, calls: &[AuditCall]) -> Result<(), AllocError>
    ensures { OnOk result ((made : Made) (facts : List Fact) (now : ℕ) → Knows known.old made facts
        → Knows known.new made (votes_in now (filter_map call_for calls.now) ++ facts)) }
{
    for call in calls {
        take_call(known, call)?;
    }
    Ok(())
}

// And that of one call.
fn take_call(known: &mut Known, call: &AuditCall) -> Result<(), AllocError>
    ensures { OnOk result ((made : Made) (facts : List Fact) (now : ℕ) → Knows known.old made facts
        → Knows known.new made (votes_in now (filter_map call_for (call.now ∷ [])) ++ facts)) }
{
    match call {
        AuditCall::Append(_, artifact) => take_record(known, artifact),
        AuditCall::Sync(_)
        | AuditCall::Prune(_)
        | AuditCall::Send(_, _)
        | AuditCall::Report(_)
        | AuditCall::Other => Ok(()),
    }
}

// A vote that is appended is known.
fn take_record(known: &mut Known, artifact: &Artifact) -> Result<(), AllocError>
    ensures { OnOk result ((made : Made) (facts : List Fact) → Knows known.old made facts
        → Knows known.new made (vote_facts artifact.now ++ facts)) }
{
    match artifact {
        Artifact::Notarize(vote) => known.vote(&Vote::Notarize(*vote)),
        Artifact::Nullify(vote) => known.vote(&Vote::Nullify(*vote)),
        Artifact::Finalize(vote) => known.vote(&Vote::Finalize(*vote)),
        Artifact::Notarization(_)
        | Artifact::Nullification(_)
        | Artifact::Finalization(_)
        | Artifact::Certification(_, _) => Ok(()),
    }
}
