//! The words for what has a name.
ghost use Rattle.std.specs.Prelude.{◌≡◌};
ghost use Rattle.simplex_trace.specs.Words as words;

use simplex_types::{Activity, Artifact, BlockCause};

pub(crate) fn record_word(artifact: &Artifact) -> &'static str
    ensures { result.now ≡ words.record_word artifact.now }
{
    match artifact {
        Artifact::Notarize(_) => "notarize",
        Artifact::Notarization(_) => "notarization",
        Artifact::Certification(_, _) => "certification",
        Artifact::Nullify(_) => "nullify",
        Artifact::Nullification(_) => "nullification",
        Artifact::Finalize(_) => "finalize",
        Artifact::Finalization(_) => "finalization",
    }
}

pub(crate) fn report_word(activity: &Activity) -> &'static str
    ensures { result.now ≡ words.report_word activity.now }
{
    match activity {
        Activity::Notarize(_) => "notarize",
        Activity::Notarization(_) => "notarization",
        Activity::Certification(_) => "certification",
        Activity::Nullify(_) => "nullify",
        Activity::Nullification(_) => "nullification",
        Activity::Finalize(_) => "finalize",
        Activity::Finalization(_) => "finalization",
        Activity::ConflictingNotarize(_) => "evidence ConflictingNotarize",
        Activity::ConflictingFinalize(_) => "evidence ConflictingFinalize",
        Activity::NullifyFinalize(_) => "evidence NullifyFinalize",
    }
}

pub(crate) fn cause_word(cause: BlockCause) -> &'static str
    ensures { result.now ≡ words.cause_word cause }
{
    match cause {
        BlockCause::Undecodable => "undecodable bytes",
        BlockCause::WrongEpoch => "a wrong epoch",
        BlockCause::InvalidCertificate => "an invalid certificate",
        BlockCause::WrongSender => "a vote of another signer",
        BlockCause::ConflictingVotes => "conflicting votes",
        BlockCause::NullifyAndFinalize => "nullifying and finalizing",
        BlockCause::InvalidSignature => "an invalid signature",
        BlockCause::LeaderConflict => "a contradicted proposal",
        BlockCause::InvalidResponse => "an invalid response",
    }
}
