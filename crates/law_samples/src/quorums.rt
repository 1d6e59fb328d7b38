//! Votes of a quorum, and certificates that are new. Each clause is computed.
#![tactic(auto, unfolding(model_steps::specs::Computed::batcher_steps))]

ghost use Rattle.std.specs.Prelude.{◌≡◌, true, ◌∷◌, Some};
ghost use Rattle.simplex_values.specs.declared.proposal.Subject.TheVariants as subjects;
ghost use Rattle.simplex_wire.specs.declared.certificate.CertificateKind.TheVariants as kinds;
ghost use Rattle.model_steps.specs.Batcher.{standing_after, step_out};
ghost use Rattle.law_agreement.specs.WorldExamples.{first};
ghost use Rattle.law_member.specs.Certificates.{IsSchemeOfMembers, BringsVerified, HandsOn};
ghost use Rattle.law_member.specs.Quorums.{taken, IsWorked, HasQuorum, HandsOnOne};
ghost use Rattle.law_samples.specs.Quorums.{batcher, two_votes, third_vote, round_after, last_round, notarization, brings};

use law_member::{new_certificates_are_handed_on, quorums_are_handed_on};

/// What a law asks of votes can be met: with the third of four members' votes there is a quorum, with the second none.
pub fn quorums_can_stand()
    ensures members { IsSchemeOfMembers batcher }
    ensures recovers { batcher.scheme.recovers ≡ true }
    ensures worked { IsWorked batcher (taken batcher two_votes third_vote) 1 }
    ensures round { (taken batcher two_votes third_vote).standing.rounds 1 ≡ Some last_round }
    ensures quorum { HasQuorum batcher last_round kinds.Notarization (subjects.Notarize first) }
    ensures no_quorum { HasQuorum batcher (round_after (standing_after batcher two_votes)) kinds.Notarization
        (subjects.Notarize first) → ⊥ }
{}

/// So the law says that the third vote's step hands on a certificate.
pub fn standing_quorums_are_handed_on()
    ensures { HandsOnOne (step_out batcher two_votes third_vote) (subjects.Notarize first) }
{
    quorums_can_stand();
    quorums_are_handed_on();
}

/// What a law asks of a certificate can be met: a notarization comes when there are two votes. It is new once.
pub fn certificates_can_be_new()
    ensures new { BringsVerified batcher
        (standing_after batcher two_votes) brings.input notarization }
    ensures known { BringsVerified batcher (standing_after batcher
        (brings ∷ two_votes)) brings.input notarization → ⊥ }
    ensures handed { HandsOn (step_out batcher two_votes brings) notarization }
{
    new_certificates_are_handed_on();
}
