//! What votes have in common.
ghost use Rattle.std.specs.Prelude.{◌≡◌};
ghost use Rattle.simplex_round.specs.Votes as votes;
ghost use Rattle.simplex_round.specs.Forwarding as forwarding;
ghost use Rattle.simplex_round.specs.Acceptance.{vote_activity};

use simplex_types::Activity;
use simplex_values::{Proposal, Subject};
use simplex_wire::{Certificate, Finalization, Notarization, Nullification, Signatures, Vote};

/// Whether two subjects are one.
pub fn is_same_subject(a: &Subject, b: &Subject) -> bool
    ensures { result ≡ votes.is_same_subject a.now b.now }
{
    match (a, b) {
        (Subject::Notarize(p), Subject::Notarize(q)) => p.is_same(q),
        (Subject::Nullify(r), Subject::Nullify(s)) => r == s,
        (Subject::Finalize(p), Subject::Finalize(q)) => p.is_same(q),
        _ => false,
    }
}

/// The proposal that it is for: a nullify is for none.
pub fn proposal_of(vote: &Vote) -> Option<Proposal>
    ensures { result ≡ votes.vote_proposal vote.now }
{
    match vote {
        Vote::Notarize(it) => Some(it.proposal),
        Vote::Nullify(_) => None,
        Vote::Finalize(it) => Some(it.proposal),
    }
}

/// The vote as it is reported.
pub fn activity_of(vote: &Vote) -> Activity
    ensures { result ≡ vote_activity vote.now }
{
    match vote {
        Vote::Notarize(it) => Activity::Notarize(*it),
        Vote::Nullify(it) => Activity::Nullify(*it),
        Vote::Finalize(it) => Activity::Finalize(*it),
    }
}

/// Whether there is a proposal now that there was not before.
pub fn is_another(before: Option<Proposal>, now: Option<Proposal>) -> bool
    ensures { result ≡ forwarding.is_another before now }
{
    match (before, now) {
        (_, None) => false,
        (None, Some(_)) => true,
        (Some(before), Some(now)) => !before.is_same(&now),
    }
}

/// The certificate on the subject.
pub fn certificate_on(subject: &Subject, certificate: Signatures) -> Certificate
    ensures { result ≡ votes.certificate_on subject.now certificate }
{
    match subject {
        Subject::Notarize(proposal) => Certificate::Notarization(Notarization {
            proposal: *proposal,
            certificate,
        }),
        Subject::Nullify(round) => Certificate::Nullification(Nullification {
            round: *round,
            certificate,
        }),
        Subject::Finalize(proposal) => Certificate::Finalization(Finalization {
            proposal: *proposal,
            certificate,
        }),
    }
}
