//! Own votes, and how they are sent.
ghost use Rattle.std.specs.Prelude.{◌≡◌, ◌++◌, OnOk, IfOk, option_map, option_to_list};
ghost use Rattle.model_faults.specs.Heard.{vote_on, own_vote, votes_to_all};
ghost use Rattle.model_faults.specs.Equivocator.{to_members};

use model_faults::Sent;
use simplex_types::{
    Attestation, Bytes, Channel, Finalize, Notarize, Nullify, Recipients, Scheme, Sequence,
    Subject, Vote,
};
use std::alloc::{AllocError, Global};

/// The vote on the subject with this attestation.
pub(crate) fn vote_with(subject: &Subject, attestation: Attestation) -> Vote
    ensures { result ≡ vote_on subject.now attestation }
{
    match *subject {
        Subject::Notarize(proposal) => Vote::Notarize(Notarize {
            proposal,
            attestation,
        }),
        Subject::Nullify(round) => Vote::Nullify(Nullify { round, attestation }),
        Subject::Finalize(proposal) => Vote::Finalize(Finalize {
            proposal,
            attestation,
        }),
    }
}

/// The own vote on the subject, where the scheme signs it.
#[tactic(auto, unfolding(model_faults::specs::Heard::own_vote))]
pub(crate) fn own<S: Scheme>(scheme: &S, subject: &Subject) -> Option<Vote>
    ensures { result ≡ own_vote (S.attests scheme.now) subject.now }
{
    let attestation = scheme.sign(subject)?;
    Some(vote_with(subject, attestation))
}

/// Sends the vote, if there is one, to these members.
pub(crate) fn send(
    alloc: Global,
    vote: Option<Vote>,
    recipients: Recipients,
    sent: &mut Sequence<Sent>,
) -> Result<(), AllocError>
    ensures { OnOk result (sent.new
        ≡ sent.old ++ option_to_list (option_map (to_members recipients) vote)) }
{
    if let Some(vote) = vote {
        sent.push(Sent {
            channel: Channel::Vote,
            recipients,
            bytes: Bytes::from_vec(vote.encode(alloc)?),
        })?;
    }
    Ok(())
}

/// The own votes on these subjects, each to all, in order. What the scheme does not sign is left out.
#[tactic(auto, unfolding(model_faults::specs::Heard::votes_to_all), using(crate::proofs::VotesToAll::one_more))]
pub(crate) fn votes_to_all<S: Scheme>(
    alloc: Global,
    scheme: &S,
    subjects: &[Subject],
) -> Result<Sequence<Sent>, AllocError>
    ensures { IfOk result (λ sent. sent ≡ votes_to_all (S.attests scheme.now) subjects.now) }
{
    let mut sent = Sequence::new(alloc);
    for subject in subjects {
        send(alloc, own(scheme, subject), Recipients::All, &mut sent)?;
    }
    Ok(sent)
}
