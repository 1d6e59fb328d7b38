//! Who proposes on a certified proposal, and the votes on two proposals there.
ghost use Rattle.std.specs.Prelude.{◌≡◌, ◌+◌, ◌<◌, ◌^◌, ◌-◌, IfOk, IfSome, OnSome, None, if◌then◌else◌};
ghost use Rattle.simplex_values.specs.declared.proposal.Subject.TheVariants as subjects;
ghost use Rattle.model_faults.specs.Payload.{payload_digest};
ghost use Rattle.model_faults.specs.Equivocator.{Made, next_round, leads_next, equivocates};
ghost use Rattle.model_faults.specs.Words.{Words};
ghost use Rattle.simplex_mocks.specs.Equivocating.{made_of};

use crate::others::{other_at, others_but};
use crate::payload::payload_digest;
use crate::sending::{own, send};
use model_faults::Sent;
use simplex_types::elector::Elector;
use simplex_types::{
    Epoch, Participant, Proposal, Recipients, Round, Scheme, Sequence, Subject, View,
};
use std::alloc::{AllocError, Global};

/// The round of the next view.
pub(crate) fn next_round(epoch: Epoch, view: View) -> Round
    requires { view < 2 ^ 64 - 1 }
    ensures { result ≡ record { epoch = epoch; view = view + 1 } }
{
    Round {
        epoch,
        view: View(view.0 + 1),
    }
}

/// The own number, where the member leads the next view and has another member to send to.
pub(crate) fn next_leader<S: Scheme, L: Elector>(
    scheme: &S,
    elector: &L,
    epoch: Epoch,
    view: View,
) -> Option<Participant>
    ensures room { OnSome result (view < 2 ^ 64 - 1) }
    ensures others { OnSome result (1 < S.members scheme.now) }
    ensures below { IfSome result (λ me. me < S.members scheme.now) }
    ensures who { (words : Words) → result
        ≡ (if leads_next (made_of S.attests S.member S.members L.elects scheme.now elector.now epoch words) view
        then S.member scheme.now else None) }
{
    let me = scheme.me()?;
    if view.0 == u64::MAX || scheme.participants() < 2 {
        return None;
    }
    if elector.elect(next_round(epoch, view)) == me {
        Some(me)
    } else {
        None
    }
}

/// The subject of a notarize: a proposal for the round on the certified one, whose payload has this word.
fn notarize_with(round: &Round, parent: &Proposal, word: u64) -> Subject
    ensures { result ≡ subjects.Notarize
        (record {
          round = round.now;
          parent = parent.now.round.view;
          payload = payload_digest round.now parent.now.payload word;
        }) }
{
    Subject::Notarize(Proposal {
        round: *round,
        parent: parent.round.view,
        payload: payload_digest(round, &parent.payload, word),
    })
}

/// Both votes of a leader: the first word names who gets the first vote, and the others get the second. Each payload
/// has a word of its own.
#[tactic(auto, unfolding(model_faults::specs::Equivocator::equivocates))]
pub(crate) fn equivocate<S: Scheme>(
    alloc: Global,
    scheme: &S,
    round: &Round,
    me: Participant,
    parent: &Proposal,
    words: (u64, u64, u64),
) -> Result<Sequence<Sent>, AllocError>
    requires members { 1 < S.members scheme.now }
    requires me { me < S.members scheme.now }
    ensures { (made : Made) → made.attests ≡ S.attests scheme.now → made.members ≡ S.members scheme.now
        → round.now ≡ next_round made parent.now.round.view
        → IfOk result (λ sent. sent ≡ equivocates made me parent.now words.0 words.1 words.2) }
{
    let n = scheme.participants();
    let victim = other_at(me, (words.0 % u64::from(n - 1)) as u32);
    let others = others_but(alloc, n, me, victim)?;
    let first = own(scheme, &notarize_with(round, parent, words.1));
    let second = own(scheme, &notarize_with(round, parent, words.2));
    let mut sent = Sequence::new(alloc);
    send(alloc, first, Recipients::One(victim), &mut sent)?;
    send(alloc, second, Recipients::Some(others), &mut sent)?;
    Ok(sent)
}
