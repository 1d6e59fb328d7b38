//! What goes when messages came for which there was no room. Each clause is computed.
#![tactic(auto, unfolding(crate::specs::Computed::policies))]

ghost use Rattle.std.specs.Prelude.{◌≡◌, [], ◌∷◌, true, Some, None};
ghost use Rattle.simplex_values.specs.declared.ask.Kind.TheVariants as kind;
ghost use Rattle.simplex_values.specs.declared.timeout.TimeoutReason.TheVariants.{LeaderTimeout, LeaderNullify, Inactivity};
ghost use Rattle.simplex_mailbox.specs.Waiting.{in_turn, without};
ghost use Rattle.simplex_messages.specs.declared.batcher.Message.TheVariants as batcher;
ghost use Rattle.simplex_messages.specs.declared.voter.Message.TheVariants as voter;
ghost use Rattle.simplex_messages.specs.declared.resolver.MailboxMessage.TheVariants as resolver;
ghost use Rattle.simplex_messages.specs.declared.resolver.HandlerMessage.TheVariants as handler;
ghost use Rattle.simplex_messages.specs.Policies.{voter_handled, resolver_handled, batcher_handled, handler_handled, has_left, handler_leave};
ghost use Rattle.simplex_messages.specs.Samples.{round, proposal, nullify, finalize, nullification, finalization, waits, goes};

/// A finalization goes first, with what is above its view behind it; of two timeouts the leader's nullify stays.
pub fn voter_mail_comes_out()
    ensures finalization_first { let final = voter.Verified (finalization (proposal 3 2)) in
        goes voter_handled (voter.Proposal (proposal 2 1) ∷ voter.Timeout (round 2) LeaderTimeout
        ∷ voter.Verified (nullification 2) ∷ voter.Proposal (proposal 4 3) ∷ final ∷ [])
        ≡ final ∷ voter.Proposal (proposal 4 3) ∷ [] }
    ensures of_its_view { let final = voter.Verified (finalization (proposal 3 2)) in
        goes voter_handled
        (voter.Proposal (proposal 3 2) ∷ final ∷ voter.Verified (nullification 3) ∷ [])
        ≡ final ∷ [] }
    ensures nullify_last { goes voter_handled (voter.Timeout (round 4) Inactivity
        ∷ voter.Timeout (round 4) LeaderNullify ∷ []) ≡ voter.Timeout (round 4) LeaderNullify ∷ [] }
    ensures nullify_first { goes voter_handled (voter.Timeout (round 4) LeaderNullify
        ∷ voter.Timeout (round 4) Inactivity ∷ []) ≡ voter.Timeout (round 4) LeaderNullify ∷ [] }
    ensures in_its_place { goes voter_handled (voter.Timeout (round 4) Inactivity
        ∷ voter.Proposal (proposal 4 3) ∷ voter.Timeout (round 4) LeaderNullify ∷ [])
        ≡ voter.Timeout (round 4) LeaderNullify ∷ voter.Proposal (proposal 4 3) ∷ [] }
    ensures first_stays { goes voter_handled (voter.Timeout (round 4) LeaderTimeout
        ∷ voter.Timeout (round 4) LeaderNullify ∷ []) ≡ voter.Timeout (round 4) LeaderTimeout ∷ [] }
{}

/// A lesser update is dropped, and a greater one drops the votes that it makes needless.
pub fn batcher_mail_comes_out()
    ensures greatest_stays { let vote = batcher.Constructed (finalize (proposal 3 2)) in
        goes batcher_handled (batcher.Update 5 1 0 None ∷ vote ∷ batcher.Update 4 1 4 None ∷ [])
        ≡ batcher.Update 5 1 0 None ∷ vote ∷ [] }
    ensures votes_go { goes batcher_handled (batcher.Constructed (nullify 2) ∷ batcher.Update 3 1 1 None ∷ [])
        ≡ batcher.Update 3 1 1 None ∷ [] }
    ensures vote_of_current { let vote = batcher.Constructed (nullify 3) in
        goes batcher_handled (vote ∷ batcher.Update 3 1 1 None ∷ vote ∷ [])
        ≡ batcher.Update 3 1 1 None ∷ vote ∷ [] }
    ensures greater_finalized { goes batcher_handled (batcher.Update 5 1 3 None
        ∷ batcher.Update 5 2 4 None ∷ batcher.Update 5 3 4 None ∷ [])
        ≡ batcher.Update 5 2 4 None ∷ [] }
{}

/// Replayed stays where it is, and a Resolve without a target is for everyone.
pub fn resolver_mail_comes_out()
    ensures replayed_stays { let final = resolver.Updated (finalization (proposal 3 2)) in
        goes resolver_handled (resolver.Updated (nullification 2)
        ∷ resolver.Replayed ∷ final ∷ resolver.Updated (nullification 5) ∷ [])
        ≡ final ∷ resolver.Replayed ∷ resolver.Updated (nullification 5) ∷ [] }
    ensures target_lost { goes resolver_handled
        (resolver.Resolve 10 3 kind.Notarization (Some 2)
        ∷ resolver.Resolve 10 3 kind.Notarization None ∷ [])
        ≡ resolver.Resolve 10 3 kind.Notarization None ∷ [] }
    ensures target_not_won { goes resolver_handled
        (resolver.Resolve 10 3 kind.Notarization None
        ∷ resolver.Resolve 10 3 kind.Notarization (Some 2) ∷ [])
        ≡ resolver.Resolve 10 3 kind.Notarization None ∷ [] }
    ensures another_kind { let missing = resolver.Resolve 10 3 kind.Notarization (Some 2) in
        goes resolver_handled (missing ∷ resolver.Resolve 10 3 kind.Nullification None ∷ [])
        ≡ missing ∷ resolver.Resolve 10 3 kind.Nullification None ∷ [] }
{}

/// Only responses wait, and those go whose requester waits.
pub fn handler_mail_comes_out()
    ensures { in_turn has_left (without handler_leave 2 (waits handler_handled
        (handler.Produce 1 1 ∷ handler.Deliver 2 2 [] [] true
        ∷ handler.Deliver 3 3 [] [] true ∷ [])))
        ≡ handler.Deliver 3 3 [] [] true ∷ [] }
{}
