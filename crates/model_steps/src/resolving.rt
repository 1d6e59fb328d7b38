//! The resolver of an engine. Each clause is computed.
#![tactic(auto, unfolding(crate::specs::Computed::resolver_steps))]

ghost use Rattle.std.specs.Prelude.{◌≡◌, [], ◌∷◌};
ghost use Rattle.simplex_types.specs.declared.cause.BlockCause.TheVariants.{Undecodable, InvalidResponse};
ghost use Rattle.simplex_messages.specs.declared.call.Call.TheVariants as calls;
ghost use Rattle.simplex_messages.specs.declared.step.Outcome.TheVariants as outcomes;
ghost use Rattle.simplex_messages.specs.declared.step.Stop.TheVariants as stops;
ghost use Rattle.simplex_messages.specs.Step.{no_out};
ghost use Rattle.model_steps.specs.Resolving.{request, answer_none, asked, too_soon, silent, asked_again, heard_noise, asked_another, refused_request, heard_request, answered_request, nothing_handled, answered_amiss, asked_for_five, answered_well, last_out, for_voter_four, to_produce};

/// The resolver of an engine asks a member for what its voter lacks, waits for it, waits once more, and asks the next.
pub fn resolver_asks()
    ensures asks { (asked stops.None).out.calls ≡ request 2 0 1 ∷ [] }
    ensures is_cut { (asked (stops.Cut 1 0)).outcome ≡ outcomes.Cut }
    ensures makes_nothing_then { (asked (stops.Cut 1 0)).out.calls ≡ [] }
    ensures waits { too_soon.outcome ≡ outcomes.Idle }
    ensures gives_up { silent.outcome ≡ outcomes.Done }
    ensures asks_nobody_yet { silent.out.calls ≡ [] }
    ensures asks_the_next { asked_again.out.calls ≡ request 3 1 1 ∷ [] }
{}

/// A member whose bytes are no message is blocked: it is asked nothing more, and what it asks is refused.
pub fn resolver_passes_over_the_blocked()
    ensures blocks { heard_noise.out.calls ≡ calls.Block 2 Undecodable ∷ [] }
    ensures asks_another { asked_another.out.calls ≡ request 3 0 1 ∷ [] }
    ensures refuses { refused_request.outcome ≡ outcomes.Refused }
    ensures does_nothing { refused_request.out ≡ no_out }
{}

/// It answers a peer by way of its handler.
pub fn resolver_answers()
    ensures hears { heard_request.out.handed ≡ to_produce 0 1 ∷ [] }
    ensures answers { answered_request.out.calls ≡ answer_none 2 5 ∷ [] }
    ensures is_done { nothing_handled.outcome ≡ outcomes.Idle }
{}

/// In terms of five views a nullification of view 4 answers for view 5 and not for view 6: there it blocks the peer, and
/// here it is handed to the voter, and view 5 is not asked for any more.
pub fn nullifications_answer_for_their_term()
    ensures blocks { (last_out answered_amiss).calls ≡ calls.Block 1 InvalidResponse ∷ [] }
    ensures hands_on_nothing { (last_out answered_amiss).handed ≡ [] }
    ensures asks_for_both { (last_out asked_for_five).calls ≡ request 2 0 1 ∷ request 3 1 5 ∷ [] }
    ensures hands_on { (last_out answered_well).handed ≡ for_voter_four ∷ [] }
    ensures blocks_nobody { (last_out answered_well).calls ≡ [] }
{}
