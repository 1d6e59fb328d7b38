//! Which votes a step sends.
ghost use Rattle.std.specs.Prelude.{◌≡◌, ◌≤◌, map, filter, length};
ghost use Rattle.model_steps.specs.Voter.{OfStep};
ghost use Rattle.law_member.specs.VoterVotes.{vote_packets, packet_of, constructed_votes, is_nullify, nullifies, votes_by_rule};

/// What a step sends on the vote channel are the votes that the rules give, in this order and to all: in a timer
/// step the nullify of the current view, and then the notarize and the finalize of the view that the step touches.
pub fn sent_votes_are_by_rule()
    ensures { OfStep (λ made now input standing doing. vote_packets doing.calls
        ≡ map packet_of (votes_by_rule made now standing input)) }
{}

/// The own votes that a step hands to the batcher are the same.
pub fn own_votes_are_by_rule()
    ensures { OfStep (λ made now input standing doing. constructed_votes doing.handed
        ≡ votes_by_rule made now standing input) }
{}

/// The nullifies among them are, in a timer step, that of the current view; in any other step there are none.
pub fn nullifies_are_of_timer_steps()
    ensures { OfStep (λ made now input standing doing. filter is_nullify (constructed_votes doing.handed)
        ≡ nullifies made standing.desk.known input) }
{}

/// At most one nullify goes out in a step.
pub fn one_nullify_at_most()
    ensures { OfStep (λ made now input standing doing.
        length (filter is_nullify (constructed_votes doing.handed)) ≤ 1) }
{}
