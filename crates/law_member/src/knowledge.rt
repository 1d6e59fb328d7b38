//! What a step adds to what is known.
ghost use Rattle.std.specs.Prelude.{◌≡◌, ◌++◌, map};
ghost use Rattle.model_steps.specs.Voter.{OfStep};
ghost use Rattle.law_member.specs.VoterVotes.{constructed_votes};
ghost use Rattle.law_member.specs.Learned.{lasting, facts_of_step, additions, added_at, publications, publications_of};
ghost use Rattle.law_member.specs.Tidings.{of_proposals, tidings, MayLearn};

/// The certificates, verdicts and own votes that a step adds to what is known are those whose records it appends.
pub fn knowledge_is_written()
    ensures { OfStep (λ made now input standing doing. lasting doing.desk.known
        ≡ facts_of_step now doing.calls ++ lasting standing.desk.known) }
{}

/// The certificates that it adds are those that it hands on as added.
pub fn certificates_are_handed_on()
    ensures { OfStep (λ made now input standing doing. additions doing.desk.known
        ≡ map (added_at now) doing.added ++ additions standing.desk.known) }
{}

/// The publications that it adds are those of the nullifies that it hands to the batcher as own votes.
pub fn publications_are_handed_on()
    ensures { OfStep (λ made now input standing doing. publications doing.desk.known
        ≡ publications_of now (constructed_votes doing.handed)
        ++ publications standing.desk.known) }
{}

/// Of proposals a step learns nothing, or the one fact that what it took tells: the leader's proposal, or the member's
/// own, or that the application approves the one that it was to verify.
pub fn proposals_are_taken()
    ensures { OfStep (λ made now input standing doing.
        MayLearn (tidings standing input) (of_proposals standing.desk.known)
        (of_proposals doing.desk.known)) }
{}
