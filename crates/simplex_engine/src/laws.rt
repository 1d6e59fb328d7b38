//! Whom the actors hand messages to, by their rules alone.
ghost use Rattle.simplex_engine.specs.Laws.{StepsAreQuiet, StartsAreQuiet, BatcherIsQuiet, ResolverIsLeft};

/// Nothing that a voter hands on is for the voter itself.
pub fn voter_hands_itself_nothing()
    ensures steps { StepsAreQuiet }
    ensures starts { StartsAreQuiet }
{}

/// All that a batcher hands on is for the voter.
pub fn batcher_hands_to_the_voter_alone()
    ensures batcher { BatcherIsQuiet }
    ensures resolver { ResolverIsLeft }
{}
