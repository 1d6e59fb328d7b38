//! What a step sends and reports.
ghost use Rattle.std.specs.Prelude.{All};
ghost use Rattle.model_steps.specs.Voter.{OfStep};
ghost use Rattle.law_member.specs.Learned.{additions};
ghost use Rattle.law_member.specs.Outgoing.{MayGoOut};

/// What goes out in a step are votes, and certificates that the voter added, before or in this step. Each of these goes
/// to all. What is reported are such certificates, and a notarization as certified.
pub fn certificates_that_go_out_were_added()
    ensures { OfStep (λ made now input standing doing. All
        (MayGoOut (additions doing.desk.known)) doing.calls) }
{}
