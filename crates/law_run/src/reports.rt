//! What engines report: what is final, and evidence.
ghost use Rattle.std.specs.Prelude.{List};
ghost use Rattle.simplex_wire.specs.declared.certificate.Finalization.{Finalization};
ghost use Rattle.model_run.specs.Run as runs;
ghost use Rattle.model_run.specs.Setting.{Setting};
ghost use Rattle.model_run.specs.Life.{Noted};
ghost use Rattle.law_run.specs.Blame.{BlamesNoHonest};
ghost use Rattle.law_run.specs.Chains.{IsOnEachChain};
ghost use Rattle.law_run.specs.OneChain.{AreOfOneChain, IsReported, ReportOneChain};
ghost use Rattle.law_run.specs.Safe.{IsSafe, RunsSafely};
ghost use Rattle.law_run.specs.Sayings.{Each};

/// In a safe run two finalizations that engines report are of one proposal where they are of one view, and none skips the
/// other. Each chain of certified proposals that goes down to the view of one of them, or past it, has its proposal.
pub fn reported_finalizations_agree()
    ensures pairs { (setting : Setting) (noted : List Noted) (f g : Finalization)
        → IsSafe setting noted → IsReported noted f → IsReported noted g
        → AreOfOneChain f.proposal g.proposal }
    ensures chains { (setting : Setting) (noted : List Noted) (f : Finalization)
        → IsSafe setting noted → IsReported noted f → IsOnEachChain setting.setup noted f.proposal }
{}

/// What a transcript of a safe run reports as final is of one chain, whichever nodes report it.
pub fn transcripts_report_one_chain()
    ensures { runs.OfRun (λ setting events entries. RunsSafely setting events
        → ReportOneChain entries) }
{}

/// No evidence that a transcript of a safe run reports names an honest member, whichever node reports it.
pub fn transcripts_blame_no_honest_member()
    ensures { runs.OfRun (λ setting events entries. RunsSafely setting events
        → Each (BlamesNoHonest setting.setup) entries) }
{}
