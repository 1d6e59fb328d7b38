//! When the law's premises are met, and what an exception lets in.
ghost use Rattle.model_run.specs.Life.{Noted};
ghost use Rattle.std.specs.Prelude.{List};
ghost use Rattle.model_run.specs.Samples.{last, hears_first};
ghost use Rattle.law_run.specs.ForgingSamples.{forges, Answers, IsForgery};

/// The premises are met where a member that only nullifies hears a notarize, and answers it.
pub fn a_faulty_member_answers()
    ensures { (before : List Noted) × Answers before (hears_first last) }
{}

/// Injected bytes can be a forgery: a vote of an honest member that did not send it, with its own signature.
pub fn injected_bytes_can_forge()
    ensures { IsForgery forges }
{}
