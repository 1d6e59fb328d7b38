//! Payloads keep the limit.
ghost use Rattle.model_run.specs.Run as runs;
ghost use Rattle.law_run.specs.Sayings.{Each};
ghost use Rattle.law_run.specs.Fitting.{IsTyped};
ghost use Rattle.law_run.specs.Limits.{KeepsTheLimit};

/// Where setup and events make a transcript, whose values keep to their types, no packet of a member that is not faulty
/// is longer than `max_payload_size` says for so many members: no vote, no certificate, no request and no answer.
pub fn payloads_keep_the_limit()
    ensures { runs.OfRun (λ setting events entries. Each IsTyped entries
        → Each (KeepsTheLimit setting.setup) entries) }
{}
