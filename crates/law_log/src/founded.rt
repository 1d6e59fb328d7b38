//! Whose votes stand behind what a log has.
ghost use Rattle.std.specs.Prelude.{List, Contains};
ghost use Rattle.simplex_transcript.specs.declared.node.Node.{Node};
ghost use Rattle.model_run.specs.Setting.{Setting};
ghost use Rattle.model_run.specs.Life.{Noted};
ghost use Rattle.law_run.specs.Safe.{IsSafe};
ghost use Rattle.model_log.specs.declared.entry.LogEntry.{LogEntry};
ghost use Rattle.law_log.specs.Founded.{IsFounded};
ghost use Rattle.law_log.specs.Logs.{log_at};
ghost use Rattle.law_log.specs.Reports.{entries_of};

/// Behind each entry of a log of a safe run is the notarize of an honest member, which appended it.
pub fn logged_proposals_were_notarized()
    ensures { (setting : Setting) (noted : List Noted) (node : Node) (entry : LogEntry) → IsSafe setting noted
        → Contains (log_at setting.setup (entries_of noted) node) entry
        → IsFounded setting.setup noted entry }
{}
