//! What the logs of a whole run are.
ghost use Rattle.std.specs.Prelude.{List};
ghost use Rattle.simplex_transcript.specs.declared.entry.Entry.{Entry};
ghost use Rattle.simplex_transcript.specs.declared.event.Event.{Event};
ghost use Rattle.simplex_transcript.specs.declared.setup.Setup.{Setup};
ghost use Rattle.law_log.specs.Logs.{logs_in};
ghost use Rattle.law_log.specs.Transcripts.{IsTranscript, ReportsDoNotClash, AreLogsOf};

/// The logs of a whole run are of one chain, and nothing that a node reported clashes with what it reported before.
pub fn logs_of_a_whole_run()
    ensures logs { (setup : Setup) (events : List Event) (entries : List Entry)
        → IsTranscript setup events entries → AreLogsOf setup entries (logs_in setup entries) }
    ensures clashes { (setup : Setup) (events : List Event) (entries : List Entry)
        → IsTranscript setup events entries → ReportsDoNotClash setup entries }
{}
