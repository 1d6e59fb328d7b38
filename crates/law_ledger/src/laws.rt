//! What holds of the ledger of a whole run.
ghost use Rattle.std.specs.Prelude.{◌≡◌, ℕ, List, None};
ghost use Rattle.simplex_transcript.specs.declared.entry.Entry.{Entry};
ghost use Rattle.simplex_transcript.specs.declared.event.Event.{Event};
ghost use Rattle.simplex_transcript.specs.declared.setup.Setup.{Setup};
ghost use Rattle.law_log.specs.Logs.{logs_in};
ghost use Rattle.law_log.specs.Transcripts.{IsTranscript};
ghost use Rattle.model_ledger.specs.Blocks.{is_sound};
ghost use Rattle.law_ledger.specs.Answers.{bad_answer};
ghost use Rattle.law_ledger.specs.Whole.{ledger_fault, NoneIsMissing, IsLedgerOf};

/// Where no answer to an honest node is for a payload without a sound block, each payload of each log has one.
pub fn no_block_is_missing()
    ensures { (setup : Setup) (events : List Event) (entries : List Entry) (blocks : List (List ℕ)) → IsTranscript setup events entries
        → bad_answer (is_sound blocks) setup entries events ≡ None
        → NoneIsMissing setup entries blocks }
{}

/// Where nothing is wrong with accounts, blocks and answers, the logs of a whole run have a ledger.
pub fn ledger_of_a_whole_run()
    ensures { (setup : Setup) (events : List Event) (entries : List Entry) (accounts : List ℕ) (blocks : List (List ℕ)) → IsTranscript setup events entries
        → ledger_fault setup entries events accounts blocks ≡ None
        → IsLedgerOf setup entries blocks accounts (logs_in setup entries) }
{}
