//! Chains of members whose logs agree.
ghost use Rattle.std.specs.Prelude.{◌≡◌, ◌<◌, ◌≤◌, ℕ, List, Some, Ok, length};
ghost use Rattle.simplex_transcript.specs.declared.entry.Entry.{Entry};
ghost use Rattle.simplex_transcript.specs.declared.event.Event.{Event};
ghost use Rattle.simplex_transcript.specs.declared.setup.Setup.{Setup};
ghost use Rattle.model_log.specs.declared.entry.LogEntry.{LogEntry};
ghost use Rattle.model_log.specs.Fronts.{AreFronts};
ghost use Rattle.law_log.specs.Logs.{logs_in};
ghost use Rattle.law_log.specs.Transcripts.{IsTranscript};
ghost use Rattle.law_epochs.specs.Alike.{AreAlike};
ghost use Rattle.model_epochs.specs.Chain.{chain_of, payload_at, closing_payload};
ghost use Rattle.model_epochs.specs.Epochs.{Input, Ran, Epochs, lists_of};
ghost use Rattle.law_epochs.specs.Whole.{AreEpochs, ClosesAs, AreChainsOf, AreLinked};

/// Where of each epoch one log begins the other, one chain begins the other.
pub fn chains_are_fronts()
    ensures { (height : ℕ) (xs ys : List (ℕ × List LogEntry))
        → AreAlike xs ys → AreFronts (chain_of height xs) (chain_of height ys) }
{}

/// Logs of which one begins the other have one payload at each height that both reach.
pub fn long_logs_agree()
    ensures { (height : ℕ) (a b : List LogEntry) → 0 < height
        → height ≤ length a → height ≤ length b → AreFronts a b
        → payload_at height a ≡ payload_at height b }
{}

/// Whichever log reaches the height, its payload there is the one that closes the epoch.
pub fn epochs_close_as_one()
    ensures { (height : ℕ) (setup : Setup) (events : List Event) (entries : List Entry) (digest : List ℕ)
        → 0 < height → IsTranscript setup events entries
        → closing_payload height (lists_of (logs_in setup entries)) ≡ Some digest
        → ClosesAs height setup entries digest }
{}

/// The first epoch runs from the genesis digest of its number, and each later one from the payload that closed the one before: the
/// payload at the height in each log that reaches it, of which there is one.
pub fn epochs_are_linked()
    ensures { (height : ℕ) (inputs : List Input) (rans : List Ran)
        → 0 < height → Epochs height inputs ≡ Ok rans → AreEpochs height inputs rans
        → AreLinked height inputs rans }
{}

/// Where the run of each epoch is safe, each request on view 0 names its epoch's genesis digest, and of the chains of any two
/// members one begins the other.
pub fn chains_of_whole_runs()
    ensures { (height : ℕ) (inputs : List Input) (rans : List Ran)
        → AreEpochs height inputs rans → AreChainsOf height inputs rans }
{}
