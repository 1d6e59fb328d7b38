//! What a journal keeps behind any calls.
ghost use Rattle.std.specs.Prelude.{◌≡◌, ◌++◌, ◌∷◌, ℕ, true, false, List, Contains, take};
ghost use Rattle.std.specs.List.{flat_map, list_any};
ghost use Rattle.simplex_wire.specs.declared.artifact.Artifact.{Artifact};
ghost use Rattle.simplex_journal.specs.Journal.{Section, crashed, replayed};
ghost use Rattle.simplex_journal.specs.Contents.{kept, numbers, IsRising};
ghost use Rattle.law_member.specs.Journal.{Call, Append, after, synced_of, read_of, prunes, syncs, is_stop, BeginsWith, StandIn};

/// What is read behind a stop is, section by section, the synced records and behind them the first pending ones. So
/// the synced records are read again, in the order in which they stood.
pub fn stops_keep_what_was_synced()
    ensures sections { (keep : ℕ) (sections : List Section)
        → replayed (crashed keep sections)
        ≡ flat_map (λ s. s.synced ++ take keep s.pending) sections }
    ensures order { (keep : ℕ) (sections : List Section)
        → StandIn (kept sections) (replayed (crashed keep sections)) }
{}

/// Whatever calls came, the numbers of the sections rise, and what is read is each section in this order.
pub fn records_are_read_by_section()
    ensures rising { (first : List Section) (past : List Call) → IsRising first
        → IsRising (after first past) }
    ensures read { (first : List Section) (past : List Call) → IsRising first
        → replayed (after first past)
        ≡ flat_map (λ number. read_of number (after first past)) (numbers (after first past)) }
{}

/// Whatever calls follow, stops among them, as long as none of them prunes the section: the synced records of the
/// section, and all that is read of it, begin with those that were synced before.
pub fn synced_records_stay()
    ensures synced { (first : List Section) (past later : List Call) (section : ℕ)
        → IsRising first → list_any (prunes section) later ≡ false
        → BeginsWith (synced_of section (after first (later ++ past)))
        (synced_of section (after first past)) }
    ensures read { (first : List Section) (past later : List Call) (section : ℕ)
        → IsRising first → list_any (prunes section) later ≡ false
        → BeginsWith (read_of section (after first (later ++ past)))
        (synced_of section (after first past)) }
{}

/// A record was appended to a section, and the section was synced then, with no stop in between. Whatever calls
/// followed, stops among them, it is read again, unless one of the calls since the append pruned the section.
pub fn appended_and_synced_records_are_read()
    ensures { (first : List Section) (past between later : List Call) (section : ℕ) (artifact : Artifact) (sync : Call)
        → IsRising first
        → syncs section sync ≡ true → list_any is_stop between ≡ false
        → list_any (prunes section) between ≡ false → list_any (prunes section) later ≡ false
        → Contains (replayed
        (after first (later ++ sync ∷ (between ++ Append section artifact ∷ past)))) artifact }
{}
