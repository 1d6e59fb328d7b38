//! What a record keeps of a run.
ghost use Rattle.law_audit.specs.Recording.{all_recorded, shape_of, IsStep, IsFollowed};
ghost use Rattle.law_audit.specs.Taken.{Takes};
ghost use Rattle.law_run.specs.Safe.{AgreeAll};
ghost use Rattle.model_audit.specs.Alike.{AreAlike};
ghost use Rattle.model_audit.specs.Conflicts.{has_conflict};
ghost use Rattle.model_audit.specs.Journal.{sections_behind, behind_reading};
ghost use Rattle.model_rules.specs.Lists.{greatest_of};
ghost use Rattle.model_rules.specs.Views.{least_active};
ghost use Rattle.model_rules.specs.Calls.{pruned_view};
ghost use Rattle.model_audit.specs.Reading.{Read};
ghost use Rattle.model_audit.specs.Rebuilt.{call_for, rebuilt_entry};
ghost use Rattle.model_audit.specs.Record.{call_of, record_entry};
ghost use Rattle.model_audit.specs.Taking.{Taking};
ghost use Rattle.model_rules.specs.Known.{Made};
ghost use Rattle.model_run.specs.Entries.{is_own_floor, entry_of};
ghost use Rattle.model_run.specs.Forged.{first_forged};
ghost use Rattle.model_run.specs.Life.{Noted, clock_of};
ghost use Rattle.model_run.specs.Requests.{request_number, packet_for};
ghost use Rattle.model_run.specs.Setting.{Setting};
ghost use Rattle.model_steps.specs.Desk.{Doing};
ghost use Rattle.model_steps.specs.Performed.{performed};
ghost use Rattle.model_steps.specs.Voter.{Standing, stepped, started};
ghost use Rattle.model_steps.specs.VoterLife.{start_performed};
ghost use Rattle.simplex_journal.specs.Journal.{Section};
ghost use Rattle.simplex_messages.specs.declared.call.Call.{Call};
ghost use Rattle.simplex_messages.specs.declared.step.Stop.{Stop};
ghost use Rattle.simplex_messages.specs.declared.voter.VoterInput.{VoterInput};
ghost use Rattle.simplex_transcript.specs.declared.entry.Entry.{Entry};
ghost use Rattle.simplex_transcript.specs.declared.event.Event.{Event};
ghost use Rattle.simplex_transcript.specs.declared.node.Node.{Node};
ghost use Rattle.simplex_transcript.specs.declared.node.Ref.{Ref};
ghost use Rattle.simplex_transcript.specs.declared.setup.Setup.{Setup};
ghost use Rattle.simplex_types.specs.declared.floor.Floor.{Floor};
ghost use Rattle.simplex_wire.specs.declared.artifact.Artifact.{Artifact};
ghost use Rattle.simplex_wire.specs.declared.certificate.Finalization.{Finalization};
ghost use Rattle.std.specs.List.{filter_map};
ghost use Rattle.std.specs.Prelude.{ℕ, ◌≡◌, List, Some, ◌∷◌, false, map, Ok, Option, IsNone};

/// Of a run and of its record the clock, the packets, the numbers of requests, the floors and what is forged are the same.
pub fn records_tell_the_same()
    ensures clock { (before : List Noted) → clock_of (all_recorded before) ≡ clock_of before }
    ensures packet { (before : List Noted) (node : Node) (at : Ref)
        → packet_for (all_recorded before) node at ≡ packet_for before node at }
    ensures request { (before : List Noted) (node : Node) (at : Ref)
        → request_number (all_recorded before) node at ≡ request_number before node at }
    ensures floor { (setup : Setup) (before : List Noted) (floor : Option Finalization)
        → is_own_floor setup (all_recorded before) floor ≡ is_own_floor setup before floor }
    ensures forged { (setup : Setup) (before : List Noted) (entry : Entry)
        → first_forged setup (all_recorded before) (rebuilt_entry (record_entry entry))
        ≡ first_forged setup before entry }
{}

/// In the record of a run nothing is forged; and where no two certificates of a run conflict, none of its record do.
pub fn records_of_runs_agree()
    ensures genuine { (setting : Setting) (before : List Noted) (event : Event) (noted : Noted)
        → entry_of setting before event ≡ Ok noted
        → IsNone (first_forged setting.setup (all_recorded before)
        (rebuilt_entry (record_entry noted.entry))) }
    ensures agrees { (setup : Setup) (before : List Noted) (noted : Noted) → AgreeAll setup (noted ∷ before)
        → has_conflict setup (all_recorded before)
        (rebuilt_entry (record_entry noted.entry)) ≡ false }
{}

/// The journal that is read of what a record tells of a step is the one that the step leaves, whole or broken, where the
/// calls of the journal by the rules are as many as the step makes, with the same prunes at the same places.
pub fn journals_are_read()
    ensures { (stop : Stop) (doing : Doing) (sections : List Section) (ruled : List Call)
        → shape_of ruled ≡ shape_of doing.calls
        → sections_behind (performed stop doing sections).outcome stop ruled
        (filter_map call_for (map call_of (performed stop doing sections).out.calls)) sections
        ≡ (performed stop doing sections).sections }
{}

/// The journal that is read of what a record tells of a start is the one that the start leaves, by the calls that the rules make
/// of its floor and of what the journal held.
pub fn starts_are_read()
    ensures { (made : Made) (now : ℕ) (floor : Floor) (records : List Artifact) (stop : Stop) (sections : List Section)
        → (let doing = started made now floor records in let given = start_performed stop floor doing sections in
        sections_behind given.outcome (behind_reading stop) doing.calls
        (filter_map call_for (map call_of given.out.calls)) sections ≡ given.sections) }
{}

/// Where what is read before a step of the voter is alike to what the voter knows, and is its journal, so it is behind the step.
/// The voter has pruned up to its least active view, as it has wherever it stands in a run.
pub fn steps_are_followed()
    ensures { (made : Made) (now : ℕ) (s : Standing) (input : VoterInput) (taking : Taking) (d : Doing) (stop : Stop)
        (sections : List Section) (r : Read) (entry : Entry) → Takes s input taking
        → stepped made now s input ≡ Some d
        → IsStep entry (performed stop d sections) → AreAlike r.known s.desk.known
        → r.sections ≡ sections
        → greatest_of pruned_view s.desk.known ≡ least_active made s.desk.known
        → IsFollowed made now stop entry r taking d (performed stop d sections) }
{}
