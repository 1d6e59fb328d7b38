//! Nothing goes out before what was written is synced.
ghost use Rattle.std.specs.Prelude.{ℕ, ◌≡◌, List, [], ◌∷◌, ◌++◌, Some};
ghost use Rattle.simplex_values.specs.declared.plan.Channel.{Channel};
ghost use Rattle.simplex_values.specs.declared.plan.Recipients.{Recipients};
ghost use Rattle.simplex_wire.specs.declared.artifact.Artifact.{Artifact};
ghost use Rattle.simplex_types.specs.declared.activity.Activity.{Activity};
ghost use Rattle.simplex_types.specs.declared.floor.Floor.{Floor};
ghost use Rattle.simplex_messages.specs.declared.call.Call.{Call};
ghost use Rattle.simplex_messages.specs.declared.call.Call.TheVariants as calls;
ghost use Rattle.simplex_messages.specs.declared.voter.VoterInput.{VoterInput};
ghost use Rattle.model_rules.specs.Known.{Made};
ghost use Rattle.model_steps.specs.Desk.{Doing};
ghost use Rattle.model_steps.specs.Voter.{Standing, stepped, started, OfStep};
ghost use Rattle.law_member.specs.Syncs.{unsynced, sends};

/// Where a step sends a vote or a certificate, on any channel, nothing that it appended before stands unsynced.
pub fn sends_follow_syncs()
    ensures { (made : Made) (now : ℕ) (input : VoterInput) (standing : Standing)
        (doing : Doing) (before behind : List Call) (channel : Channel) (to : Recipients) (bytes : List ℕ)
        → stepped made now standing input ≡ Some doing
        → doing.calls ≡ before ++ calls.Send channel to bytes ∷ behind
        → unsynced before ≡ [] }
{}

/// The same where it tells the reporter.
pub fn reports_follow_syncs()
    ensures { (made : Made) (now : ℕ) (input : VoterInput) (standing : Standing)
        (doing : Doing) (before behind : List Call) (activity : Activity)
        → stepped made now standing input ≡ Some doing
        → doing.calls ≡ before ++ calls.Report activity ∷ behind
        → unsynced before ≡ [] }
{}

/// The same where it prunes.
pub fn prunes_follow_syncs()
    ensures { (made : Made) (now : ℕ) (input : VoterInput) (standing : Standing)
        (doing : Doing) (before behind : List Call) (least : ℕ)
        → stepped made now standing input ≡ Some doing
        → doing.calls ≡ before ++ calls.Prune least ∷ behind
        → unsynced before ≡ [] }
{}

/// A step leaves nothing unsynced.
pub fn steps_end_synced()
    ensures { OfStep (λ made now input standing doing. unsynced doing.calls ≡ []) }
{}

/// A start sends nothing, on any channel.
pub fn starts_send_nothing()
    ensures { (made : Made) (now : ℕ) (floor : Floor) (records : List Artifact)
        → sends (started made now floor records).calls ≡ [] }
{}

/// Where a start tells the reporter or prunes, nothing that it appended before stands unsynced, and it leaves nothing
/// unsynced.
pub fn starts_follow_syncs()
    ensures reports { (made : Made) (now : ℕ) (floor : Floor)
        (records : List Artifact) (before behind : List Call) (activity : Activity)
        → (started made now floor records).calls ≡ before ++ calls.Report activity ∷ behind
        → unsynced before ≡ [] }
    ensures prunes { (made : Made) (now : ℕ) (floor : Floor)
        (records : List Artifact) (before behind : List Call) (least : ℕ)
        → (started made now floor records).calls ≡ before ++ calls.Prune least ∷ behind
        → unsynced before ≡ [] }
    ensures end { (made : Made) (now : ℕ) (floor : Floor) (records : List Artifact)
        → unsynced (started made now floor records).calls ≡ [] }
{}
