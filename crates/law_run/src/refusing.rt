//! Whose packets a node refuses, and whom its resolver does not ask.
ghost use Rattle.std.specs.Prelude.{◌≡◌, ◌↔◌, ℕ, true, List, [], Some, Ok};
ghost use Rattle.simplex_messages.specs.declared.step.Outcome.TheVariants as outcomes;
ghost use Rattle.simplex_transcript.specs.declared.entry.Packet.{Packet};
ghost use Rattle.simplex_transcript.specs.declared.event.Event.{Event};
ghost use Rattle.simplex_transcript.specs.declared.event.Event.TheVariants.{Deliver};
ghost use Rattle.simplex_transcript.specs.declared.node.Node.{Node};
ghost use Rattle.simplex_transcript.specs.declared.node.Ref.{Ref};
ghost use Rattle.model_steps.specs.Engine.{EngineMade, Did};
ghost use Rattle.model_run.specs.Setting.{Setting};
ghost use Rattle.model_run.specs.Kinds.{runs_engine};
ghost use Rattle.model_run.specs.Life.{Noted, Running, life_in};
ghost use Rattle.model_run.specs.Requests.{packet_for};
ghost use Rattle.model_run.specs.Entries.{entry_of};
ghost use Rattle.model_run.specs.Blocked.{has_blocked};
ghost use Rattle.model_run.specs.Run as runs;
ghost use Rattle.law_run.specs.Refusing.{IsRefused, AreOneSet};

/// The packet of a member that the node blocked since its last start is refused, and no other: the node takes it, and does
/// nothing with it. Nothing else is refused.
pub fn packets_of_blocked_members_are_refused()
    ensures exactly { (setting : Setting) (events : List Event)
        (before : List Noted) (node : Node) (at : Ref) (packet : Packet) (noted : Noted)
        → runs.run setting [] events ≡ Ok before → runs_engine setting.setup node.member ≡ true
        → packet_for before node at ≡ Some packet
        → entry_of setting before (Deliver node at) ≡ Ok noted
        → (noted.entry.outcome ≡ outcomes.Refused) ↔
        (has_blocked before node packet.from.member ≡ true) }
    ensures empty { (setting : Setting) (events : List Event)
        (before : List Noted) (node : Node) (at : Ref) (packet : Packet) (noted : Noted)
        → runs.run setting [] events ≡ Ok before → runs_engine setting.setup node.member ≡ true
        → packet_for before node at ≡ Some packet
        → entry_of setting before (Deliver node at) ≡ Ok noted
        → has_blocked before node packet.from.member ≡ true → IsRefused at noted.entry }
    ensures alone { (setting : Setting) (before : List Noted) (event : Event) (noted : Noted)
        → entry_of setting before event ≡ Ok noted
        → noted.entry.outcome ≡ outcomes.Refused → (node : Node) × (at : Ref)
        × (event ≡ Deliver node at) }
{}

/// There is one set: whom a running engine refuses, whom its resolver does not ask, and whom a call of the node blocked
/// since its last start.
pub fn blocked_members_are_one_set()
    ensures { (setting : Setting) (events : List Event) (before : List Noted)
        (node : Node) (made : EngineMade) (past : List Did) (member : ℕ)
        → runs.run setting [] events ≡ Ok before → life_in setting before node ≡ Running made past
        → AreOneSet before node made past member }
{}
