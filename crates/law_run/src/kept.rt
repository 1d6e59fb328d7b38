//! What nodes keep.
ghost use Rattle.std.specs.Prelude.{ℕ, ◌≡◌, ◌<◌, true, List, Contains};
ghost use Rattle.simplex_transcript.specs.declared.node.Node.{Node};
ghost use Rattle.model_run.specs.Kinds.{runs_engine};
ghost use Rattle.model_run.specs.Setting.{Setting};
ghost use Rattle.model_run.specs.Life.{Noted};
ghost use Rattle.model_run.specs.Members.{members_of};
ghost use Rattle.law_run.specs.Faulty.{faulty_of};
ghost use Rattle.law_run.specs.Held.{HoldsSound};
ghost use Rattle.law_run.specs.Keeping.{KeepsInvariant};
ghost use Rattle.law_run.specs.MostlyHonest.{IsMostlyHonest};

/// The node of a member that is not faulty keeps what it sent, and while it runs knows what it keeps.
pub fn nodes_keep_the_invariant()
    ensures { (setting : Setting) (noted : List Noted) (member : ℕ)
        → IsMostlyHonest setting noted → member < members_of setting.setup
        → ¬ (Contains (faulty_of setting.setup) member) → KeepsInvariant setting noted member }
{}

/// Of each node that runs an engine, the certificates in its journal, and those that its voter knows, verify and are backed.
pub fn held_certificates_are_sound()
    ensures { (setting : Setting) (noted : List Noted) (node : Node)
        → IsMostlyHonest setting noted → runs_engine setting.setup node.member ≡ true
        → HoldsSound setting noted node }
{}
