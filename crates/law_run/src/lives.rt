//! Each node of a run is an honest member.
ghost use Rattle.std.specs.Prelude.{◌<◌, List, Contains};
ghost use Rattle.simplex_transcript.specs.declared.node.Node.{Node};
ghost use Rattle.model_run.specs.Setting.{Setting};
ghost use Rattle.model_run.specs.Life.{Noted};
ghost use Rattle.law_run.specs.Faulty.{faulty_of};
ghost use Rattle.law_run.specs.Histories.{IsRun, AreFloors, IsLivedBy};

/// Over all starts, steps, stops and crashes, what a node did of a member that is not faulty is the life of one honest member.
pub fn nodes_live()
    ensures { (setting : Setting) (noted : List Noted) (node : Node) → 0 < setting.setup.term
        → ¬ (Contains (faulty_of setting.setup) node.member) → IsRun setting noted → AreFloors noted
        → IsLivedBy setting noted node }
{}
