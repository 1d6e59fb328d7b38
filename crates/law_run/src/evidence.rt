//! Whom evidence does not name in a run.
ghost use Rattle.std.specs.Prelude.{◌<◌, List, Contains};
ghost use Rattle.simplex_transcript.specs.declared.node.Node.{Node};
ghost use Rattle.model_run.specs.Setting.{Setting};
ghost use Rattle.model_run.specs.Life.{Noted};
ghost use Rattle.law_run.specs.Faulty.{faulty_of};
ghost use Rattle.law_run.specs.Histories.{IsRun, AreFloors};
ghost use Rattle.law_run.specs.Evidence.{IsNotBlamed};

use crate::lives::nodes_live;

/// Of each node of a member that is not faulty: what it sent and handed on, over all starts, steps, stops and crashes,
/// gives no batcher evidence that names its member.
pub fn nodes_are_not_blamed()
    ensures { (setting : Setting) (noted : List Noted) (node : Node) → 0 < setting.setup.term
        → ¬ (Contains (faulty_of setting.setup) node.member) → IsRun setting noted → AreFloors noted
        → IsNotBlamed noted node }
{
    nodes_live();
}
