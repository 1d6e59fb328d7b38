//! What holds of a cluster.
ghost use Rattle.std.specs.Prelude.{ℕ, ◌<◌, ◌^◌, List};
ghost use Rattle.simplex_types.specs.declared.floor.Floor.{Floor};
ghost use Rattle.simplex_journal.specs.Journal.{Section};
ghost use Rattle.model_run.specs.Members.{members_of, engine_of};
ghost use Rattle.model_run.specs.Setting.{Setting};
ghost use Rattle.law_cluster.specs.Agree.{Agree};
ghost use Rattle.law_cluster.specs.Cluster.{Cluster, IsMostlyHonest};
ghost use Rattle.law_cluster.specs.Evidence.{IsAuthentic, IsBlameless};
ghost use Rattle.law_cluster.specs.Lives.{Group, Life, IsFloorOf, IsEngineOf, AreLives};
ghost use Rattle.law_cluster.specs.Nodes.{group_of};
ghost use Rattle.law_cluster.specs.Order.{IsWellSent};
ghost use Rattle.law_cluster.specs.Reports.{ReportOneChain};

/// No two certificates that honest members had, in whichever of their lives, and that verify conflict.
pub fn clusters_agree()
    ensures { (c : Cluster) → IsMostlyHonest c → Agree c }
{}

/// What honest members report as final is of one chain, whichever members they are and in whichever of their lives.
pub fn clusters_report_one_chain()
    ensures { (c : Cluster) → IsMostlyHonest c → ReportOneChain c }
{}

/// Whatever comes to it, a member keeps over all its lives to what it sent before.
pub fn members_keep_order()
    ensures { (group : Group) (member : ℕ) (lives : List Life) → 0 < group.term
        → AreLives group member lives → IsWellSent group lives }
{}

/// No evidence that honest members report names an honest one, where packets come from whom they are said to be of.
pub fn clusters_blame_no_honest_member()
    ensures { (c : Cluster) → IsMostlyHonest c → IsAuthentic c → IsBlameless c }
{}

/// The engine that a setup makes for one of its members, over whatever the journal holds, is one of the setup's group.
pub fn engines_are_of_their_group()
    ensures { (setting : Setting) (member : ℕ) (floor : Floor) (sections : List Section)
        → member < members_of setting.setup → members_of setting.setup < 2 ^ 16
        → IsFloorOf (group_of setting.setup) floor
        → IsEngineOf (group_of setting.setup) member sections (engine_of setting member floor sections) }
{}
