//! That the premises can be met, and what two of them are for.
ghost use Rattle.law_cluster.specs.Cluster.{IsMostlyHonest};
ghost use Rattle.law_cluster.specs.Samples.{four};
ghost use Rattle.law_cluster.specs.TornSamples.{IsAlive, IsForgetful, IsTorn, forged, forgetful};

use crate::computed::{
    follower_finalizes, killed_member_finalizes, leader_finalizes, rivals_are_heard,
    votes_are_forgotten,
};

/// Four members, the last of which is faulty, meet all premises: three of them report a block as final, and one of these was killed
/// after its first vote and started again.
pub fn premises_can_be_met()
    ensures { IsMostlyHonest four }
{
    killed_member_finalizes();
    leader_finalizes();
    follower_finalizes();
}

/// Where signatures are forged, all else does not help: a member may have two notarizations for one view.
pub fn forged_signatures_tear_a_cluster()
    ensures alive { IsAlive forged }
    ensures torn { IsTorn forged }
{
    rivals_are_heard();
}

/// Nor does it where a member lost its journal: here it votes twice, and with a faulty leader there are two notarizations, though
/// nothing is forged.
pub fn lost_journals_tear_a_cluster()
    ensures forgetful { IsForgetful forgetful }
    ensures torn { IsTorn forgetful }
{
    rivals_are_heard();
    votes_are_forgotten();
}
