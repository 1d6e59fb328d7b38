//! Agreement of members that run by themselves.
//!
//! A cluster is its members' lives. A life is an engine that was started over what the journal held, and what it was given
//! since: bytes from anyone, steps at any clock, answers of the application. It ended somehow: by a kill, a broken step or a lost
//! disk cache. The next one began over what the journal held then, and the first one over an empty journal. No clock, no list
//! of events and no network is common to the members.
//!
//! Three premises no member can check: at most f members are faulty; no signature of an honest member that comes to another one
//! verifies on what it never sent; and a life begins over what the one before left, so that no journal is lost or put back. Where
//! they hold, no two certificates conflict that honest members had. Samples show a cluster that meets them, and two that are torn:
//! by a forged signature, and by a lost journal.
//!
//! Each law is the contract of a function below, and is about the definitions alone.
#![tactic(auto)]

mod cluster;
mod computed;
mod samples;

pub use cluster::{
    clusters_agree, clusters_blame_no_honest_member, clusters_report_one_chain,
    engines_are_of_their_group, members_keep_order,
};
pub use computed::{
    follower_finalizes, killed_member_finalizes, leader_finalizes, rivals_are_heard,
    votes_are_forgotten,
};
pub use samples::{
    forged_signatures_tear_a_cluster, lost_journals_tear_a_cluster, premises_can_be_met,
};
