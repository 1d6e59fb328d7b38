//! Samples for laws: that what they ask can be met, and does not always hold; and runs that come out as the rules mean them:
//! which calls each event makes, in which order, and how it ends.
//!
//! Each clause is computed, of runs the signatures and random words too.
#![tactic(auto)]

mod alone;
mod conditions;
mod faulty;
mod four;
mod gaps;
mod quorums;
mod runs;
mod scripts;
mod stops;

pub use alone::{
    failed_syncs_come_out, floors_come_out, one_member_finalizes, one_member_gives_up,
};
pub use conditions::{
    answers_come_out, deliveries_come_out, faulty_engines_come_out, injections_come_out,
    limits_come_out,
};
pub use faulty::{
    blocked_members_come_out, conflicting_votes_come_out, corrupt_votes_come_out,
    false_names_come_out, faulty_reports_come_out,
};
pub use four::four_members_notarize;
pub use gaps::{gaps_can_open, gaps_can_stand};
pub use quorums::{certificates_can_be_new, quorums_can_stand, standing_quorums_are_handed_on};
pub use runs::events_can_be_possible;
pub use scripts::{
    bad_scripts_come_out, parts_come_out, routes_come_out, terms_of_scripts_come_out,
};
pub use stops::{kept_votes_come_out, lost_votes_come_out, shown_votes_come_out};
