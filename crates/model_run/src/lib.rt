//! What a run is, as definitions: the transcript that a setup and events make, or the one refusal; and which of its events are
//! stepped at once.
//!
//! The events of a group step nodes of honest members, which are all different, and take no packet of the group itself. So
//! each may be stepped on the entries before the group, and a run in groups gives what the run one by one gives.
#![tactic(auto)]

mod groups;
mod samples;

pub use groups::{groups_change_nothing, steps_of_a_group_stand_apart};
pub use samples::{faulty_members_come_out, faulty_refusals_come_out, refusals_come_out};
