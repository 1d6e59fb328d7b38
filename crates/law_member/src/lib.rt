//! What follows from one member's rules, and from what a step of each of its actors does, whatever comes.
//!
//! - Of the rules alone: what a vote says of what its member knew, that finality and the current view never fall, and that of
//!   one view and kind one certificate counts for good.
//! - Of a voter: what a step sends, writes and learns can be read from what it gives, and what it does is what an honest
//!   member may do.
//! - Of a batcher, which is the list of its inputs since its start, the newest first: what it hands on and reports is founded
//!   on votes that came from their signers. So its evidence blames no honest member, as long as what comes under that member's
//!   name is what the member sent.
//! - Of a resolver: no ask of it is settled. Of a journal: what was synced stays over stops.
//!
//! Each law is the contract of a function below, and is about the definitions alone. An actor that makes such steps has it.
#![tactic(auto)]

mod batcher;
mod batcher_votes;
mod certificates;
mod evidence;
mod evidence_samples;
mod growth;
mod journal;
mod knowledge;
mod life;
mod outgoing;
mod performed;
mod resolver;
mod rule_votes;
mod sections;
mod step_samples;
mod syncs;
mod voter_samples;
mod voter_votes;
mod voters;

pub use batcher::{batchers_stand_where_they_were_told, leaders_are_known};
pub use batcher_votes::{
    accepted_votes_came_from_their_signers, blocks_are_founded, held_votes_were_accepted,
    reports_are_founded,
};
pub use certificates::{
    accepted_votes_are_worked, current_views_are_worked, handed_certificates_are_founded,
    keyed_scheme_is_of_its_members, lawful_scheme_is_of_its_members,
    new_certificates_are_handed_on, quorums_are_handed_on,
};
pub use evidence::evidence_names_no_honest_member;
pub use evidence_samples::{
    conflicting_votes_are_reported, evidence_names_its_signers, other_reports_name_nobody,
    premises_can_be_met,
};
pub use growth::{certificates_are_added_once, certificates_stay, views_never_fall};
pub use journal::{
    appended_and_synced_records_are_read, records_are_read_by_section, stops_keep_what_was_synced,
    synced_records_stay,
};
pub use knowledge::{
    certificates_are_handed_on, knowledge_is_written, proposals_are_taken,
    publications_are_handed_on,
};
pub use life::{crashes_are_lived, starts_are_lived, steps_are_lived};
pub use outgoing::certificates_that_go_out_were_added;
pub use performed::done_steps_give_all;
pub use resolver::{asks_are_of_what_is_not_settled, fetches_are_of_unsettled_gaps};
pub use rule_votes::{finalizes_are_open, notarizes_are_untouched, nullifies_are_current};
pub use sections::steps_write_to_one_section;
pub use step_samples::{settled_views_may_be_requested_once_more, what_was_not_synced_may_be_lost};
pub use syncs::{
    prunes_follow_syncs, reports_follow_syncs, sends_follow_syncs, starts_follow_syncs,
    starts_send_nothing, steps_end_synced,
};
pub use voter_samples::a_step_is_read;
pub use voter_votes::{
    nullifies_are_of_timer_steps, one_nullify_at_most, own_votes_are_by_rule,
    sent_votes_are_by_rule,
};
pub use voters::voters_blame_nobody;
