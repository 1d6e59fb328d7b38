//! What follows from the definition of a run, whatever its events are.
//!
//! - Which setups and events have a run: each event has its conditions, in words of the entries before it, for every kind of
//!   member. A valid setup and events that each meet theirs have a run, and nothing else has; it has one entry for each event.
//! - Of each node of a member that is not faulty: it lives the life of an honest member, over all its starts, steps, stops and
//!   crashes; a voter says no certificate that it was not given; and what a node sent and handed on gives no batcher evidence
//!   that names its member.
//! - Whose packets a node refuses, and whom its resolver asks nothing: those whom it blocked since its last start.
//! - Where few members are faulty: certificates are backed, no two of them conflict, and no honest member is blamed, nor
//!   blocked for what only a faulty one does.
//! - Which events may make a forgery: bytes that are injected, and what an impersonator hears.
//! - How long the payloads of a run are.
//! - What stands behind the requests and the notarizes of a run: answers of the application, and the genesis digest.
//!
//! Each law is the contract of a function below, and is about the definitions alone.
#![tactic(auto)]

mod backing_laws;
mod backing_samples;
mod complete;
mod computed;
mod each;
mod evidence;
mod forging_laws;
mod forging_samples;
mod kept;
mod limit_laws;
mod limit_samples;
mod lives;
mod refusing;
mod reports;
mod safe;
mod sayings;
mod times;
mod vouching;

pub use backing_laws::{
    agreement_follows, certificates_agree, certificates_are_backed, certificates_are_genuine,
    certificates_name_the_epoch, honest_votes_keep_order, members_are_safe,
    no_honest_member_is_barred, no_honest_member_is_blamed, proposals_name_the_epoch,
    sent_votes_are_the_same,
};
pub use backing_samples::{
    each_word_is_needed, late_certificates_do_not_count, premises_can_be_met,
};
pub use complete::{conditions_are_exact, possible_events_run, runs_are_possible};
pub use computed::a_start_is_quiet;
pub use each::runs_have_one_entry_each;
pub use evidence::nodes_are_not_blamed;
pub use forging_laws::{
    faulty_members_pass_on, impersonators_forge_by_equal_digests,
    only_impersonators_and_injected_bytes_forge,
};
pub use forging_samples::{a_faulty_member_answers, injected_bytes_can_forge};
pub use kept::{held_certificates_are_sound, nodes_keep_the_invariant};
pub use limit_laws::payloads_keep_the_limit;
pub use limit_samples::faulty_members_may_send_more;
pub use lives::nodes_live;
pub use refusing::{blocked_members_are_one_set, packets_of_blocked_members_are_refused};
pub use reports::{
    reported_finalizations_agree, transcripts_blame_no_honest_member, transcripts_report_one_chain,
};
pub use safe::runs_are_safe;
pub use sayings::{starts_say_what_was_given, steps_say_what_was_given};
pub use times::votes_are_in_time;
pub use vouching::{notarized_payloads_were_answered, requests_name_the_genesis};
