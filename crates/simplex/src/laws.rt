//! What is proved of the definitions themselves. A proof that calls one of these may use what its clause says.
//!
//! - [`runs`]: whole runs are safe, what they report agrees, which setups and events have one, who can forge;
//! - [`members`]: what a step of a voter, a batcher or a resolver does; that a voter lives an honest member's life;
//! - [`clusters`]: agreement of members that run by themselves, each with a clock of its own;
//! - [`agreement`]: why members that vote so agree, and how they keep to it over crashes;
//! - [`logs`], [`ledgers`], [`epochs`]: the finalized logs of a run, accounts over them, and one network per epoch;
//! - [`audits`], [`requests`]: records of runs, judged without an engine, and the open requests of a node;
//! - the rest, by its subject: groups of events, rules, mail, journals, threads, bytes.

pub use law_agreement as agreement;
pub use law_audit as audits;
pub use law_cluster as clusters;
pub use law_epochs as epochs;
pub use law_ledger as ledgers;
pub use law_log as logs;
pub use law_member as members;
pub use law_requests as requests;
pub use law_run as runs;

// Of lists of reports, and of transfers.
pub use model_ledger::totals_are_kept;
pub use model_log::{
    a_link_moves_ends, consistent_links_do_not_clash, consistent_logs_are_fronts,
    log_changes_with_its_tip,
};

// Of runs whose members are stepped at once, and of engines on threads.
pub use model_run::{groups_change_nothing, steps_of_a_group_stand_apart};
pub use simplex_threads::{
    stopped_voters_leave_a_life, turns_send_what_is_synced, turns_store_first, turns_vote_by_rule,
    unbroken_engines_have_lived, unstopped_voters_have_lived,
};

// Of rules, of what a member asks for, and of what is handed on inside it.
pub use model_resolver::{
    handed_certificates_verify, nullifications_answer_what_they_cover, sends_rise_by_view,
};
pub use model_rules::votes_are_sound;
pub use simplex_engine::{batcher_hands_to_the_voter_alone, voter_hands_itself_nothing};
pub use simplex_fetch::{
    answers_are_of_open_requests, requests_are_served_once, untargeted_asks_go_round,
};
pub use simplex_repair::gaps_are_what_is_lacking;
pub use simplex_resolver::{each_gap_has_an_open_ask, new_gaps_are_asked_for};

// Of mailboxes, reports, and bytes.
pub use simplex_mailbox::{
    all_goes_in_turn, order_is_kept, posted_are_enqueued, posted_are_held, waiting_goes_in_turn,
};
pub use simplex_messages::{finality_rules, none_waits_twice, replayed_survives, update_rules};
pub use simplex_report::{no_payload_is_longer, order_of_answers_does_not_matter};
pub use simplex_shared::own_calls_stay_in_order;
pub use simplex_wire::{
    a_verifying_quorum_certifies, no_artifact_begins_another, no_certificate_begins_another,
    no_long_response_is_read, no_resolver_message_begins_another, no_vote_begins_another,
};
