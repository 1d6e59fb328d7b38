//! The Simplex engine as one dependency: the public names of the crates that it names, in the modules in which the ported crate
//! has them.
//!
//! | I want to | Call | Example |
//! |---|---|---|
//! | run members under a list of events, and rest a promise on the run | [`Setup::usual`], [`run_network`] | `crates/example_run` |
//! | look at the network between two events | [`Network::new`], [`Network::apply`] | `crates/test_failures` |
//! | run the same by several threads, or from another genesis digest | [`run_network_par`], [`run_network_from`] | `crates/test_threads`; `crates/simplex_epochs` |
//! | step the engine of one member | [`Engine::new`], [`Engine::start`], [`Engine::poll`] | `crates/test_parts`, its part `engine` |
//! | let its actors run on threads | [`threads::start_threads`] | `crates/test_threads` |
//! | keep its journal in files, on a disk of one's own | [`journal::DiskJournal`], over a [`journal::Disk`] | `crates/example_disk` |
//! | propose, verify and certify by an application | [`Network::apply`], answering what an [`Entry`] asked; or [`mocks::application`] | `crates/example_application` |
//! | be told what a member reports | [`types::Reporter`], [`hand_reports`], [`mocks::reporter`] | `crates/test_values`, its part `recording` |
//! | try members that break the rules | [`mocks`], [`twins`], [`MemberKind`] | `crates/test_failures`; `crates/test_values`, its part `twins` |
//! | read an input, and print its run | [`form::read_run`], [`text::printed_run`], or both by [`program`] | `crates/simplex_net` |
//! | keep the finalized log, or get those of a run | [`log::FinalizedLog`], [`log::logs`], [`log::log_program`] | `crates/simplex_log_cli` |
//! | apply the blocks of a log to accounts | [`ledger::Ledger`], [`ledger::ledger_program`] | `crates/simplex_ledger_cli` |
//! | run one network behind another | [`epochs::run_epochs`], [`epochs::chain`] | `crates/simplex_epochs_cli` |
//! | keep the record of a run, by which it can be judged without an engine | [`audit::record_of`], [`laws::audits`] | `crates/simplex_audit_cli` |
//! | be told what each event did, also up to a refusal | [`lab::lines`], [`lab::lab_program`] | `crates/letsvaku` |
//! | rest on evidence: whoever is named is faulty | [`run_network`], [`laws::runs::transcripts_blame_no_honest_member`] | `crates/example_monitor` |
//! | make an input from a number | [`gen_run`] | `crates/test_failures` |
//! | cite why no two members disagree | [`laws::runs`], `runs_are_safe` and `transcripts_report_one_chain` | docs/AGREEMENT.md |
//!
//! Nothing is made or decided here. It hands on:
//!
//! - [`types`]: votes, certificates, evidence and activities, keys, and the traits that an engine is connected to; and
//!   [`elector`], who leads;
//! - [`actors`]: the voter, the batcher and the resolver, what they take and what their steps give;
//! - [`journal`], [`mailbox`], [`io`]: what they stand on;
//! - [`Engine`]: a member's actors and the mail between them;
//! - [`Network`], [`run_network`] and [`run_network_from`]: members of every kind, honest and faulty, under a list of events,
//!   with the entries that they make; [`run_network_par`]: the same run by several threads, whose steps pass a [`Gate`], which
//!   is [`OpenGate`] where nobody is to be held;
//! - [`threads`]: an engine whose actors run on a thread of their own each, over mailboxes that they share;
//! - [`gen_run`] and [`generated`]: the events that a number makes, and what they are drawn from;
//! - [`form`] (`read_run`, `read_setup`, `read_event`, `read_value`, ..), [`text`] and [`program`]: such a run as JSON, its
//!   lines, and both behind one call;
//! - [`log`]: the finalized log, and the logs of a run; [`ledger`]: accounts over it; [`epochs`]: one network per epoch;
//!   [`audit`]: the record of a run; [`lab`]: a run told line by line; [`front`]: what programs share, from words to exit;
//! - [`mocks`], [`twins`]: members that break the rules, an application and a relay to try engines with, a reporter that
//!   records, and scripts for twins;
//! - [`report`]: two reporters in one, and reports of schemes whose signatures prove nothing; [`hand_reports`] gives them what
//!   a step reported;
//! - [`state`], [`round`], [`repair`], [`fetch`]: the parts of which the actors are made;
//! - [`laws`]: what is proved of the definitions themselves.
//!
//! Whoever writes contracts finds each definition that these promise in this crate's `specs/`, by one path, and each type by its
//! path here, as `Rattle.simplex.specs.declared.types.Activity`. `Network::lend` and `enter` and
//! `Engine::into_crew` serve [`run_network_par`] and [`threads`], and their types stay below. The crate may assume nothing, and
//! owes nothing but the names: each clause is that of the crate below.
#![tactic(auto)]

pub mod actors;
pub mod audit;
pub mod epochs;
pub mod journal;
pub mod lab;
pub mod laws;
pub mod ledger;
pub mod log;
pub mod mailbox;
pub mod mocks;
pub mod repair;

pub use simplex_engine::{
    Engine, EngineConfig, EngineField, Input, NewError, PollError, Polled, TakenInside,
};
pub use simplex_fetch as fetch;
pub use simplex_form as form;
pub use simplex_front as front;
pub use simplex_generator as generated;
pub use simplex_generator::gen_run;
pub use simplex_io as io;
pub use simplex_network::{Network, NodeEngine, NodeJournal};
pub use simplex_par::{Gate, OpenGate, run_network_par};
pub use simplex_program::{Command, Exit, LIMIT, MOST_STEPS, MOST_WORKERS, program};
pub use simplex_report as report;
pub use simplex_report::hand_reports;
pub use simplex_round as round;
pub use simplex_run::{Transcript, run_network, run_network_from};
pub use simplex_state as state;
pub use simplex_text as text;
pub use simplex_threads as threads;
pub use simplex_transcript::{
    Entry, Event, Field, MemberKind, Node, Packet, Ref, Refusal, RunError, Setup, SetupRound,
    StepSource, Took,
};
pub use simplex_twins as twins;
pub use simplex_types as types;
pub use simplex_types::elector;
