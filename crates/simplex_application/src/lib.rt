//! An application to try engines with: it makes payloads of random words, and judges those of others.
//!
//! Its mailbox, its certifier and the relay are those of `simplex_mocks`.
#![tactic(auto)]

mod app_step;
mod application;
mod handoff_controller;
mod known;
mod payload;
mod prepared;
mod propose_observer;
mod settings;
mod state;
mod verdict;
mod verify_observer;
mod waiter;

pub use app_step::{AppStep, Broadcast, Reply};
pub use application::{Application, Config};
pub use simplex_mocks::application::{Certifier, CertifyFn, ControlFn, Mailbox, Message};
pub use simplex_types::genesis;
