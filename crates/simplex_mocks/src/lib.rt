//! Members that break the rules, and what an engine is tried with: a wrapped scheme, a relay of payloads, and the
//! mailbox and the certifier of an application.
#![tactic(auto)]

pub mod application;
mod certifier;
mod certify_fn;
pub mod conflicter;
mod control_fn;
mod drawing;
pub mod equivocator;
mod hearing;
pub mod impersonator;
mod mailbox;
mod message;
pub mod nuller;
pub mod nullify_only;
mod others;
pub mod outdated;
mod payload;
mod proposing;
pub mod reconfigurer;
pub mod relay;
mod relayed;
mod sending;
mod slot;
mod stored;
mod views;
pub mod wrapped;
mod wrapped_elector;

pub use relayed::Relayed;
