//! An engine: the actors of a member, the mail between them, and nothing else.
//!
//! It decides nothing. A poll gives one actor one input, puts what that actor hands on into mailboxes, and tells
//! what was taken. An order to stop breaks a step off: then only the calls before it are told, and the engine is
//! stopped for good. Contracts say what a poll does by the engine's history, the list of all that it did.
#![tactic(auto)]

mod asking;
mod blocking;
mod boxes;
mod clock;
mod config;
mod crew;
mod engine;
mod error;
mod input;
mod laws;
mod polling;
mod sources;
mod stage;
mod unstarted;
mod working;

pub use boxes::Boxes;
pub use config::{EngineConfig, EngineField};
pub use crew::Crew;
pub use engine::Engine;
pub use error::{NewError, PollError};
pub use input::{Input, Polled, TakenInside};
pub use laws::{batcher_hands_to_the_voter_alone, voter_hands_itself_nothing};
