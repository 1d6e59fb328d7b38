//! Which certificates a member asks its peers for, whom it asks, and what it answers them.
//!
//! A [`Fetcher`] sends nothing and has no clock: each call says what is to be sent, delivered or blocked,
//! and is told the time.
#![tactic(auto)]

mod fetcher;
mod holders;
mod laws;
mod numbers;
mod peers;
mod timers;
mod views;

pub use fetcher::Fetcher;
pub use laws::{
    answers_are_of_open_requests, blocked_members_are_not_asked, requests_are_served_once,
    untargeted_asks_go_round,
};
pub use model_resolver::{Fetch, FetchConfig, Out, Retire};
pub use peers::is_among;
