//! Scripts about one part of an engine, an engine, or a network, with what came out. The program `test_scripts` reads and writes them.
//!
//! It owes nothing but that it is safe and ends.
#![tactic(auto)]

mod engine;
mod fetcher;
mod mail;
mod network;
mod part;
mod resolver;
mod state;
mod verifier;

pub use part::told;
