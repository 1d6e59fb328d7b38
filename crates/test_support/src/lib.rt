//! What the tests of several crates share: certificates, messages, a program over memory, and the text of scripts.
#![tactic(auto)]

mod bytes;
mod desk;
mod letter;
mod numbers;
pub mod papers;
mod part;
pub mod reading;
mod script;
pub mod signing;
pub mod telling;

pub use bytes::{bytes_in, bytes_text};
pub use desk::{Desk, desk_of, words_of};
pub use letter::Letter;
pub use numbers::{member, payload_text, timed};
pub use part::{Part, play, play_made, words_in};
pub use reading::{number, payload};
pub use script::{Script, Told, scripts};
