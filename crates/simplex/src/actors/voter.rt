//! The voter: it knows what the member knows, votes, and asks the application.
pub use simplex_messages::voter::{Mailbox, Message, Pending, VoterInput};
pub use simplex_voter::{Actor, Config};
