//! The batcher: it collects votes into certificates, and tells the voter of them.
pub use simplex_batcher::{Actor, Config};
pub use simplex_messages::batcher::{BatcherInput, Mailbox, Message, Pending};
