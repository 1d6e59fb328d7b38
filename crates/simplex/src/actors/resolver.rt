//! The resolver: it asks peers for missing certificates, judges their answers, and answers theirs.
pub use simplex_messages::resolver::{
    Handler, HandlerMessage, HandlerPending, Mailbox, MailboxMessage, Pending, ResolverInput,
};
pub use simplex_resolver::{Actor, Config};
