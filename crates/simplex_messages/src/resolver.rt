//! What a resolver takes.
use simplex_types::{
    Ask, Bytes, Certificate, Keep, Kind, Notarization, Participant, Sequence, View,
};
use std::alloc::{AllocError, Global};

mod handler;
mod handler_pending;
mod handler_policy;
mod mailbox;
mod pending;
mod policy;

pub use handler::Handler;
pub use handler_pending::HandlerPending;
pub use mailbox::Mailbox;
pub use pending::Pending;

/// A message of the voter to the resolver.
#[derive(Debug, PartialEq, Eq, Drop)]
pub enum MailboxMessage {
    /// The voter knows a certificate.
    Updated {
        certificate: Certificate,
    },
    /// The application judged a notarization.
    Certified {
        notarization: Notarization,
        success: bool,
    },
    /// For the proposal of a view, a certificate of this kind of another view is missing.
    Resolve {
        proposal: View,
        view: View,
        kind: Kind,
        /// The only member to ask, where there is one.
        target: Option<Participant>,
    },
    /// The voter's journal was read.
    Replayed,
}

impl Keep for MailboxMessage {
    fn keep(&self, alloc: Global) -> Result<MailboxMessage, AllocError> {
        match self {
            MailboxMessage::Updated { certificate } => Ok(MailboxMessage::Updated {
                certificate: certificate.keep(alloc)?,
            }),
            MailboxMessage::Certified {
                notarization,
                success,
            } => Ok(MailboxMessage::Certified {
                notarization: notarization.keep(alloc)?,
                success: *success,
            }),
            MailboxMessage::Resolve {
                proposal,
                view,
                kind,
                target,
            } => Ok(MailboxMessage::Resolve {
                proposal: *proposal,
                view: *view,
                kind: *kind,
                target: *target,
            }),
            MailboxMessage::Replayed => Ok(MailboxMessage::Replayed),
        }
    }
}

/// A message of the resolver's fetcher to the resolver.
#[derive(Debug, PartialEq, Eq, Drop)]
pub enum HandlerMessage {
    /// A response for the view.
    Deliver {
        id: u64,
        view: View,
        bytes: Bytes,
        /// What it may settle.
        asks: Sequence<Ask>,
        /// Whether what asked for it is still there.
        waiting: bool,
    },
    /// A peer asks for the view.
    Produce {
        id: u64,
        view: View,
    },
}

impl Keep for HandlerMessage {
    fn keep(&self, alloc: Global) -> Result<HandlerMessage, AllocError> {
        match self {
            HandlerMessage::Deliver {
                id,
                view,
                bytes,
                asks,
                waiting,
            } => Ok(HandlerMessage::Deliver {
                id: *id,
                view: *view,
                bytes: bytes.keep(alloc)?,
                asks: asks.keep(alloc)?,
                waiting: *waiting,
            }),
            HandlerMessage::Produce { id, view } => Ok(HandlerMessage::Produce {
                id: *id,
                view: *view,
            }),
        }
    }
}

/// What a step of the resolver takes.
#[derive(Debug, PartialEq, Eq, Drop)]
pub enum ResolverInput {
    /// The next message of its mailbox.
    Mail(MailboxMessage),
    /// The next message of its fetcher's handler.
    Handler(HandlerMessage),
    /// A packet of the resolver channel.
    Packet { sender: Participant, bytes: Bytes },
    /// The fetcher's deadline.
    Timer,
}
