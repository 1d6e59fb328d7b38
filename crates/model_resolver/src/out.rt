//! What a call of a fetcher wants.
use simplex_types::{Ask, BlockCause, Bytes, Participant, Sequence, View};

/// Something that is to be done after a call.
#[derive(Debug, PartialEq, Eq, Drop)]
pub enum Out {
    /// The bytes are for the member.
    Send {
        to: Participant,
        bytes: Bytes,
    },
    /// A peer answered. What becomes of the answer is to be told by `verdict`.
    Deliver {
        id: u64,
        view: View,
        bytes: Bytes,
        /// What was asked for when the answer came.
        asks: Sequence<Ask>,
    },
    /// A peer asks for the view, and is to be answered by `serve`.
    Produce {
        id: u64,
        view: View,
    },
    /// The member is to be blocked, for this cause.
    Block(Participant, BlockCause),
    /// Nobody waits any more for the answer that was delivered under this number.
    Left {
        id: u64,
    },
}
