//! How a fetcher is set up, and what it is asked for.
use simplex_types::{Ask, Participant, View};

/// Who the fetcher is, and how long it waits.
#[derive(Clone, Copy, Debug, PartialEq, Eq)]
pub struct FetchConfig {
    /// The member that the fetcher is of.
    pub me: Participant,
    /// How many members there are.
    pub n: u32,
    /// For how long a peer may be silent, in milliseconds.
    pub fetch_timeout: u64,
    /// How long a view waits after an attempt that failed, in milliseconds.
    pub fetch_retry_delay: u64,
}

/// Something that is asked for of a view.
#[derive(Clone, Copy, Debug, PartialEq, Eq)]
pub struct Fetch {
    /// The view.
    pub view: View,
    /// What of it, and for how long.
    pub ask: Ask,
}
