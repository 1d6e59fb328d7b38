//! The items of a setup that have limits.
use std::fmt;

/// An item of a setup, in the order in which they are tested.
#[derive(Clone, Copy, Debug, PartialEq, Eq)]
pub enum Field {
    /// At most 2^20 events, and at most 2^25 events times members.
    Events,
    /// 1 to 256 members; with a scenario 1 to 64.
    Members,
    /// At most (n - 1) / 3 faulty members, rounded down.
    Faulty,
    /// At most 2^64 - 2.
    Epoch,
    /// 1 to 2^32 views.
    Term,
    /// At most 2^32 views.
    Lookahead,
    /// 1 to 2^62 milliseconds, at most the certification timeout.
    LeaderTimeout,
    /// 1 to 2^62 milliseconds.
    CertificationTimeout,
    /// 1 to 2^62 milliseconds.
    Retry,
    /// Absent, or above the certification timeout and at most 2^62 milliseconds.
    Stall,
    /// 1 to 2^32 views.
    Retention,
    /// A timeout of 1 to 2^62 milliseconds.
    Skip,
    /// 1 to 4,096 messages.
    Mailbox,
    /// 1 to 2^62 milliseconds.
    FetchTimeout,
    /// 0 to 2^62 milliseconds.
    FetchRetry,
    /// Each round has a leader below the members, masks of members alone, and a leader that a mask has.
    Scenario,
}

impl fmt::Display for Field {
    ghost use Rattle.simplex_transcript.specs.Names.{field_name};
    ghost use Rattle.std.specs.Prelude.{Some};

    ghost output = { λ field. Some (field_name field) };

    fn fmt<W: fmt::Write>(&self, f: &mut fmt::Formatter<W>) -> fmt::Result {
        match self {
            Field::Events => write!(f, "events"),
            Field::Members => write!(f, "members"),
            Field::Faulty => write!(f, "faulty"),
            Field::Epoch => write!(f, "epoch"),
            Field::Term => write!(f, "term"),
            Field::Lookahead => write!(f, "lookahead"),
            Field::LeaderTimeout => write!(f, "leader_timeout"),
            Field::CertificationTimeout => write!(f, "certification_timeout"),
            Field::Retry => write!(f, "retry"),
            Field::Stall => write!(f, "stall"),
            Field::Retention => write!(f, "retention"),
            Field::Skip => write!(f, "skip"),
            Field::Mailbox => write!(f, "mailbox"),
            Field::FetchTimeout => write!(f, "fetch_timeout"),
            Field::FetchRetry => write!(f, "fetch_retry"),
            Field::Scenario => write!(f, "scenario"),
        }
    }
}
