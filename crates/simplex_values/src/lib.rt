//! The plain values of the engine: numbers of epochs, views and members, terms, windows and policies.
//!
//! Nothing here signs, encodes or keeps state. Contracts see an epoch, a view or a member as a number,
//! a digest as its bytes, and a [`Sequence`] as a list.
#![tactic(auto)]

mod answer;
mod ask;
mod digest;
mod epoch;
mod feedback;
mod keep;
pub mod maps;
mod member;
mod plan;
mod policy;
mod proposal;
mod round;
mod sequence;
mod term;
mod terms;
mod timeout;
mod view;
mod viewport;

pub use answer::{Answer, Handoff};
pub use ask::{Ask, Kind, Outcome, Resolution, Until};
pub use digest::Digest;
pub use epoch::Epoch;
pub use feedback::Feedback;
pub use keep::Keep;
pub use member::{Participant, quorum};
pub use plan::{Channel, Plan, Recipients, SplitTarget};
pub use policy::{ForwardPolicy, SkipBudget, SkipPolicy};
pub use proposal::{Proposal, Subject};
pub use round::{Context, Parent, Round};
pub use sequence::{Bytes, Members, Sequence};
pub use term::TermLength;
pub use terms::{Lookahead, Terms};
pub use timeout::TimeoutReason;
pub use view::{View, ViewDelta};
pub use viewport::Viewport;
