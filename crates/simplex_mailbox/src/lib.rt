//! Bounded mailboxes: a ready queue, and an overflow that a policy of the messages rules.
//!
//! A message for which there is room is last in the ready queue. For others the policy decides: it may
//! drop one, replace one that waits, or give one a place before all others. Contracts see a mailbox as
//! its two lists, and what an overflow holds as `Waiting`.
//!
//! A [`Gate`] stands here too, below all whose threads pass one.
#![tactic(auto)]

mod gate;
mod held;
mod laws;
mod mailbox;
mod overflow;
mod pending;
mod policy;
mod post;
mod requested;
mod samples;

pub use gate::{Gate, OpenGate};
pub use held::Held;
pub use laws::{
    all_goes_in_turn, order_is_kept, place_is_forgotten, posted_are_enqueued, posted_are_held,
};
pub use mailbox::Mailbox;
pub use overflow::Overflow;
pub use pending::Pending;
pub use policy::Policy;
pub use post::Post;
pub use requested::Requested;
pub use samples::{mail_comes_and_goes, waiting_goes_in_turn};
