//! Why no two certificates conflict, and why the votes of one honest member go together over all its lives.
//!
//! A world says how many members there are, how long a term is, which members are faulty, and which votes each member sent,
//! each vote with the certificates that the member knew then. In a lawful world at most f members are faulty, and the votes
//! of all others have five properties. Then no two certificates that quorums signed conflict.
//!
//! A member is a journal in sections, what it knows since its start, a queue of votes, and the votes that it sent. It moves
//! by calls: it takes a certificate or a verdict, makes a vote, syncs, sends, prunes, crashes and starts again. Whatever the
//! calls, the votes sent over all lives have the five properties, so the certificates of such members never conflict.
//!
//! The laws are the contracts of the functions below. No engine, actor, mailbox, packet or network is named here.
//! docs/AGREEMENT.md tells the argument.
#![tactic(auto)]

mod agreement;
mod calls;
mod life_examples;
mod lives;
mod quorums;
mod terms;
mod world_examples;

pub use agreement::{backing_lasts, no_conflict};
pub use calls::calls_compose;
pub use life_examples::{conditions_are_needed, legal_lives_exist};
pub use lives::{lives_agree, lives_are_honest, lives_keep_the_invariant};
pub use quorums::quorums_meet;
pub use terms::terms_hold;
pub use world_examples::{each_property_is_needed, lawful_world_exists};
