//! What the entries of a record say of what later events may name: whether an entry fits its event, whether the event could be
//! taken, and whether its packets hold what is forged. The entries are taken one by one, and none is gone over again.
#![tactic(auto)]

mod all;
mod answered;
mod case;
mod desk;
mod fitting;
mod items;
mod members;
mod taking;

pub use case::Case;
pub use fitting::node_named;
pub use items::asked_at;
pub use members::{is_node, runs_engine};
pub use taking::own_node;
