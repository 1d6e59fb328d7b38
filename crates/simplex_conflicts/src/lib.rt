//! Whether a certificate of a record conflicts with another: asked entry by entry, and looked up by views.
#![tactic(auto)]

mod certificates;
mod index;
mod stairs;
mod standing;

pub use standing::Standing;
