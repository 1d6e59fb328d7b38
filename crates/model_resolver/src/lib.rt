//! What a resolver and its fetcher do, as definitions, with the plain values that these are about.
//!
//! A fetcher is a small machine, and a resolver stands where the list of what it was given leaves it. Whoever says what
//! a member does needs no more than this; the actor that does it is `simplex_resolver`, over `simplex_fetch`.
#![tactic(auto)]

mod arrivals;
mod config;
mod entry;
mod held;
mod laws;
mod out;
mod retire;
mod sending;

pub use arrivals::{Arrival, Arrivals};
pub use config::{Fetch, FetchConfig};
pub use entry::{Entry, Serving, State};
pub use held::Held;
pub use laws::{
    handed_certificates_verify, nullifications_answer_what_they_cover, sends_rise_by_view,
};
pub use out::Out;
pub use retire::Retire;
pub use sending::Sending;
