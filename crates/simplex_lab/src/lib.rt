//! A laboratory: a run told line by line, also where it is refused, runs that make their own events, and inputs that
//! are made shorter while something stays so.
#![tactic(auto)]

mod about;
mod opening;
mod prefix;
mod reason;
mod reasons;
mod scripting;
mod shrinking;
mod simulating;
mod told;
mod trace;
mod words;
mod work;

pub use reason::LabReason;
pub use scripting::script_fault;
pub use told::Told;
pub use words::{ALWAYS, MOST_STEPS, Order, Word, begins_script};
pub use work::{LabWork, lab_program};
