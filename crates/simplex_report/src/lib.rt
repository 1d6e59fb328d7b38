//! Reporters over reporters, and how long a payload may be.
//!
//! [`Reporters`] tells two reporters, of which either may be missing. [`AttributableReporter`] keeps from a
//! reporter what its scheme cannot prove to others, and where it is asked to, what does not verify.
//! [`hand_reports`] hands a reporter what an entry of a run reports. [`max_payload_size`] bounds what members send.
#![tactic(auto)]

mod answers;
mod attributable;
mod handing;
mod laws;
mod limit;
mod reporters;
mod samples;

pub use answers::combine;
pub use attributable::AttributableReporter;
pub use handing::hand_reports;
pub use laws::{no_payload_is_longer, order_of_answers_does_not_matter};
pub use limit::max_payload_size;
pub use reporters::{Pair, Reporters};
pub use samples::{activities_pass, limits_come_out};
