//! A run that is refused.
use crate::exit::Reason;
use simplex_transcript::Refusal;

/// The refusal of a run is a reason of each program that makes one.
impl Reason for Refusal {
    ghost status_of = { λ refusal. 1 };

    fn status(&self) -> u8 {
        1
    }
}
