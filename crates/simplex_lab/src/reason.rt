//! Why the program ends in a way of its own.
ghost use Rattle.simplex_lab.specs.Reasons.{status_of_reason};

use simplex_front::Reason;
use simplex_transcript::Refusal;

/// Why work ends before it is whole.
#[derive(Debug, PartialEq, Eq, Drop)]
pub enum LabReason {
    /// The run of the input is refused.
    Refused(Refusal),
    /// What was written as an input is none: this is the first place that is not of the form.
    Unread { place: u64 },
    /// The run of the input does not make the line.
    NotMade,
}

impl Reason for LabReason {
    ghost status_of = { status_of_reason };

    fn status(&self) -> u8 {
        match self {
            LabReason::Refused(_) => 1,
            LabReason::Unread { .. } => 8,
            LabReason::NotMade => 9,
        }
    }
}
