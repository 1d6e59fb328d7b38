//! Two answers in one.
ghost use Rattle.std.specs.Prelude.{◌≡◌};
ghost use Rattle.simplex_report.specs.Combined.{worse};

use simplex_values::Feedback;

/// The worse of two answers: `Closed`, then `Backoff`, then `Ok`.
#[tactic(auto, unfolding(crate::specs::Combined::worse))]
pub fn combine(a: Feedback, b: Feedback) -> Feedback
    ensures { result ≡ worse a b }
{
    match (a, b) {
        (Feedback::Closed, _) | (_, Feedback::Closed) => Feedback::Closed,
        (Feedback::Backoff, _) | (_, Feedback::Backoff) => Feedback::Backoff,
        (Feedback::Ok, Feedback::Ok) => Feedback::Ok,
    }
}
