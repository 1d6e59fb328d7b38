//! What an entry reports, handed to a reporter.
ghost use Rattle.simplex_values.specs.declared.feedback.Feedback.TheVariants as feedback;
ghost use Rattle.simplex_report.specs.Handing.{reported_in, tells_all};

use crate::answers::combine;
use simplex_messages::Call;
use simplex_transcript::Entry;
use simplex_types::{Activity, Keep, Reporter};
use simplex_values::Feedback;
use std::alloc::{AllocError, Global};

/// Hands the reporter what the entry reports, in order, and answers the worst of its answers; `Ok` where it reports
/// nothing.
///
/// The reporter is told of copies. Where memory is wanting it may have been told of the first of them.
#[tactic(auto, unfolding(crate::specs::Handing::tells_all))]
pub fn hand_reports<R: Reporter<Activity = Activity>>(
    alloc: Global,
    entry: &Entry,
    reporter: &mut R,
) -> Result<Feedback, AllocError>
    ensures { tells_all R.reports reporter.old feedback.Ok
        (reported_in entry.now) result reporter.new }
{
    let mut told = Feedback::Ok;
    let mut rest = entry.calls.as_slice();
    while let [call, after @ ..] = rest {
        if let Call::Report(activity) = call {
            let copy = activity.keep(alloc)?;
            let next = reporter.report(copy)?;
            told = combine(told, next);
        }
        rest = after;
    }
    Ok(told)
}
