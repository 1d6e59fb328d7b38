//! Two reporters in one.
ghost use Rattle.std.specs.Prelude.{◌≡◌, Some, Option};
ghost use Rattle.simplex_report.specs.Combined.{tells_both};

use crate::answers::combine;
use simplex_types::Reporter;
use simplex_values::{Feedback, Keep};
use std::alloc::{AllocError, Global};

/// Two reporters, of which either may be missing.
#[derive(Debug, Drop)]
pub struct Pair<R1, R2> {
    /// Who is told first, if anybody.
    pub first: Option<R1>,
    /// Who is told behind the first, if anybody.
    pub second: Option<R2>,
}

impl<R1, R2> From<(Option<R1>, Option<R2>)> for Pair<R1, R2> {
    ghost from_gives = { λ pair it. it ≡ record { first = pair.0; second = pair.1 } };

    fn from(pair: (Option<R1>, Option<R2>)) -> Pair<R1, R2> {
        let (first, second) = pair;
        Pair { first, second }
    }
}

impl<R1, R2> From<(Option<R1>, R2)> for Pair<R1, R2> {
    ghost from_gives = { λ pair it. it ≡ record { first = pair.0; second = Some pair.1 } };

    fn from(pair: (Option<R1>, R2)) -> Pair<R1, R2> {
        let (first, second) = pair;
        Pair {
            first,
            second: Some(second),
        }
    }
}

impl<R1, R2> From<(R1, Option<R2>)> for Pair<R1, R2> {
    ghost from_gives = { λ pair it. it ≡ record { first = Some pair.0; second = pair.1 } };

    fn from(pair: (R1, Option<R2>)) -> Pair<R1, R2> {
        let (first, second) = pair;
        Pair {
            first: Some(first),
            second,
        }
    }
}

impl<R1, R2> From<(R1, R2)> for Pair<R1, R2> {
    ghost from_gives = { λ pair it. it ≡ record { first = Some pair.0; second = Some pair.1 } };

    fn from(pair: (R1, R2)) -> Pair<R1, R2> {
        let (first, second) = pair;
        Pair {
            first: Some(first),
            second: Some(second),
        }
    }
}

/// Tells two reporters, the first of them first, and answers the worse of their answers. One that is missing
/// is not told, and where both are all is well.
///
/// Where both are there the first is told of a copy. Where memory is wanting for it, neither was told; where
/// it is wanting in the second, the first was. [reporters-copy]
#[derive(Drop)]
pub struct Reporters<R1, R2> {
    alloc: Global,
    /// The two that are told.
    pub pair: Pair<R1, R2>,
}

impl<R1, R2> Reporters<R1, R2> {
    /// Tells these. The allocator is for copies of what is reported.
    pub fn new(alloc: Global, pair: Pair<R1, R2>) -> Reporters<R1, R2>
        ensures { result.pair ≡ pair }
    {
        Reporters { alloc, pair }
    }
}

impl<A: Keep + Drop, R1: Reporter<Activity = A>, R2: Reporter<Activity = A>> Reporter
    for Reporters<R1, R2> {
    type Activity = A;

    ghost reports = { λ before activity answer after. tells_both R1.reports R2.reports
        before.pair.first before.pair.second activity answer after.pair.first after.pair.second };

    fn report(&mut self, activity: A) -> Result<Feedback, AllocError> {
        let Some(first) = &mut self.pair.first else {
            return self.pair.second.report(activity);
        };
        let Some(second) = &mut self.pair.second else {
            return first.report(activity);
        };
        let copy = activity.keep(self.alloc)?;
        let told = first.report(copy)?;
        Ok(combine(told, second.report(activity)?))
    }
}

impl<R1: Keep + Drop, R2: Keep + Drop> Keep for Reporters<R1, R2> {
    fn keep(&self, alloc: Global) -> Result<Reporters<R1, R2>, AllocError> {
        Ok(Reporters {
            alloc: self.alloc,
            pair: Pair {
                first: self.pair.first.keep(alloc)?,
                second: self.pair.second.keep(alloc)?,
            },
        })
    }
}
