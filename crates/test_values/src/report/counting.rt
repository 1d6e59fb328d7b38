//! Reporters that count, or keep, what they are told.
ghost use Rattle.std.specs.Prelude.{◌≡◌, Ok};

use simplex_types::{Activity, Feedback, Reporter};
use std::alloc::{AllocError, Global};

/// Answers always the same, and counts what it is told.
#[derive(Drop)]
pub(super) struct Counting {
    answer: Feedback,
    pub(super) told: u64,
}

impl Counting {
    /// A reporter that was told nothing yet.
    pub(super) fn answering(answer: Feedback) -> Counting {
        Counting { answer, told: 0 }
    }
}

impl Reporter for Counting {
    type Activity = Activity;

    ghost reports = { λ before activity answer after. answer ≡ Ok before.answer };

    fn report(&mut self, activity: Activity) -> Result<Feedback, AllocError> {
        drop(activity);
        self.told = self.told.saturating_add(1);
        Ok(self.answer)
    }
}

/// How much it was told, and nothing where there is none.
pub(super) fn told_by(reporter: &Option<Counting>) -> u64 {
    match reporter {
        Some(reporter) => reporter.told,
        None => 0,
    }
}

/// Keeps what it is told, and asks for a pause at the first alone.
#[derive(Drop)]
pub(super) struct Listing {
    told: Vec<Activity>,
}

impl Listing {
    /// A reporter that was told nothing yet.
    pub(super) fn new(alloc: Global) -> Listing {
        Listing {
            told: Vec::new(alloc),
        }
    }

    /// What it was told, in order.
    pub(super) fn text(&self, alloc: Global) -> Result<String, AllocError> {
        let mut text = String::new(alloc);
        for activity in &self.told {
            let word = match activity {
                Activity::Notarize(_) => "notarize ",
                Activity::Notarization(_) => "notarization ",
                _ => "another ",
            };
            text.push_str(word)?;
        }
        String::from_str(alloc, text.as_str().trim_end())
    }
}

impl Reporter for Listing {
    type Activity = Activity;

    ghost reports = { λ before activity answer after. after ≡ after };

    fn report(&mut self, activity: Activity) -> Result<Feedback, AllocError> {
        let first = self.told.is_empty();
        self.told.push(activity)?;
        Ok(if first {
            Feedback::Backoff
        } else {
            Feedback::Ok
        })
    }
}
