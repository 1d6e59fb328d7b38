//! What a step teaches.
ghost use Rattle.std.specs.Prelude.{◌≡◌, ◌++◌, ℕ, List, map, OnOk};
ghost use Rattle.model_rules.specs.Known.{Made, Fact};
ghost use Rattle.law_member.specs.Learned.{added_at};
ghost use Rattle.simplex_known.specs.Knows.{Knows, Learns};
ghost use Rattle.simplex_due.specs.Due.{fact_of, facts_of};

use simplex_known::Known;
use simplex_values::{Proposal, View};
use simplex_wire::Certificate;
use std::alloc::AllocError;

/// What a step teaches besides certificates and own votes.
#[derive(Clone, Copy, Debug, PartialEq, Eq)]
pub(crate) enum Lesson {
    /// A proposal from the batcher is recorded.
    Taken(Proposal),
    /// The application's own proposal is recorded.
    Answered(Proposal),
    /// The application verified the proposal.
    Approved(Proposal),
    /// The application's verdict on the view is taken.
    Judged(View, bool),
}

/// Takes in the certificates that were added, and what else is learned.
pub(crate) fn take_in(
    known: &mut Known,
    added: &[Certificate],
    lesson: &Option<Lesson>,
) -> Result<(), AllocError>
    ensures { OnOk result ((made : Made) (facts : List Fact) (now : ℕ) → Knows known.old made facts
        → Knows known.new made
        (facts_of now lesson.now ++ (map (added_at now) added.now ++ facts))) }
{
    add_all(known, added)?;
    match lesson {
        None => Ok(()),
        Some(lesson) => learn(known, lesson),
    }
}

/// Takes in the certificates that were added: the first of them is the newest fact.
pub(crate) fn add_all(known: &mut Known, added: &[Certificate]) -> Result<(), AllocError>
    ensures { OnOk result ((made : Made) (facts : List Fact) (now : ℕ) → Knows known.old made facts
        → Knows known.new made (map (added_at now) added.now ++ facts)) }
{
    let mut left = added.len();
    while left > 0 {
        left -= 1;
        known.add_certificate(&added[left])?;
    }
    Ok(())
}

// Takes in what is learned.
fn learn(known: &mut Known, lesson: &Lesson) -> Result<(), AllocError>
    ensures { OnOk result ((now : ℕ) → Learns known.old known.new (fact_of now lesson.now)) }
{
    match lesson {
        Lesson::Taken(proposal) => known.take_proposal(proposal),
        Lesson::Answered(proposal) => known.answer_proposal(proposal),
        Lesson::Approved(proposal) => known.approve(proposal),
        Lesson::Judged(view, good) => known.judge(*view, *good),
    }
}
