//! One accepted vote.
ghost use Rattle.std.specs.Prelude.{◌≡◌, drop, if◌then◌else◌};
ghost use Rattle.std.specs.List.{slice_get};
ghost use Rattle.simplex_round.specs.Assembly.{is_candidate, is_unchecked, is_valid};

use crate::votes::is_same_subject;
use simplex_values::Subject;
use simplex_wire::Vote;

/// An accepted vote, and what checking its signature found. [invalid-stays-accepted]
#[derive(Clone, Copy, Debug, PartialEq, Eq)]
pub struct Ballot {
    /// The vote.
    pub vote: Vote,
    /// Whether its signature verifies; none: it was not checked yet.
    pub found: Option<bool>,
}

impl Ballot {
    /// Whether the vote is on the subject, and was not found invalid.
    #[tactic(auto, unfolding(crate::specs::Assembly::is_candidate))]
    pub fn is_candidate(&self, subject: &Subject) -> bool
        ensures { result ≡ is_candidate subject.now self.now }
    {
        is_same_subject(&self.vote.subject(), subject) && self.found != Some(false)
    }

    /// Whether the vote is on the subject, and was not checked.
    #[tactic(auto, unfolding(crate::specs::Assembly::is_unchecked))]
    pub fn is_unchecked(&self, subject: &Subject) -> bool
        ensures { result ≡ is_unchecked subject.now self.now }
    {
        is_same_subject(&self.vote.subject(), subject) && self.found.is_none()
    }

    /// Whether the vote is on the subject, and was found valid.
    #[tactic(auto, unfolding(crate::specs::Assembly::is_valid))]
    pub fn is_valid(&self, subject: &Subject) -> bool
        ensures { result ≡ is_valid subject.now self.now }
    {
        is_same_subject(&self.vote.subject(), subject) && self.found == Some(true)
    }

    /// Takes the first finding where the vote is a candidate that was not checked, and answers those that are left.
    #[tactic(auto, unfolding(crate::specs::Assembly::is_unchecked))]
    pub fn note<'a>(&mut self, subject: &Subject, found: &'a [bool]) -> &'a [bool]
        ensures noted { self.new ≡ (if is_unchecked subject.now self.old
            then record self.old { found = slice_get found.now 0 } else self.old) }
        ensures left { result.now
            ≡ (if is_unchecked subject.now self.old then drop 1 found.now else found.now) }
    {
        if !self.is_unchecked(subject) {
            return found;
        }
        match found.split_first() {
            None => found,
            Some((first, left)) => {
                self.found = Some(*first);
                left
            }
        }
    }
}
