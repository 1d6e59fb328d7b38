//! The subjects that a member voted for.
#![tactic(auto, unfolding(crate::specs::Votes::at_view, crate::specs::Votes::has_subject))]

ghost use Rattle.std.specs.Prelude.{◌≡◌, ◌==◌, ◌||◌, ◌++◌, ◌∷◌, ℕ, [], OnOk, false, filter_map, if◌then◌else◌};
ghost use Rattle.std.specs.List.{list_any};
ghost use Rattle.std.specs.Option.{unwrap_or, option_map_or};
ghost use Rattle.std.specs.Ordering.{nat_cmp};
ghost use Rattle.std.specs.BTreeMap as tree;
ghost use Rattle.simplex_values.specs.declared.proposal.Subject.{Subject};
ghost use Rattle.simplex_round.specs.Votes as votes;
ghost use Rattle.simplex_records.specs.Votes.{vote_in, is_on, subject_view, has_subject};

use crate::reading::vote_in;
use simplex_round::is_same_subject;
use simplex_transcript::Packet;
use simplex_types::{Channel, Sequence, Subject, Vote};
use std::alloc::{AllocError, Global};
use std::collections::BTreeMap;

/// The subjects that a member voted for, by view, each once.
#[derive(Drop)]
pub(crate) struct Subjects {
    pub(crate) by_view: BTreeMap<u64, Sequence<Subject>>,
}

impl Subjects {
    /// None.
    pub(crate) fn new(alloc: Global) -> Subjects
        ensures { (s : Subject) → has_subject result s ≡ false }
    {
        Subjects {
            by_view: BTreeMap::new(alloc),
        }
    }

    /// Whether the member voted for the subject.
    pub(crate) fn contains(&self, subject: &Subject) -> bool
        ensures { result ≡ has_subject self.now subject.now }
    {
        match self.by_view.get(&view_of(subject)) {
            None => false,
            Some(subjects) => holds(subjects.as_slice(), subject),
        }
    }

    /// Takes in the votes among the packets.
    pub(crate) fn add(&mut self, alloc: Global, packets: &[Packet]) -> Result<(), AllocError>
        ensures { OnOk result ((s : Subject) → has_subject self.new s
            ≡ (list_any (is_on s) (filter_map vote_in packets.now) || has_subject self.old s)) }
    {
        for packet in packets {
            self.add_packet(alloc, packet)?;
        }
        Ok(())
    }

    fn add_packet(&mut self, alloc: Global, packet: &Packet) -> Result<(), AllocError>
        ensures { OnOk result ((s : Subject) → has_subject self.new s
            ≡ (option_map_or (is_on s) (vote_in packet.now) false || has_subject self.old s)) }
    {
        match vote_of(packet) {
            None => Ok(()),
            Some(vote) => {
                self.add_subject(alloc, vote.subject())?;
                Ok(())
            }
        }
    }

    fn add_subject(&mut self, alloc: Global, subject: Subject) -> Result<(), AllocError>
        ensures { OnOk result ((s : Subject) → has_subject self.new s
            ≡ (votes.is_same_subject subject s || has_subject self.old s)) }
    {
        if self.contains(&subject) {
            return Ok(());
        }
        insert(&mut self.by_view, alloc, subject)?;
        Ok(())
    }
}

// The vote that the packet is.
fn vote_of(packet: &Packet) -> Option<Vote>
    ensures { result ≡ vote_in packet.now }
{
    match packet.channel {
        Channel::Vote => vote_in(packet.bytes.as_slice()),
        Channel::Certificate | Channel::Resolver => None,
    }
}

fn view_of(subject: &Subject) -> u64
    ensures { result ≡ subject_view subject.now }
{
    match subject {
        Subject::Notarize(proposal) | Subject::Finalize(proposal) => proposal.round.view.0,
        Subject::Nullify(round) => round.view.0,
    }
}

// Whether it is among these.
fn holds(subjects: &[Subject], subject: &Subject) -> bool
    ensures { result ≡ list_any (λ other. votes.is_same_subject other subject.now) subjects.now }
{
    subjects.iter().any(|other| is_same_subject(other, subject))
}

// Puts the subject behind those of its view.
fn insert(
    by_view: &mut BTreeMap<u64, Sequence<Subject>>,
    alloc: Global,
    subject: Subject,
) -> Result<(), AllocError>
    ensures { OnOk result ((q : ℕ) → unwrap_or (tree.get nat_cmp by_view.new q) []
        ≡ (if subject_view subject == q then unwrap_or
        (tree.get nat_cmp by_view.old q) [] ++ subject ∷ []
        else unwrap_or (tree.get nat_cmp by_view.old q) [])) }
{
    let view = view_of(&subject);
    let mut subjects = match by_view.remove(&view) {
        None => Sequence::new(alloc),
        Some(subjects) => subjects,
    };
    subjects.push(subject)?;
    by_view.insert(view, subjects)?;
    Ok(())
}
