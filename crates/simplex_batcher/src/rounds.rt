//! The rounds by view.
#![tactic(auto, unfolding(crate::specs::Rounds::found, crate::specs::Rounds::round_at, crate::specs::Rounds::round_of, simplex_round::specs::Stands::StandsFor))]

ghost use Rattle.std.specs.Prelude.{◌≡◌, ◌==◌, ◌++◌, ℕ, [], None, Some, false, nat_le, if◌then◌else◌, IfOk, OnOk};
ghost use Rattle.std.specs.Option.{is_some, option_copied};
ghost use Rattle.simplex_round.specs.Acceptance.{heard, heard_from, has_nullify};
ghost use Rattle.simplex_round.specs.Calls.{AcceptVote, SetLeader, RecordCertificate};
ghost use Rattle.simplex_round.specs.Forwarding.{gives_proposal, is_held};
ghost use Rattle.model_steps.specs.Batcher.{known_in};
ghost use Rattle.simplex_batcher.specs.Hearing.{voted, heard_of};
ghost use Rattle.simplex_batcher.specs.Rounds.{round_at, given, ChangesAt, TakesAt, StaysWithout, AnswersAt, HistoryAnswersAt};

use crate::kept::Kept;
use crate::others::{self, Heard, Others, hear, was_accepted};
use simplex_round::{Round, RoundOut};
use simplex_types::{Certificate, CertificateKind, Participant, View, Vote};
use std::alloc::{AllocError, Global};
use std::collections::BTreeMap;
use std::mem::replace;

/// The rounds by view. That of the current view lies apart, since most votes are for it. [current-round-apart]
#[derive(Drop)]
pub(crate) struct Rounds {
    /// The view that the voter is in.
    pub(crate) current: View,
    /// Its round, if there is one.
    pub(crate) here: Option<Kept>,
    /// The rounds of the other views.
    pub(crate) others: Others,
}

impl Rounds {
    /// No rounds.
    pub(crate) fn new(alloc: Global) -> Rounds
        ensures current { result.current ≡ 0 }
        ensures rounds { (q : ℕ) → round_at result q ≡ None }
    {
        Rounds {
            current: View(0),
            here: None,
            others: BTreeMap::new(alloc),
        }
    }

    /// The voter is in this view now.
    pub(crate) fn enter(&mut self, current: View) -> Result<(), AllocError>
        ensures current { OnOk result (self.new.current ≡ current) }
        ensures rounds { OnOk result ((q : ℕ) → round_at self.new q ≡ round_at self.old q) }
    {
        if current == self.current {
            return Ok(());
        }
        let here = self.others.remove(&current.0);
        let before = replace(&mut self.here, here);
        let left = replace(&mut self.current, current);
        others::put_back(&mut self.others, left.0, before)?;
        Ok(())
    }

    /// The round of the view.
    pub(crate) fn get(&self, view: View) -> Option<&Round>
        ensures { option_copied result ≡ round_at self.now view }
    {
        let kept = if view == self.current {
            self.here.as_ref()
        } else {
            self.others.get(&view.0)
        };
        match kept {
            None => None,
            Some(kept) => Some(&kept.round),
        }
    }

    /// Whether the view has a round.
    pub(crate) fn has(&self, view: View) -> bool
        ensures { result ≡ is_some (round_at self.now view) }
    {
        self.get(view).is_some()
    }

    /// Whether the view's round holds a certificate of the kind.
    pub(crate) fn has_certificate(&self, view: View, kind: CertificateKind) -> bool
        ensures answer { AnswersAt (round_at self.now) view
            (λ made known. is_held known kind) result }
        ensures none { round_at self.now view ≡ None → result ≡ false }
    {
        match self.get(view) {
            None => false,
            Some(round) => round.has_certificate(kind),
        }
    }

    /// Whether the view's round accepted a nullify of the member.
    pub(crate) fn has_nullify(&self, view: View, member: Participant) -> bool
        ensures answer { AnswersAt (round_at self.now) view
            (λ made known. has_nullify known member) result }
        ensures none { round_at self.now view ≡ None → result ≡ false }
    {
        match self.get(view) {
            None => false,
            Some(round) => round.has_nullify(member),
        }
    }

    /// Puts a round at a view.
    pub(crate) fn put(&mut self, view: View, round: Kept) -> Result<(), AllocError>
        ensures current { OnOk result (self.new.current ≡ self.old.current) }
        ensures rounds { OnOk result ((q : ℕ)
            → round_at self.new q ≡ (if q == view then Some round else round_at self.old q)) }
    {
        if view == self.current {
            self.here = Some(round);
            return Ok(());
        }
        others::put(&mut self.others, view.0, round)?;
        Ok(())
    }

    /// Drops the rounds below a view.
    pub(crate) fn drop_below(&mut self, least: View)
        ensures current { self.new.current ≡ self.old.current }
        ensures rounds { (q : ℕ)
            → round_at self.new q ≡ (if nat_le least q then round_at self.old q else None) }
    {
        if self.current < least {
            self.here = None;
        }
        others::drop_below(&mut self.others, least.0);
    }

    /// The view's round takes the leader.
    pub(crate) fn set_leader(&mut self, view: View, leader: Participant)
        ensures stands { TakesAt (round_at self.old) (round_at self.new) view (SetLeader leader) }
        ensures none { StaysWithout (round_at self.old) (round_at self.new) view }
        ensures current { self.new.current ≡ self.old.current }
    {
        if view != self.current {
            others::set_leader(&mut self.others, view.0, leader);
            return;
        }
        if let Some(kept) = &mut self.here {
            kept.round.set_leader(leader);
        }
    }

    /// The view's round, if there is one, takes the leader, if there is one, and a vote from the network.
    pub(crate) fn add_network(
        &mut self,
        view: View,
        leader: &Option<Participant>,
        sender: Participant,
        vote: &Vote,
        out: &mut RoundOut,
    ) -> Result<Option<Heard>, AllocError>
        ensures stands { OnOk result (ChangesAt (round_at self.old) (round_at self.new) view
            (voted leader.now sender vote.now)) }
        ensures answer { IfOk result (HistoryAnswersAt (round_at self.old) view
            (λ history. Some (heard_of leader.now sender vote.now history))) }
        ensures reports { OnOk result (HistoryAnswersAt (round_at self.old) view
            (λ history. out.old.reports ++ (heard_from
            (known_in (given leader.now history)) sender vote.now).reports) out.new.reports) }
        ensures blocks { OnOk result (HistoryAnswersAt (round_at self.old) view
            (λ history. out.old.blocks
            ++ (heard_from (known_in
            (given leader.now history)) sender vote.now).blocks) out.new.blocks) }
        ensures some { IfOk result (λ heard. is_some heard ≡ is_some (round_at self.old view)) }
        ensures none { OnOk result (StaysWithout (round_at self.old) (round_at self.new) view) }
        ensures out { OnOk result (round_at self.old view ≡ None → out.new ≡ out.old) }
        ensures current { OnOk result (self.new.current ≡ self.old.current) }
    {
        if view != self.current {
            let rounds = &mut self.others;
            let heard = others::add_network(rounds, view.0, leader, sender, vote, out)?;
            return Ok(heard);
        }
        match &mut self.here {
            None => Ok(None),
            Some(kept) => {
                let heard = hear(&mut kept.round, leader, sender, vote, out)?;
                Ok(Some(heard))
            }
        }
    }

    /// The view's round takes an own vote: whether it is accepted. What comes of it is put into an empty `out`.
    pub(crate) fn accept_vote(
        &mut self,
        view: View,
        vote: Vote,
        out: &mut RoundOut,
    ) -> Result<bool, AllocError>
        requires reports { out.old.reports ≡ [] }
        requires blocks { out.old.blocks ≡ [] }
        ensures stands { OnOk result (TakesAt (round_at self.old)
            (round_at self.new) view (AcceptVote vote)) }
        ensures answer { IfOk result (AnswersAt (round_at self.old) view
            (λ made known. (heard known vote).accepted)) }
        ensures reports { OnOk result (AnswersAt (round_at self.old) view
            (λ made known. (heard known vote).reports) out.new.reports) }
        ensures blocks { OnOk result (AnswersAt (round_at self.old) view
            (λ made known. (heard known vote).blocks) out.new.blocks) }
        ensures current { OnOk result (self.new.current ≡ self.old.current) }
    {
        self.take_own(view, vote, out)?;
        Ok(was_accepted(out))
    }

    /// The view's round takes an own vote.
    fn take_own(&mut self, view: View, vote: Vote, out: &mut RoundOut) -> Result<(), AllocError>
        ensures stands { OnOk result (TakesAt (round_at self.old)
            (round_at self.new) view (AcceptVote vote)) }
        ensures reports { OnOk result (AnswersAt (round_at self.old) view
            (λ made known. out.old.reports ++ (heard known vote).reports) out.new.reports) }
        ensures blocks { OnOk result (AnswersAt (round_at self.old) view
            (λ made known. out.old.blocks ++ (heard known vote).blocks) out.new.blocks) }
        ensures current { OnOk result (self.new.current ≡ self.old.current) }
    {
        if view != self.current {
            others::take_own(&mut self.others, view.0, vote, out)?;
            return Ok(());
        }
        match &mut self.here {
            None => Ok(()),
            Some(kept) => {
                kept.round.accept_vote(vote, out)?;
                Ok(())
            }
        }
    }

    /// The view's round takes a certificate: whether it gives the round another proposal than before.
    pub(crate) fn record_certificate(
        &mut self,
        view: View,
        alloc: Global,
        certificate: &Certificate,
    ) -> Result<bool, AllocError>
        ensures stands { OnOk result (TakesAt (round_at self.old) (round_at self.new) view
            (RecordCertificate certificate.now)) }
        ensures answer { IfOk result (AnswersAt (round_at self.old) view
            (λ made known. gives_proposal known certificate.now)) }
        ensures current { OnOk result (self.new.current ≡ self.old.current) }
    {
        if view != self.current {
            let is_new = others::record_certificate(&mut self.others, view.0, alloc, certificate)?;
            return Ok(is_new);
        }
        match &mut self.here {
            None => Ok(false),
            Some(kept) => {
                let is_new = kept.round.record_certificate(alloc, certificate)?;
                Ok(is_new)
            }
        }
    }
}
