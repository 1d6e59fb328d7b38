//! What a log keeps of the certificates that it was told.
#![tactic(auto, unfolding(crate::specs::Kept::links_in, crate::specs::Kept::finals_in))]

ghost use Rattle.std.specs.Prelude.{◌≡◌, ◌==◌, ◌<◌, ◌++◌, ◌∷◌, [], ℕ, not, max, filter, List, None, OnOk, OnErr, IfOk, if◌then◌else◌};
ghost use Rattle.std.specs.Option.{option_and_then};
ghost use Rattle.simplex_values.specs.declared.proposal.Proposal.{Proposal};
ghost use Rattle.simplex_types.specs.declared.activity.Activity.{Activity};
ghost use Rattle.model_log.specs.Links.{is_link, proposal_in};
ghost use Rattle.model_log.specs.Observing.{clash_with, unless_clash};
ghost use Rattle.model_log.specs.Walks.{link_at};
ghost use Rattle.simplex_log.specs.Kept.{links_in, finals_in, finals_with};
ghost use Rattle.simplex_log.specs.Stands.{KeptAt, KeptOf, IsJoining, IsUnlessMemory, Stays};

use crate::finals::Finals;
use crate::links::{Links, parent_of, view_of};
use model_log::LogError;
use simplex_types::Activity;
use simplex_values::Proposal;
use std::alloc::{AllocError, Global};

/// The links, the final views, and where the walk of the greatest of them ends.
#[derive(Debug, Drop)]
pub(crate) struct Kept {
    pub links: Links,
    pub finals: Finals,
    /// The greatest final view, or 0.
    pub last: u64,
    /// Where its walk ends.
    pub end: u64,
}

impl Kept {
    /// Nothing was told.
    pub(crate) fn new(alloc: Global) -> Kept
        ensures { KeptOf result [] [] }
    {
        Kept {
            links: Links::new(alloc),
            finals: Finals::new(alloc),
            last: 0,
            end: 0,
        }
    }

    /// The view is final: where it is the greatest that is, its walk is followed.
    fn close(&mut self, view: u64)
        ensures stands { (links : List Proposal) (finals : List ℕ) (last : ℕ) → KeptAt self.old links finals last
            → KeptAt self.new links finals (max last view) }
        ensures tip { self.new.finals.tip ≡ self.old.finals.tip }
    {
        if self.last < view {
            self.last = view;
            self.end = self.links.end(view);
        }
    }

    /// Takes a final view whose link is held, or has none.
    fn finish(&mut self, alloc: Global, view: u64) -> Result<bool, AllocError>
        ensures ok { OnOk result ((links : List Proposal) (finals : List ℕ) → KeptOf self.old links finals
            → KeptOf self.new links (finals ++ view ∷ [])) }
        ensures moved { IfOk result (λ moved. moved
            ≡ not (self.new.finals.tip == self.old.finals.tip)) }
        ensures err { OnErr result (Stays self.old self.new) }
    {
        let end = self.links.end(view);
        let moved = self.finals.raise(alloc, &self.links, end, view)?;
        self.close(view);
        Ok(moved)
    }

    /// Takes the first link of its view, at which the walk of the final view `top` ended, or of none where this is 0.
    fn join(&mut self, alloc: Global, proposal: &Proposal, top: u64) -> Result<bool, AllocError>
        requires { proposal.now.parent < proposal.now.round.view }
        ensures ok { OnOk result ((links : List Proposal) (finals : List ℕ) (last : ℕ)
            → IsJoining self.old links finals proposal.now top last
            → KeptAt self.new (links ++ proposal.now ∷ []) finals last) }
        ensures moved { IfOk result (λ moved. moved
            ≡ not (self.new.finals.tip == self.old.finals.tip)) }
        ensures err { OnErr result ((links : List Proposal) (finals : List ℕ) (last : ℕ)
            → link_at links proposal.now.round.view ≡ None → KeptAt self.old links finals last
            → KeptAt self.new links finals last) }
    {
        let view = view_of(proposal);
        let end = self.links.end(parent_of(proposal));
        self.links.insert(proposal)?;
        match self.finals.raise(alloc, &self.links, end, top) {
            Err(error) => {
                self.links.remove(view);
                Err(error)
            }
            Ok(moved) => {
                self.finals.leave(view);
                self.end = end_behind(self.end, view, end);
                Ok(moved)
            }
        }
    }

    /// Takes a proposal whose view has no link.
    fn link(
        &mut self,
        alloc: Global,
        proposal: &Proposal,
        is_final: bool,
    ) -> Result<bool, AllocError>
        requires { proposal.now.parent < proposal.now.round.view }
        ensures ok { OnOk result ((links : List Proposal) (finals : List ℕ)
            → link_at links proposal.now.round.view ≡ None → KeptOf self.old links finals
            → KeptOf self.new (links ++ proposal.now ∷ [])
            (finals_with finals proposal.now.round.view is_final)) }
        ensures moved { IfOk result (λ moved. moved
            ≡ not (self.new.finals.tip == self.old.finals.tip)) }
        ensures err { OnErr result ((links : List Proposal) (finals : List ℕ)
            → link_at links proposal.now.round.view ≡ None → KeptOf self.old links finals
            → KeptOf self.new links finals) }
    {
        let view = view_of(proposal);
        let top = self.finals.top(view);
        if !is_final {
            return self.join(alloc, proposal, top);
        }
        let moved = self.join(alloc, proposal, top.max(view))?;
        self.close(view);
        Ok(moved)
    }

    /// Takes a proposal that is no new link, which is final or not.
    fn pass(&mut self, alloc: Global, view: u64, is_final: bool) -> Result<bool, AllocError>
        ensures ok { OnOk result ((links : List Proposal) (finals : List ℕ) → KeptOf self.old links finals
            → KeptOf self.new links (finals_with finals view is_final)) }
        ensures moved { IfOk result (λ moved. moved
            ≡ not (self.new.finals.tip == self.old.finals.tip)) }
        ensures err { OnErr result (Stays self.old self.new) }
    {
        if is_final {
            self.finish(alloc, view)
        } else {
            Ok(false)
        }
    }

    /// Takes a proposal of a certificate that verifies, which is final or not.
    fn name(&mut self, alloc: Global, proposal: &Proposal, is_final: bool) -> Result<bool, LogError>
        ensures ok { OnOk result ((links : List Proposal) (finals : List ℕ) → KeptOf self.old links finals
            → KeptOf self.new (links ++ filter is_link (proposal.now ∷ []))
            (finals_with finals proposal.now.round.view is_final)) }
        ensures answer { (links : List Proposal) (finals : List ℕ) → KeptOf self.old links finals
            → IsUnlessMemory result (unless_clash (clash_with links proposal.now)
            (not (self.new.finals.tip == self.old.finals.tip))) }
        ensures err { OnErr result (Stays self.old self.new) }
    {
        let view = view_of(proposal);
        if let Some(held) = self.links.at(view) {
            if !held.is_same(proposal) {
                return Err(LogError::Clash {
                    held,
                    other: *proposal,
                });
            }
            return Ok(self.pass(alloc, view, is_final)?);
        }
        if parent_of(proposal) >= view {
            return Ok(self.pass(alloc, view, is_final)?);
        }
        Ok(self.link(alloc, proposal, is_final)?)
    }

    /// Takes an activity that verifies.
    pub(crate) fn take(&mut self, alloc: Global, activity: &Activity) -> Result<bool, LogError>
        ensures ok { OnOk result ((links : List Proposal) (finals : List ℕ) → KeptOf self.old links finals
            → KeptOf self.new (links ++ links_in activity.now) (finals ++ finals_in activity.now)) }
        ensures answer { (links : List Proposal) (finals : List ℕ) → KeptOf self.old links finals
            → IsUnlessMemory result
            (unless_clash (option_and_then (clash_with links) (proposal_in activity.now))
            (not (self.new.finals.tip == self.old.finals.tip))) }
        ensures err { OnErr result (Stays self.old self.new) }
    {
        match activity {
            Activity::Notarization(it) | Activity::Certification(it) => {
                self.name(alloc, &it.proposal, false)
            }
            Activity::Finalization(it) => self.name(alloc, &it.proposal, true),
            _ => Ok(false),
        }
    }
}

/// Where a walk ends that ended there, as the link of the view comes, whose parent's walk ends at `end`.
fn end_behind(foot: u64, view: u64, end: u64) -> u64
    ensures { result ≡ (if foot == view then «end» else foot) }
{
    if foot == view { end } else { foot }
}
