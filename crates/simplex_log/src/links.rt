//! The links that are held.
#![tactic(auto, unfolding(simplex_values::specs::Maps::found, crate::specs::Kept::held_at))]

ghost use Rattle.std.specs.Prelude.{◌≡◌, ◌==◌, ◌<◌, ◌&&◌, ◌++◌, ◌∷◌, ◌⊎◌, [], nat_lt, ℕ, List, Option, None, IfSome, OnOk, OnErr, IfOk, map, if◌then◌else◌};
ghost use Rattle.simplex_values.specs.Maps.{found};
ghost use Rattle.simplex_values.specs.declared.proposal.Proposal.{Proposal};
ghost use Rattle.model_log.specs.Ends.{end_in};
ghost use Rattle.model_log.specs.Log.{entry_for};
ghost use Rattle.model_log.specs.Walks.{link_at, walk};
ghost use Rattle.simplex_log.specs.Kept.{held_at, pointing, Puts};
ghost use Rattle.simplex_log.specs.Stands.{LinksOf};

use model_log::LogEntry;
use simplex_values::Proposal;
use simplex_values::maps::{empty_map, put};
use std::alloc::{AllocError, Global};
use std::collections::BTreeMap;

/// A link, and a view further down its walk.
#[derive(Clone, Copy, Debug)]
pub(crate) struct Link {
    /// The proposal, whose parent is below its view.
    pub proposal: Proposal,
    /// A view below its own, whose walk ends where its own does.
    pub down: u64,
}

/// The end of a walk that was followed, and the entries of its links, from its first view down.
#[derive(Debug, Drop)]
pub(crate) struct Branch {
    pub entries: Vec<LogEntry>,
    pub foot: u64,
}

/// The link of each view that has one.
#[derive(Debug, Drop)]
pub(crate) struct Links {
    views: BTreeMap<u64, Link>,
}

/// Whether the link goes down from the view.
fn falls(link: &Link, view: u64) -> bool
    ensures { result ≡ (nat_lt link.now.down view && nat_lt link.now.proposal.parent view) }
{
    link.down < view && parent_of(&link.proposal) < view
}

/// Lets the link of the view point further down. [walks-are-shortened]
fn shorten(views: &mut BTreeMap<u64, Link>, view: u64, down: u64)
    ensures { (q : ℕ) → found views.new q ≡ (if view == q then pointing down (found views.old q)
        else found views.old q) }
{
    if let Some(link) = views.get_mut(&view) {
        link.down = down;
    }
}

/// Puts the link, which points to its parent, at its view.
fn put_link(views: &mut BTreeMap<u64, Link>, proposal: &Proposal) -> Result<(), AllocError>
    ensures ok { OnOk result (Puts views.old views.new proposal.now) }
    ensures err { OnErr result ((q : ℕ) → found views.new q ≡ found views.old q) }
{
    let link = Link {
        proposal: *proposal,
        down: proposal.parent.0,
    };
    put(views, proposal.round.view.0, link)
}

/// Its view, as a number.
pub(crate) fn view_of(proposal: &Proposal) -> u64
    ensures { result ≡ proposal.now.round.view }
{
    proposal.round.view.0
}

/// Its parent, as a number.
pub(crate) fn parent_of(proposal: &Proposal) -> u64
    ensures { result ≡ proposal.now.parent }
{
    proposal.parent.0
}

/// Its place in the log.
fn entry_for(proposal: &Proposal) -> LogEntry
    ensures { result ≡ entry_for proposal.now }
{
    LogEntry {
        view: proposal.round.view,
        parent: proposal.parent,
        payload: proposal.payload,
    }
}

/// Forgets the link of the view.
fn forget(views: &mut BTreeMap<u64, Link>, view: u64)
    ensures { (q : ℕ) → found views.new q ≡ (if view == q then None else found views.old q) }
{
    views.remove(&view);
}

impl Links {
    /// No links.
    pub(crate) fn new(alloc: Global) -> Links
        ensures { LinksOf result [] }
    {
        Links {
            views: empty_map(alloc),
        }
    }

    /// The link of the view.
    pub(crate) fn at(&self, view: u64) -> Option<Proposal>
        ensures { (links : List Proposal) → LinksOf self.now links → result ≡ link_at links view }
    {
        let link = self.views.get(&view)?;
        Some(link.proposal)
    }

    /// The link of the view, with the view further down. All go down.
    fn below(&self, view: u64) -> Option<Link>
        ensures falls { IfSome result (λ l. (l.down < view) × (l.proposal.parent < view)) }
        ensures held { (links : List Proposal) → LinksOf self.now links
            → result ≡ found self.now.views view }
    {
        let link = self.views.get(&view).copied()?;
        if falls(&link, view) { Some(link) } else { None }
    }

    /// Where the walk of the view ends.
    fn end_from(&self, view: u64) -> u64
        ensures { (links : List Proposal) → LinksOf self.now links → result ≡ end_in links view }
    {
        let mut end = view;
        while let Some(link) = self.below(end) {
            end = link.down;
        }
        end
    }

    /// Lets the link of the view point to where its walk ends.
    fn shorten(&mut self, view: u64, end: u64)
        ensures { (links : List Proposal) → LinksOf self.old links → end ≡ end_in links view
            → LinksOf self.new links }
    {
        shorten(&mut self.views, view, end);
    }

    /// Where the walk of the view ends. All links that it goes by point there then.
    pub(crate) fn end(&mut self, view: u64) -> u64
        ensures same { (links : List Proposal) → LinksOf self.old links → LinksOf self.new links }
        ensures answer { (links : List Proposal) → LinksOf self.old links
            → result ≡ end_in links view }
    {
        let end = self.end_from(view);
        let mut from = view;
        while let Some(link) = self.below(from) {
            self.shorten(from, end);
            from = link.down;
        }
        end
    }

    /// Takes a link.
    pub(crate) fn insert(&mut self, proposal: &Proposal) -> Result<(), AllocError>
        ensures put { OnOk result (Puts self.old.views self.new.views proposal.now) }
        ensures taken { OnOk result ((links : List Proposal) → LinksOf self.old links
            → proposal.now.parent < proposal.now.round.view
            → link_at links proposal.now.round.view ≡ None
            → LinksOf self.new (links ++ proposal.now ∷ [])) }
        ensures err { OnErr result ((links : List Proposal) → LinksOf self.old links
            → LinksOf self.new links) }
    {
        put_link(&mut self.views, proposal)
    }

    /// Forgets the link of the view.
    pub(crate) fn remove(&mut self, view: u64)
        ensures { (q : ℕ) → found self.new.views q ≡ (if view == q then None
            else found self.old.views q) }
    {
        forget(&mut self.views, view);
    }

    /// The links from the view down, to where its walk ends or comes to `foot`.
    pub(crate) fn branch(&self, alloc: Global, view: u64, foot: u64) -> Result<Branch, AllocError>
        ensures walked { IfOk result (λ b. (links : List Proposal) → LinksOf self.now links
            → b.entries.items ++ map entry_for (walk links b.foot)
            ≡ map entry_for (walk links view)) }
        ensures ended { IfOk result (λ b. (links : List Proposal) → LinksOf self.now links
            → (b.foot ≡ foot) ⊎ (b.foot ≡ end_in links view)) }
    {
        let mut entries = Vec::new(alloc);
        let mut at = view;
        while let Some(link) = self.below(at) {
            if at == foot {
                break;
            }
            entries.push(entry_for(&link.proposal))?;
            at = parent_of(&link.proposal);
        }
        Ok(Branch { entries, foot: at })
    }
}
