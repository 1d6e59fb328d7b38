//! What an engine is made with.
ghost use Rattle.std.specs.Prelude.{◌≡◌, IfOk};
ghost use Rattle.simplex_engine.specs.Config.{first_bad, is_time, is_skip, budget, view_at};
ghost use Rattle.simplex_engine.specs.Made.{voter_config, batcher_config, resolver_config};

use simplex_types::elector::Elector;
use simplex_types::{
    Digest, Epoch, Floor, ForwardPolicy, Keep, Lookahead, Scheme, SkipPolicy, View, ViewDelta,
};
use std::alloc::{AllocError, Global};
use std::fmt;

/// The greatest epoch.
const GREATEST_EPOCH: u64 = u64::MAX - 1;

/// The longest time that a configuration may have, in milliseconds.
const LONGEST: u64 = 1 << 62;

/// The most views that may be kept below the last final one.
const MOST_VIEWS: u64 = 1 << 32;

/// The most messages that a mailbox may have ready.
const MOST_MESSAGES: u32 = 4096;

/// What an engine is made with.
#[derive(Drop)]
pub struct EngineConfig<S, L> {
    /// Signs for the member, and verifies for all.
    pub scheme: S,
    /// Elects the leaders.
    pub elector: L,
    /// The payload of view 0.
    pub genesis: Digest,
    /// Where the engine starts.
    pub floor: Floor,
    /// The epoch whose votes and certificates count.
    pub epoch: Epoch,
    /// How many milliseconds a view has for its proposal.
    pub leader_timeout: u64,
    /// How many milliseconds a view with a proposal has for its certificate.
    pub certification_timeout: u64,
    /// After how many milliseconds a nullify is repeated.
    pub retry: u64,
    /// How many views below the last final one are kept.
    pub retention: ViewDelta,
    /// Whether a view whose leader seems to be gone expires at once.
    pub skip: SkipPolicy,
    /// How many messages a mailbox has ready.
    pub mailbox: u32,
    /// After how many milliseconds a request to a peer is given up.
    pub fetch_timeout: u64,
    /// After how many milliseconds it is made again.
    pub fetch_retry: u64,
    /// To whom a notarized proposal is forwarded.
    pub forward: ForwardPolicy,
    /// Whether votes of views below current are counted.
    pub track: bool,
    /// Whether a proposal is prepared for the next term before its parent is certified.
    pub handoff: bool,
}

/// An item of a configuration, in the order in which they are tested. [nine-items]
#[derive(Clone, Copy, Debug, PartialEq, Eq)]
pub enum EngineField {
    /// At most 2^64 - 2.
    Epoch,
    /// 1 to 2^62 milliseconds, at most the certification timeout.
    LeaderTimeout,
    /// 1 to 2^62 milliseconds.
    CertificationTimeout,
    /// 1 to 2^62 milliseconds.
    Retry,
    /// 1 to 2^32 views.
    Retention,
    /// A timeout of 1 to 2^62 milliseconds.
    Skip,
    /// 1 to 4,096 messages.
    Mailbox,
    /// 1 to 2^62 milliseconds.
    FetchTimeout,
    /// 0 to 2^62 milliseconds.
    FetchRetry,
}

impl fmt::Display for EngineField {
    fn fmt<W: fmt::Write>(&self, f: &mut fmt::Formatter<W>) -> fmt::Result {
        match self {
            EngineField::Epoch => write!(f, "epoch"),
            EngineField::LeaderTimeout => write!(f, "leader_timeout"),
            EngineField::CertificationTimeout => write!(f, "certification_timeout"),
            EngineField::Retry => write!(f, "retry"),
            EngineField::Retention => write!(f, "retention"),
            EngineField::Skip => write!(f, "skip"),
            EngineField::Mailbox => write!(f, "mailbox"),
            EngineField::FetchTimeout => write!(f, "fetch_timeout"),
            EngineField::FetchRetry => write!(f, "fetch_retry"),
        }
    }
}

impl<S, L> EngineConfig<S, L> {
    /// The first item that breaks its limit.
    #[tactic(auto, unfolding(crate::specs::Config::first_bad))]
    pub fn first_bad(&self) -> Option<EngineField>
        ensures { result ≡ first_bad self.now }
    {
        if self.epoch.0 > GREATEST_EPOCH {
            return Some(EngineField::Epoch);
        }
        if !is_time(self.leader_timeout) || self.leader_timeout > self.certification_timeout {
            return Some(EngineField::LeaderTimeout);
        }
        if !is_time(self.certification_timeout) {
            return Some(EngineField::CertificationTimeout);
        }
        if !is_time(self.retry) {
            return Some(EngineField::Retry);
        }
        if self.retention.0 == 0 || self.retention.0 > MOST_VIEWS {
            return Some(EngineField::Retention);
        }
        if !is_skip(&self.skip) {
            return Some(EngineField::Skip);
        }
        if self.mailbox == 0 || self.mailbox > MOST_MESSAGES {
            return Some(EngineField::Mailbox);
        }
        if !is_time(self.fetch_timeout) {
            return Some(EngineField::FetchTimeout);
        }
        if self.fetch_retry > LONGEST {
            return Some(EngineField::FetchRetry);
        }
        None
    }
}

/// Whether a timeout is of 1 to 2^62 milliseconds.
fn is_time(timeout: u64) -> bool
    ensures { result ≡ is_time timeout }
{
    0 < timeout && timeout <= LONGEST
}

/// Whether a policy's timeout keeps its limit.
fn is_skip(skip: &SkipPolicy) -> bool
    ensures { result ≡ is_skip skip.now }
{
    match skip {
        SkipPolicy::Disabled => true,
        SkipPolicy::Enabled { timeout, .. } => is_time(*timeout),
    }
}

/// How many views inactivity may skip without finality.
fn budget(skip: &SkipPolicy, members: u32) -> u64
    ensures { result ≡ budget members skip.now }
{
    match skip {
        SkipPolicy::Disabled => 0,
        SkipPolicy::Enabled { budget, .. } => budget.resolve(members),
    }
}

/// The view of a floor.
fn view_at(floor: &Floor) -> View
    ensures { result ≡ view_at floor.now }
{
    match floor {
        Floor::Genesis(_) => View(0),
        Floor::Finalized(finalization) => finalization.proposal.round.view,
    }
}

impl<S: Scheme + Keep + Drop, L: Elector> EngineConfig<S, L> {
    /// What the batcher is made with, with a copy of the scheme.
    pub(crate) fn for_batcher(
        &self,
        alloc: Global,
    ) -> Result<simplex_batcher::Config<S>, AllocError>
        ensures { IfOk result (λ config. config ≡ batcher_config L.cuts self.now) }
    {
        let scheme = self.scheme.keep(alloc)?;
        let terms = self.elector.terms();
        Ok(simplex_batcher::Config {
            scheme,
            track_historical_votes: self.track,
            view_retention: self.retention,
            skip: self.skip,
            epoch: self.epoch,
            mailbox_size: self.mailbox,
            lookahead: Lookahead::new(&terms),
            forward: self.forward,
            floor: view_at(&self.floor),
        })
    }

    /// What the resolver is made with, with a copy of the scheme.
    pub(crate) fn for_resolver(
        &self,
        alloc: Global,
    ) -> Result<simplex_resolver::Config<S>, AllocError>
        ensures { IfOk result (λ config. config ≡ resolver_config L.cuts self.now) }
    {
        let scheme = self.scheme.keep(alloc)?;
        let terms = self.elector.terms();
        Ok(simplex_resolver::Config {
            scheme,
            epoch: self.epoch,
            mailbox_size: self.mailbox,
            handler_size: self.mailbox,
            fetch_timeout: self.fetch_timeout,
            fetch_retry_delay: self.fetch_retry,
            term_length: terms.length,
        })
    }
}

impl<S: Scheme, L> EngineConfig<S, L> {
    /// What the voter is made with.
    pub(crate) fn into_voter(self) -> simplex_voter::Config<S, L>
        ensures { result ≡ voter_config S.members self }
    {
        let skip_budget = budget(&self.skip, self.scheme.participants());
        simplex_voter::Config {
            scheme: self.scheme,
            elector: self.elector,
            epoch: self.epoch,
            floor: self.floor,
            mailbox_size: self.mailbox,
            leader_timeout: self.leader_timeout,
            certification_timeout: self.certification_timeout,
            timeout_retry: self.retry,
            skip_budget,
            view_retention: self.retention,
            handoff: self.handoff,
            genesis: self.genesis,
        }
    }
}
