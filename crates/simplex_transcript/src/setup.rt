//! What a run is set up with.
ghost use Rattle.std.specs.Prelude.{◌≡◌};
ghost use Rattle.simplex_transcript.specs.Usual.{usual};

use simplex_types::{ForwardPolicy, Keep, Sequence, SkipPolicy};
use std::alloc::{AllocError, Global};

/// How a member behaves. All but the honest ones are faulty.
#[derive(Clone, Copy, Debug, PartialEq, Eq)]
pub enum MemberKind {
    /// Follows the rules.
    Honest,
    /// Sends nothing.
    Silent,
    /// Votes for two proposals.
    Conflicter,
    /// Proposes two payloads to different members.
    Equivocator,
    /// Votes under another member's number.
    Impersonator,
    /// Nullifies and finalizes a view.
    Nuller,
    /// Nullifies each view.
    NullifyOnly,
    /// Votes for what was proposed so many views before.
    Outdated(u64),
    /// Votes in another epoch.
    Reconfigurer,
    /// Runs an engine, and its signatures do not verify.
    Corrupt,
    /// Runs an engine, and recovers no certificates.
    Unrecovering,
    /// Runs two engines under one key.
    Twin,
}

impl Keep for MemberKind {
    fn keep(&self, _alloc: Global) -> Result<MemberKind, AllocError> {
        Ok(*self)
    }
}

/// A scripted round of twins: its leader, and which members each half sees, as bits.
#[derive(Clone, Copy, Debug, PartialEq, Eq)]
pub struct SetupRound {
    /// The member that leads the term.
    pub leader: u64,
    /// Whom half 0 of a twin talks with: member m where bit m is set.
    pub primary: u64,
    /// Whom half 1 of a twin talks with, likewise.
    pub secondary: u64,
}

impl Keep for SetupRound {
    fn keep(&self, _alloc: Global) -> Result<SetupRound, AllocError> {
        Ok(*self)
    }
}

/// What all members of a run are made with. Times are in milliseconds.
#[derive(Debug, PartialEq, Eq, Drop)]
pub struct Setup {
    /// The epoch of all views.
    pub epoch: u64,
    /// What the members' keys are made from.
    pub key_base: u64,
    /// How each member behaves: member 0 first.
    pub members: Sequence<MemberKind>,
    /// How many views a term has.
    pub term: u64,
    /// How many views ahead a member works, within a term.
    pub lookahead: u64,
    /// How long a view may be without a proposal.
    pub leader_timeout: u64,
    /// How long a view may be without a certificate.
    pub certification_timeout: u64,
    /// How long after a nullify it is sent again.
    pub retry: u64,
    /// How long a term may be without finality, if that is limited.
    pub stall: Option<u64>,
    /// How many views below the last final one are kept.
    pub retention: u64,
    /// Whether views whose leader seems to be gone expire at once.
    pub skip: SkipPolicy,
    /// To whom notarized payloads are forwarded.
    pub forward: ForwardPolicy,
    /// How many messages a mailbox holds before its policy rules.
    pub mailbox: u64,
    /// Whether votes of past views are verified too.
    pub track: bool,
    /// Whether a next term's leader prepares before its parent is certified.
    pub handoff: bool,
    /// How long a peer has for an answer.
    pub fetch_timeout: u64,
    /// How long after a failed request the next is made.
    pub fetch_retry: u64,
    /// The scripted rounds of twins, for the first terms; none: nothing is scripted.
    pub scenario: Sequence<SetupRound>,
}

impl Setup {
    /// A setup of these members with what suits most tries: terms of one view, in which nobody works ahead; a leader has a second,
    /// a view two, and a nullify is sent again after half a second; ten views are kept below the last final one, and a peer has a
    /// second for an answer. No view is skipped, nothing forwarded, and nothing scripted.
    pub fn usual(alloc: Global, members: Vec<MemberKind>) -> Setup
        ensures { result ≡ usual members.items }
    {
        Setup {
            epoch: 0,
            key_base: 1,
            members: Sequence::from_vec(members),
            term: 1,
            lookahead: 0,
            leader_timeout: 1000,
            certification_timeout: 2000,
            retry: 500,
            stall: None,
            retention: 10,
            skip: SkipPolicy::Disabled,
            forward: ForwardPolicy::Disabled,
            mailbox: 16,
            track: false,
            handoff: false,
            fetch_timeout: 1000,
            fetch_retry: 100,
            scenario: Sequence::new(alloc),
        }
    }
}

impl Keep for Setup {
    fn keep(&self, alloc: Global) -> Result<Setup, AllocError> {
        let members = self.members.keep(alloc)?;
        let scenario = self.scenario.keep(alloc)?;
        Ok(Setup {
            epoch: self.epoch,
            key_base: self.key_base,
            members,
            term: self.term,
            lookahead: self.lookahead,
            leader_timeout: self.leader_timeout,
            certification_timeout: self.certification_timeout,
            retry: self.retry,
            stall: self.stall,
            retention: self.retention,
            skip: self.skip,
            forward: self.forward,
            mailbox: self.mailbox,
            track: self.track,
            handoff: self.handoff,
            fetch_timeout: self.fetch_timeout,
            fetch_retry: self.fetch_retry,
            scenario,
        })
    }
}
