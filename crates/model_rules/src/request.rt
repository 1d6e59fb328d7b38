//! What a member asks its application and its peers.
use simplex_values::{Context, Digest, Kind, Participant, Proposal, Round, View};

/// A proposal is wanted.
#[derive(Clone, Copy, Debug, PartialEq, Eq)]
pub enum ProposalRequest {
    /// For the next term, before its parent is certified.
    Prepare(Context),
    /// On a parent that is certified or met by an own vote.
    Propose(Context),
}

impl ProposalRequest {
    ghost use Rattle.std.specs.Prelude.{◌≡◌};
    ghost use Rattle.model_rules.specs.Calls.{request_context, is_prepare};

    /// What the application is told.
    pub fn context(&self) -> &Context
        ensures { result.now ≡ request_context self.now }
    {
        match self {
            ProposalRequest::Prepare(context) => context,
            ProposalRequest::Propose(context) => context,
        }
    }

    /// Whether it is for the next term, before its parent is certified.
    pub fn is_handoff(&self) -> bool
        ensures { result ≡ is_prepare self.now }
    {
        matches!(self, ProposalRequest::Prepare(_))
    }
}

/// What to verify, or what is missing for it.
#[derive(Clone, Copy, Debug, PartialEq, Eq)]
pub enum Verify {
    /// The proposal can be verified.
    Ready(Context, Proposal),
    /// For the proposal of a view, a certificate of this kind of another view is missing; its leader may have it.
    Resolve {
        proposal: View,
        view: View,
        kind: Kind,
        target: Participant,
    },
    /// Nothing.
    Wait,
}

/// For a notarized proposal of a view, its parent's notarization is missing.
#[derive(Clone, Copy, Debug, PartialEq, Eq)]
pub struct CertificateFetch {
    /// The view of the proposal.
    pub proposal: View,
    /// The parent.
    pub view: View,
}

/// A request to the application.
#[derive(Clone, Copy, Debug, PartialEq, Eq)]
pub enum Asked {
    /// A payload for the next term, before its parent is certified.
    Prepare(Context),
    /// A payload.
    Propose(Context),
    /// Whether this payload of another member is valid.
    Verify(Context, Digest),
    /// Whether this notarized payload may be certified.
    Certify(Round, Digest),
}

/// Where the pending proposal stands.
#[derive(Clone, Copy, Debug, PartialEq, Eq)]
pub enum ProposalState {
    /// A Prepare is open.
    Preparing,
    /// A Propose is open.
    Proposing,
    /// The application has nothing yet: the view is asked for again once its parent is certified.
    Waiting,
    /// The payload is staged: it is proposed once its parent is certified.
    Held(Digest),
    /// The application answered that no payload comes: the view fails once its parent is certified.
    Closed,
}
