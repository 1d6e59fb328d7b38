//! What a fetcher knows of a view that it asks for, and of a request that it is to answer.
ghost use Rattle.std.specs.Prelude.{◌≡◌};
ghost use Rattle.model_resolver.specs.Asks.{holds_ask};
ghost use Rattle.model_resolver.specs.Fetcher.{without, delivered_of};
ghost use Rattle.model_resolver.specs.Views.{deadline_of, id_of, is_asked_as, is_judged_as};

use crate::arrivals::Arrivals;
use simplex_types::{Ask, Participant, Sequence};

/// Where a view stands.
#[derive(Debug, Drop)]
pub enum State {
    /// It waits for the next attempt, or for good.
    Waiting {
        until: Option<u64>,
    },
    /// The peer was asked.
    Asked {
        id: u64,
        peer: Participant,
        deadline: u64,
    },
    /// The peer's answer was delivered, for these asks.
    Judged {
        id: u64,
        peer: Participant,
        delivered: Sequence<Ask>,
    },
}

impl State {
    /// When the view is looked at again, if a time is set.
    pub fn deadline(&self) -> Option<u64>
        ensures { result ≡ deadline_of self.now }
    {
        match self {
            State::Waiting { until } => *until,
            State::Asked { deadline, .. } => Some(*deadline),
            State::Judged { .. } => None,
        }
    }

    /// The number of the request that is open or judged.
    pub fn id(&self) -> Option<u64>
        ensures { result ≡ id_of self.now }
    {
        match self {
            State::Waiting { .. } => None,
            State::Asked { id, .. } | State::Judged { id, .. } => Some(*id),
        }
    }

    /// Whether the request of this number is open with this peer.
    pub fn is_asked_as(&self, number: u64, sender: &Participant) -> bool
        ensures { result ≡ is_asked_as number sender.now self.now }
    {
        match self {
            State::Asked { id, peer, .. } => *id == number && peer.0 == sender.0,
            _ => false,
        }
    }

    /// Whether an answer to the request of this number is judged.
    pub fn is_judged_as(&self, number: u64) -> bool
        ensures { result ≡ is_judged_as number self.now }
    {
        match self {
            State::Judged { id, .. } => *id == number,
            _ => false,
        }
    }
}

/// A view with asks.
#[derive(Debug, Drop)]
pub struct Entry {
    /// Its asks, as they came.
    pub arrivals: Arrivals,
    /// How many attempts were made, with or without a member to ask.
    pub attempts: u64,
    /// Where it stands.
    pub state: State,
}

impl Entry {
    /// Drops the asks that the judged answer was delivered for.
    #[tactic(auto, using(crate::proofs::Kept::without_none))]
    pub fn drop_delivered(&mut self)
        ensures { self.new ≡ without (holds_ask (delivered_of self.old.state)) self.old }
    {
        match &self.state {
            State::Judged { delivered, .. } => self.arrivals.drop_asks(delivered.as_slice()),
            State::Waiting { .. } | State::Asked { .. } => {}
        }
    }
}

/// A peer's request that is to be answered.
#[derive(Clone, Copy, Debug, PartialEq, Eq)]
pub struct Serving {
    /// The member that asks.
    pub sender: Participant,
    /// The request's own number.
    pub request: u64,
}
