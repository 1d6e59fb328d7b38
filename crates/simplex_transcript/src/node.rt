//! Nodes, and places in a transcript.
use simplex_types::Keep;
use std::alloc::{AllocError, Global};
use std::fmt;

/// A member and a half: half 0 of every member, half 1 of a twin alone.
#[derive(Clone, Copy, Debug, PartialEq, Eq, PartialOrd, Ord, Hash)]
pub struct Node {
    /// The member, from 0.
    pub member: u64,
    /// 0, or 1 for the second half of a twin.
    pub half: u64,
}

impl fmt::Display for Node {
    fn fmt<W: fmt::Write>(&self, f: &mut fmt::Formatter<W>) -> fmt::Result {
        let member = self.member;
        let half = self.half;
        write!(f, "{member}.{half}")
    }
}

impl Keep for Node {
    fn keep(&self, _alloc: Global) -> Result<Node, AllocError> {
        Ok(*self)
    }
}

/// An event's number, from 1, and a place among the packets or the requests of its entry, from 0.
#[derive(Clone, Copy, Debug, PartialEq, Eq, PartialOrd, Ord, Hash)]
pub struct Ref {
    /// The number of the event, from 1.
    pub event: u64,
    /// The place in its entry, from 0.
    pub place: u64,
}
