//! The values, messages, schemes, electors and interfaces that every part of the engine speaks of.
//!
//! Plain values come from [`simplex_values`], votes and certificates with their bytes from [`simplex_wire`];
//! both are handed on here. This crate adds what signs ([`Keyed`], [`Hidden`]), who leads
//! ([`elector`], [`RoundRobin`]), what is reported ([`Activity`]), and what an engine is connected to
//! ([`Reporter`], [`Automaton`], [`Relay`], [`Blocker`], [`Monitor`]).
#![tactic(auto)]

mod activity;
mod cause;
pub mod elector;
mod evidence;
mod floor;
mod hashing;
mod hidden;
mod interface;
mod keyed;
mod keys;
mod round_robin;

pub use activity::Activity;
pub use cause::BlockCause;
pub use evidence::{ConflictingFinalize, ConflictingNotarize, NullifyFinalize};
pub use floor::Floor;
pub use hashing::{absorb_number, genesis};
pub use hidden::Hidden;
pub use interface::{Automaton, Blocker, CertifiableAutomaton, Monitor, Relay, Reporter};
pub use keyed::Keyed;
pub use round_robin::{RoundRobin, RoundRobinElector};
pub use simplex_values::{
    Answer, Ask, Bytes, Channel, Context, Digest, Epoch, Feedback, ForwardPolicy, Handoff, Keep,
    Kind, Lookahead, Members, Outcome, Parent, Participant, Plan, Proposal, Recipients, Resolution,
    Round, Sequence, SkipBudget, SkipPolicy, SplitTarget, Subject, TermLength, Terms,
    TimeoutReason, Until, View, ViewDelta, Viewport, quorum,
};
pub use simplex_wire::{
    Artifact, AssemblyError, Attestation, Certificate, CertificateKind, DecodeCause, DecodeError,
    Finalization, Finalize, Notarization, Notarize, Nullification, Nullify, ResolverBody,
    ResolverMessage, Scheme, Signatures, Vote, a_verifying_quorum_certifies,
};
