//! Tests with threads: a mailbox that several share, an engine whose actors run on threads, and runs by several workers.
#![tactic(auto)]

#[cfg(test)]
mod alone;
#[cfg(test)]
mod engine;
#[cfg(test)]
mod par;
#[cfg(test)]
mod shared;
