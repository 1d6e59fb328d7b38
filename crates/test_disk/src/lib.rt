//! Tests of the journal in segment files: calls of a disk that fail, and images of a disk that stopped before a call.
#![tactic(auto)]

#[cfg(test)]
mod images;
#[cfg(test)]
mod runs;
mod samples;
#[cfg(test)]
mod tests;
#[cfg(test)]
mod view;

pub use samples::two_records;
