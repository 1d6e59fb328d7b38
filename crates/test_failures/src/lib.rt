//! Tests of what no script can bring about: reads and writes that fail, streams that are cut, steps that stop before each of their calls,
//! runs that a number makes, a ledger of a million transfers, applications of closures, and what has a second rendering.
#![tactic(auto)]

#[cfg(test)]
mod applications;
#[cfg(test)]
mod changed_bits;
#[cfg(test)]
mod events;
#[cfg(test)]
mod faulty;
#[cfg(test)]
mod generated;
#[cfg(test)]
mod kept;
#[cfg(test)]
mod large_ledger;
#[cfg(test)]
mod program;
#[cfg(test)]
mod stops;
#[cfg(test)]
mod streams;
