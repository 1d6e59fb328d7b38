//! Scripts about plain values: the genesis digests of epochs, and what a policy and a handoff tell of themselves.
use simplex_types::{Epoch, ForwardPolicy, Handoff, genesis};
use std::alloc::{AllocError, Global};
use test_support::{Part, Script, Told, number, play};

/// Makes values.
#[derive(Drop)]
struct Desk {
    alloc: Global,
}

/// Plays a script whose first line is `values`.
pub(crate) fn run(script: &Script, told: &mut Told) -> Result<(), AllocError> {
    let mut desk = Desk {
        alloc: told.alloc(),
    };
    play(&mut desk, script, told)
}

fn half(number: u64) -> u64 {
    number / 2
}

/// A staged number: half of it, and whether it waits.
fn staged_text(alloc: Global, number: u64) -> Result<String, AllocError> {
    let handoff = Handoff::Stage(number);
    let waits = handoff.is_wait();
    let halved = handoff.map(half);
    format!(in alloc; "halved {halved:?}, waits: {waits}")
}

/// The genesis digest of an epoch.
fn genesis_text(alloc: Global, epoch: u64) -> Result<String, AllocError> {
    let digest = genesis(Epoch(epoch));
    format!(in alloc; "{digest}")
}

impl Part for Desk {
    fn take(&mut self, words: &[&str], told: &mut Told) -> Result<(), AllocError> {
        let alloc = self.alloc;
        match words {
            ["policy", "silent-voters"] => told.says(if ForwardPolicy::SilentVoters.is_enabled() {
                "forwards"
            } else {
                "does not forward"
            }),
            ["handoff", "stage", value] => match number(value) {
                Some(value) => told.says(staged_text(alloc, value)?.as_str()),
                None => told.says("not a command"),
            },
            ["genesis", epoch] => match number(epoch) {
                Some(epoch) => told.says(genesis_text(alloc, epoch)?.as_str()),
                None => told.says("not a command"),
            },
            _ => told.says("not a command"),
        }
    }
}
