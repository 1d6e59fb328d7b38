//! The calls of a source or a sink in memory: which fail, how many were made, and how many failed.
ghost use Rattle.std.specs.Prelude.{◌≡◌, ◌≤◌};
ghost use Rattle.simplex_io.specs.Memory.{CallCount, no_calls, next_fails, after_call};

use std::marker::Model;

#[derive(Drop)]
pub(crate) struct Calls {
    failing: Vec<u64>,
    made: u64,
    faults: u64,
}

impl Model for Calls {
    ghost Value = { CallCount };

    ghost view = { λ calls. record { failing = calls.failing.items; made = calls.made; faults = calls.faults } };
}

impl Calls {
    /// No call yet, of which those with the listed numbers, counted from 1, will fail.
    pub(crate) fn new(failing: Vec<u64>) -> Self
        ensures { result ≡ no_calls failing.items }
    {
        Calls {
            failing,
            made: 0,
            faults: 0,
        }
    }

    /// Counts one more call, and its fault if it is one that fails; answers whether it is one.
    pub(crate) fn next_fails(&mut self) -> bool
        ensures fails { result ≡ next_fails self.old }
        ensures counts { self.new ≡ after_call self.old }
        ensures later { self.old.faults ≤ self.new.faults }
    {
        self.made = self.made.saturating_add(1);
        let fails = self.failing.contains(&self.made);
        if fails {
            self.faults = self.faults.saturating_add(1);
        }
        fails
    }

    pub(crate) fn faults(&self) -> u64
        ensures { result ≡ self.now.faults }
    {
        self.faults
    }
}
