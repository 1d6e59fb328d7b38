//! What a step gives, and where it stops.
ghost use Rattle.std.specs.Prelude.{◌≡◌, MatchResult};
ghost use Rattle.simplex_messages.specs.declared.call.Call.TheVariants.{Block};
ghost use Rattle.simplex_messages.specs.Step.{no_out, with_call};

use crate::call::Call;
use crate::handed::Handed;
use model_rules::Asked;
use simplex_types::{BlockCause, Blocker, Certificate, Participant, Sequence};
use std::alloc::{AllocError, Global};

/// All that a step does.
#[derive(Debug, PartialEq, Eq, Drop)]
pub struct StepOut {
    /// The certificates that became known.
    pub added: Sequence<Certificate>,
    /// The requests to the application, which are numbered in this order.
    pub asked: Sequence<Asked>,
    /// The numbers of the open requests that were dropped, in rising order.
    pub dropped: Sequence<u64>,
    /// The messages that were put into mailboxes.
    pub handed: Sequence<Handed>,
    /// The calls outside.
    pub calls: Sequence<Call>,
}

impl StepOut {
    /// Nothing.
    pub fn new(alloc: Global) -> StepOut
        ensures { result ≡ no_out }
    {
        StepOut {
            added: Sequence::new(alloc),
            asked: Sequence::new(alloc),
            dropped: Sequence::new(alloc),
            handed: Sequence::new(alloc),
            calls: Sequence::new(alloc),
        }
    }

    /// Drops what a step gave, and keeps the room for what the next one gives.
    pub fn clear(&mut self)
        ensures { self.new ≡ no_out }
    {
        self.added.clear();
        self.asked.clear();
        self.dropped.clear();
        self.handed.clear();
        self.calls.clear();
    }
}

impl Blocker for StepOut {
    // The call is noted behind the others, or nothing is for want of memory.
    ghost blocks = { λ before member cause answer after.
        MatchResult answer (λ _. after ≡ with_call (Block member cause) before) (λ _. after ≡ before) };

    fn block(&mut self, member: Participant, cause: BlockCause) -> Result<(), AllocError> {
        self.calls.push(Call::Block(member, cause))
    }
}

/// How a step ended.
#[derive(Clone, Copy, Debug, PartialEq, Eq)]
pub enum Outcome {
    /// It was made whole.
    Done,
    /// Its source held nothing.
    Idle,
    /// A call of the journal failed.
    Journal,
    /// It was cut off before a call.
    Cut,
    /// It was not made: a packet came from a member that is blocked.
    Refused,
}

/// An order to stop inside a step. Calls are counted from 1; a number past the last call changes nothing.
#[derive(Clone, Copy, Debug, PartialEq, Eq)]
pub enum Stop {
    /// The step is made whole.
    None,
    /// The step ends just before the call of this number. Of each section the journal then keeps the synced
    /// records and so many pending ones.
    Cut { call: u64, keep: u64 },
    /// The journal's call of this number in the step fails, and the step ends. A failing prune drops so many
    /// sections; else so many pending records of each section are kept.
    Fail { call: u64, keep: u64 },
}
