//! The calls that a history is made of.
use simplex_values::Feedback;

/// A call, with the number of the pass that made it.
#[derive(Debug, PartialEq, Eq, Drop)]
pub enum Op<M> {
    /// A message was put.
    Put {
        caller: u32,
        message: M,
        feedback: Feedback,
    },
    /// The first message was taken, if there was one.
    Took {
        caller: u32,
        got: Option<M>,
    },
    /// The mailbox was closed.
    Shut {
        caller: u32,
    },
}
