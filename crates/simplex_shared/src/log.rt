//! The calls of a shared mailbox, once all are made.
ghost use Rattle.std.specs.Prelude.{◌≡◌};

use crate::op::Op;
use std::marker::Model;

/// The calls of a shared mailbox in the order in which they took effect. Contracts see it as the list of them.
#[derive(Drop)]
pub struct Log<M> {
    pub(crate) calls: Vec<Op<M>>,
}

impl<M> Model for Log<M> {
    ghost use Rattle.std.specs.Prelude.{List};
    ghost use Rattle.simplex_shared.specs.declared.op.Op.{Op};

    ghost Value = { List (Op M) };

    ghost view = { λ l. l.calls.items };
}

impl<M> Log<M> {
    /// The calls.
    pub fn calls(&self) -> &[Op<M>]
        ensures { result.now ≡ self.now }
    {
        &self.calls
    }
}
