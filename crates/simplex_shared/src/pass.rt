//! What a thread makes its calls with.
ghost use Rattle.std.specs.Prelude.{◌≡◌, length};

use crate::desk::Desk;
use crate::op::Op;
use crate::view::View;
use atomic_table::Seat;
use simplex_mailbox::Policy;
use std::marker::Model;

/// What a thread makes its calls of one mailbox with. It has a number, and tells how far it has seen the history.
#[derive(Drop)]
pub struct Pass<M: Policy> {
    pub(crate) number: u32,
    pub(crate) seen: u64,
    pub(crate) seat: Seat<Option<Desk<M>>, View<Op<M>>>,
}

impl<M: Policy> Model for Pass<M> {
    ghost use Rattle.std.specs.Prelude.{◌≡◌, length};
    ghost use Rattle.simplex_shared.specs.Passes.{Viewer};
    ghost use Rattle.simplex_shared.specs.Lock.{IsReady};

    ghost Value = { Viewer M };

    ghost view = { λ p. record {
      mailbox = record { table = p.seat.table_id; terms = p.seat.me.0.terms };
      number = p.number;
      seen = p.seat.me.0.seen;
    } };

    ghost invariant = { λ p. IsReady p.number p.seat.me × (p.seen ≡ length p.seat.me.0.seen) };
}

impl<M: Policy> Pass<M> {
    /// Its number, from 0 on.
    pub fn number(&self) -> u32
        ensures { result ≡ self.now.number }
    {
        self.number
    }

    /// How many calls the history has that it has seen.
    pub fn seen(&self) -> u64
        ensures { result ≡ length self.now.seen }
    {
        self.seen
    }
}
