//! Whose turn it is: the rule of the table, and what each step tells.
use crate::logged::Logged;
use crate::terms::Terms;
use crate::view::View;
use atomic_table::{Join, Play, Split, TableRule};

/// Word 0 is the length of the history, word 1 the tickets drawn, word 2 the tickets served.
pub struct InTurn;

impl<D: Logged<E>, E> TableRule<Option<D>, View<E>, Terms> for InTurn {
    ghost use Rattle.simplex_shared.specs.Lock.{Kept, maker};

    ghost holds = { λ _. Kept D.log D.capacity D.caller D.legal };

    ghost first = { maker };
}

/// Takes a ticket.
pub struct Draw;

impl<D, E> Play<Option<D>, View<E>> for Draw {
    ghost use Rattle.simplex_shared.specs.Lock.{Draws};

    ghost then = { Draws };
}

/// Looks whose turn it is, and takes the slot if it is one's own.
pub struct Look;

impl<D: Logged<E>, E> Play<Option<D>, View<E>> for Look {
    ghost use Rattle.simplex_shared.specs.Lock.{Looks};

    ghost then = { Looks D.log D.capacity D.caller D.legal };
}

/// Adds the last call of the log to the history.
pub struct Add;

impl<D: Logged<E>, E> Play<Option<D>, View<E>> for Add {
    ghost use Rattle.simplex_shared.specs.Lock.{Adds};

    ghost then = { Adds D.log D.capacity D.caller D.legal };
}

/// Gives the slot back, and passes the turn.
pub struct Leave;

impl<D, E> Play<Option<D>, View<E>> for Leave {
    ghost use Rattle.simplex_shared.specs.Lock.{Leaves};

    ghost then = { Leaves };
}

/// Sees the history so far.
pub struct See;

impl<D: Logged<E>, E> Play<Option<D>, View<E>> for See {
    ghost use Rattle.simplex_shared.specs.Lock.{Sees};

    ghost then = { Sees D.log D.capacity D.caller D.legal };
}

/// Makes a pass.
pub struct Make;

impl<E> Split<View<E>> for Make {
    ghost use Rattle.simplex_shared.specs.Lock.{after_making, newcomer};

    ghost left = { after_making };

    ghost right = { λ v. newcomer v.terms v.number };
}

/// Cuts off what was seen.
pub struct Tell;

impl<E> Split<View<E>> for Tell {
    ghost use Rattle.simplex_shared.specs.Lock.{bearer};

    ghost left = { λ v. v };

    ghost right = { λ v. bearer v.seen };
}

/// Is told what another has seen.
pub struct Hear;

impl<E> Join<View<E>> for Hear {
    ghost use Rattle.std.specs.Prelude.{[]};
    ghost use Rattle.simplex_shared.specs.Lock.{informed, bearer};

    ghost both = { informed };

    ghost spent = { bearer [] };
}
