//! A value that threads use in turns.
ghost use Rattle.std.specs.Prelude.{◌≡◌, ◌<◌, ◌+◌, ◌∷◌, ◌++◌, [], true, None, length};
ghost use Rattle.simplex_shared.specs.declared.view.Stage.TheVariants.{Idle, Holding};
ghost use Rattle.simplex_shared.specs.Lock.{MayDraw, Belongs, GoesOn, Hears, at_stage, holding, added};

use crate::bells::Bells;
use crate::logged::Logged;
use crate::steps::{Add, Draw, Hear, InTurn, Leave, Look, See, Tell};
use crate::terms::Terms;
use crate::view::View;
use atomic_table::{Seat, Table};
use std::alloc::Global;
use std::hint;
use std::sync::Wait;

/// So often one who is next looks again before it sleeps.
const LOOKS: u32 = 500;

/// A value that threads use in turns: word 0 of the table is the length of its history, word 1 counts the tickets
/// drawn, word 2 those served, and the slot has the value. [tickets]
#[derive(Drop)]
pub struct Lock<D: Logged<E>, E> {
    /// The words, the slot, and what each seat knows.
    pub table: Table<Option<D>, View<E>, Terms, InTurn, Global>,
    /// Where those wait whose turn has not come.
    pub bells: Bells,
    ghost shape: { (table.shared.table_id.words ≡ 3) × (table.shared.table_id.slots ≡ 1) },
}

impl<D: Logged<E>, E> Lock<D, E> {
    /// Waits for its turn, and takes the value out.
    pub fn take_turn<R: Wait>(&self, rt: &R, seat: &mut Seat<Option<D>, View<E>>) -> D
        requires own { seat.old.table_id ≡ self.now.table.shared.table_id }
        requires may { MayDraw seat.old.me }
        ensures own { seat.new.table_id ≡ seat.old.table_id }
        ensures held { seat.new.me ≡ (holding seat.old.me.0 (D.log result), (0, None) ∷ []) }
        ensures goes_on { GoesOn D.log D.capacity D.caller D.legal seat.old.me.0 (D.log result) }
        ensures capacity { Belongs seat.old.me.0
            → D.capacity result ≡ seat.old.me.0.terms.capacity }
    {
        let ticket = self.table.shared.fetch_add::<Draw>(seat, 1, 1);
        for _ in rt.forever() {
            let serving = self.table.shared.load::<Look>(seat, 2);
            if serving == ticket {
                let Some(value) = self.table.shared.exchange(seat, 0, None) else {
                    unreachable!();
                };
                return value;
            }
            self.rest(rt, ticket, serving);
        }
        unreachable!()
    }

    /// Waits for the turn of the ticket, or for no reason a shorter while. One who is next looks often, and others sleep at
    /// once, so that of all who wait one alone takes processor time.
    fn rest<R: Wait>(&self, rt: &R, ticket: u64, serving: u64) {
        if ticket == serving.wrapping_add(1) {
            for _ in 0..LOOKS {
                if self.table.shared.peek(2) == ticket {
                    return;
                }
                hint::spin_loop();
            }
        }
        self.bells.announce(ticket);
        if self.table.shared.peek(2) != ticket {
            self.bells.sleep(rt, ticket);
        }
    }

    /// Gives the value back, adds the last call of its log to the history, and passes the turn.
    pub fn record_last(&self, seat: &mut Seat<Option<D>, View<E>>, value: D)
    where
        D: Drop,
        requires own { seat.old.table_id ≡ self.now.table.shared.table_id }
        requires held { (seat.old.me.0.stage ≡ Holding) × (seat.old.me.0.member ≡ true)
            × (seat.old.me.1 ≡ (0, None) ∷ []) }
        requires grown { (call : E) × (D.log value ≡ seat.old.me.0.seen ++ call ∷ [])
            × (D.caller call ≡ seat.old.me.0.number) }
        requires legal { D.legal seat.old.me.0.terms.capacity (D.log value) }
        requires capacity { D.capacity value ≡ seat.old.me.0.terms.capacity }
        requires room { length (D.log value) < 18446744073709551616 }
        ensures own { seat.new.table_id ≡ seat.old.table_id }
        ensures added { seat.new.me ≡ (at_stage Idle (added seat.old.me.0 (D.log value)), []) }
    {
        self.table.shared.exchange(seat, 0, Some(value));
        self.table.shared.fetch_add::<Add>(seat, 0, 1);
        let served = self.table.shared.fetch_add::<Leave>(seat, 2, 1);
        self.bells.ring(served.wrapping_add(1));
    }

    /// Gives the value back with nothing added, and passes the turn.
    pub fn pass_turn(&self, seat: &mut Seat<Option<D>, View<E>>, value: D)
    where
        D: Drop,
        requires own { seat.old.table_id ≡ self.now.table.shared.table_id }
        requires held { (seat.old.me.0.stage ≡ Holding) × (seat.old.me.0.member ≡ true)
            × (seat.old.me.1 ≡ (0, None) ∷ []) }
        requires same { D.log value ≡ seat.old.me.0.seen }
        requires capacity { D.capacity value ≡ seat.old.me.0.terms.capacity }
        ensures own { seat.new.table_id ≡ seat.old.table_id }
        ensures left { seat.new.me ≡ (at_stage Idle seat.old.me.0, []) }
    {
        self.table.shared.exchange(seat, 0, Some(value));
        let served = self.table.shared.fetch_add::<Leave>(seat, 2, 1);
        self.bells.ring(served.wrapping_add(1));
    }

    /// While the value is out with the seat: the length of the history, which the seat has seen.
    pub fn front(&self, seat: &mut Seat<Option<D>, View<E>>) -> u64
        requires own { seat.old.table_id ≡ self.now.table.shared.table_id }
        requires held { (seat.old.me.0.stage ≡ Holding) × (seat.old.me.0.told ≡ []) }
        ensures same { (seat.new.table_id ≡ seat.old.table_id) × (seat.new.me ≡ seat.old.me) }
        ensures front { result ≡ length seat.old.me.0.seen }
    {
        self.table.shared.load::<See>(seat, 0)
    }

    /// The first seat sees the history so far, which goes on from what both have seen, and tells its length.
    pub fn hear(
        &self,
        mine: &mut Seat<Option<D>, View<E>>,
        theirs: &mut Seat<Option<D>, View<E>>,
    ) -> u64
        requires { (mine.old.table_id ≡ self.now.table.shared.table_id)
            × (theirs.old.table_id ≡ self.now.table.shared.table_id) }
        ensures own { (mine.new.table_id ≡ mine.old.table_id)
            × (theirs.new.table_id ≡ theirs.old.table_id) }
        ensures hears { Hears D.log D.capacity D.caller D.legal mine.old.me theirs.old.me.0 result mine.new.me }
        ensures same { theirs.new.me ≡ theirs.old.me }
    {
        let bearer = self.table.shared.split_seat::<Tell>(theirs);
        self.table.shared.join_seat::<Hear>(mine, bearer);
        self.table.shared.load::<See>(mine, 0)
    }
}
