//! The end of a shared mailbox: the whole history.
ghost use Rattle.std.specs.Prelude.{◌≡◌, ◌<◌, length};
ghost use Rattle.std.specs.List.{All};
ghost use Rattle.simplex_shared.specs.declared.view.Stage.TheVariants.{Holding};
ghost use Rattle.simplex_shared.specs.History.{caller_of, IsLegal};
ghost use Rattle.simplex_shared.specs.Passes.{GoesOn};

use crate::desk::Desk;
use crate::lock::Lock;
use crate::log::Log;
use crate::mailbox::RecordedMailbox;
use crate::op::Op;
use crate::pass::Pass;
use crate::view::View;
use atomic_table::Seat;
use simplex_mailbox::Policy;
use simplex_values::Keep;
use std::sync::Wait;

impl<M: Policy + Keep> RecordedMailbox<M> {
    /// The whole history. It begins with what each of these passes has seen, and goes on without a call of it. May
    /// wait.
    pub fn finish<R: Wait>(self, rt: &R, mut passes: Vec<Pass<M>>) -> Log<M>
        requires some { 0 < length passes.items }
        requires own { All (λ pass. pass.mailbox ≡ self) passes.items }
        ensures legal { IsLegal M.handle M.is_skipped self.terms.capacity result }
        ensures whole { All (λ pass. GoesOn pass result) passes.items }
        ensures callers { All (λ call. caller_of call < self.terms.passes) result }
    {
        let RecordedMailbox { terms: _, lock } = self;
        let Some(last) = passes.pop() else {
            unreachable!()
        };
        let Pass { mut seat, .. } = last;
        let desk = lock.take_turn(rt, &mut seat);
        check_all(&lock, seat, passes);
        Log {
            calls: desk.into_log(),
        }
    }
}

/// While a seat holds the mailbox, the history so far is what it has seen. So it has the calls of the pass.
fn check<M: Policy + Keep>(
    lock: &Lock<Desk<M>, Op<M>>,
    holder: &mut Seat<Option<Desk<M>>, View<Op<M>>>,
    pass: Pass<M>,
)
    requires own { (holder.old.table_id ≡ lock.now.table.shared.table_id)
        × (pass.mailbox.table ≡ lock.now.table.shared.table_id) }
    requires holds { holder.old.me.0.stage ≡ Holding }
    ensures own { holder.new.table_id ≡ holder.old.table_id }
    ensures same { (holder.new.me.0.stage ≡ Holding)
        × (holder.new.me.0.seen ≡ holder.old.me.0.seen) }
    ensures checked { GoesOn pass holder.old.me.0.seen }
{
    let Pass { mut seat, .. } = pass;
    lock.hear(&mut seat, holder);
    lock.hear(holder, &mut seat);
}

fn check_all<M: Policy + Keep>(
    lock: &Lock<Desk<M>, Op<M>>,
    mut holder: Seat<Option<Desk<M>>, View<Op<M>>>,
    mut passes: Vec<Pass<M>>,
)
    requires own { holder.table_id ≡ lock.now.table.shared.table_id }
    requires passes { All (λ pass. pass.mailbox.table
        ≡ lock.now.table.shared.table_id) passes.items }
    requires holds { holder.me.0.stage ≡ Holding }
    ensures checked { All (λ pass. GoesOn pass holder.me.0.seen) passes.items }
{
    while let Some(pass) = passes.pop() {
        check(lock, &mut holder, pass);
    }
}
