//! A shared mailbox is made, with its passes.
ghost use Rattle.std.specs.Prelude.{◌≡◌, ◌<◌, ◌+◌, [], IfOk};
ghost use Rattle.std.specs.List.{All};
ghost use Rattle.simplex_shared.specs.Lock.{maker_at};
ghost use Rattle.simplex_shared.specs.Passes.{unused, unused_passes};

use crate::bells::Bells;
use crate::desk::Desk;
use crate::lock::Lock;
use crate::mailbox::RecordedMailbox;
use crate::op::Op;
use crate::pass::Pass;
use crate::steps::Make;
use crate::terms::Terms;
use crate::view::View;
use atomic_table::{Seat, Table};
use simplex_mailbox::Policy;
use simplex_values::Keep;
use std::alloc::{AllocError, Global};

impl<M: Policy + Keep> RecordedMailbox<M> {
    /// An open mailbox that holds nothing, of which at most `capacity` messages are ready, and its passes, which
    /// are numbered from 0 on.
    pub fn new(
        alloc: Global,
        capacity: u32,
        passes: u32,
    ) -> Result<(RecordedMailbox<M>, Vec<Pass<M>>), AllocError>
        requires { 0 < capacity }
        ensures terms { IfOk result (λ made. made.0.terms
            ≡ record { capacity = capacity; passes = passes }) }
        ensures passes { IfOk result (λ made. made.1.items ≡ unused_passes made.0 passes) }
        ensures own { IfOk result (λ made. All (λ pass. pass.mailbox ≡ made.0) made.1.items) }
    {
        let terms = Terms { capacity, passes };
        let (lock, mut maker) = open(alloc, &terms)?;
        let passes = deal(alloc, &lock, &mut maker, &terms)?;
        let mailbox = RecordedMailbox { terms, lock };
        Ok((mailbox, passes))
    }
}

/// The lock with an open mailbox that holds nothing, and the seat that makes passes.
fn open<M: Policy + Keep>(
    alloc: Global,
    terms: &Terms,
) -> Result<(Lock<Desk<M>, Op<M>>, Seat<Option<Desk<M>>, View<Op<M>>>), AllocError>
    requires { 0 < terms.now.capacity }
    ensures own { IfOk result (λ made. made.1.table_id ≡ made.0.table.shared.table_id) }
    ensures maker { IfOk result (λ made. made.1.me ≡ (maker_at terms.now 0, [])) }
{
    let mut slots = Vec::new(alloc);
    slots.push(Some(Desk::new(alloc, terms.capacity)?))?;
    match Table::new(alloc, &[0, 0, 0], slots, terms) {
        Ok((table, maker)) => {
            let bells = Bells::new();
            Ok((Lock { table, bells }, maker))
        }
        Err(_) => Err(AllocError),
    }
}

/// The pass with this number.
fn another<M: Policy + Keep>(
    lock: &Lock<Desk<M>, Op<M>>,
    maker: &mut Seat<Option<Desk<M>>, View<Op<M>>>,
    terms: &Terms,
    number: u32,
) -> Pass<M>
    requires own { maker.old.table_id ≡ lock.now.table.shared.table_id }
    requires maker { (maker.old.me ≡ (maker_at terms.now number, []))
        × (number < terms.now.passes) }
    ensures own { maker.new.table_id ≡ maker.old.table_id }
    ensures maker { maker.new.me ≡ (maker_at terms.now (number + 1), []) }
    ensures pass { result
        ≡ unused (record {
          table = lock.entry.now.table.shared.table_id;
          terms = terms.now;
        }) number }
{
    let seat = lock.table.shared.split_seat::<Make>(maker);
    Pass {
        number,
        seen: 0,
        seat,
    }
}

/// All passes.
fn deal<M: Policy + Keep>(
    alloc: Global,
    lock: &Lock<Desk<M>, Op<M>>,
    maker: &mut Seat<Option<Desk<M>>, View<Op<M>>>,
    terms: &Terms,
) -> Result<Vec<Pass<M>>, AllocError>
    requires own { maker.old.table_id ≡ lock.now.table.shared.table_id }
    requires maker { maker.old.me ≡ (maker_at terms.now 0, []) }
    ensures own { maker.new.table_id ≡ maker.old.table_id }
    ensures maker { IfOk result (λ _. maker.new.me ≡ (maker_at terms.now terms.now.passes, [])) }
    ensures passes { IfOk result (λ passes. passes.items
        ≡ unused_passes (record {
          table = lock.entry.now.table.shared.table_id;
          terms = terms.now;
        }) terms.now.passes) }
{
    let mut passes = Vec::new(alloc);
    for number in 0..terms.passes {
        passes.push(another(lock, maker, terms, number))?;
    }
    Ok(passes)
}
