//! Transfers on balances, in place.
ghost use Rattle.std.specs.Prelude.{◌≡◌, ◌≤◌, ◌^◌, sum};
ghost use Rattle.model_ledger.specs.Balances.{may_move, moved, after_all};

use model_ledger::Transfer;

/// Whether both accounts are there, and the sender has the amount.
fn may_move(balances: &[u64], transfer: &Transfer) -> bool
    ensures { result ≡ may_move balances.now transfer.now }
{
    let from = transfer.from as usize;
    let to = transfer.to as usize;
    from < balances.len() && to < balances.len() && transfer.amount <= balances[from]
}

/// The amount goes from the one to the other, or nothing happens.
#[tactic(auto, unfolding(model_ledger::specs::Balances::moved))]
fn apply(balances: &mut [u64], transfer: &Transfer)
    requires { sum balances.old ≤ 2 ^ 63 }
    ensures { balances.new ≡ moved balances.old transfer.now }
{
    if may_move(balances, transfer) {
        balances[transfer.from as usize] -= transfer.amount;
        balances[transfer.to as usize] += transfer.amount;
    }
}

/// Each transfer in turn.
pub(crate) fn apply_all(balances: &mut [u64], transfers: &[Transfer])
    requires { sum balances.old ≤ 2 ^ 63 }
    ensures { balances.new ≡ after_all balances.old transfers.now }
{
    for transfer in transfers {
        apply(balances, transfer);
    }
}
