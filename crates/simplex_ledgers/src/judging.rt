//! Whether there is a ledger of a run.
#![tactic(auto, unfolding(law_ledger::specs::Faults::ledger_fault))]

ghost use Rattle.std.specs.Prelude.{◌≡◌, IfOk};
ghost use Rattle.law_ledger.specs.Faults.{ledger_fault};
ghost use Rattle.model_ledger.specs.Failing.{FailsBy};

use crate::answers::check_answers;
use simplex_ledger::{Blocks, LedgerError, are_accounts};
use simplex_transcript::{Entry, Event, Setup};
use simplex_types::{Bytes, Sequence};
use std::alloc::Global;

/// The blocks, where nothing is wrong with the accounts, the blocks and the answers of the run: else what is, in this order.
pub(crate) fn judge(
    alloc: Global,
    setup: &Setup,
    events: &[Event],
    entries: &[Entry],
    accounts: &[u64],
    blocks: Sequence<Bytes>,
) -> Result<Blocks, LedgerError>
    ensures blocks { IfOk result (λ taken. taken ≡ blocks) }
    ensures fault { FailsBy
        (ledger_fault setup.now entries.now events.now accounts.now blocks) result }
{
    if !are_accounts(accounts) {
        return Err(LedgerError::BadAccounts);
    }
    let blocks = Blocks::new(alloc, blocks)?;
    check_answers(setup, events, entries, &blocks)?;
    Ok(blocks)
}
