//! The ledger.
ghost use Rattle.std.specs.Prelude.{◌≡◌, ◌≤◌, ◌++◌, ◌∷◌, ◌^◌, [], ℕ, List, Some, None, true, IfOk, OnOk, OnErr, length, drop, map, sum, flat_map, nat_le, if◌then◌else◌};
ghost use Rattle.model_log.specs.declared.entry.LogEntry.{LogEntry};
ghost use Rattle.model_log.specs.Fronts.{IsFrontOf};
ghost use Rattle.model_ledger.specs.declared.transfer.LedgerError.TheVariants.{BadAccounts};
ghost use Rattle.model_ledger.specs.Balances.{after_all, are_accounts};
ghost use Rattle.model_ledger.specs.Failing.{FailsBy};
ghost use Rattle.model_ledger.specs.Ledger.{balances_at};
ghost use Rattle.simplex_ledger.specs.Book.{entries_of, balances_of, step_of, extended, AreSound, IsAlong};

use crate::applying::apply_all;
use crate::blocks::Blocks;
use model_ledger::{LedgerError, Transfer};
use model_log::LogEntry;
use simplex_values::Sequence;
use std::alloc::{AllocError, Global};
use std::marker::Model;

/// The most accounts.
const MOST_ACCOUNTS: usize = 65_536;

/// The greatest sum of accounts.
const MOST: u64 = 1 << 63;

/// An entry that was applied, and the transfers of its block.
type Step = (LogEntry, Sequence<Transfer>);

/// Accounts, and what the blocks of a log make of them. Contracts see the accounts that it was made with, and each entry that was
/// applied with its transfers.
#[derive(Debug, Drop)]
pub struct Ledger {
    accounts: Vec<u64>,
    applied: Vec<Step>,
    balances: Vec<u64>,
    total: u64,
}

impl Model for Ledger {
    ghost use Rattle.simplex_ledger.specs.Book.{Book, IsKept};

    ghost Value = { Book };

    ghost view = { λ ledger. record { accounts = ledger.accounts.items; applied = ledger.applied.items } };

    ghost invariant = { λ ledger. IsKept (record {
      accounts = ledger.accounts.items;
      applied = ledger.applied.items;
    }) ledger.balances.items ledger.total };
}

/// The sum, where it is not too great.
fn total_of(accounts: &[u64]) -> Option<u64>
    ensures { result ≡ (if nat_le (sum accounts.now) (2 ^ 63) then Some
        (sum accounts.now) else None) }
{
    let mut total: u64 = 0;
    for account in accounts {
        if MOST - total < *account {
            return None;
        }
        total += *account;
    }
    Some(total)
}

/// The sum of accounts that may stand in a ledger.
fn checked_total(accounts: &[u64]) -> Option<u64>
    ensures { result ≡ (if are_accounts accounts.now then Some (sum accounts.now) else None) }
{
    if accounts.is_empty() || MOST_ACCOUNTS < accounts.len() {
        return None;
    }
    total_of(accounts)
}

/// Whether a ledger may be made with these: one to 65,536 accounts, with a sum of at most 2^63. Takes no memory.
pub fn are_accounts(accounts: &[u64]) -> bool
    ensures { result ≡ are_accounts accounts.now }
{
    checked_total(accounts).is_some()
}

/// The entry, and a copy of its block's transfers.
fn step_of(alloc: Global, blocks: &Blocks, entry: &LogEntry) -> Result<Step, AllocError>
    requires { AreSound blocks.now (entry.now ∷ []) }
    ensures { IfOk result (λ step. step ≡ step_of blocks.now entry.now) }
{
    let transfers = Vec::from_slice(alloc, blocks.transfers(&entry.payload))?;
    Ok((*entry, Sequence::from_vec(transfers)))
}

/// The entries, each with a copy of its block's transfers.
fn steps_of(alloc: Global, blocks: &Blocks, log: &[LogEntry]) -> Result<Vec<Step>, AllocError>
    requires { AreSound blocks.now log.now }
    ensures { IfOk result (λ steps. steps.items ≡ map (step_of blocks.now) log.now) }
{
    let mut steps = Vec::with_capacity(alloc, log.len())?;
    for entry in log {
        steps.push(step_of(alloc, blocks, entry)?)?;
    }
    Ok(steps)
}

/// All transfers of the steps, in turn.
fn apply_steps(balances: &mut [u64], steps: &[Step])
    requires { sum balances.old ≤ 2 ^ 63 }
    ensures { balances.new ≡ after_all balances.old (flat_map (λ step. step.1) steps.now) }
{
    for (_, transfers) in steps {
        apply_all(balances, transfers.as_slice());
    }
}

impl Ledger {
    /// A ledger of these accounts, to which nothing was applied: one to 65,536 of them, with a sum of at most 2^63.
    pub fn new(alloc: Global, accounts: &[u64]) -> Result<Ledger, LedgerError>
        ensures made { IfOk result (λ ledger. ledger
            ≡ record { accounts = accounts.now; applied = [] }) }
        ensures fault { FailsBy (if are_accounts accounts.now then None
            else Some BadAccounts) result }
    {
        let Some(total) = checked_total(accounts) else {
            return Err(LedgerError::BadAccounts);
        };
        Ok(Ledger {
            accounts: Vec::from_slice(alloc, accounts)?,
            applied: Vec::new(alloc),
            balances: Vec::from_slice(alloc, accounts)?,
            total,
        })
    }

    /// Applies what the log has behind the entries that were applied, with the transfers that these blocks have for it. Costs what
    /// the new entries and their transfers do, whatever was applied before.
    pub fn extend(
        &mut self,
        alloc: Global,
        blocks: &Blocks,
        log: &[LogEntry],
    ) -> Result<(), AllocError>
        requires begins { IsFrontOf (entries_of self.old) log.now }
        requires sound { AreSound blocks.now log.now }
        ensures applied { OnOk result (self.new ≡ extended self.old blocks.now log.now) }
        ensures whole { OnOk result (entries_of self.new ≡ log.now) }
        // Over the same blocks throughout, the balances are those that the log gives at its height.
        ensures along { OnOk result (IsAlong blocks.now (entries_of self.old) self.old
            → IsAlong blocks.now log.now self.new) }
        ensures balances { OnOk result (IsAlong blocks.now (entries_of self.old) self.old
            → balances_of self.new
            ≡ balances_at blocks.now self.new.accounts log.now (length log.now)) }
        ensures same { OnErr result (self.new ≡ self.old) }
    {
        let first = self.applied.len();
        let mut steps = steps_of(alloc, blocks, &log[first..])?;
        self.applied.append(&mut steps)?;
        apply_steps(&mut self.balances, &self.applied[first..]);
        Ok(())
    }

    /// How many entries were applied.
    pub fn height(&self) -> u64
        ensures { result ≡ length self.now.applied }
    {
        self.applied.len() as u64
    }

    /// The balance of each account.
    pub fn balances(&self) -> &[u64]
        ensures { result.now ≡ balances_of self.now }
    {
        &self.balances
    }

    /// The sum of the balances, which no transfer changes.
    pub fn total(&self) -> u64
        ensures balances { result ≡ sum (balances_of self.now) }
        ensures accounts { result ≡ sum self.now.accounts }
    {
        self.total
    }
}
