//! The text of balances.
#![tactic(auto, unfolding(law_ledger::specs::Lines::lines_of))]

ghost use Rattle.std.specs.Prelude.{◌≡◌, ◌++◌, ◌∷◌, [], true, codes, decimal, Contains, IfOk, OnOk, string_bytes, flat_map, length, List};
ghost use Rattle.std.specs.List.{enumerate_from};
ghost use Rattle.simplex_transcript.specs.declared.node.Node.{Node};
ghost use Rattle.model_log.specs.declared.entry.LogEntry.{LogEntry};
ghost use Rattle.model_ledger.specs.Balances.{are_accounts};
ghost use Rattle.law_ledger.specs.Lines.{node_line, account_line, balance_lines, final_balances, log_lines, lines_of};
ghost use Rattle.simplex_ledger.specs.Book.{AreSound, balances_of};
ghost use Rattle.simplex_ledgers.specs.Sound.{AllAreSound};

use model_log::LogEntry;
use simplex_ledger::{Blocks, Ledger};
use simplex_logs::NodeLog;
use simplex_transcript::Node;
use std::alloc::{AllocError, Global};

/// The line of a node: the height of its log, and the sum of its balances.
fn node_line(alloc: Global, node: &Node, height: u64, total: u64) -> Result<String, AllocError>
    ensures { IfOk result (λ text. string_bytes text ≡ node_line node.now height total) }
{
    let member = node.member;
    let half = node.half;
    format!(in alloc; "node {member}.{half} height {height} total {total}\n")
}

/// The line of the account at this place, from 0.
fn account_line(alloc: Global, place: u64, balance: u64) -> Result<String, AllocError>
    ensures { IfOk result (λ text. string_bytes text ≡ account_line (place, balance)) }
{
    format!(in alloc; "account {place} {balance}\n")
}

/// Writes the lines of the accounts behind the text.
fn write_balances(alloc: Global, text: &mut String, balances: &[u64]) -> Result<(), AllocError>
    ensures { OnOk result (string_bytes text.new
        ≡ string_bytes text.old ++ balance_lines balances.now) }
{
    for (place, balance) in balances.iter().enumerate() {
        let line = account_line(alloc, place as u64, *balance)?;
        text.push_str(line.as_str())?;
    }
    Ok(())
}

/// The ledger of a log, whose accounts are such and whose blocks are sound.
fn ledger_of(
    alloc: Global,
    blocks: &Blocks,
    accounts: &[u64],
    log: &[LogEntry],
) -> Result<Ledger, AllocError>
    requires accounts { are_accounts accounts.now ≡ true }
    requires sound { AreSound blocks.now log.now }
    ensures height { IfOk result (λ ledger. length ledger.applied ≡ length log.now) }
    ensures balances { IfOk result (λ ledger. balances_of ledger
        ≡ final_balances blocks.now accounts.now log.now) }
{
    match Ledger::new(alloc, accounts) {
        Ok(mut ledger) => {
            ledger.extend(alloc, blocks, log)?;
            Ok(ledger)
        }
        Err(_) => Err(AllocError),
    }
}

/// Writes the lines of the node, whose log this is, behind the text.
fn write_log(
    alloc: Global,
    text: &mut String,
    blocks: &Blocks,
    accounts: &[u64],
    node: &Node,
    log: &[LogEntry],
) -> Result<(), AllocError>
    requires accounts { are_accounts accounts.now ≡ true }
    requires sound { AreSound blocks.now log.now }
    ensures { OnOk result (string_bytes text.new
        ≡ string_bytes text.old ++ log_lines blocks.now accounts.now (node.now, log.now)) }
{
    let ledger = ledger_of(alloc, blocks, accounts, log)?;
    let line = node_line(alloc, node, ledger.height(), ledger.total())?;
    text.push_str(line.as_str())?;
    write_balances(alloc, text, ledger.balances())
}

/// The lines of all nodes, whose logs these are: `node MEMBER.HALF height HEIGHT total TOTAL`, and then for each account, from 0,
/// `account PLACE BALANCE`. All blocks that the logs name are there and decode, and the accounts are such as a ledger takes.
pub fn lines(
    alloc: Global,
    blocks: &Blocks,
    accounts: &[u64],
    logs: &[NodeLog],
) -> Result<String, AllocError>
    requires accounts { are_accounts accounts.now ≡ true }
    requires sound { AllAreSound blocks.now logs.now }
    ensures { IfOk result (λ text. string_bytes text ≡ lines_of blocks.now accounts.now logs.now) }
{
    let mut text = String::new(alloc);
    for (node, log) in logs {
        write_log(alloc, &mut text, blocks, accounts, node, log.as_slice())?;
    }
    Ok(text)
}
