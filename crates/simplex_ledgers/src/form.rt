//! Reads an input of the ledger: a setup and its events, accounts and blocks.
ghost use Rattle.std.specs.Prelude.{◌≡◌, IfOk};
ghost use Rattle.serde_json.specs.View.{view};
ghost use Rattle.simplex_ledgers.specs.Form.{setup_at, accounts_at, blocks_at, parts_of, ledger_form_of, ledger_input_of};

use serde_json::Value;
use simplex_form::{InputFault, has_members, read_items, read_list, read_setup, read_value};
use simplex_transcript::{Event, Setup};
use simplex_types::{Bytes, Sequence};
use std::alloc::{AllocError, Global};

/// A setup, what happens in the run, and what its payloads name.
#[derive(Debug, PartialEq, Eq, Drop)]
pub struct LedgerInput {
    /// What all members are made with.
    pub setup: Setup,
    /// What happens, in order.
    pub events: Sequence<Event>,
    /// What each account has at first: account 0 first.
    pub accounts: Sequence<u64>,
    /// The bytes of the blocks.
    pub blocks: Sequence<Bytes>,
}

/// All but the events.
#[derive(Drop)]
struct Parts {
    setup: Setup,
    accounts: Sequence<u64>,
    blocks: Sequence<Bytes>,
}

/// The setup at its name.
fn read_setup_at(alloc: Global, value: &Value) -> Result<Option<Setup>, AllocError>
    ensures { IfOk result (λ setup. setup ≡ setup_at (view value.now)) }
{
    match value.get("setup") {
        Some(part) => read_setup(alloc, part),
        None => Ok(None),
    }
}

/// The accounts at their name.
fn read_accounts(alloc: Global, value: &Value) -> Result<Option<Sequence<u64>>, AllocError>
    ensures { IfOk result (λ accounts. accounts ≡ accounts_at (view value.now)) }
{
    match value.get("accounts") {
        Some(part) => read_list(alloc, part),
        None => Ok(None),
    }
}

/// The blocks at their name.
fn read_blocks(alloc: Global, value: &Value) -> Result<Option<Sequence<Bytes>>, AllocError>
    ensures { IfOk result (λ blocks. blocks ≡ blocks_at (view value.now)) }
{
    match value.get("blocks") {
        Some(part) => read_list(alloc, part),
        None => Ok(None),
    }
}

/// The parts, if all are of the form.
fn read_parts(alloc: Global, value: &Value) -> Result<Option<Parts>, AllocError>
    ensures { IfOk result (λ parts. parts ≡ parts_of (view value.now)) }
{
    let Some(setup) = read_setup_at(alloc, value)? else {
        return Ok(None);
    };
    let Some(accounts) = read_accounts(alloc, value)? else {
        return Ok(None);
    };
    let Some(blocks) = read_blocks(alloc, value)? else {
        return Ok(None);
    };
    Ok(Some(Parts {
        setup,
        accounts,
        blocks,
    }))
}

/// The input, or the place of the first part that is not of the form.
fn read_ledger_form(alloc: Global, value: &Value) -> Result<Result<LedgerInput, u64>, AllocError>
    ensures { IfOk result (λ read. read ≡ ledger_form_of (view value.now)) }
{
    if !has_members(value, 4) {
        return Ok(Err(1));
    }
    let Some(parts) = read_parts(alloc, value)? else {
        return Ok(Err(1));
    };
    let Some(part) = value.get("events") else {
        return Ok(Err(1));
    };
    let Some(values) = part.as_array() else {
        return Ok(Err(1));
    };
    match read_items(alloc, values, 2)? {
        Ok(events) => Ok(Ok(LedgerInput {
            setup: parts.setup,
            events,
            accounts: parts.accounts,
            blocks: parts.blocks,
        })),
        Err(place) => Ok(Err(place)),
    }
}

/// What the bytes say, or the place of the first part that is not of the form: 0 where they are no JSON, or nest too deep, 1 for the
/// top object, its setup, its accounts and its blocks, and 1 + k for event k, where events are counted from 1.
pub fn read_ledger_input(
    alloc: Global,
    bytes: &[u8],
) -> Result<Result<LedgerInput, u64>, AllocError>
    ensures { IfOk result (λ read. read ≡ ledger_input_of bytes.now) }
{
    match read_value(alloc, bytes) {
        Ok(value) => read_ledger_form(alloc, &value),
        Err(InputFault::At(place)) => Ok(Err(place)),
        Err(InputFault::Memory) => Err(AllocError),
    }
}
