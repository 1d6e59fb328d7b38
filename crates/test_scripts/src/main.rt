//! Runs the scripts of standard input, each behind a line `== NAME` and about values, one part of an engine, an engine, or a network, and
//! writes each with what came out.
//! As long as no rule changes, what is written is what was read: the gate gives the program crates/test_scripts/stdin, and compares what it
//! writes with crates/test_scripts/stdout, which has the same text. `tools/rewrite.sh` writes both anew, so that a rule that changes is a
//! difference to read.
//!
//! It owes nothing but that it is safe and ends.
#![tactic(auto)]

use simplex_io::{ReaderSource, read_bytes};
use std::alloc::{AllocError, Global};
use std::io;
use std::io::{ErrorKind, Print};
use test_support::{Script, Told, scripts};

/// A script that no library knows.
fn unknown(alloc: Global, script: &Script) -> Result<Told, AllocError> {
    let mut told = Told::new(alloc);
    if let Some(first) = script.lines.first() {
        told.line(first.as_str())?;
    }
    told.says("there is no such part")?;
    Ok(told)
}

/// The script with what came out.
fn told(alloc: Global, script: &Script) -> Result<Told, AllocError> {
    if let Some(told) = test_values::told(alloc, script)? {
        return Ok(told);
    }
    match test_parts::told(alloc, script)? {
        Some(told) => Ok(told),
        None => unknown(alloc, script),
    }
}

fn main(rt: HostRuntime) -> io::Result<()> {
    let alloc = rt.alloc();
    let mut source = ReaderSource::new(alloc, rt.reader());
    let Ok(bytes) = read_bytes(alloc, &mut source) else {
        return Err(io::Error::from(ErrorKind::Other));
    };
    let text = String::from_utf8(bytes).map_err(|_| io::Error::from(ErrorKind::InvalidData))?;
    for script in scripts(alloc, text.as_str())? {
        println!(rt; "{}", script.head.as_str())?;
        println!(rt; "{}", told(alloc, &script)?.text())?;
    }
    Ok(())
}
