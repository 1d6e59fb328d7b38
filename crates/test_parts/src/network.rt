//! A script of a whole network, which the laboratory runs.
use simplex_front::Exit;
use simplex_io::{MemorySink, MemorySource};
use simplex_lab::{lab_program, script_fault};
use std::alloc::{AllocError, Global};
use std::str::from_utf8;
use test_support::{Script, Told};

/// The script's own lines, as one text.
fn bare(alloc: Global, script: &Script) -> Result<String, AllocError> {
    let mut text = String::new(alloc);
    for line in &script.lines {
        text.push_str(line.as_str())?;
        text.push_str("\n")?;
    }
    Ok(text)
}

fn tell_lines(told: &mut Told, lines: &str) -> Result<(), AllocError> {
    for line in lines.lines() {
        told.line(line)?;
    }
    Ok(())
}

/// Tells that a script is refused, and why.
fn tell_refusal(told: &mut Told, script: &str, said: &str) -> Result<(), AllocError> {
    let alloc = told.alloc();
    tell_lines(told, script)?;
    for line in said.lines() {
        told.says(line)?;
    }
    match script_fault(alloc, script.as_bytes())? {
        Some(why) => told.says(why.as_str()),
        None => Ok(()),
    }
}

/// The script with what came out: of each event below its line; or at its end, why it is refused.
pub(crate) fn run(script: &Script, told: &mut Told) -> Result<(), AllocError> {
    let alloc = told.alloc();
    let text = bare(alloc, script)?;
    let words = vec![in alloc; String::from_str(alloc, "script")?]?;
    let bytes = Vec::from_slice(alloc, text.as_bytes())?;
    let mut source = MemorySource::new(bytes, Vec::new(alloc));
    let mut sink = MemorySink::new(alloc, Vec::new(alloc));
    let exit = lab_program(alloc, &words, &mut source, &mut sink);
    let said = from_utf8(sink.bytes()).unwrap_or("");
    match exit {
        Exit::Done(_) => tell_lines(told, said),
        Exit::Memory => Err(AllocError),
        _ => tell_refusal(told, text.as_str(), said),
    }
}
