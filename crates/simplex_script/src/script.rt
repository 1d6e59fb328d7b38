//! A script: what a run is set up with, and what is to be done in it.
ghost use Rattle.std.specs.Prelude.{◌≡◌, ◌+◌, IfOk, map};
ghost use Rattle.simplex_script.specs.Scripts as said;

use crate::asking::statement_of;
use crate::change::Change;
use crate::command::{Command, Placed};
use crate::fault::{BadLine, Fault};
use crate::lines::lines_of;
use crate::settings::change;
use crate::statement::Statement;
use simplex_transcript::{MemberKind, Setup};
use simplex_types::Sequence;
use std::alloc::{AllocError, Global};

/// A setup, and commands in order.
#[derive(Debug, PartialEq, Eq, Drop)]
pub struct Script {
    /// What the run is set up with.
    pub setup: Setup,
    /// What is to be done.
    pub commands: Sequence<Placed>,
}

// The network is told once.
fn with_network(
    alloc: Global,
    draft: Option<Script>,
    members: Sequence<MemberKind>,
) -> Result<Option<Script>, Fault>
    ensures { result ≡ said.with_network draft members }
{
    match draft {
        Some(_) => Err(Fault::Late),
        None => Ok(Some(Script {
            setup: Setup::usual(alloc, members.into_vec()),
            commands: Sequence::new(alloc),
        })),
    }
}

// Something is otherwise than usual; no command stands before.
fn with_change(draft: Option<Script>, it: Change) -> Result<Option<Script>, Fault>
    ensures { result ≡ said.with_change draft it }
{
    match draft {
        None => Err(Fault::NoNetwork),
        Some(mut script) => {
            if !script.commands.is_empty() {
                return Err(Fault::Late);
            }
            change(&mut script.setup, it);
            Ok(Some(script))
        }
    }
}

// A command more.
fn with_command(
    draft: Option<Script>,
    line: u64,
    command: Command,
) -> Result<Result<Option<Script>, Fault>, AllocError>
    ensures { IfOk result (λ it. it ≡ said.with_command draft line command) }
{
    match draft {
        None => Ok(Err(Fault::NoNetwork)),
        Some(mut script) => {
            script.commands.push(Placed { line, command })?;
            Ok(Ok(Some(script)))
        }
    }
}

// A statement more.
fn with_statement(
    alloc: Global,
    draft: Option<Script>,
    line: u64,
    statement: Statement,
) -> Result<Result<Option<Script>, Fault>, AllocError>
    ensures { IfOk result (λ it. it ≡ said.with_statement draft line statement) }
{
    match statement {
        Statement::Nothing => Ok(Ok(draft)),
        Statement::Network(members) => Ok(with_network(alloc, draft, members)),
        Statement::Set(it) => Ok(with_change(draft, it)),
        Statement::Do(command) => with_command(draft, line, command),
    }
}

// What a line says, more.
fn with_said(
    alloc: Global,
    draft: Option<Script>,
    line: u64,
    statement: Result<Statement, Fault>,
) -> Result<Result<Option<Script>, Fault>, AllocError>
    ensures { IfOk result (λ it. it ≡ said.with_said draft line statement) }
{
    match statement {
        Err(fault) => Ok(Err(fault)),
        Ok(statement) => with_statement(alloc, draft, line, statement),
    }
}

// A line more.
fn with_line(
    alloc: Global,
    draft: Option<Script>,
    number: u64,
    line: &str,
) -> Result<Result<Option<Script>, Fault>, AllocError>
    ensures { IfOk result (λ it. it ≡ said.with_line draft number line.now) }
{
    let statement = statement_of(alloc, line)?;
    with_said(alloc, draft, number, statement)
}

fn finished(number: u64, draft: Option<Script>) -> Result<Script, BadLine>
    ensures { result ≡ said.finished number draft }
{
    match draft {
        Some(script) => Ok(script),
        None => Err(BadLine {
            line: number,
            fault: Fault::NoNetwork,
        }),
    }
}

// What lines tell.
fn read_lines(alloc: Global, lines: &[&str]) -> Result<Result<Script, BadLine>, AllocError>
    ensures { IfOk result (λ it. it ≡ said.read_lines (map (λ line. line.now) lines.now)) }
{
    let mut draft = None;
    let mut number = 0u64;
    let mut rest = lines;
    while let [line, after @ ..] = rest {
        // No memory has room for so many.
        number = number.checked_add(1).ok_or(AllocError)?;
        match with_line(alloc, draft, number, line)? {
            Err(fault) => {
                return Ok(Err(BadLine {
                    line: number,
                    fault,
                }));
            }
            Ok(later) => draft = later,
        }
        rest = after;
    }
    Ok(finished(number, draft))
}

/// What a text tells, or its first line that is refused, and why.
#[tactic(auto, unfolding(crate::specs::Scripts::script_of))]
pub fn read_script(alloc: Global, text: &str) -> Result<Result<Script, BadLine>, AllocError>
    ensures { IfOk result (λ script. script ≡ said.script_of text.now) }
{
    let lines = lines_of(alloc, text)?;
    read_lines(alloc, lines.as_slice())
}
