//! What the words of a line say.
ghost use Rattle.std.specs.Prelude.{◌≡◌, ◌∷◌, IfOk, map};
ghost use Rattle.std.specs.Option.{option_map};
ghost use Rattle.simplex_script.specs.declared.statement.Statement.TheVariants as says;
ghost use Rattle.simplex_script.specs.Statements as said;

use crate::change::Change;
use crate::command::{Command, Question};
use crate::fault::{Fault, Form};
use crate::kinds::kinds_of;
use crate::lines::{is_comment, is_told, pair_of, words_of};
use crate::orders::{
    crash_of, deliver_of, judge_of, lose_of, miss_of, propose_of, resend_of, settle_of, start_of,
    step_of, tick_of,
};
use crate::settings::change_of;
use crate::statement::Statement;
use simplex_transcript::MemberKind;
use simplex_types::Sequence;
use std::alloc::{AllocError, Global};

// What a first word begins.
fn form_of(word: &str) -> Option<Form>
    ensures { result ≡ said.form_of word.now }
{
    match word {
        "network" => Some(Form::Network),
        "set" => Some(Form::Set),
        "start" => Some(Form::Start),
        "propose" => Some(Form::Propose),
        "verify" => Some(Form::Verify),
        "certify" => Some(Form::Certify),
        "deliver" => Some(Form::Deliver),
        "resend" => Some(Form::Resend),
        "lose" => Some(Form::Lose),
        "miss" => Some(Form::Miss),
        "step" => Some(Form::Step),
        "tick" => Some(Form::Tick),
        "crash" => Some(Form::Crash),
        "settle" => Some(Form::Settle),
        _ => None,
    }
}

fn members(kinds: Option<Sequence<MemberKind>>) -> Option<Statement>
    ensures { result ≡ option_map (λ it. says.Network it) kinds }
{
    let kinds = kinds?;
    Some(Statement::Network(kinds))
}

// `NAME VALUE`.
fn set_of(words: &[&str]) -> Option<Change>
    ensures { result ≡ said.set_of (map (λ word. word.now) words.now) }
{
    let (name, value) = pair_of(words)?;
    change_of(name, value)
}

fn set(change: Option<Change>) -> Option<Statement>
    ensures { result ≡ said.set change }
{
    let change = change?;
    Some(Statement::Set(change))
}

fn done(command: Option<Command>) -> Option<Statement>
    ensures { result ≡ said.done command }
{
    let command = command?;
    Some(Statement::Do(command))
}

// What the words behind the first one say.
fn said_by(alloc: Global, form: Form, words: &[&str]) -> Result<Option<Statement>, AllocError>
    ensures { IfOk result (λ it. it ≡ said.said_by form (map (λ word. word.now) words.now)) }
{
    match form {
        Form::Network => Ok(members(kinds_of(alloc, words)?)),
        Form::Set => Ok(set(set_of(words))),
        Form::Start => Ok(done(start_of(alloc, words)?)),
        Form::Propose => Ok(done(propose_of(words))),
        Form::Verify => Ok(done(judge_of(Question::Verify, words))),
        Form::Certify => Ok(done(judge_of(Question::Certify, words))),
        Form::Deliver => Ok(done(deliver_of(words))),
        Form::Resend => Ok(done(resend_of(words))),
        Form::Lose => Ok(done(lose_of(words))),
        Form::Miss => Ok(done(miss_of(alloc, words)?)),
        Form::Step => Ok(done(step_of(words))),
        Form::Tick => Ok(done(tick_of(words))),
        Form::Crash => Ok(done(crash_of(alloc, words)?)),
        Form::Settle => Ok(done(settle_of(alloc, words)?)),
    }
}

fn unless_none(form: Form, statement: Option<Statement>) -> Result<Statement, Fault>
    ensures { result ≡ said.unless_none form statement }
{
    match statement {
        Some(statement) => Ok(statement),
        None => Err(Fault::Words(form)),
    }
}

// What a first word and the others say.
fn said_with(
    alloc: Global,
    word: &str,
    others: &[&str],
) -> Result<Result<Statement, Fault>, AllocError>
    ensures { IfOk result (λ it. it
        ≡ said.said_in (word.now ∷ map (λ other. other.now) others.now)) }
{
    if is_comment(word) {
        return Ok(Ok(Statement::Nothing));
    }
    match form_of(word) {
        None => Ok(Err(Fault::NoCommand)),
        Some(form) => Ok(unless_none(form, said_by(alloc, form, others)?)),
    }
}

// What words say.
fn said_in(alloc: Global, words: &[&str]) -> Result<Result<Statement, Fault>, AllocError>
    ensures { IfOk result (λ it. it ≡ said.said_in (map (λ word. word.now) words.now)) }
{
    match words {
        [] => Ok(Ok(Statement::Nothing)),
        [word, others @ ..] => said_with(alloc, word, others),
    }
}

/// What a line says, or why it says nothing that a script can.
#[tactic(auto, unfolding(crate::specs::Statements::statement_of))]
pub(crate) fn statement_of(
    alloc: Global,
    line: &str,
) -> Result<Result<Statement, Fault>, AllocError>
    ensures { IfOk result (λ it. it ≡ said.statement_of line.now) }
{
    if is_told(line) {
        return Ok(Ok(Statement::Nothing));
    }
    let words = words_of(alloc, line)?;
    said_in(alloc, words.as_slice())
}
