//! What a line of a script says.
use crate::change::Change;
use crate::command::Command;
use simplex_transcript::MemberKind;
use simplex_types::Sequence;

/// What a line of a script says.
#[derive(Debug, PartialEq, Eq, Drop)]
pub enum Statement {
    /// Nothing: it is empty, a comment, or tells what came out.
    Nothing,
    /// Who the members are.
    Network(Sequence<MemberKind>),
    /// What is otherwise than usual.
    Set(Change),
    /// What is to be done.
    Do(Command),
}
