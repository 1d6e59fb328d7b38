//! What is named by a word.
ghost use Rattle.std.specs.Prelude.{◌≡◌};
ghost use Rattle.simplex_script.specs.Names as said;

use crate::command::{Question, Whom};
use simplex_names::number_of;
use simplex_transcript::Node;

// The node of these two numbers, if they are some.
fn node_with(member: Option<u64>, half: Option<u64>) -> Option<Node>
    ensures { result ≡ said.node_with member half }
{
    let member = member?;
    let half = half?;
    Some(Node { member, half })
}

/// A node: a member, and behind a dot its half, which is 0 where none is named.
pub(crate) fn node_of(word: &str) -> Option<Node>
    ensures { result ≡ said.node_of word.now }
{
    match word.split_once('.') {
        Some((member, half)) => node_with(number_of(member), number_of(half)),
        None => node_with(number_of(word), Some(0)),
    }
}

// Two nodes, if there are both.
fn both(from: Option<Node>, to: Option<Node>) -> Option<(Node, Node)>
    ensures { result ≡ said.both from to }
{
    let from = from?;
    let to = to?;
    Some((from, to))
}

// The node behind an arrow's point, with nothing before it.
fn pointed(word: &str) -> Option<Node>
    ensures { result ≡ said.pointed word.now }
{
    match word.split_once('>') {
        Some((before, node)) => {
            if before.is_empty() {
                node_of(node)
            } else {
                None
            }
        }
        None => None,
    }
}

/// Two nodes, with an arrow from one to the other: `1->0`.
pub(crate) fn way_of(word: &str) -> Option<(Node, Node)>
    ensures { result ≡ said.way_of word.now }
{
    match word.split_once('-') {
        Some((from, point)) => both(node_of(from), pointed(point)),
        None => None,
    }
}

/// The word for what is asked.
pub(crate) fn question_word(question: Question) -> &'static str
    ensures { result.now ≡ said.question_word question }
{
    match question {
        Question::Verify => "verify",
        Question::Certify => "certify",
    }
}

/// Yes or no.
pub(crate) fn verdict_of(word: &str) -> Option<bool>
    ensures { result ≡ said.verdict_of word.now }
{
    match word {
        "yes" => Some(true),
        "no" => Some(false),
        _ => None,
    }
}

/// A node, or all.
pub(crate) fn whom_of(word: &str) -> Option<Whom>
    ensures { result ≡ said.whom_of word.now }
{
    if word == "all" {
        return Some(Whom::All);
    }
    let node = node_of(word)?;
    Some(Whom::One(node))
}
