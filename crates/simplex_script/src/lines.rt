//! Lines, and their words.
ghost use Rattle.std.specs.Prelude.{◌≡◌, IfOk, map, option_map};
ghost use Rattle.std.specs.Str.Lines.{lines};
ghost use Rattle.simplex_script.specs.Lines as said;

use std::alloc::{AllocError, Global};

// The parts of a line between blanks, some of which may be empty.
fn parts_of<'a>(alloc: Global, line: &'a str) -> Result<Vec<&'a str>, AllocError>
    ensures { IfOk result (λ parts. map (λ part. part.now) parts.items ≡ said.parts_of line.now) }
{
    line.split(' ').collect(alloc)
}

// Those of the parts that are not empty.
fn words_in<'a>(alloc: Global, parts: &[&'a str]) -> Result<Vec<&'a str>, AllocError>
    ensures { IfOk result (λ words. map (λ word. word.now) words.items
        ≡ said.words_in (map (λ part. part.now) parts.now)) }
{
    let mut words = Vec::new(alloc);
    let mut rest = parts;
    while let [part, after @ ..] = rest {
        if !part.is_empty() {
            words.push(*part)?;
        }
        rest = after;
    }
    Ok(words)
}

/// The words of a line, with blanks between them.
pub(crate) fn words_of<'a>(alloc: Global, line: &'a str) -> Result<Vec<&'a str>, AllocError>
    ensures { IfOk result (λ words. map (λ word. word.now) words.items ≡ said.words_of line.now) }
{
    let parts = parts_of(alloc, line)?;
    words_in(alloc, parts.as_slice())
}

/// The word, if there is just one.
pub(crate) fn only<'a>(words: &[&'a str]) -> Option<&'a str>
    ensures { option_map (λ word. word.now) result ≡ said.only (map (λ word. word.now) words.now) }
{
    match words {
        [] => None,
        [word, after @ ..] => { if after.is_empty() { Some(word) } else { None } }
    }
}

/// Two words, if there are just two.
pub(crate) fn pair_of<'a>(words: &[&'a str]) -> Option<(&'a str, &'a str)>
    ensures { option_map (λ pair. (pair.0.now, pair.1.now)) result
        ≡ said.pair_of (map (λ word. word.now) words.now) }
{
    match words {
        [] => None,
        [first, after @ ..] => {
            let second = only(after)?;
            Some((first, second))
        }
    }
}

/// Whether a line tells what came out: it begins with two blanks and a bar.
pub fn is_told(line: &str) -> bool
    ensures { result ≡ said.is_told line.now }
{
    line.as_bytes().starts_with(b"  |")
}

/// Whether a word begins a comment.
pub(crate) fn is_comment(word: &str) -> bool
    ensures { result ≡ said.is_comment word.now }
{
    word.as_bytes().starts_with(b"#")
}

/// The lines of a text.
pub fn lines_of<'a>(alloc: Global, text: &'a str) -> Result<Vec<&'a str>, AllocError>
    ensures { IfOk result (λ them. map (λ line. line.now) them.items ≡ lines text.now) }
{
    text.lines().collect(alloc)
}
