//! Scripts about views: the terms that they are cut into.
use simplex_types::{TermLength, Terms, View};
use std::alloc::{AllocError, Global};
use test_support::{Part, Script, Told, number, play};

/// Terms of so many views.
#[derive(Drop)]
struct Desk {
    alloc: Global,
    terms: Terms,
}

fn terms_of(words: &[&str]) -> Option<Terms> {
    match words {
        ["terms", "of", length] => Some(Terms {
            length: TermLength::new(number(length)?)?,
            lookahead: 0,
            stall_timeout: None,
        }),
        _ => None,
    }
}

/// Plays a script whose first line is `views`, and these words.
pub(crate) fn run(words: &[&str], script: &Script, told: &mut Told) -> Result<(), AllocError> {
    let Some(terms) = terms_of(words) else {
        return told.says("there is no such term");
    };
    let mut desk = Desk {
        alloc: told.alloc(),
        terms,
    };
    play(&mut desk, script, told)
}

/// The term of a view, its neighbours, and whether it is at the end of all views.
fn term_text(alloc: Global, terms: &Terms, view: View) -> Result<String, AllocError> {
    let length = terms.length;
    let (start, end) = (view.term_start(length), view.term_end(length));
    let (behind, next) = (view.next_term_start(length), view.next());
    let is_at_end = terms.at_end(view);
    let text = format!(in alloc;
        "term {start} to {end}, then from {behind}; the next view {next}; at the end: {is_at_end}"
    )?;
    match view.previous() {
        Some(before) => format!(in alloc; "{}; before it {before}", text.as_str()),
        None => format!(in alloc; "{}; none before it", text.as_str()),
    }
}

impl Part for Desk {
    fn take(&mut self, words: &[&str], told: &mut Told) -> Result<(), AllocError> {
        let view = match words {
            ["view", view] => number(view),
            _ => None,
        };
        match view {
            Some(view) => told.says(term_text(self.alloc, &self.terms, View(view))?.as_str()),
            None => told.says("not a command"),
        }
    }
}
