//! The page that shows a run.
use crate::ending::{Ending, Outcome};
use simplex_io::{InputEnd, Sink, SinkError, Source, read_bytes, write_text};
use simplex_page::{Seen, look_at, page};
use std::alloc::{AllocError, Global};
use std::fs;
use std::rt::Files;

/// Where the page's files are, if no folder is named.
const FOLDER: &str = "viewer";

// The folder that the words name.
fn folder_in(words: &[String]) -> &str {
    match words {
        [_, .., folder] => folder.as_str(),
        _ => FOLDER,
    }
}

// The text of a file of the page, if it can be read.
fn page_file<R: Files + AllocGlobal>(rt: &R, folder: &str, name: &str) -> Option<String> {
    let path = format!(in rt.alloc(); "{folder}/{name}").ok()?;
    fs::read_to_string(rt, path.as_str()).ok()
}

// Prints a text, and ends with the status.
fn tell<K: Sink>(text: &str, status: u8, sink: &mut K) -> Ending {
    match write_text(sink, text.as_bytes()) {
        Ok(()) => Ending::new(status, Outcome::Told),
        Err(SinkError::Memory) => Ending::MEMORY,
        Err(SinkError::Failed) => Ending::WRITE_FAULT,
    }
}

// Prints the page with the record inside.
fn show<R: Files + AllocGlobal, K: Sink>(
    rt: &R,
    folder: &str,
    record: &str,
    sink: &mut K,
) -> Result<Ending, AllocError> {
    let Some(html) = page_file(rt, folder, "index.html") else {
        return Ok(Ending::NO_PAGE);
    };
    let Some(script) = page_file(rt, folder, "viewer.js") else {
        return Ok(Ending::NO_PAGE);
    };
    match page(rt.alloc(), html.as_str(), script.as_str(), record)? {
        Some(text) => Ok(tell(text.as_str(), 0, sink)),
        None => Ok(Ending::NO_PAGE),
    }
}

// What the bytes of an input come to.
fn view_bytes<R: Files + AllocGlobal, K: Sink>(
    rt: &R,
    folder: &str,
    bytes: &[u8],
    sink: &mut K,
) -> Result<Ending, AllocError> {
    match look_at(rt.alloc(), bytes)? {
        Seen::Record(record) => show(rt, folder, record.as_str(), sink),
        Seen::Nothing(text) => Ok(tell(text.as_str(), Ending::REFUSED, sink)),
        Seen::BadInput { place } => Ok(Ending::new(Ending::BAD_INPUT, Outcome::BadInput { place })),
    }
}

/// Reads the source to its end, and prints the page that shows the run of the input.
pub(crate) fn view<R: Files + AllocGlobal, S: Source, K: Sink>(
    rt: &R,
    words: &[String],
    source: &mut S,
    sink: &mut K,
) -> Ending {
    match read_bytes(rt.alloc(), source) {
        Ok(bytes) => match view_bytes(rt, folder_in(words), &bytes, sink) {
            Ok(ending) => ending,
            Err(AllocError) => Ending::MEMORY,
        },
        Err(InputEnd::TooLong) => tell("input too long\n", Ending::TOO_LONG, sink),
        Err(InputEnd::ReadFault) => Ending::READ_FAULT,
        Err(InputEnd::Memory) => Ending::MEMORY,
    }
}
