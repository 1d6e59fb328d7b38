//! Scripts that stand behind each other in a text, and scripts with what came out.
use std::alloc::{AllocError, Global};

/// What begins a line that names a script.
const HEAD: &str = "== ";

/// What stands before what came out.
const BAR: &str = "  | ";

/// A script: the line that names it, and its own lines, without what came out of an earlier run and without empty lines.
#[derive(Drop)]
pub struct Script {
    /// The line that names it.
    pub head: String,
    /// Its lines, in order.
    pub lines: Vec<String>,
}

/// Whether the line is one of a script, and not of what came out of it.
fn is_own(line: &str) -> bool {
    !line.starts_with(BAR) && !line.trim_end().is_empty()
}

/// The scripts of a text, in order. What stands before the first line that names one is left out.
pub fn scripts(alloc: Global, text: &str) -> Result<Vec<Script>, AllocError> {
    let mut all: Vec<Script> = Vec::new(alloc);
    for line in text.lines() {
        if line.starts_with(HEAD) {
            all.push(Script {
                head: String::from_str(alloc, line)?,
                lines: Vec::new(alloc),
            })?;
        } else if let Some(last) = all.last_mut() {
            if is_own(line) {
                last.lines.push(String::from_str(alloc, line)?)?;
            }
        }
    }
    Ok(all)
}

/// A script with what came out: below each of its lines what it brought about, each line of it behind a bar.
#[derive(Drop)]
pub struct Told {
    alloc: Global,
    text: String,
}

impl Told {
    /// Nothing is told yet.
    pub fn new(alloc: Global) -> Told {
        Told {
            alloc,
            text: String::new(alloc),
        }
    }

    /// Where memory comes from.
    pub fn alloc(&self) -> Global {
        self.alloc
    }

    /// Tells a line of the script.
    pub fn line(&mut self, line: &str) -> Result<(), AllocError> {
        self.text.push_str(line)?;
        self.text.push_str("\n")
    }

    /// Tells what came out of the last line.
    pub fn says(&mut self, line: &str) -> Result<(), AllocError> {
        self.text.push_str(BAR)?;
        self.line(line)
    }

    /// All that was told.
    pub fn text(&self) -> &str {
        self.text.as_str()
    }
}
