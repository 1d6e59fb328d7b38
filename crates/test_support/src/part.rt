//! What a script is about, and its play from the first line to the last.
use crate::script::{Script, Told};
use std::alloc::{AllocError, Global};

/// A part of the engine that a script is about.
pub trait Part {
    /// Does what a line of these words wants, and tells what came of it.
    fn take(&mut self, words: &[&str], told: &mut Told) -> Result<(), AllocError>;
}

/// The words of a line.
pub fn words_in(alloc: Global, line: &str) -> Result<Vec<&str>, AllocError> {
    let mut words = Vec::new(alloc);
    for word in line.split_whitespace() {
        words.push(word)?;
    }
    Ok(words)
}

/// Gives the part the lines of a script behind its first, which told how the part is made. A line that begins with `#` is a comment.
pub fn play<P: Part>(part: &mut P, script: &Script, told: &mut Told) -> Result<(), AllocError> {
    for line in script.lines.iter().skip(1) {
        told.line(line.as_str())?;
        if line.starts_with("#") {
            continue;
        }
        let words = words_in(told.alloc(), line.as_str())?;
        part.take(words.as_slice(), told)?;
    }
    Ok(())
}

/// Plays a script for the part that its first line makes, if it makes one.
pub fn play_made<P: Part + Drop>(
    made: Option<P>,
    script: &Script,
    told: &mut Told,
) -> Result<(), AllocError> {
    match made {
        Some(mut part) => play(&mut part, script, told),
        None => told.says("not a command"),
    }
}
