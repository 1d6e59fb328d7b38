//! The part `form`: texts that are no inputs, and why.
//!
//! `let NAME TEXT` lets a name stand for a text in the lines below it. `why TEXT` tells why a whole input is not of the form, and
//! `explain PLACE TEXT` why the part at this place would not be.
use simplex_diagnosis::explain;
use simplex_form::read_input;
use std::alloc::{AllocError, Global};
use test_support::{Script, Told};

/// A name, and the text that it stands for.
#[derive(Drop)]
struct Named {
    name: String,
    text: String,
}

/// The text with what its names stand for.
fn whole(alloc: Global, names: &[Named], text: &str) -> Result<String, AllocError> {
    let mut text = String::from_str(alloc, text)?;
    for named in names.iter().rev() {
        text = text.replace(alloc, named.name.as_str(), named.text.as_str())?;
    }
    Ok(text)
}

fn take_why(told: &mut Told, text: &str) -> Result<(), AllocError> {
    let alloc = told.alloc();
    match read_input(alloc, text.as_bytes())? {
        Ok(_) => told.says("it is of the form"),
        Err(place) => told.says(explain(alloc, text.as_bytes(), place)?.as_str()),
    }
}

fn take_explain(told: &mut Told, text: &str) -> Result<(), AllocError> {
    let alloc = told.alloc();
    let (place, text) = text.split_once(" ").unwrap_or((text, ""));
    match place.parse::<u64>() {
        Ok(place) => told.says(explain(alloc, text.as_bytes(), place)?.as_str()),
        Err(_) => told.says("not a command"),
    }
}

fn take_name(names: &mut Vec<Named>, told: &mut Told, text: &str) -> Result<(), AllocError> {
    let alloc = told.alloc();
    let Some((name, text)) = text.split_once(" ") else {
        return told.says("not a command");
    };
    names.push(Named {
        name: String::from_str(alloc, name)?,
        text: String::from_str(alloc, text)?,
    })?;
    Ok(())
}

fn take(names: &mut Vec<Named>, told: &mut Told, line: &str) -> Result<(), AllocError> {
    let (word, text) = line.split_once(" ").unwrap_or((line, ""));
    if word == "let" {
        return take_name(names, told, text);
    }
    let text = whole(told.alloc(), names.as_slice(), text)?;
    match word {
        "why" => take_why(told, text.as_str()),
        "explain" => take_explain(told, text.as_str()),
        _ => told.says("not a command"),
    }
}

/// Tells why the texts of a script are no inputs.
pub(crate) fn play_form(script: &Script, told: &mut Told) -> Result<(), AllocError> {
    let mut names = Vec::new(told.alloc());
    for line in script.lines.iter().skip(1) {
        told.line(line.as_str())?;
        take(&mut names, told, line.as_str())?;
    }
    Ok(())
}
