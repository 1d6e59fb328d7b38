//! The lines of a trace, as lists of JSON.
use std::alloc::{AllocError, Global};

// Pushes a text as a JSON string. A trace has no control characters.
fn push_string(out: &mut String, text: &str) -> Result<(), AllocError> {
    out.push_str("\"")?;
    for c in text.chars() {
        if c == '"' || c == '\\' {
            out.push_str("\\")?;
        }
        out.push(c)?;
    }
    out.push_str("\"")
}

// Pushes one more item of a list.
fn push_item(out: &mut String, text: &str) -> Result<(), AllocError> {
    if !out.ends_with('[') {
        out.push_str(",")?;
    }
    push_string(out, text)
}

/// The first lines of a trace, so many of them, as the member `lines`, and those on a refusal as the member `refused`.
pub(crate) fn lists(alloc: Global, trace: &str, shown: u64) -> Result<String, AllocError> {
    let mut lines = String::from_str(alloc, "\"lines\":[")?;
    let mut refused = String::from_str(alloc, "\"refused\":[")?;
    let mut number = 0u64;
    let mut is_refused = false;
    for line in trace.lines() {
        number = number.saturating_add(1);
        is_refused = is_refused || line.starts_with("refused ");
        if number <= shown {
            push_item(&mut lines, line)?;
        } else if is_refused {
            push_item(&mut refused, line)?;
        }
    }
    lines.push_str("],")?;
    lines.push_str(refused.as_str())?;
    lines.push_str("]")?;
    Ok(lines)
}
