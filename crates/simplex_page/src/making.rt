//! The page with everything inside.
use std::alloc::{AllocError, Global};

// Where the page names its script.
const SCRIPT: &str = "<script src=\"viewer.js\"></script>";

// Pushes JSON, in which nothing ends the element that it stands in.
fn push_data(out: &mut String, record: &str) -> Result<(), AllocError> {
    let mut is_first = true;
    for piece in record.split('<') {
        if !is_first {
            out.push_str("\\u003c")?;
        }
        is_first = false;
        out.push_str(piece)?;
    }
    Ok(())
}

// Whether what stands behind `</` ends a script.
fn ends_script(after: &str) -> bool {
    match after.as_bytes().get(..6) {
        Some(front) => front.eq_ignore_ascii_case(b"script"),
        None => false,
    }
}

// Pushes a script, in which nothing ends the element that it stands in.
fn push_script(out: &mut String, script: &str) -> Result<(), AllocError> {
    let mut is_first = true;
    for piece in script.split("</") {
        if !is_first {
            out.push_str(if ends_script(piece) { "<\\/" } else { "</" })?;
        }
        is_first = false;
        out.push_str(piece)?;
    }
    Ok(())
}

/// The page with its script and a record inside, if it names the script.
pub fn page(
    alloc: Global,
    html: &str,
    script: &str,
    record: &str,
) -> Result<Option<String>, AllocError> {
    let Some((before, after)) = html.split_once(SCRIPT) else {
        return Ok(None);
    };
    let mut page = String::from_str(alloc, before)?;
    page.push_str("<script type=\"application/json\" id=\"record\">")?;
    push_data(&mut page, record)?;
    page.push_str("</script>\n<script>\n")?;
    push_script(&mut page, script)?;
    page.push_str("</script>")?;
    page.push_str(after)?;
    Ok(Some(page))
}
