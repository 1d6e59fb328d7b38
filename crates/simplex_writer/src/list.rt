//! Lists of things that can be written.
ghost use Rattle.std.specs.Prelude.{◌≡◌, ◌++◌, ℕ, List, IfOk, OnOk, string_bytes};
ghost use Rattle.simplex_writer.specs.Pieces.{list_text, others_text};

use std::alloc::{AllocError, Global};

/// A thing that has a JSON text.
pub(crate) trait Written {
    /// The text.
    ghost text_of: { Self → List ℕ };

    /// Writes it.
    fn written(&self, alloc: Global) -> Result<String, AllocError>
        ensures { IfOk result (λ text. string_bytes text ≡ text_of self.now) };
}

/// Adds a list, with this mark between two items.
pub(crate) fn push_list<T: Written>(
    alloc: Global,
    text: &mut String,
    mark: &str,
    items: &[T],
) -> Result<(), AllocError>
    ensures { OnOk result (string_bytes text.new
        ≡ string_bytes text.old ++ list_text T.text_of mark.now items.now) }
{
    text.push_str("[")?;
    if let [first, others @ ..] = items {
        text.push_str(first.written(alloc)?.as_str())?;
        push_others(alloc, text, mark, others)?;
    }
    text.push_str("]")
}

// Adds the items behind the first, each behind the mark.
fn push_others<T: Written>(
    alloc: Global,
    text: &mut String,
    mark: &str,
    others: &[T],
) -> Result<(), AllocError>
    ensures { OnOk result (string_bytes text.new
        ≡ string_bytes text.old ++ others_text T.text_of mark.now others.now) }
{
    let mut rest = others;
    while let [item, after @ ..] = rest {
        text.push_str(mark)?;
        text.push_str(item.written(alloc)?.as_str())?;
        rest = after;
    }
    Ok(())
}

/// A list, with this mark between two items.
pub(crate) fn written_list<T: Written>(
    alloc: Global,
    mark: &str,
    items: &[T],
) -> Result<String, AllocError>
    ensures { IfOk result (λ text. string_bytes text ≡ list_text T.text_of mark.now items.now) }
{
    let mut text = String::new(alloc);
    push_list(alloc, &mut text, mark, items)?;
    Ok(text)
}
