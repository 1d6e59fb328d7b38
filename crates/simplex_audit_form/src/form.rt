//! What has a JSON form, and lists of it.
ghost use Rattle.std.specs.Prelude.{◌≡◌, ◌<◌, ◌^◌, Option, IfOk};
ghost use Rattle.serde_json.specs.Data.{Data};
ghost use Rattle.serde_json.specs.View.{view, items_view};
ghost use Rattle.simplex_form.specs.Form.{list_from, list_of};
ghost use Rattle.simplex_audit_form.specs.Pieces.{list_data};

use serde_json::Value;
use simplex_types::Sequence;
use std::alloc::{AllocError, Global};

/// What is read from a JSON value, and written as one.
pub(crate) trait Form: Sized + Drop {
    /// What a value says, if it is of the form.
    ghost of: { Data → Option Self };

    /// The value that says it.
    ghost data_of: { Self → Data };

    /// Reads it.
    fn read(alloc: Global, value: &Value) -> Result<Option<Self>, AllocError>
        ensures { IfOk result (λ o. o ≡ of (view value.now)) };

    /// Writes it.
    fn write(&self, alloc: Global) -> Result<Value, AllocError>
        ensures { IfOk result (λ value. view value ≡ data_of self.now) };
}

/// What the items say, or the number of the first that is not of the form, where they are counted from `first`.
pub(crate) fn read_items<T: Form>(
    alloc: Global,
    values: &[Value],
    first: u64,
) -> Result<Result<Sequence<T>, u64>, AllocError>
    requires { first < 2 ^ 62 }
    ensures { IfOk result (λ r. r ≡ list_from T.of first (items_view values.now)) }
{
    let mut items = Sequence::new(alloc);
    let mut rest = values;
    let mut number = first;
    while let [value, after @ ..] = rest {
        match T::read(alloc, value)? {
            Some(item) => items.push(item)?,
            None => return Ok(Err(number)),
        }
        number += 1;
        rest = after;
    }
    Ok(Ok(items))
}

/// A list of things of one form.
pub(crate) fn read_list<T: Form>(
    alloc: Global,
    value: &Value,
) -> Result<Option<Sequence<T>>, AllocError>
    ensures { IfOk result (λ o. o ≡ list_of T.of (view value.now)) }
{
    let Some(values) = value.as_array() else {
        return Ok(None);
    };
    Ok(read_items::<T>(alloc, values, 0)?.ok())
}

/// A list of things of one form is written as the list of what each is written as.
pub(crate) fn write_list<T: Form>(alloc: Global, items: &[T]) -> Result<Value, AllocError>
    ensures { IfOk result (λ value. view value ≡ list_data T.data_of items.now) }
{
    let mut values = Vec::with_capacity(alloc, items.len())?;
    for item in items {
        values.push(item.write(alloc)?)?;
    }
    Ok(Value::Array(values))
}
