//! The pieces of which all forms are made.
ghost use Rattle.std.specs.Prelude.{◌≡◌, ◌<◌, ◌^◌, Option, option_map, IfOk};
ghost use Rattle.serde_json.specs.View.{view, items_view};
ghost use Rattle.serde_json.specs.Data.{Data};
ghost use Rattle.simplex_form.specs.Form.{has_members, has_items, number_of, number_at, text_at, flag_at, list_from, list_of};

use serde_json::Value;
use simplex_types::Sequence;
use std::alloc::{AllocError, Global};

/// What a JSON value may say.
pub trait FromData: Sized + Drop {
    /// What it says, if it is of the form.
    ghost of: { Data → Option Self };

    /// Reads it.
    fn read(alloc: Global, value: &Value) -> Result<Option<Self>, AllocError>
        ensures { IfOk result (λ o. o ≡ of (view value.now)) };
}

impl FromData for u64 {
    ghost of = { number_of };

    fn read(_alloc: Global, value: &Value) -> Result<Option<u64>, AllocError> {
        Ok(value.as_u64())
    }
}

/// Whether it is an object of exactly so many members. [exact-members]
#[tactic(auto, using(crate::proofs::Objects::has_members_of))]
pub fn has_members(value: &Value, n: usize) -> bool
    ensures { result ≡ has_members n (view value.now) }
{
    match value.as_object() {
        Some(map) => map.len() == n,
        None => false,
    }
}

/// Whether it is a list of exactly so many items.
#[tactic(auto, using(crate::proofs::Objects::has_items_of))]
pub fn has_items(value: &Value, n: usize) -> bool
    ensures { result ≡ has_items n (view value.now) }
{
    match value.as_array() {
        Some(items) => items.len() == n,
        None => false,
    }
}

/// The number at a name: a whole one from 0, below 2^64.
pub fn number_at(value: &Value, name: &str) -> Option<u64>
    ensures { result ≡ number_at name.now (view value.now) }
{
    value.get(name)?.as_u64()
}

/// The text at a name.
pub fn text_at<'v>(value: &'v Value, name: &str) -> Option<&'v str>
    ensures { option_map (λ s. s.now) result ≡ text_at name.now (view value.now) }
{
    value.get(name)?.as_str()
}

/// The truth value at a name.
pub fn flag_at(value: &Value, name: &str) -> Option<bool>
    ensures { result ≡ flag_at name.now (view value.now) }
{
    value.get(name)?.as_bool()
}

/// What the items say, or the number of the first that is not of the form, where they are counted from `first`.
pub fn read_items<T: FromData>(
    alloc: Global,
    values: &[Value],
    first: u64,
) -> Result<Result<Sequence<T>, u64>, AllocError>
    requires { first < 2 ^ 62 }
    ensures { IfOk result (λ r. r ≡ list_from T.of first (items_view values.now)) }
{
    let mut items = Sequence::new(alloc);
    let mut rest = values;
    let mut number = first;
    while let [value, after @ ..] = rest {
        match T::read(alloc, value)? {
            Some(item) => items.push(item)?,
            None => return Ok(Err(number)),
        }
        number += 1;
        rest = after;
    }
    Ok(Ok(items))
}

/// A list of things of one form.
pub fn read_list<T: FromData>(
    alloc: Global,
    value: &Value,
) -> Result<Option<Sequence<T>>, AllocError>
    ensures { IfOk result (λ o. o ≡ list_of T.of (view value.now)) }
{
    let Some(values) = value.as_array() else {
        return Ok(None);
    };
    Ok(read_items::<T>(alloc, values, 0)?.ok())
}
