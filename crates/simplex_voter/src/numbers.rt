//! Rising lists of numbers.
ghost use Rattle.std.specs.Prelude.{◌≡◌, OnOk, nat_le};
ghost use Rattle.std.specs.List.{position};
ghost use Rattle.model_rules.specs.Pending.{put_number};

use std::alloc::AllocError;

// The place of the first number that is not below this one.
fn first_from(numbers: &[u64], number: u64) -> Option<usize>
    ensures { result ≡ position (nat_le number) numbers.now }
{
    numbers.iter().position(|other| *other >= number)
}

/// Puts the number into the rising list, before the first that is not below it.
#[tactic(auto, using(crate::proofs::Rising::put_number_rules))]
pub(crate) fn insert_number(numbers: &mut Vec<u64>, number: u64) -> Result<(), AllocError>
    ensures { OnOk result (numbers.new.items ≡ put_number number numbers.old.items) }
{
    match first_from(numbers, number) {
        Some(place) => numbers.insert(place, number)?,
        None => numbers.push(number)?,
    }
    Ok(())
}
