//! Numbers in digits.
ghost use Rattle.std.specs.Prelude.{◌≡◌};
ghost use Rattle.simplex_names.specs.Numbers as said;

// The digit behind these, where the number stays below 2^64.
fn with_digit(number: u64, byte: u8) -> Option<u64>
    ensures { result ≡ said.with_digit number byte }
{
    if !byte.is_ascii_digit() {
        return None;
    }
    number.checked_mul(10)?.checked_add(u64::from(byte - b'0'))
}

// The number that the digits behind these make.
fn number_behind(number: u64, digits: &[u8]) -> Option<u64>
    ensures { result ≡ said.number_behind number digits.now }
{
    let mut number = number;
    let mut rest = digits;
    while let [byte, after @ ..] = rest {
        number = with_digit(number, *byte)?;
        rest = after;
    }
    Some(number)
}

/// The number below 2^64 that a word is, in digits without a leading zero.
pub fn number_of(word: &str) -> Option<u64>
    ensures { result ≡ said.number_of word.now }
{
    match word.as_bytes() {
        [] => None,
        [b'0', _, ..] => None,
        digits => number_behind(0, digits),
    }
}
