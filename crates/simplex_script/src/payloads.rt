//! Payloads.
ghost use Rattle.std.specs.Prelude.{◌≡◌};
ghost use Rattle.simplex_script.specs.Payloads as said;

use simplex_types::Digest;

// What a digit of a byte stands for.
fn half_of(digit: u8) -> Option<u8>
    ensures { result ≡ said.half_of digit }
{
    match digit {
        b'0'..=b'9' => Some(digit - b'0'),
        b'a'..=b'f' => Some(digit - b'a' + 10),
        _ => None,
    }
}

// The byte of two digits.
fn byte_of(high: u8, low: u8) -> Option<u8>
    ensures { result ≡ said.byte_with (said.half_of high) (said.half_of low) }
{
    let high = half_of(high)?;
    let low = half_of(low)?;
    Some(16 * high + low)
}

/// The payload that a word names: 32 times the byte of two digits.
pub(crate) fn payload_of(word: &str) -> Option<Digest>
    ensures { result ≡ said.payload_of word.now }
{
    match word.as_bytes() {
        [high, low] => {
            let byte = byte_of(*high, *low)?;
            Some(Digest([byte; 32]))
        }
        _ => None,
    }
}
