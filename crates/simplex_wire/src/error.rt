//! Why bytes are no message.
ghost use Rattle.std.specs.Prelude.{◌≡◌, Some};
ghost use Rattle.simplex_wire.specs.declared.error.DecodeError.TheVariants.{Memory};
ghost use Rattle.simplex_wire.specs.Texts.{cause_text};

use std::alloc::AllocFailed;
use std::fmt;
use thiserror::Error;

/// What is wrong with the bytes.
#[derive(Clone, Copy, Debug, PartialEq, Eq)]
pub enum DecodeCause {
    /// The field's bytes end too soon.
    Short,
    /// The tag is unknown.
    Tag,
    /// The number is not in its shortest form, or exceeds its type.
    LongNumber,
    /// The signer is not above the one before.
    Order,
    /// Bytes are left.
    Rest,
}

impl DecodeCause {
    // The fault in words.
    fn text(&self) -> &'static str
        ensures { result.now ≡ cause_text self.now }
    {
        match self {
            DecodeCause::Short => "the bytes end too soon",
            DecodeCause::Tag => "unknown tag",
            DecodeCause::LongNumber => "number too long or too large",
            DecodeCause::Order => "signers out of order",
            DecodeCause::Rest => "bytes are left",
        }
    }
}

impl fmt::Display for DecodeCause {
    ghost output = { λ cause. Some (cause_text cause) };

    fn fmt<W: fmt::Write>(&self, f: &mut fmt::Formatter<W>) -> fmt::Result {
        let text = self.text();
        write!(f, "{text}")
    }
}

/// Why bytes are not decoded.
#[derive(Clone, Copy, Debug, PartialEq, Eq, Error)]
pub enum DecodeError {
    /// The first fault in reading order, and the offset of the faulty field's first byte, for bytes that
    /// are left of the first of these.
    #[error("{cause} at byte {place}")]
    Fault { cause: DecodeCause, place: u64 },
    /// Want of memory.
    #[error("out of memory")]
    Memory,
}

impl<T: Drop> From<AllocFailed<T>> for DecodeError {
    ghost from_gives = { λ _ e. e ≡ Memory };

    fn from(_e: AllocFailed<T>) -> DecodeError {
        DecodeError::Memory
    }
}
