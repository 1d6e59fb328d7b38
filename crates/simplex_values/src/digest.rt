//! Digests.
ghost use Rattle.std.specs.Prelude.{Some};
ghost use Rattle.simplex_values.specs.Texts.{hex_byte, hex_text};

use crate::keep::Keep;
use std::alloc::{AllocError, Global};
use std::fmt;
use std::marker::Model;

/// 32 bytes that name a payload, as SHA-256 gives them.
#[derive(Clone, Copy, Debug, PartialEq, Eq, PartialOrd, Ord, Hash)]
pub struct Digest(pub [u8; 32]);

impl Model for Digest {
    ghost use Rattle.std.specs.Prelude.{ℕ, List};

    ghost Value = { List ℕ };

    ghost view = { λ digest. digest.0 };

    ghost inverse = { λ bytes. record { 0 = bytes } };
}

impl fmt::Display for Digest {
    ghost output = { λ bytes. Some (hex_text bytes) };

    fn fmt<W: fmt::Write>(&self, f: &mut fmt::Formatter<W>) -> fmt::Result {
        for byte in &self.0 {
            let byte = HexByte(*byte);
            write!(f, "{byte}")?;
        }
        Ok(())
    }
}

// A byte, printed as two digits.
#[derive(Clone, Copy)]
struct HexByte(u8);

impl fmt::Display for HexByte {
    ghost output = { λ byte. Some (hex_byte byte.0) };

    #[tactic(auto, using(std::proofs::lemmas::Fmt::hex_byte), unfolding(crate::specs::Texts::hex_byte))]
    fn fmt<W: fmt::Write>(&self, f: &mut fmt::Formatter<W>) -> fmt::Result {
        let byte = self.0;
        write!(f, "{byte:02x}")
    }
}

impl Keep for Digest {
    fn keep(&self, _alloc: Global) -> Result<Digest, AllocError> {
        Ok(*self)
    }
}
