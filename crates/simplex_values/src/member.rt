//! Members and their quorums.
ghost use Rattle.std.specs.Prelude.{Some};
ghost use Rattle.std.specs.Fmt.{decimal};
ghost use Rattle.std.specs.Prelude.{◌≡◌, ◌<◌};
ghost use Rattle.simplex_values.specs.Quorum.{quorum_of};

use std::fmt;
use std::marker::Model;

/// A member by its number, from 0. A member's public key is this number.
#[derive(Clone, Copy, Debug, PartialEq, Eq, PartialOrd, Ord, Hash)]
pub struct Participant(pub u32);

impl Model for Participant {
    ghost use Rattle.std.specs.Prelude.{ℕ, ◌<◌, ◌^◌};

    ghost Value = { ℕ };

    ghost view = { λ member. member.0 };

    ghost invariant = { λ member. member.0 < 2 ^ 32 };

    ghost inverse = { λ n. record { 0 = n } };
}

impl fmt::Display for Participant {
    ghost output = { λ number. Some (decimal number) };

    fn fmt<W: fmt::Write>(&self, f: &mut fmt::Formatter<W>) -> fmt::Result {
        let number = self.0;
        write!(f, "{number}")
    }
}

/// How many of `n` members a certificate needs: all but f, where f = (n - 1) / 3 may be faulty.
pub fn quorum(n: u32) -> u32
    requires { 0 < n }
    ensures { result ≡ quorum_of n }
{
    n - (n - 1) / 3
}
