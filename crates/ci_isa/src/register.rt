//! The registers.
ghost use Rattle.std.specs.Prelude.{◌≡◌, ◌+◌, ◌<◌, ◌↔◌, IsSome, IfSome};
ghost use Rattle.ci_isa.specs.Fields.{field};

use crate::fields::bits;
use std::marker::Model;

/// One of the registers x0 to x31. Contracts see its number.
#[derive(Clone, Copy, PartialEq, Eq)]
pub struct Reg {
    number: u8,
}

impl Model for Reg {
    ghost use Rattle.std.specs.Prelude.{ℕ, ◌<◌};

    ghost Value = { ℕ };

    ghost view = { λ register. register.number };

    ghost invariant = { λ register. register.number < 32 };

    ghost inverse = { λ n. record { number = n } };
}

impl Reg {
    /// The register of this number, if there is one: the number is below 32.
    pub fn new(n: u8) -> Option<Reg>
        ensures valid { IsSome result ↔ (n < 32) }
        ensures value { IfSome result (λ register. register ≡ n) }
    {
        if n < 32 {
            Some(Reg { number: n })
        } else {
            None
        }
    }

    /// The register x0, which is always 0.
    pub fn zero() -> Reg
        ensures { result ≡ 0 }
    {
        Reg { number: 0 }
    }

    /// The register's number, 0 to 31.
    pub fn number(&self) -> u8
        ensures value { result ≡ self.now }
        ensures below { result < 32 }
    {
        self.number
    }

    /// The register that the five bits of the word from `low` on name.
    pub(crate) fn at(word: u32, low: u32) -> Reg
        requires { low < 28 }
        ensures { result ≡ field word (low + 4) low }
    {
        Reg {
            number: bits(word, low + 4, low) as u8,
        }
    }
}
