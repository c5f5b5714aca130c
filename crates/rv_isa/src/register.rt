//! The numbers of the integer registers.
ghost use Rattle.std.specs.Prelude.{◌≡◌, ◌<◌, ℕ, IsSome, IfSome, ◌↔◌};

use std::marker::Model;

/// An integer register, x0 to x31, which contracts see as its number.
#[derive(Clone, Copy, PartialEq, Eq, Debug)]
pub struct Reg(u8);

impl Model for Reg {
    ghost Value = { ℕ };

    ghost view = { λ r. r.0 };

    ghost invariant = { λ r. r.0 < 32 };

    ghost inverse = { λ n. record { 0 = n } };
}

impl Reg {
    /// The register of this number, where there is one.
    pub fn new(n: u8) -> Option<Reg>
        ensures exists { IsSome result ↔ (n < 32) }
        ensures number { IfSome result (λ r. r ≡ n) }
    {
        if n < 32 { Some(Reg(n)) } else { None }
    }

    /// The register that a field of five bits names.
    pub(crate) fn named_by(field: u32) -> Reg
        requires { field < 32 }
        ensures number { result ≡ field }
    {
        Reg(field as u8)
    }

    /// The register's number.
    pub fn number(self) -> u8
        ensures number { result ≡ self }
        ensures small { result < 32 }
    {
        self.0
    }
}
