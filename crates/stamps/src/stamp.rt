//! Stamps of a width.
ghost use Rattle.std.specs.Prelude.{◌≡◌, ◌≤◌, ℕ};
ghost use Rattle.std.specs.Ordering.{nat_cmp};

/// A number of a fixed width. Stamps stand in the order of their numbers.
pub trait Stamp: Copy + Ord {
    /// The greatest number.
    ghost MAX: { ℕ };

    /// The number that a stamp stands for.
    ghost number_of: { Self → ℕ };

    /// The stamp of a number.
    ghost of_number: { ℕ → Self };

    /// The greatest number.
    const MAX: u32;

    /// The stamp of a number.
    fn from_number(n: u32) -> Self
        requires { n ≤ Self.MAX }
        ensures { result ≡ of_number n };

    /// The number of the stamp.
    fn number(self) -> u32
        ensures value { result ≡ number_of self }
        ensures bound { result ≤ Self.MAX };

    /// The number comes back.
    ghost number_back: { (n : ℕ) → n ≤ MAX → number_of (of_number n) ≡ n };

    /// The stamp comes back.
    ghost stamp_back: { (s : Self) → of_number (number_of s) ≡ s };

    /// The order of stamps is that of their numbers.
    ghost ordered: { (s t : Self) → Self.cmp s t ≡ nat_cmp (number_of s) (number_of t) };
}

impl Stamp for u8 {
    ghost use Rattle.std.specs.Prelude.{◌≡◌, ◌≤◌, ℕ, refl};

    ghost MAX = { 255 };

    ghost number_of = { λ s. s };

    ghost of_number = { λ n. n };

    ghost number_back = { λ n h. refl };

    ghost stamp_back = { λ s. refl };

    ghost ordered = { λ s t. refl };

    const MAX: u32 = 255;

    fn from_number(n: u32) -> u8 {
        n as u8
    }

    fn number(self) -> u32 {
        u32::from(self)
    }
}

impl Stamp for u16 {
    ghost use Rattle.std.specs.Prelude.{◌≡◌, ◌≤◌, ℕ, refl};

    ghost MAX = { 65535 };

    ghost number_of = { λ s. s };

    ghost of_number = { λ n. n };

    ghost number_back = { λ n h. refl };

    ghost stamp_back = { λ s. refl };

    ghost ordered = { λ s t. refl };

    const MAX: u32 = 65535;

    fn from_number(n: u32) -> u16 {
        n as u16
    }

    fn number(self) -> u32 {
        u32::from(self)
    }
}

impl Stamp for u32 {
    ghost use Rattle.std.specs.Prelude.{◌≡◌, ◌≤◌, ℕ, refl};

    ghost MAX = { 4294967295 };

    ghost number_of = { λ s. s };

    ghost of_number = { λ n. n };

    ghost number_back = { λ n h. refl };

    ghost stamp_back = { λ s. refl };

    ghost ordered = { λ s t. refl };

    const MAX: u32 = 4_294_967_295;

    fn from_number(n: u32) -> u32 {
        n
    }

    fn number(self) -> u32 {
        self
    }
}
