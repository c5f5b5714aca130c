//! The fields of an instruction's word.
ghost use Rattle.std.specs.Prelude.{◌≡◌, ◌+◌, ◌-◌, ◌*◌, ◌^◌, ◌<◌, ◌≤◌};
ghost use Rattle.rv_isa.specs.Fields.{
  bits,
  rd,
  rs1,
  rs2,
  twos_complement,
  immediate_i,
  immediate_s,
  immediate_b,
  immediate_u,
  immediate_j,
};

use crate::register::Reg;

/// The bits of `word` from `high` down to `low`.
pub(crate) fn bits(word: u32, high: u32, low: u32) -> u32
    requires order { low ≤ high }
    requires within { high < low + 31 }
    requires in_word { high < 32 }
    ensures field { result ≡ bits word high low }
{
    (word >> low) & ((1 << (high - low + 1)) - 1)
}

// The number that bits stand for in two's complement, whose topmost bit weighs `sign`.
fn sign_extended(value: u32, sign: u32) -> i32
    requires narrow { sign < 2 ^ 30 }
    requires fits { value < 2 * sign }
    ensures value { result ≡ twos_complement sign value }
{
    if value < sign {
        value as i32
    } else {
        value as i32 - (2 * sign) as i32
    }
}

// The register that five bits from `low` on name.
fn register(word: u32, low: u32) -> Reg
    requires { low ≤ 27 }
    ensures number { result ≡ bits word (low + 4) low }
{
    Reg::named_by(bits(word, low + 4, low))
}

/// The field rd.
pub(crate) fn destination(word: u32) -> Reg
    ensures number { result ≡ rd word }
{
    register(word, 7)
}

/// The field rs1.
pub(crate) fn first_source(word: u32) -> Reg
    ensures number { result ≡ rs1 word }
{
    register(word, 15)
}

/// The field rs2.
pub(crate) fn second_source(word: u32) -> Reg
    ensures number { result ≡ rs2 word }
{
    register(word, 20)
}

/// The immediate of an I-type word: 12 bits, of which the topmost is the sign.
pub(crate) fn immediate_i(word: u32) -> i32
    ensures value { result ≡ immediate_i word }
{
    sign_extended(bits(word, 31, 20), 1 << 11)
}

/// The immediate of an S-type word: 12 bits in two parts.
pub(crate) fn immediate_s(word: u32) -> i32
    ensures value { result ≡ immediate_s word }
{
    sign_extended(bits(word, 31, 25) << 5 | bits(word, 11, 7), 1 << 11)
}

/// The offset of a B-type word: 13 bits in four parts, of which the lowest is 0.
pub(crate) fn immediate_b(word: u32) -> i32
    ensures value { result ≡ immediate_b word }
{
    let high = bits(word, 31, 31) << 1 | bits(word, 7, 7);
    let low = bits(word, 30, 25) << 4 | bits(word, 11, 8);
    sign_extended(high << 11 | low << 1, 1 << 12)
}

/// The immediate of a U-type word: the upper 20 bits, and zeros below them.
pub(crate) fn immediate_u(word: u32) -> u32
    ensures value { result ≡ immediate_u word }
{
    word >> 12
}

/// The offset of a J-type word: 21 bits in four parts, of which the lowest is 0.
pub(crate) fn immediate_j(word: u32) -> i32
    ensures value { result ≡ immediate_j word }
{
    let high = bits(word, 31, 31) << 8 | bits(word, 19, 12);
    let low = bits(word, 20, 20) << 10 | bits(word, 30, 21);
    sign_extended(high << 12 | low << 1, 1 << 20)
}
