//! Words of a text: a line is cut into words at a separator, and a word is read, and written, as a decimal number.
ghost use Rattle.std.specs.Prelude.{◌≡◌, ◌≢◌, ◌↔◌, ℕ, ◌<◌, ◌^◌, ◌++◌, ◌∷◌, true, Some, IfSome, IfNone, IsSomeAnd, IsTrue, OnErr, OnOk, List, length, slice_index};
ghost use Rattle.std.specs.Fmt.{decimal};
ghost use Rattle.std.specs.Str.Parse.{IsNumeral, digits_value, without_leading_plus};
ghost use Rattle.guest_words.specs.Separators.{lacks};

use itoa::Buffer;
use std::alloc::AllocError;
use std::str;

/// What stands before the first such byte, and what stands after it.
pub fn cut(bytes: &[u8], byte: u8) -> Option<(&[u8], &[u8])>
    ensures parts { IfSome result (λ x. (lacks byte x.0.now ≡ true) × (bytes.now
        ≡ x.0.now ++ byte ∷ x.1.now)) }
    ensures none { IfNone result (lacks byte bytes.now ≡ true) }
{
    for place in 0..bytes.len() {
        if bytes[place] == byte {
            let (front, back) = bytes.split_at(place);
            return Some((front, &back[1..]));
        }
    }
    None
}

// Whether the word begins with no plus sign, and with no zero that more follows.
fn is_plain(word: &[u8]) -> bool
    ensures { IsTrue result ↔ ((slice_index word.now 0 ≢ 43) × (slice_index word.now 0 ≡ 48
        → length word.now ≡ 1)) }
{
    match word.first() {
        Some(b'+') => false,
        Some(b'0') => word.len() == 1,
        _ => true,
    }
}

// The number that digits say, with leading zeros or a plus sign too.
fn parsed(word: &[u8]) -> Option<u128>
    ensures found { IfSome result (λ n. IsNumeral 10 (without_leading_plus word.now) × (n
        ≡ digits_value 10 (without_leading_plus word.now))) }
    ensures only { (n : ℕ) → n < 2 ^ 128 → word.now ≡ decimal n → result ≡ Some n }
{
    match str::from_utf8(word) {
        Ok(text) => text.parse::<u128>().ok(),
        Err(_) => None,
    }
}

/// The number of at most 128 bits that the word is in decimal, with no leading zero and no sign.
pub fn wide_decimal_number(word: &[u8]) -> Option<u128>
    ensures found { IfSome result (λ n. word.now ≡ decimal n) }
    ensures only { (n : ℕ) → n < 2 ^ 128 → word.now ≡ decimal n → result ≡ Some n }
{
    match parsed(word) {
        Some(number) if is_plain(word) => Some(number),
        _ => None,
    }
}

/// The number of at most 64 bits that the word is in decimal, with no leading zero and no sign.
pub fn decimal_number(word: &[u8]) -> Option<u64>
    ensures found { IfSome result (λ n. word.now ≡ decimal n) }
    ensures only { (n : ℕ) → n < 2 ^ 64 → word.now ≡ decimal n → result ≡ Some n }
{
    u64::try_from(wide_decimal_number(word)?).ok()
}

/// The number before the first space, and what stands behind that.
pub fn first_number(words: &[u8]) -> Option<(u64, &[u8])>
    ensures found { IfSome result (λ x. words.now ≡ decimal x.0 ++ 32 ∷ x.1.now) }
    ensures only { (n : ℕ) (rest : List ℕ) → n < 2 ^ 64 → words.now ≡ decimal n ++ 32 ∷ rest
        → IsSomeAnd result (λ x. (x.0 ≡ n) × (x.1.now ≡ rest)) }
{
    let (word, rest) = cut(words, b' ')?;
    Some((decimal_number(word)?, rest))
}

/// Appends a number in decimal.
pub fn push_decimal(text: &mut Vec<u8>, number: u128) -> Result<(), AllocError>
    ensures ok { OnOk result (text.new.items ≡ text.old.items ++ decimal number) }
    ensures err { OnErr result (text.new.items ≡ text.old.items) }
{
    let mut buffer = Buffer::new();
    text.extend_from_slice(buffer.format(number).as_bytes())
}
