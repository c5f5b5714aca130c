//! Numbers among the words.
ghost use Rattle.std.specs.Prelude.{◌≡◌, ◌≤◌, IfSome, option_map};
ghost use Rattle.std.specs.List.{list_all};
ghost use Rattle.command_line.specs.Options.{bits_of, is_digit, is_numeral, number_between, number_or};

use stamps::StampBits;

// Whether each byte is a digit.
fn are_digits(bytes: &[u8]) -> bool
    ensures { result ≡ list_all is_digit bytes.now }
{
    bytes.iter().all(|byte| byte.is_ascii_digit())
}

// Whether the text is one to twenty digits.
#[tactic(auto, using(std::proofs::lemmas::Bool::Decides::nat_tests))]
fn is_numeral(text: &str) -> bool
    ensures { result ≡ is_numeral text.now }
{
    let bytes = text.as_bytes();
    !bytes.is_empty() && bytes.len() <= 20 && are_digits(bytes)
}

/// The number that the text says, if that is in the range.
#[tactic(auto, using(crate::proofs::Numerals::number_read, crate::proofs::Numerals::number_too_long))]
pub(crate) fn number_between(least: u64, greatest: u64, text: &str) -> Option<u64>
    ensures number { result ≡ number_between least greatest text.now }
    ensures range { IfSome result (λ number. (least ≤ number) × (number ≤ greatest)) }
{
    if !is_numeral(text) {
        return None;
    }
    let Ok(number) = text.parse::<u64>() else {
        return None;
    };
    if least <= number && number <= greatest {
        Some(number)
    } else {
        None
    }
}

/// The number of an option that may be left out.
pub(crate) fn number_or(usual: u64, least: u64, greatest: u64, text: Option<&str>) -> Option<u64>
    requires not_small { least ≤ usual }
    requires not_great { usual ≤ greatest }
    ensures number { result ≡ number_or usual least greatest (option_map (λ s. s.now) text.entry) }
    ensures range { IfSome result (λ number. (least ≤ number) × (number ≤ greatest)) }
{
    match text {
        None => Some(usual),
        Some(text) => number_between(least, greatest, text),
    }
}

/// The width of stamps that the text says, 32 bits where there is none.
pub(crate) fn bits_of(text: Option<&str>) -> Option<StampBits>
    ensures { result ≡ bits_of (option_map (λ s. s.now) text.entry) }
{
    match number_or(32, 8, 32, text)? {
        8 => Some(StampBits::B8),
        16 => Some(StampBits::B16),
        32 => Some(StampBits::B32),
        _ => None,
    }
}
