//! The eight digits of an address, read.
ghost use Rattle.std.specs.Prelude.{◌≡◌, ℕ, ◌<◌, ◌^◌, ◌↔◌, Some, IfSome, IsTrue, length};
ghost use Rattle.profile_report.specs.LineForms.{hex_address, hex_glyph};

use crate::line_text::hex_address;
use guest_words::Addr;

// The digit in base 16 that a glyph stands for, and 0 where it stands for none.
fn hex_digit(glyph: u8) -> u32
    ensures range { result < 16 }
    ensures read { (d : ℕ) → d < 16 → glyph ≡ hex_glyph d → result ≡ d }
{
    match glyph {
        b'0'..=b'9' => u32::from(glyph - b'0'),
        b'a'..=b'f' => u32::from(glyph - b'a') + 10,
        _ => 0,
    }
}

// The number of eight digits in base 16.
fn hex_number(glyphs: &[u8]) -> Addr
    requires { length glyphs.now ≡ 8 }
    ensures { (at : ℕ) → at < 2 ^ 32 → glyphs.now ≡ hex_address at → result ≡ at }
{
    hex_digit(glyphs[0]) * 0x1000_0000
        + hex_digit(glyphs[1]) * 0x100_0000
        + hex_digit(glyphs[2]) * 0x10_0000
        + hex_digit(glyphs[3]) * 0x1_0000
        + hex_digit(glyphs[4]) * 0x1000
        + hex_digit(glyphs[5]) * 0x100
        + hex_digit(glyphs[6]) * 0x10
        + hex_digit(glyphs[7])
}

// Whether the address is written so.
fn is_written_address(at: Addr, word: &[u8]) -> bool
    ensures { IsTrue result ↔ (word.now ≡ hex_address at) }
{
    hex_address(at).as_slice() == word
}

/// The address that is written so.
pub fn address(word: &[u8]) -> Option<Addr>
    ensures found { IfSome result (λ at. word.now ≡ hex_address at) }
    ensures only { (at : ℕ) → at < 2 ^ 32 → word.now ≡ hex_address at → result ≡ Some at }
{
    if word.len() != 8 {
        return None;
    }
    let at = hex_number(word);
    if is_written_address(at, word) {
        Some(at)
    } else {
        None
    }
}
