//! Little-endian fields of files and of guest memory.
ghost use Rattle.std.specs.Prelude.{◌≡◌, ◌≤◌, ◌+◌, ◌++◌, length, take, drop};
ghost use Rattle.byteorder.specs.Endian.{little_bytes, little_number};

use byteorder::{ByteOrder, LittleEndian};

/// The 16-bit field at an offset.
#[inline(always)]
pub fn le16(bytes: &[u8], at: usize) -> u16
    requires { at + 2 ≤ length bytes.now }
    ensures { result ≡ little_number 2 (drop at bytes.now) }
{
    LittleEndian::read_u16(&bytes[at..])
}

/// The 32-bit field at an offset.
#[inline(always)]
pub fn le32(bytes: &[u8], at: usize) -> u32
    requires { at + 4 ≤ length bytes.now }
    ensures { result ≡ little_number 4 (drop at bytes.now) }
{
    LittleEndian::read_u32(&bytes[at..])
}

/// Writes the 32-bit field at an offset.
pub fn put_le32(bytes: &mut [u8], at: usize, value: u32)
    requires { at + 4 ≤ length bytes.old }
    ensures { bytes.new ≡ take at bytes.old ++ (little_bytes 4 value ++ drop (at + 4) bytes.old) }
{
    LittleEndian::write_u32(&mut bytes[at..at + 4], value);
}
