ghost use Rattle.std.specs.Prelude.{◌≡◌, ◌+◌, ◌≤◌, length};
ghost use Rattle.base_types.specs.Image.{Torn, Holds};
ghost use Rattle.disk_layout.specs.Numbers.{number_at};

use byteorder::{BigEndian, ByteOrder};

/// The number in the 2 bytes from `at` on, the highest first.
pub fn u16_at(bytes: &[u8], at: usize) -> u16
    requires { at + 2 ≤ length bytes.now }
    ensures { result ≡ number_at 2 at bytes.now }
{
    BigEndian::read_u16(&bytes[at..])
}

/// The number in the 4 bytes from `at` on, the highest first.
pub fn u32_at(bytes: &[u8], at: usize) -> u32
    requires { at + 4 ≤ length bytes.now }
    ensures { result ≡ number_at 4 at bytes.now }
{
    BigEndian::read_u32(&bytes[at..])
}

/// The number in the 8 bytes from `at` on, the highest first.
pub fn u64_at(bytes: &[u8], at: usize) -> u64
    requires { at + 8 ≤ length bytes.now }
    ensures { result ≡ number_at 8 at bytes.now }
{
    BigEndian::read_u64(&bytes[at..])
}

/// Writes a number into the 2 bytes from `at` on, the highest first.
pub fn put_u16(bytes: &mut [u8], at: usize, number: u16)
    requires { at + 2 ≤ length bytes.old }
    ensures number { number_at 2 at bytes.new ≡ number }
    ensures rest { Torn at 2 bytes.old bytes.new }
{
    let mut piece = [0; 2];
    BigEndian::write_u16(&mut piece, number);
    put_bytes(bytes, at, &piece);
}

/// Writes a number into the 4 bytes from `at` on, the highest first.
pub fn put_u32(bytes: &mut [u8], at: usize, number: u32)
    requires { at + 4 ≤ length bytes.old }
    ensures number { number_at 4 at bytes.new ≡ number }
    ensures rest { Torn at 4 bytes.old bytes.new }
{
    let mut piece = [0; 4];
    BigEndian::write_u32(&mut piece, number);
    put_bytes(bytes, at, &piece);
}

/// Writes a number into the 8 bytes from `at` on, the highest first.
pub fn put_u64(bytes: &mut [u8], at: usize, number: u64)
    requires { at + 8 ≤ length bytes.old }
    ensures number { number_at 8 at bytes.new ≡ number }
    ensures rest { Torn at 8 bytes.old bytes.new }
{
    let mut piece = [0; 8];
    BigEndian::write_u64(&mut piece, number);
    put_bytes(bytes, at, &piece);
}

/// Writes a piece from `at` on.
pub fn put_bytes(bytes: &mut [u8], at: usize, piece: &[u8])
    requires { at + length piece.now ≤ length bytes.old }
    ensures piece { Holds at piece.now bytes.new }
    ensures rest { Torn at (length piece.now) bytes.old bytes.new }
{
    bytes[at..at + piece.len()].copy_from_slice(piece);
}
