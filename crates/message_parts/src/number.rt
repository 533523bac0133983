ghost use Rattle.std.specs.Prelude.{ℕ, Bool, ◌≡◌, ◌++◌, ◌<◌, ◌≤◌, ◌+◌, ◌-◌, ◌*◌, ◌^◌, OnOk, IfOk};
ghost use Rattle.message_parts.specs.Spelled.{big_endian};
ghost use Rattle.message_parts.specs.Reading.{Gives, byte_at, begins_number, number_at};

use crate::part::Stopped;
use base_types::{Items, NoMemory};
use byteorder::{BigEndian, ByteOrder};

// 256 to this power.
fn unit_of(lacking: u32) -> u64
    requires { lacking < 8 }
    ensures value { result ≡ 256 ^ lacking }
    ensures positive { 0 < result }
{
    match lacking {
        0 => 1,
        1 => 0x100,
        2 => 0x1_0000,
        3 => 0x100_0000,
        4 => 0x1_0000_0000,
        5 => 0x100_0000_0000,
        6 => 0x1_0000_0000_0000,
        _ => 0x100_0000_0000_0000,
    }
}

// Reads one more digit of a number, of which so many more lack.
fn digit_at(
    bytes: &[u8],
    lacking: u32,
    least: u64,
    most: u64,
    front: u64,
) -> Result<(u8, &[u8]), Stopped>
    requires lacking { lacking < 8 }
    requires front { 256 * front + 255 < 2 ^ 64 }
    ensures { let goes_on : ℕ → Bool = λ byte. begins_number lacking least most (256 * front + byte) in
        Gives (λ x. (x.0, x.1.now)) result (byte_at goes_on bytes.now) }
{
    let Some((byte, rest)) = bytes.split_first() else {
        return Err(Stopped::Bad(0));
    };
    let next = 256 * front + *byte as u64;
    let unit = unit_of(lacking);
    if least / unit <= next && next <= most / unit {
        Ok((*byte, rest))
    } else {
        Err(Stopped::Bad(bytes.len()))
    }
}

/// Reads a number from `least` to `most` of so many bytes, the highest first. Each digit is looked at alone, since the
/// place where the bytes stop to begin such a number is told.
#[tactic(auto, unfolding(crate::specs::Reading::number_at))]
pub fn number_at(bytes: &[u8], width: u32, least: u64, most: u64) -> Result<(u64, &[u8]), Stopped>
    requires width { width ≤ 8 }
    requires order { least ≤ most }
    requires room { most < 256 ^ width }
    ensures number { Gives (λ x. (x.0, x.1.now)) result (number_at width least most bytes.now) }
    ensures least { IfOk result (λ x. least ≤ x.0) }
    ensures most { IfOk result (λ x. x.0 ≤ most) }
{
    let mut front = 0;
    let mut rest = bytes;
    let mut lacking = width;
    while lacking > 0 {
        lacking -= 1;
        let (byte, behind) = digit_at(rest, lacking, least, most, front)?;
        front = 256 * front + byte as u64;
        rest = behind;
    }
    Ok((front, rest))
}

/// Reads a number of so many bytes, the highest first, of which each may be any.
pub fn whole_at(bytes: &[u8], width: usize) -> Result<(u64, &[u8]), Stopped>
    requires least { 1 ≤ width }
    requires most { width ≤ 8 }
    ensures number { Gives (λ x. (x.0, x.1.now)) result (number_at width 0 (256 ^ width - 1) bytes.now) }
    ensures below { IfOk result (λ x. x.0 < 256 ^ width) }
{
    if bytes.len() < width {
        return Err(Stopped::Bad(0));
    }
    let (digits, rest) = bytes.split_at(width);
    Ok((BigEndian::read_uint(digits, width), rest))
}

/// Writes the last so many digits of a number to the base 256 at the end, the highest first.
pub fn push_number(out: &mut Items<u8>, width: usize, n: u64) -> Result<(), NoMemory>
    requires { width ≤ 8 }
    ensures { OnOk result (out.new ≡ out.old ++ big_endian width n) }
{
    let mut digits = [0; 8];
    BigEndian::write_u64(&mut digits, n);
    out.extend(&digits[8 - width..])
}
