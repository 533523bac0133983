//! Bytes that are put into room that is there.
ghost use Rattle.std.specs.Prelude.{◌≤◌, ◌∷◌, [], length};
ghost use Rattle.message_parts.specs.Spelled.{big_endian};
ghost use Rattle.message_parts.specs.Words.{spell_name, spell_u32};
ghost use Rattle.host_tells.specs.Spoken.{Puts};

use base_types::Name;

/// Puts bytes into room from a place on, and answers the place behind them; None where there isn't room. It takes no
/// memory, as all that is put here.
pub(crate) fn put(out: &mut [u8], at: usize, bytes: &[u8]) -> Option<usize>
    requires { at ≤ length out.old }
    ensures { Puts bytes.now at out.old out.new result }
{
    if bytes.len() > out.len() - at {
        return None;
    }
    let end = at + bytes.len();
    out[at..end].copy_from_slice(bytes);
    Some(end)
}

pub(crate) fn put_byte(out: &mut [u8], at: usize, byte: u8) -> Option<usize>
    requires { at ≤ length out.old }
    ensures { Puts (byte ∷ []) at out.old out.new result }
{
    put(out, at, &[byte])
}

/// A number in two bytes, the highest first.
pub(crate) fn put_short(out: &mut [u8], at: usize, number: u16) -> Option<usize>
    requires { at ≤ length out.old }
    ensures { Puts (big_endian 2 number) at out.old out.new result }
{
    put(out, at, &number.to_be_bytes())
}

/// A number in four bytes, the highest first.
pub(crate) fn put_number(out: &mut [u8], at: usize, number: u32) -> Option<usize>
    requires { at ≤ length out.old }
    ensures { Puts (spell_u32 number).bytes at out.old out.new result }
{
    put(out, at, &number.to_be_bytes())
}

/// A name behind its length.
pub(crate) fn put_name(out: &mut [u8], at: usize, name: &Name) -> Option<usize>
    requires { at ≤ length out.old }
    ensures { Puts (spell_name name.now).bytes at out.old out.new result }
{
    let bytes = name.as_bytes();
    let at = put_byte(out, at, (bytes.len() % 256) as u8)?;
    put(out, at, bytes)
}
