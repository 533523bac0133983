ghost use Rattle.std.specs.Prelude.{◌≡◌, ◌≤◌, ◌++◌, ℕ, length, OnOk, IfOk};
ghost use Rattle.message_parts.specs.Reading.{Gives, items_at, byte_at};
ghost use Rattle.message_parts.specs.Words.{is_plain, any_byte, spell_bytes, bytes_at};

use crate::number::{number_at, push_number};
use crate::part::{Part, Stopped};
use base_types::{Items, Name, NameRefused, NoMemory};
use std::alloc::Global;

/// Reads a byte of a name.
fn plain_byte_at(bytes: &[u8]) -> Result<(u8, &[u8]), Stopped>
    ensures { Gives (λ x. (x.0, x.1.now)) result (byte_at is_plain bytes.now) }
{
    let Some((byte, rest)) = bytes.split_first() else {
        return Err(Stopped::Bad(0));
    };
    if *byte == b'/' || *byte == 0 {
        return Err(Stopped::Bad(bytes.len()));
    }
    Ok((*byte, rest))
}

/// Reads so many bytes of a name.
fn plain_at(alloc: Global, count: u64, bytes: &[u8]) -> Result<(Items<u8>, &[u8]), Stopped>
    ensures { Gives (λ x. (x.0, x.1.now)) result (items_at (byte_at is_plain) count bytes.now) }
{
    let mut text = Items::new(alloc);
    let mut rest = bytes;
    for _ in 0..count {
        let (byte, behind) = plain_byte_at(rest)?;
        text.push(byte)?;
        rest = behind;
    }
    Ok((text, rest))
}

impl Part for Name {
    const BYTES_MIN: usize = 2;

    ghost use Rattle.message_parts.specs.Words.{spell_name, name_at};

    ghost spelled = { spell_name };

    ghost reading = { name_at };

    #[tactic(auto, using(crate::proofs::Plain::name_written))]
    fn write(&self, out: &mut Items<u8>) -> Result<(), NoMemory> {
        push_number(out, 1, self.as_bytes().len() as u64)?;
        out.extend(self.as_bytes())
    }

    #[tactic(auto, using(crate::proofs::Plain::plain_name), unfolding(crate::specs::Words::name_at, crate::specs::Reading::counted_at))]
    fn read(alloc: Global, bytes: &[u8]) -> Result<(Name, &[u8]), Stopped> {
        let (count, rest) = number_at(bytes, 1, 1, 60)?;
        let (text, rest) = plain_at(alloc, count, rest)?;
        match Name::new(alloc, text.as_slice()) {
            Ok(name) => Ok((name, rest)),
            Err(NameRefused::Memory) => Err(Stopped::Memory),
            Err(NameRefused::BadName) => unreachable!(),
        }
    }
}

/// Reads so many bytes.
#[tactic(auto, using(crate::proofs::Plain::any_short, crate::proofs::Plain::any_whole))]
fn any_at(bytes: &[u8], count: u64) -> Result<(&[u8], &[u8]), Stopped>
    ensures length { IfOk result (λ x. length x.0.now ≡ count) }
    ensures bytes { Gives (λ x. (x.0.now, x.1.now)) result (items_at (byte_at any_byte) count bytes.now) }
{
    if (bytes.len() as u64) < count {
        return Err(Stopped::Bad(0));
    }
    Ok(bytes.split_at(count as usize))
}

/// Reads at most so many bytes, which stand behind their count of four bytes.
#[tactic(auto, unfolding(crate::specs::Words::bytes_at, crate::specs::Reading::counted_at))]
pub fn bytes_at(alloc: Global, bytes: &[u8], most: u32) -> Result<(Items<u8>, &[u8]), Stopped>
    ensures length { IfOk result (λ x. length x.0 ≤ most) }
    ensures bytes { Gives (λ x. (x.0, x.1.now)) result (bytes_at most bytes.now) }
{
    let (count, rest) = number_at(bytes, 4, 0, most as u64)?;
    let (text, rest) = any_at(rest, count)?;
    Ok((Items::from_slice(alloc, text)?, rest))
}

/// Writes bytes behind their count of four bytes.
#[tactic(auto, using(crate::proofs::Plain::bytes_written))]
pub fn write_bytes(bytes: &Items<u8>, out: &mut Items<u8>) -> Result<(), NoMemory>
    ensures { (most : ℕ) → OnOk result (out.new ≡ out.old ++ (spell_bytes most bytes.now).bytes) }
{
    push_number(out, 4, bytes.len() as u64)?;
    out.extend(bytes.as_slice())
}
