ghost use Rattle.std.specs.Prelude.{◌≡◌, ◌++◌, [], ℕ, List, OnOk, IfOk};
ghost use Rattle.message_parts.specs.Spelled.{Spelled, items};
ghost use Rattle.message_parts.specs.Words.{short, short_at, long, long_at};
ghost use Rattle.message_parts.specs.Reading.{Reading, Gives, items_at};

use crate::number::{push_number, whole_at};
use base_types::{Items, NoMemory};
use std::alloc::{AllocError, Global};

/// Why a part was not read.
#[derive(Clone, Copy)]
pub enum Stopped {
    /// The bytes begin no spelling of it. So many of them are left at the first byte after which none goes on.
    Bad(usize),
    /// Memory ran out.
    Memory,
}

impl From<NoMemory> for Stopped {
    ghost use Rattle.message_parts.specs.declared.part.Stopped.TheVariants.{Memory};

    ghost from_gives = { λ _ e. e ≡ Memory };

    fn from(_error: NoMemory) -> Stopped {
        Stopped::Memory
    }
}

/// A part of messages.
pub trait Part: Drop {
    /// Bytes that one takes in a message, at least.
    const BYTES_MIN: usize;

    /// How it is written.
    ghost spelled: { Self → Spelled };

    /// How it is read.
    ghost reading: { List ℕ → Reading Self };

    /// Writes it at the end.
    fn write(&self, out: &mut Items<u8>) -> Result<(), NoMemory>
        ensures { OnOk result (out.new ≡ out.old ++ (spelled self.now).bytes) };

    /// Reads it at the front. The bytes behind it are left.
    fn read(alloc: Global, bytes: &[u8]) -> Result<(Self, &[u8]), Stopped>
        ensures { Gives (λ x. (x.0, x.1.now)) result (reading bytes.now) };
}

/// A list with room for so many parts, and no more, where the bytes can hold them. Where they can't, it takes no
/// memory: the bytes will stop to begin the parts.
pub(crate) fn items_in<T: Part>(
    alloc: Global,
    count: u64,
    bytes: &[u8],
) -> Result<Items<T>, NoMemory>
    ensures { IfOk result (λ items. items ≡ []) }
{
    let least = (T::BYTES_MIN as u64).saturating_mul(count);
    if least > bytes.len() as u64 {
        return Ok(Items::new(alloc));
    }
    Ok(Items::from_vec(Vec::with_capacity(alloc, count as usize)?))
}

/// Reads so many parts. The memory of their list is taken once, where the bytes can hold so many.
pub fn items_at<T: Part>(
    alloc: Global,
    count: u64,
    bytes: &[u8],
) -> Result<(Items<T>, &[u8]), Stopped>
    ensures { Gives (λ x. (x.0, x.1.now)) result (items_at T.reading count bytes.now) }
{
    let mut items = items_in(alloc, count, bytes)?;
    let mut rest = bytes;
    for _ in 0..count {
        let (item, behind) = T::read(alloc, rest)?;
        items.push(item)?;
        rest = behind;
    }
    Ok((items, rest))
}

/// Writes parts, one behind another.
#[tactic(auto, unfolding(crate::specs::Spelled::items))]
pub fn write_items<T: Part>(parts: &[T], out: &mut Items<u8>) -> Result<(), NoMemory>
    ensures { OnOk result (out.new ≡ out.old ++ (items T.spelled parts.now).bytes) }
{
    for part in parts {
        part.write(out)?;
    }
    Ok(())
}

/// Reads a list with a count of two bytes.
#[tactic(auto, unfolding(crate::specs::Reading::counted_at))]
pub fn short_at<T: Part>(alloc: Global, bytes: &[u8]) -> Result<(Items<T>, &[u8]), Stopped>
    ensures { Gives (λ x. (x.0, x.1.now)) result (short_at T.reading bytes.now) }
{
    let (count, rest) = whole_at(bytes, 2)?;
    items_at(alloc, count, rest)
}

/// Writes a list with a count of two bytes.
#[tactic(auto, unfolding(crate::specs::Spelled::number))]
pub fn write_short<T: Part>(items: &Items<T>, out: &mut Items<u8>) -> Result<(), NoMemory>
    ensures { OnOk result (out.new ≡ out.old ++ (short T.spelled items.now).bytes) }
{
    push_number(out, 2, items.len() as u64)?;
    write_items(items.as_slice(), out)
}

/// Reads a list with a count of eight bytes.
#[tactic(auto, unfolding(crate::specs::Reading::counted_at))]
pub fn long_at<T: Part>(alloc: Global, bytes: &[u8]) -> Result<(Items<T>, &[u8]), Stopped>
    ensures { Gives (λ x. (x.0, x.1.now)) result (long_at T.reading bytes.now) }
{
    let (count, rest) = whole_at(bytes, 8)?;
    items_at(alloc, count, rest)
}

/// Writes a list with a count of eight bytes.
#[tactic(auto, unfolding(crate::specs::Spelled::number))]
pub fn write_long<T: Part>(items: &Items<T>, out: &mut Items<u8>) -> Result<(), NoMemory>
    ensures { OnOk result (out.new ≡ out.old ++ (long T.spelled items.now).bytes) }
{
    push_number(out, 8, items.len() as u64)?;
    write_items(items.as_slice(), out)
}
