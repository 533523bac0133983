ghost use Rattle.std.specs.Prelude.{◌≡◌, ◌<◌, ◌≤◌, ◌+◌, ◌-◌, ◌++◌, ℕ, [], List, length, take, drop, replicate};
ghost use Rattle.std.specs.Prelude.{IfOk, OnErr, OnOk};
ghost use Rattle.tree_objects.specs.Files.{present_length, present_bytes, bytes_over, content_bytes, resized};
ghost use Rattle.tree_objects.specs.Stretches.{all_bytes, laid, replaced};

use crate::content::{Content, Object, UnsavedLength};
use crate::stretch::Stretch;
use crate::unsaved::UnsavedBytes;
use base_types::{Items, NoMemory};
use std::alloc::Global;
use std::mem;

impl Object {
    /// Reads at most `len` bytes of a file from the position `from` on, and nothing of a directory.
    pub fn read(&self, from: u32, len: u32) -> Result<Items<u8>, NoMemory>
        ensures { IfOk result (λ bytes. bytes ≡ take len (drop from (content_bytes self.now.content))) }
    {
        match &self.content {
            Content::Dir { entries, lists: _ } => Ok(Items::new(entries.alloc())),
            Content::File {
                list: _,
                kept,
                unsaved,
                length,
            } => {
                let end = present_length(kept, length);
                read_part(kept, unsaved, end, from, len)
            }
        }
    }
}

impl Object {
    /// The bytes of a file as its readers see them, and none of a directory. `NoMemory` comes where memory runs out.
    pub fn bytes(&self) -> Result<Items<u8>, NoMemory>
        ensures { IfOk result (λ bytes. bytes ≡ content_bytes self.now.content) }
    {
        match &self.content {
            Content::Dir { entries, lists: _ } => Ok(Items::new(entries.alloc())),
            Content::File {
                list: _,
                kept,
                unsaved,
                length,
            } => present_bytes(kept, unsaved, length),
        }
    }
}

/// The length in bytes of a file as its readers see it.
pub(crate) fn present_length(kept: &Items<u8>, length: &Option<UnsavedLength>) -> usize
    ensures { result ≡ present_length kept.now length.now }
{
    match length {
        Some(unsaved) => unsaved.length as usize,
        None => kept.len(),
    }
}

/// The bytes of a file as its readers see them.
pub(crate) fn present_bytes(
    kept: &Items<u8>,
    unsaved: &UnsavedBytes,
    length: &Option<UnsavedLength>,
) -> Result<Items<u8>, NoMemory>
    ensures { IfOk result (λ bytes. bytes ≡ present_bytes kept.now unsaved.now length.now) }
{
    unsaved.over(kept, 0, present_length(kept, length))
}

// The part of the first `end` bytes that starts at `from`, with at most `len` bytes.
#[tactic(auto, using(crate::proofs::Overlays::over_part))]
fn read_part(
    kept: &Items<u8>,
    unsaved: &UnsavedBytes,
    end: usize,
    from: u32,
    len: u32,
) -> Result<Items<u8>, NoMemory>
    ensures { IfOk result (λ bytes. bytes ≡ take len (drop from (bytes_over kept.now unsaved.now 0 end))) }
{
    unsaved.over(kept, from as usize, end.min(from as usize + len as usize))
}

/// So many bytes from the position `from` on: the unsaved ones where there are any, else the kept ones, else zeros.
pub(crate) fn bytes_over(
    kept: &Items<u8>,
    stretches: &[Stretch],
    from: usize,
    count: usize,
) -> Result<Items<u8>, NoMemory>
    ensures { IfOk result (λ bytes. bytes ≡ bytes_over kept.now (all_bytes stretches.now) from count) }
{
    let mut bytes = kept_bytes(kept, from, count)?;
    put_each(&mut bytes, stretches, from);
    Ok(bytes)
}

/// Puts unsaved bytes over those that start at the position `from`, where those are kept ones.
pub(crate) fn put_each(bytes: &mut Items<u8>, stretches: &[Stretch], from: usize)
    ensures { (kept : List ℕ) (count : ℕ) → bytes.old ≡ bytes_over kept [] from count
        → bytes.new ≡ bytes_over kept (all_bytes stretches.now) from count }
{
    let alloc = bytes.alloc();
    let mut list = mem::replace(bytes, Items::new(alloc)).into_vec();
    for index in (0..stretches.len()).rev() {
        put_stretch(list.as_mut_slice(), &stretches[index], from);
    }
    *bytes = Items::from_vec(list);
}

// Puts the bytes of a stretch over those that start at the position `from`, where those are there.
fn put_stretch(bytes: &mut [u8], stretch: &Stretch, from: usize)
    ensures { bytes.new ≡ laid bytes.old (stretch.now.from - from) (drop (from - stretch.now.from) stretch.now.bytes) }
{
    let written = stretch.bytes.as_slice();
    let start = stretch.from as usize;
    let skipped = from.saturating_sub(start).min(written.len());
    let at = start.saturating_sub(from).min(bytes.len());
    let count = (written.len() - skipped).min(bytes.len() - at);
    bytes[at..at + count].copy_from_slice(&written[skipped..skipped + count]);
}

/// Puts others in the place of bytes from a place on; they may go on behind the end. After `NoMemory` nothing has
/// changed.
pub(crate) fn replace(bytes: &mut Items<u8>, at: usize, part: &[u8]) -> Result<(), NoMemory>
    requires { at ≤ length bytes.old }
    ensures ok { OnOk result (bytes.new ≡ replaced bytes.old at part.now) }
    ensures err { OnErr result (bytes.new ≡ bytes.old) }
{
    let inside = part.len().min(bytes.len() - at);
    bytes.extend(&part[inside..])?;
    put_at(bytes, at, &part[..inside]);
    Ok(())
}

// Puts others in the place of bytes from a place on.
fn put_at(bytes: &mut Items<u8>, at: usize, part: &[u8])
    requires { at + length part.now ≤ length bytes.old }
    ensures { bytes.new ≡ replaced bytes.old at part.now }
{
    let alloc = bytes.alloc();
    let mut list = mem::replace(bytes, Items::new(alloc)).into_vec();
    put_part(list.as_mut_slice(), at, part);
    *bytes = Items::from_vec(list);
}

fn put_part(bytes: &mut [u8], at: usize, part: &[u8])
    requires { at + length part.now ≤ length bytes.old }
    ensures { bytes.new ≡ replaced bytes.old at part.now }
{
    bytes[at..at + part.len()].copy_from_slice(part);
}

// So many kept bytes from the position `from` on, with zeros where there are fewer.
#[tactic(auto, using(crate::proofs::Overlays::over_nothing))]
fn kept_bytes(kept: &Items<u8>, from: usize, count: usize) -> Result<Items<u8>, NoMemory>
    ensures { IfOk result (λ bytes. bytes ≡ bytes_over kept.now [] from count) }
{
    resized(kept.alloc(), behind(kept, from), count)
}

// The bytes from the position `from` on.
#[tactic(auto, using(crate::proofs::Overlays::drop_past))]
fn behind(bytes: &Items<u8>, from: usize) -> &[u8]
    ensures { result.now ≡ drop from bytes.now }
{
    let start = from.min(bytes.len());
    &bytes.as_slice()[start..]
}

/// The first `length` bytes, with zeros where there are fewer.
pub(crate) fn resized(alloc: Global, bytes: &[u8], length: usize) -> Result<Items<u8>, NoMemory>
    ensures { IfOk result (λ copy. copy ≡ resized bytes.now length) }
{
    let mut copy = Vec::with_capacity(alloc, length)?;
    let end = length.min(bytes.len());
    copy.extend_from_slice(&bytes[..end])?;
    copy.resize(length, 0)?;
    Ok(Items::from_vec(copy))
}

/// Adds zeros until there are so many bytes, where there are fewer. After `NoMemory` nothing has changed.
pub(crate) fn lengthen(bytes: &mut Items<u8>, end: usize) -> Result<(), NoMemory>
    ensures ok { OnOk result (bytes.new ≡ bytes.old ++ replicate (end - length bytes.old) 0) }
    ensures err { OnErr result (bytes.new ≡ bytes.old) }
{
    let alloc = bytes.alloc();
    let mut longer = mem::replace(bytes, Items::new(alloc)).into_vec();
    let length = longer.len().max(end);
    let done = longer.resize(length, 0);
    *bytes = Items::from_vec(longer);
    done?;
    Ok(())
}
