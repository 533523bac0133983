// Pointers and entries in blocks.
ghost use Rattle.std.specs.Prelude.{
  ◌≡◌,
  ◌≤◌,
  ◌<◌,
  ◌+◌,
  ◌*◌,
  ◌/◌,
  ◌-◌,
  ◌==◌,
  ◌&&◌,
  ◌||◌,
  not,
  nat_le,
  nat_lt,
  ℕ,
  length,
};
ghost use Rattle.base_types.specs.Image.{byte_at};
ghost use Rattle.base_types.specs.Name.{is_before};
ghost use Rattle.disk_pages.specs.Words.{each_below};
ghost use Rattle.disk_pages.specs.Blocks.{
  map_pointer as pointer_there,
  is_map as is_map_there,
  is_entry,
  is_entry_block as holds_entries,
  entry_anode,
  entry_unique,
  entry_name,
};

use crate::words::{are_zero, is_name_at, name_at};
use base_types::OBJECTS_MAX;
use disk_layout::u32_at;

/// Bytes of a block.
pub const BLOCK: usize = 1_024;

// Pointers of an indirect block.
const POINTERS: usize = 52;

// Bytes of an entry of a directory.
const ENTRY: usize = 72;

/// Pointer `j` of the 52 of an indirect block.
pub fn map_pointer(block: &[u8; BLOCK], j: usize) -> u32
    requires { j < 52 }
    ensures { result ≡ pointer_there j block.now }
{
    u32_at(block, 4 * j)
}

fn is_map_pointer(
    block: &[u8; BLOCK],
    blocks: u32,
    is_directory: bool,
    bytes: u32,
    j: usize,
) -> bool
    requires { j < 52 }
    ensures { result ≡ (nat_le (pointer_there j block.now) blocks && (not is_directory
        || nat_le bytes (1024 * (12 + j)) || not (pointer_there j block.now == 0))) }
{
    let pointer = map_pointer(block, j);
    pointer <= blocks && (!is_directory || bytes <= 1_024 * (12 + j as u32) || pointer != 0)
}

fn are_map_pointers(block: &[u8; BLOCK], blocks: u32, is_directory: bool, bytes: u32) -> bool
    ensures { result ≡ each_below (λ (j : ℕ). nat_le (pointer_there j block.now) blocks && (not is_directory
        || nat_le bytes (1024 * (12 + j)) || not (pointer_there j block.now == 0))) 52 }
{
    for j in 0..POINTERS {
        if !is_map_pointer(block, blocks, is_directory, bytes, j) {
            return false;
        }
    }
    true
}

/// Whether a block is the indirect block of an anode with so many bytes, in an aggregate of so many blocks.
#[tactic(auto, unfolding(crate::specs::Blocks::is_map))]
pub fn is_map(block: &[u8; BLOCK], blocks: u32, is_directory: bool, bytes: u32) -> bool
    ensures { result ≡ is_map_there blocks is_directory bytes block.now }
{
    are_map_pointers(block, blocks, is_directory, bytes) && are_zero(block, 208, 816)
}

/// The anode and the unique number of entry `e` in a directory's bytes.
pub fn entry_numbers(bytes: &[u8], e: usize) -> (u32, u32)
    requires { 72 * e + 72 ≤ length bytes.now }
    ensures anode { result.0 ≡ entry_anode bytes.now e }
    ensures unique { result.1 ≡ entry_unique bytes.now e }
{
    let at = ENTRY * e;
    (u32_at(bytes, at + 64), u32_at(bytes, at + 68))
}

// Whether the name of entry e is behind that of the one before it.
fn is_behind(bytes: &[u8], e: usize) -> bool
    requires room { 72 * e + 72 ≤ length bytes.now }
    requires some { 1 ≤ e }
    ensures { result ≡ is_before (entry_name bytes.now (e - 1)) (entry_name bytes.now e) }
{
    name_at(bytes, ENTRY * (e - 1))
        .cmp(&name_at(bytes, ENTRY * e))
        .is_lt()
}

// Whether entry e is one.
#[tactic(auto, unfolding(crate::specs::Blocks::is_entry))]
fn is_entry(bytes: &[u8], e: usize) -> bool
    requires { 72 * e + 72 ≤ length bytes.now }
    ensures { result ≡ is_entry bytes.now e }
{
    let at = ENTRY * e;
    let anode = u32_at(bytes, at + 64);
    is_name_at(bytes, at)
        && are_zero(bytes, at + 61, 3)
        && 1 <= anode
        && anode <= OBJECTS_MAX
        && (e == 0 || is_behind(bytes, e))
}

/// Whether block `i` of a directory of so many entries holds what it should. The bytes are those of its blocks,
/// one after another.
#[tactic(auto, unfolding(crate::specs::Blocks::is_entry_block))]
pub fn is_entry_block(bytes: &[u8], count: usize, i: usize) -> bool
    requires room { 72 * count ≤ length bytes.now }
    requires there { 1024 * i + 1024 ≤ length bytes.now }
    ensures { result ≡ holds_entries count bytes.now i }
{
    are_entries(bytes, count, i) && is_zero_behind(bytes, count, i)
}

// Whether entry e is one, where it begins in a block.
fn is_entry_in(bytes: &[u8], i: usize, e: usize) -> bool
    requires { 72 * e + 72 ≤ length bytes.now }
    ensures { result ≡ (not (72 * e / 1024 == i) || is_entry bytes.now e) }
{
    ENTRY * e / BLOCK != i || is_entry(bytes, e)
}

// Whether each entry that begins in a block is one.
fn are_entries(bytes: &[u8], count: usize, i: usize) -> bool
    requires { 72 * count ≤ length bytes.now }
    ensures { result ≡ each_below (λ (e : ℕ). not (72 * e / 1024 == i) || is_entry bytes.now e) count }
{
    for e in 0..count {
        if !is_entry_in(bytes, i, e) {
            return false;
        }
    }
    true
}

// Whether byte k of a block is zero, where it is behind the entries.
fn is_content(bytes: &[u8], count: usize, i: usize, k: usize) -> bool
    requires room { 72 * count ≤ length bytes.now }
    requires there { 1024 * i + k < length bytes.now }
    ensures { result ≡ (nat_lt (1024 * i + k) (72 * count) || (byte_at bytes.now (1024 * i + k) == 0)) }
{
    BLOCK * i + k < ENTRY * count || bytes[BLOCK * i + k] == 0
}

// Whether the bytes of a block behind the entries are zero.
fn is_zero_behind(bytes: &[u8], count: usize, i: usize) -> bool
    requires room { 72 * count ≤ length bytes.now }
    requires there { 1024 * i + 1024 ≤ length bytes.now }
    ensures { result ≡ each_below (λ (k : ℕ). nat_lt (1024 * i + k) (72 * count)
        || (byte_at bytes.now (1024 * i + k) == 0)) 1024 }
{
    for k in 0..BLOCK {
        if !is_content(bytes, count, i, k) {
            return false;
        }
    }
    true
}
