// Pages of anodes.
ghost use Rattle.std.specs.Prelude.{◌≡◌, ◌≤◌, ◌<◌, ◌+◌, ◌*◌, ◌==◌, ◌||◌, nat_le, not, ℕ, Bool};
ghost use Rattle.disk_pages.specs.Words.{each_below};
ghost use Rattle.base_types.specs.Image.{byte_at};
ghost use Rattle.disk_pages.specs.Anode.{
  is_object,
  is_free_page as is_free,
  page_pointer as pointer_there,
  bytes_in as bytes_there,
  is_length,
  are_lists,
  has_no_hole,
  is_object_page as is_object_there,
};

use crate::words::{are_zero, is_name_at};
use base_types::{FILE_BYTES_MAX, OBJECTS_MAX};
use disk_layout::{PAGE, u32_at};

// The kind of a directory, and of a file.
const DIRECTORY: u8 = 1;

const FILE: u8 = 2;

// Bytes of an entry of a directory.
const ENTRY_BYTES: u32 = 72;

const POINTERS: usize = 16;

const DIRECT: usize = 12;

const LENGTH_AT: usize = 8;

const POINTERS_AT: usize = 12;

const OWNER_AT: usize = 76;

const GROUP_AT: usize = 137;

/// Whether it is a file or directory.
pub fn is_object(page: &[u8; PAGE]) -> bool
    ensures { result ≡ is_object page.now }
{
    page[0] == DIRECTORY || page[0] == FILE
}

/// Whether a page is that of a free anode: all but its unique number is zero.
#[tactic(auto, unfolding(crate::specs::Anode::is_free_page))]
pub fn is_free_page(page: &[u8; PAGE]) -> bool
    ensures { result ≡ is_free page.now }
{
    are_zero(page, 0, 4) && are_zero(page, 8, 504)
}

/// Pointer `w` of the 16 in the page: those of its lists, twelve direct ones, and that of its indirect block.
pub fn page_pointer(page: &[u8; PAGE], w: usize) -> u32
    requires { w < 16 }
    ensures { result ≡ pointer_there w page.now }
{
    u32_at(page, POINTERS_AT + 4 * w)
}

/// Bytes of its content, by its kind and length, at most 65,536.
pub fn bytes_in(page: &[u8; PAGE]) -> u32
    ensures value { result ≡ bytes_there page.now }
    ensures few { result ≤ 65536 }
{
    let length = u32_at(page, LENGTH_AT);
    if page[0] == DIRECTORY {
        length.saturating_mul(ENTRY_BYTES).min(FILE_BYTES_MAX)
    } else {
        length.min(FILE_BYTES_MAX)
    }
}

fn is_length(page: &[u8; PAGE]) -> bool
    ensures { result ≡ is_length page.now }
{
    let length = u32_at(page, LENGTH_AT);
    if page[0] == DIRECTORY {
        length <= OBJECTS_MAX
    } else {
        length <= FILE_BYTES_MAX
    }
}

fn is_in_range(page: &[u8; PAGE], blocks: u32, w: usize) -> bool
    requires { w < 16 }
    ensures { result ≡ nat_le (pointer_there w page.now) blocks }
{
    page_pointer(page, w) <= blocks
}

// Whether no pointer of the page is out of range.
fn are_in_range(page: &[u8; PAGE], blocks: u32) -> bool
    ensures { result ≡ each_below (λ (w : ℕ). nat_le (pointer_there w page.now) blocks) 16 }
{
    for w in 0..POINTERS {
        if !is_in_range(page, blocks, w) {
            return false;
        }
    }
    true
}

fn are_lists(page: &[u8; PAGE]) -> bool
    ensures { result ≡ are_lists page.now }
{
    if page_pointer(page, 0) == 0 {
        return false;
    }
    if page[0] == DIRECTORY {
        page_pointer(page, 1) != 0 && page_pointer(page, 2) != 0
    } else {
        page_pointer(page, 1) == 0 && page_pointer(page, 2) == 0
    }
}

fn is_no_hole(page: &[u8; PAGE], i: usize) -> bool
    requires { i < 12 }
    ensures { result ≡ (not (byte_at page.now 0 == 1) || nat_le (bytes_there page.now) (1024 * i)
        || not (pointer_there (3 + i) page.now == 0)) }
{
    page[0] != DIRECTORY || bytes_in(page) <= 1_024 * i as u32 || page_pointer(page, 3 + i) != 0
}

fn has_no_hole(page: &[u8; PAGE]) -> bool
    ensures { result ≡ has_no_hole page.now }
{
    for i in 0..DIRECT {
        if !is_no_hole(page, i) {
            return false;
        }
    }
    true
}

/// Whether a page is that of a file or directory, in an aggregate of so many blocks.
#[tactic(auto, unfolding(crate::specs::Anode::is_object_page))]
pub fn is_object_page(page: &[u8; PAGE], blocks: u32) -> bool
    ensures { result ≡ is_object_there blocks page.now }
{
    is_object(page)
        && are_zero(page, 1, 3)
        && is_length(page)
        && are_in_range(page, blocks)
        && are_lists(page)
        && has_no_hole(page)
        && is_name_at(page, OWNER_AT)
        && is_name_at(page, GROUP_AT)
        && are_zero(page, 198, 314)
}
