ghost use Rattle.std.specs.Prelude.{◌≡◌, ◌+◌, ◌≤◌, ◌<◌, ◌↔◌, ℕ, IsTrue, IfSome, IfNone, length};
ghost use Rattle.base_types.specs.Image.{byte_at, bytes_from};
ghost use Rattle.disk_layout.specs.Superblock.{IsNamed, IsSuperblock, IsMarked};
ghost use Rattle.disk_layout.specs.declared.superblock.Superblock.{Superblock as TheSuperblock};

use crate::numbers::{put_bytes, put_u32, u32_at};
use crate::places::{OPEN, PAGE};
use base_types::{CAPACITY_MAX, SPARE_BLOCKS};

/// Blocks of a log, at most; it has at least one.
pub const BLOCKS_MAX: u32 = CAPACITY_MAX + SPARE_BLOCKS;

/// What the first page of an aggregate says: whose it is, and how many blocks it has.
#[derive(Clone, Copy)]
pub struct Superblock {
    pub server: u8,
    pub blocks: u32,
}

const NAME: &[u8; 8] = b"DFSAGG01";

const FORMAT: u32 = 1;

/// The page of a superblock, with its gate open.
pub fn superblock_bytes(superblock: Superblock) -> [u8; PAGE]
    requires some_blocks { 1 ≤ superblock.blocks }
    requires few_blocks { superblock.blocks ≤ 66560 }
    ensures { IsSuperblock superblock result }
{
    let mut page = [0; PAGE];
    put_bytes(&mut page, 0, &[OPEN]);
    put_bytes(&mut page, 1, NAME);
    put_u32(&mut page, 12, FORMAT);
    put_u32(&mut page, 16, superblock.blocks);
    put_bytes(&mut page, 20, &[superblock.server]);
    page
}

/// The superblock in a page, where it is one.
pub fn read_superblock(page: &[u8; PAGE]) -> Option<Superblock>
    ensures some { IfSome result (λ superblock. IsSuperblock superblock page.now) }
    ensures none { IfNone result ((superblock : TheSuperblock) → IsSuperblock superblock page.now → ⊥) }
{
    if !is_named(page) {
        return None;
    }
    let blocks = u32_at(page, 16);
    if blocks < 1 || BLOCKS_MAX < blocks {
        return None;
    }
    if !are_zero(page, 9, 12) {
        return None;
    }
    if !are_zero(page, 21, PAGE) {
        return None;
    }
    Some(Superblock {
        server: page[20],
        blocks,
    })
}

/// Whether the first page of a disk has the mark that a format writes before all else: the layout's name, behind a
/// gate that is closed.
pub fn is_marked(page: &[u8; PAGE]) -> bool
    ensures { IsTrue result ↔ IsMarked page.now }
{
    page[0] != OPEN && has_piece(page, 1, NAME)
}

fn is_named(page: &[u8; PAGE]) -> bool
    ensures { IsTrue result ↔ IsNamed page.now }
{
    if page[0] != OPEN {
        return false;
    }
    if !has_piece(page, 1, NAME) {
        return false;
    }
    u32_at(page, 12) == FORMAT
}

fn has_piece(page: &[u8; PAGE], at: usize, piece: &[u8]) -> bool
    requires { at + length piece.now ≤ 512 }
    ensures { IsTrue result ↔ (bytes_from page.now at (length piece.now) ≡ piece.now) }
{
    &page[at..at + piece.len()] == piece
}

fn are_zero(page: &[u8; PAGE], from: usize, up_to: usize) -> bool
    requires { up_to ≤ 512 }
    ensures { IsTrue result ↔ ((k : ℕ) → from ≤ k → k < up_to → byte_at page.now k ≡ 0) }
{
    for k in from..up_to {
        if page[k] != 0 {
            return false;
        }
    }
    true
}
