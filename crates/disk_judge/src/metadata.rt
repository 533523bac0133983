// The metadata of a disk, after redo and undo.
ghost use Rattle.std.specs.Prelude.{◌≡◌, ◌≤◌, ◌<◌, ◌+◌, ◌*◌, ◌-◌, ◌&&◌, nat_lt, nat_le, length};
ghost use Rattle.disk_judge.specs.Metadata.{IsSized, page_in, header_in, numbers_in, anode_in};
ghost use Rattle.disk_layout.specs.Places.{page_start, block_start, pages_of as pages_for};

use disk_layout::{PAGE, PAGES_START, pages_of};

// Pages of a slot: its header, its call numbers and its anodes.
const SLOT_PAGES: usize = 66;

/// The server of a disk, its number of blocks and its metadata pages.
#[derive(Drop)]
pub struct Metadata {
    /// Whose disk it is.
    pub server: u8,
    /// How many blocks it has.
    pub blocks: u32,
    /// The pages, in their order.
    pub pages: Vec<[u8; PAGE]>,
}

/// Where a metadata page stands, in bytes.
pub fn page_place(page: usize) -> u64
    requires { page < 131072 }
    ensures { result ≡ page_start page }
{
    PAGES_START + 512 * page as u64
}

impl Metadata {
    /// Metadata page `p`.
    pub fn page(&self, p: usize) -> &[u8; PAGE]
        requires { p < length self.now.pages.items }
        ensures { result.now ≡ page_in self.now p }
    {
        &self.pages[p]
    }

    /// The header of a slot.
    pub fn header(&self, slot: usize) -> &[u8; PAGE]
        requires sized { IsSized self.now }
        requires slot { slot < 16 }
        ensures { result.now ≡ header_in self.now slot }
    {
        self.page(2 + SLOT_PAGES * slot)
    }

    /// The call numbers of a slot.
    pub fn numbers(&self, slot: usize) -> &[u8; PAGE]
        requires sized { IsSized self.now }
        requires slot { slot < 16 }
        ensures { result.now ≡ numbers_in self.now slot }
    {
        self.page(2 + SLOT_PAGES * slot + 1)
    }

    /// The page of anode `i` of a slot, from 0.
    pub fn anode(&self, slot: usize, i: usize) -> &[u8; PAGE]
        requires sized { IsSized self.now }
        requires slot { slot < 16 }
        requires anode { i < 64 }
        ensures { result.now ≡ anode_in self.now slot i }
    {
        self.page(4 + SLOT_PAGES * slot + i)
    }

    /// Whether a pointer names a block.
    pub fn names_block(&self, pointer: u32) -> bool
        ensures { result ≡ (nat_lt 0 pointer && nat_le pointer self.now.blocks) }
    {
        0 < pointer && pointer <= self.blocks
    }

    /// Where the block that a pointer names stands, in bytes.
    pub fn block_place(&self, pointer: u32) -> u64
        requires sized { IsSized self.now }
        requires some { 1 ≤ pointer }
        requires there { pointer ≤ self.now.blocks }
        ensures place { result ≡ block_start (pages_for self.now.blocks) (pointer - 1) }
        ensures within { result + 1024 ≤ 75125248 }
    {
        let pages = u64::from(pages_of(self.blocks));
        PAGES_START + 512 * pages + 1_024 * (u64::from(pointer) - 1)
    }
}
