// An anode as it stands in its page, with its indirect block.
ghost use Rattle.std.specs.Prelude.{◌≡◌, ◌≢◌, ◌<◌, ◌≤◌, ◌⊎◌, ◌+◌, ◌-◌, ◌*◌, ◌↔◌, ℕ, IsTrue, length, max};
ghost use Rattle.base_types.specs.Image.{byte_at};
ghost use Rattle.disk_layout.specs.Numbers.{number_at};
ghost use Rattle.disk_anode.specs.Node.{pointer_of, pointer_at as pointer_for, PointsTo, HasLength, SameFacts};
ghost use Rattle.disk_anode.specs.Anode.{bytes_of, byte_length, length_for, names_past};

use disk_layout::{PAGE, put_u32, u32_at};

/// Bytes of a block.
pub const BLOCK: usize = 1_024;

// Bytes that an anode has at most.
pub const BYTES_MAX: u32 = 65_536;

// Bytes of an entry of a directory.
const ENTRY_BYTES: u32 = 72;

// The kind of a directory, and of a file.
pub const DIRECTORY: u8 = 1;

pub const FILE: u8 = 2;

// Pointers: those of the three lists, twelve direct ones, the one of the indirect block, and 52 in it.
pub const POINTERS: u32 = 68;

pub const INDIRECT: u32 = 15;

// The first pointer of the indirect block.
pub const MAPPED: u32 = 16;

const MAPPED_POINTERS: u32 = 52;

// Where parts of the page stand, in bytes.
pub const UNIQUE_AT: usize = 4;

pub const LENGTH_AT: usize = 8;

const POINTERS_AT: usize = 12;

pub const INDIRECT_AT: usize = 72;

pub const OWNER_AT: usize = 76;

pub const GROUP_AT: usize = 137;

// An aggregate's number of blocks, the page of an anode, and the bytes of its indirect block, zero where it has none.
#[derive(Drop)]
pub struct Node {
    pub blocks: u32,
    pub page: [u8; PAGE],
    pub map: [u8; BLOCK],
}

// The pointer of block i of an anode's bytes.
pub fn pointer_at(i: u32) -> u32
    requires { i < 64 }
    ensures { result ≡ pointer_for i }
{
    if i < 12 { i + 3 } else { i + 4 }
}

impl Node {
    // Pointer w.
    pub fn pointer(&self, w: u32) -> u32
        requires { w < 68 }
        ensures { result ≡ pointer_of self.now w }
    {
        if w < MAPPED {
            u32_at(&self.page, POINTERS_AT + 4 * w as usize)
        } else {
            u32_at(&self.map, 4 * (w - MAPPED) as usize)
        }
    }

    // Sets pointer w.
    pub fn set_pointer(&mut self, w: u32, pointer: u32)
        requires { w < 68 }
        ensures { PointsTo w pointer self.old self.new }
    {
        if w < MAPPED {
            put_u32(&mut self.page, POINTERS_AT + 4 * w as usize, pointer);
        } else {
            put_u32(&mut self.map, 4 * (w - MAPPED) as usize, pointer);
        }
    }

    // The same anode without the pointers that are past its length.
    pub fn up_to_length(&self) -> Node
        ensures facts { SameFacts self.now result }
        ensures past { (i : ℕ) → i < 64 → bytes_of self.now ≤ 1024 * i → pointer_of result (pointer_for i) ≡ 0 }
        ensures same { (w : ℕ) → w < 68 → ((i : ℕ) → i < 64 → bytes_of self.now ≤ 1024 * i → w ≢ pointer_for i)
            → pointer_of result w ≡ pointer_of self.now w }
        ensures fewer { (w : ℕ) → w < 68 → (pointer_of result w ≡ 0) ⊎ (pointer_of result w ≡ pointer_of self.now w) }
    {
        let mut node = Node {
            blocks: self.blocks,
            page: self.page,
            map: self.map,
        };
        let first = self.bytes().div_ceil(1_024);
        for i in first..64 {
            node.set_pointer(pointer_at(i), 0);
        }
        node
    }

    // Whether pointers of the indirect block are past the length.
    pub fn has_names_past(&self) -> bool
        ensures { IsTrue result ↔ (0 < names_past self.now) }
    {
        let bytes = self.bytes();
        for j in 0..MAPPED_POINTERS {
            if bytes <= 1_024 * (12 + j) && self.pointer(MAPPED + j) != 0 {
                return true;
            }
        }
        false
    }

    // So many bytes a length makes, in the anode's own unit.
    pub fn bytes_for(&self, length: u32) -> u32
        ensures { result ≡ byte_length (byte_at self.now.page 0) length }
    {
        if self.page[0] == DIRECTORY {
            length.saturating_mul(ENTRY_BYTES).min(BYTES_MAX)
        } else {
            length.min(BYTES_MAX)
        }
    }

    // The length in bytes.
    pub fn bytes(&self) -> u32
        ensures { result ≡ bytes_of self.now }
    {
        self.bytes_for(u32_at(&self.page, LENGTH_AT))
    }

    // The length that so many bytes need.
    pub fn length_for(&self, end: u32) -> u32
        requires { end ≤ 65536 }
        ensures { result ≡ length_for (byte_at self.now.page 0) end }
    {
        if self.page[0] == DIRECTORY {
            end.div_ceil(ENTRY_BYTES)
        } else {
            end
        }
    }

    // Raises the length to what so many bytes need.
    pub fn reach(&mut self, end: u32)
        requires { end ≤ 65536 }
        ensures { HasLength
            (max (number_at 4 8 self.old.page) (length_for (byte_at self.old.page 0) end)) self.old self.new }
    {
        let length = u32_at(&self.page, LENGTH_AT).max(self.length_for(end));
        put_u32(&mut self.page, LENGTH_AT, length);
    }

    // Sets the length, in its own unit.
    pub fn set_length(&mut self, length: u32)
        ensures { HasLength length self.old self.new }
    {
        put_u32(&mut self.page, LENGTH_AT, length);
    }
}
