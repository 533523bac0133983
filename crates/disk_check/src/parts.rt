// The blocks that an anode names, read one by one.
ghost use Rattle.std.specs.Prelude.{◌≡◌, ◌≤◌, ◌<◌, ◌+◌, ◌*◌, ◌/◌, ℕ, IfOk, IfErr, length};
ghost use Rattle.base_types.specs.Crash.{IsQuiet};
ghost use Rattle.disk_log.specs.Blame.{IsBlamed};
ghost use Rattle.disk_anode.specs.Node.{pointer_of, pointer_at as pointer_for, map_under};
ghost use Rattle.disk_layout.specs.Numbers.{number_at};
ghost use Rattle.disk_image.specs.Anodes.{entries_in as entries_there, entry_blocks as blocks_there};
ghost use Rattle.disk_image.specs.Anodes.{entry_bytes};
ghost use Rattle.disk_judge.specs.Metadata.{IsSized, over, anode_in};
ghost use Rattle.disk_check.specs.Parts.{AreParts};
ghost use Rattle.disk_check.specs.Refused.{IsRefused};

use crate::fault::CheckRefused;
use base_types::{Disk, Failed};
use disk_judge::Metadata;
use disk_layout::PAGE;
use disk_pages::{BLOCK, bytes_in, map_pointer, page_pointer};
use std::alloc::Global;

// Bytes of an entry of a directory.
const ENTRY: usize = 72;

const DIRECTORY: u8 = 1;

// The blocks of an anode's lists, zero where it has none, its indirect block, and the blocks of its entries.
#[derive(Drop)]
pub struct Parts {
    pub own: [u8; BLOCK],
    pub files: [u8; BLOCK],
    pub dirs: [u8; BLOCK],
    pub map: [u8; BLOCK],
    pub entries: Vec<u8>,
}

// How many entries a directory has by its length.
pub fn entries_in(page: &[u8; PAGE]) -> usize
    ensures value { result ≡ entries_there page.now }
    ensures few { result ≤ 910 }
{
    if page[0] == DIRECTORY {
        bytes_in(page) as usize / ENTRY
    } else {
        0
    }
}

// In how many blocks they are.
pub fn entry_blocks(page: &[u8; PAGE]) -> usize
    ensures value { result ≡ blocks_there page.now }
    ensures few { result ≤ 64 }
{
    (ENTRY * entries_in(page)).div_ceil(BLOCK)
}

// The pointer of block n of an anode's bytes.
pub fn entry_pointer(page: &[u8; PAGE], map: &[u8; BLOCK], n: usize) -> u32
    requires { n < 64 }
    ensures { (blocks : ℕ) → result
        ≡ pointer_of (record { blocks = blocks; page = page.now; map = map.now }) (pointer_for n) }
{
    if n < 12 {
        page_pointer(page, n + 3)
    } else {
        map_pointer(map, n - 12)
    }
}

// The bytes of the block that a pointer names, zero where it names none.
fn read_block<D: Disk>(
    disk: &mut D,
    metadata: &Metadata,
    pointer: u32,
) -> Result<[u8; BLOCK], Failed>
    requires { IsSized metadata.now }
    ensures bytes { D.tells → IfOk result (λ bytes. bytes
        ≡ map_under metadata.now.blocks (D.view disk.old).image pointer) }
    ensures quiet { IsQuiet (D.view disk.old) (D.view disk.new) }
    ensures blamed { IsBlamed result (D.view disk.old) (D.view disk.new) }
{
    let mut bytes = [0; BLOCK];
    if !metadata.names_block(pointer) {
        return Ok(bytes);
    }
    disk.read(metadata.block_place(pointer), &mut bytes)?;
    Ok(bytes)
}

// The bytes of an anode's entries.
fn read_entries<D: Disk>(
    alloc: Global,
    disk: &mut D,
    metadata: &Metadata,
    page: &[u8; PAGE],
    map: &[u8; BLOCK],
) -> Result<Vec<u8>, CheckRefused>
    requires { IsSized metadata.now }
    ensures size { IfOk result (λ bytes. length bytes.items ≡ 1024 * blocks_there page.now) }
    ensures bytes { D.tells → (slot : ℕ) (i : ℕ) → page.now ≡ anode_in metadata.now slot i
        → map.now ≡ map_under metadata.now.blocks (D.view disk.old).image (number_at 4 72 page.now)
        → IfOk result (λ bytes. bytes.items ≡ entry_bytes (over metadata.now (D.view disk.old).image) slot i) }
    ensures quiet { IsQuiet (D.view disk.old) (D.view disk.new) }
    ensures counted { (D.view disk.old).faults ≤ (D.view disk.new).faults }
    ensures only { IfErr result (λ e. IsRefused e (D.view disk.old) (D.view disk.new)) }
{
    let mut bytes = Vec::new(alloc);
    for n in 0..entry_blocks(page) {
        let block = read_block(disk, metadata, entry_pointer(page, map, n))?;
        bytes.extend_from_slice(&block)?;
    }
    Ok(bytes)
}

// All of them, of anode i of a slot.
pub fn read_parts<D: Disk>(
    alloc: Global,
    disk: &mut D,
    metadata: &Metadata,
    slot: usize,
    i: usize,
) -> Result<Parts, CheckRefused>
    requires sized { IsSized metadata.now }
    requires slot { slot < 16 }
    requires anode { i < 64 }
    ensures size { IfOk result (λ parts. length parts.entries.items
        ≡ 1024 * blocks_there (anode_in metadata.now slot i)) }
    ensures parts { D.tells → IfOk result (λ parts. AreParts (over metadata.now
        (D.view disk.old).image) slot i parts) }
    ensures quiet { IsQuiet (D.view disk.old) (D.view disk.new) }
    ensures counted { (D.view disk.old).faults ≤ (D.view disk.new).faults }
    ensures only { IfErr result (λ e. IsRefused e (D.view disk.old) (D.view disk.new)) }
{
    let page = metadata.anode(slot, i);
    let own = read_block(disk, metadata, page_pointer(page, 0))?;
    let files = read_block(disk, metadata, page_pointer(page, 1))?;
    let dirs = read_block(disk, metadata, page_pointer(page, 2))?;
    let map = read_block(disk, metadata, page_pointer(page, 15))?;
    let entries = read_entries(alloc, disk, metadata, page, &map)?;
    Ok(Parts {
        own,
        files,
        dirs,
        map,
        entries,
    })
}
