//! The blocks that filesets are promised.
ghost use Rattle.std.specs.Prelude.{◌≡◌, ◌-◌, ◌^◌, min};
ghost use Rattle.tree_filesets.specs.Promises.{anode_blocks, clone_promise, promise};

use crate::fileset::Fileset;
use tree_objects::Anode;

/// Blocks of `BLOCK_BYTES` that a writable fileset is promised for each object that it may have: as many as a clone is
/// promised for a file of `FILE_BYTES_MAX` bytes. The rule is this project's own.
pub const OBJECT_BLOCKS: u64 = 68;

impl Fileset {
    /// The blocks that the fileset is promised: `OBJECT_BLOCKS` for each object that it may have, and a clone as many
    /// as `clone_promise` tells; at most the last number of 64 bits.
    pub fn promise(&self) -> u64
        ensures { result ≡ min (promise self.now) (2 ^ 64 - 1) }
    {
        if self.read_only {
            self.clone_promise()
        } else {
            OBJECT_BLOCKS * u64::from(self.objects)
        }
    }

    /// The blocks that a clone of the fileset is promised, as the fileset is now: 4 for each object, 5 more for each
    /// directory, and one for each `BLOCK_BYTES` of a file's present length, rounded up; at most the last number of 64
    /// bits.
    pub fn clone_promise(&self) -> u64
        ensures { result ≡ min (clone_promise self.now) (2 ^ 64 - 1) }
    {
        let mut blocks = 0u64;
        for anode in self.anodes.as_slice() {
            blocks = blocks.saturating_add(anode_blocks(anode));
        }
        blocks
    }
}

// The blocks that a copy of what stands at an anode is promised.
fn anode_blocks(anode: &Anode) -> u64
    ensures { result ≡ anode_blocks anode.now }
{
    match &anode.object {
        Some(object) => object.promise(),
        None => 0,
    }
}
