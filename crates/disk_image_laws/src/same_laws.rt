//! What of a disk's bytes is judged and read: the superblock, the pages of its log after redo and undo, and the blocks.
//! So what a crash leaves of a log that stays as it is has the same image. And an aggregate of format 1 has it in
//! format 2. Each function does nothing, and what it ensures is a law.
ghost use Rattle.disk_image_laws.specs.SameLaws.{LogHasSameImage, BlocksHaveSameImage, FormatHasSameImage};

/// Bytes of a disk with the same log and the same blocks have the same faults, and the same image.
pub fn same_law()
    ensures log { LogHasSameImage }
    ensures blocks { BlocksHaveSameImage }
{}

/// An aggregate of format 1 has the same image in format 2, but for the format, and no faults, where it had none.
pub fn format_law()
    ensures { FormatHasSameImage }
{}
